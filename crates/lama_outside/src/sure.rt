//! Bytes in memory, read and written by calls that never fail outside.

ghost use Rattle.std.specs.Prelude.{◌≡◌, ◌<◌, ◌≤◌, ◌^◌, ◌++◌, take, drop, length, min, IsOk, IfOk, IfErr, Some};
ghost use Rattle.lama_base.specs.Faults.{Rose};
ghost use Rattle.lama_base.specs.Bytes.{Gives, Takes};
ghost use Rattle.lama_outside.specs.Memory.{moved};

use crate::piece::{copy_piece, piece_len};
use lama_base::{Failed, Sink, SinkFault, Source};
use std::marker::Model;

/// A source over memory that never fails. A contract sees the bytes that are left and how many one
/// read gives at most; its count of faults is always 0.
#[derive(Drop)]
pub struct SureSource {
    bytes: Vec<u8>,
    at: usize,
    most: usize,
}

impl Model for SureSource {
    ghost use Rattle.std.specs.Prelude.{◌≤◌, drop, length};
    ghost use Rattle.lama_outside.specs.Memory.{SureMemory};

    ghost Value = { SureMemory };

    ghost view = { λ s. record { bytes = drop s.at s.bytes.items; most = s.most } };

    ghost invariant = { λ s. s.at ≤ length s.bytes.items };
}

impl SureSource {
    /// A source that gives these bytes, at most `most` of them in one read; 0 counts as 1.
    pub fn new(bytes: Vec<u8>, most: usize) -> Self
        ensures { result ≡ record { bytes = bytes.items; most = most } }
    {
        SureSource { bytes, at: 0, most }
    }

    /// The bytes that are left, first the next one.
    pub fn bytes(&self) -> &[u8]
        ensures { result.now ≡ self.now.bytes }
    {
        &self.bytes[self.at..]
    }
}

impl Source for SureSource {
    ghost left = { λ s. Some s.bytes };

    ghost faults = { λ _. 0 };

    /// Costs the bytes that it moves.
    fn read(&mut self, buf: &mut [u8]) -> Result<usize, Failed>
        ensures count { IfOk result (λ n. n ≤ length buf.new) }
        ensures given { IfOk result (λ n. Gives (Some self.old.bytes) (Some self.new.bytes) n buf.new) }
        ensures sure { IsOk result }
        ensures moves { IfOk result (λ n. n ≡ moved self.old.most (min (length buf.old) (length self.old.bytes))) }
        ensures after { IfOk result (λ n. self.new ≡ record self.old { bytes = drop n self.old.bytes }) }
        ensures filled { IfOk result (λ n. buf.new ≡ take n self.old.bytes ++ drop n buf.old) }
    {
        let count = copy_piece(self.bytes(), self.most, buf);
        self.at += count;
        Ok(count)
    }
}

/// A sink over memory that never fails but for want of memory. A contract sees the bytes that were
/// written and how many one write takes at most; its count of faults is always 0.
#[derive(Drop)]
pub struct SureSink {
    bytes: Vec<u8>,
    most: usize,
}

impl Model for SureSink {
    ghost use Rattle.lama_outside.specs.Memory.{SureMemory};

    ghost Value = { SureMemory };

    ghost view = { λ s. record { bytes = s.bytes.items; most = s.most } };
}

impl SureSink {
    /// A sink that holds these bytes and takes at most `most` of them in one write; 0 counts as 1.
    pub fn new(bytes: Vec<u8>, most: usize) -> Self
        ensures { result ≡ record { bytes = bytes.items; most = most } }
    {
        SureSink { bytes, most }
    }

    /// The bytes that were written, first the oldest one.
    pub fn bytes(&self) -> &[u8]
        ensures { result.now ≡ self.now.bytes }
    {
        &self.bytes
    }
}

impl Sink for SureSink {
    ghost written = { λ s. Some s.bytes };

    ghost faults = { λ _. 0 };

    /// Costs the bytes that it takes. `NoMemory` says that the vector could not grow.
    fn write(&mut self, bytes: &[u8]) -> Result<usize, SinkFault>
        ensures count { IfOk result (λ n. n ≤ length bytes.now) }
        ensures progress { IfOk result (λ n. 0 < length bytes.now → 0 < n) }
        ensures refused { IfErr result (λ fault. (fault ≡ SinkFault.NoMemory) × (self.new ≡ self.old)) }
        ensures moves { IfOk result (λ n. n ≡ moved self.old.most (length bytes.now)) }
        ensures after { IfOk result (λ n. self.new ≡ record self.old { bytes = self.old.bytes ++ take n bytes.now }) }
    {
        let count = piece_len(self.most, bytes.len());
        match self.bytes.extend_from_slice(&bytes[..count]) {
            Ok(()) => Ok(count),
            Err(_) => Err(SinkFault::NoMemory),
        }
    }
}

//! Bytes in memory, read and written by calls of which chosen ones fail, as tests need them.

ghost use Rattle.std.specs.Prelude.{◌≡◌, ◌<◌, ◌≤◌, ◌^◌, ◌++◌, ◌↔◌, [], take, drop, length, min, IsTrue, IfOk, OnErr, is_err, Some};
ghost use Rattle.lama_base.specs.Faults.{Rose};
ghost use Rattle.lama_base.specs.Bytes.{Gives, Takes};
ghost use Rattle.lama_outside.specs.Memory.{moved, fails, counted};

use crate::sure::{SureSink, SureSource};
use crate::turns::Turns;
use lama_base::{Failed, Sink, SinkFault, Source};
use std::marker::Model;

/// A source over memory whose chosen reads fail. A contract sees the bytes that are left, how many
/// one read gives at most, the numbers of the failing calls, and the two counters.
#[derive(Drop)]
pub struct MemSource {
    source: SureSource,
    turns: Turns,
}

impl Model for MemSource {
    ghost use Rattle.lama_outside.specs.Memory.{Memory};

    ghost Value = { Memory };

    ghost view = { λ m. record {
      bytes = m.source.bytes;
      most = m.source.most;
      failing = m.turns.failing.items;
      calls = m.turns.calls;
      faults = m.turns.faults;
    } };
}

impl MemSource {
    /// A source that gives these bytes, at most `most` of them in one read, where 0 counts as 1. The
    /// reads whose numbers are in `failing` fail; they are numbered from 0.
    pub fn new(bytes: Vec<u8>, most: usize, failing: Vec<u32>) -> Self
        ensures { result ≡ record { bytes = bytes.items; most = most; failing = failing.items; calls = 0; faults = 0 } }
    {
        MemSource {
            source: SureSource::new(bytes, most),
            turns: Turns::new(failing),
        }
    }

    /// The bytes that are left, first the next one.
    pub fn bytes(&self) -> &[u8]
        ensures { result.now ≡ self.now.bytes }
    {
        self.source.bytes()
    }

    /// How many reads were called.
    pub fn calls(&self) -> u64
        ensures { result ≡ self.now.calls }
    {
        self.turns.calls
    }

    /// How many reads have failed.
    pub fn faults(&self) -> u64
        ensures { result ≡ self.now.faults }
    {
        self.turns.faults
    }
}

impl Source for MemSource {
    ghost left = { λ m. Some m.bytes };

    ghost faults = { λ m. m.faults };

    /// Costs the bytes that it moves, and a look at each number in `failing`.
    fn read(&mut self, buf: &mut [u8]) -> Result<usize, Failed>
        ensures count { IfOk result (λ n. n ≤ length buf.new) }
        ensures given { IfOk result (λ n. Gives (Some self.old.bytes) (Some self.new.bytes) n buf.new) }
        ensures cause { OnErr result (Rose self.old.faults self.new.faults) }
        ensures steady { self.old.faults ≤ self.new.faults }
        ensures bounded { self.new.faults < 2 ^ 64 }

        // A call fails exactly where its number is among the failing ones, and then moves nothing.
        ensures fails { is_err result ≡ fails self.old }
        ensures failed { OnErr result (self.new ≡ counted self.old) }
        ensures unfilled { OnErr result (buf.new ≡ buf.old) }

        // Any other call moves what there is and fits, up to the most.
        ensures moves { IfOk result (λ n. n ≡ moved self.old.most (min (length buf.old) (length self.old.bytes))) }
        ensures after { IfOk result (λ n. self.new ≡ record (counted self.old) { bytes = drop n self.old.bytes }) }
        ensures filled { IfOk result (λ n. buf.new ≡ take n self.old.bytes ++ drop n buf.old) }
    {
        if self.turns.next_fails() {
            return Err(Failed);
        }
        self.source.read(buf)
    }
}

/// A sink over memory whose chosen writes fail. A contract sees the bytes that were written, how
/// many one write takes at most, the numbers of the failing calls, and the two counters.
#[derive(Drop)]
pub struct MemSink {
    sink: SureSink,
    turns: Turns,
}

impl Model for MemSink {
    ghost use Rattle.lama_outside.specs.Memory.{Memory};

    ghost Value = { Memory };

    ghost view = { λ m. record {
      bytes = m.sink.bytes;
      most = m.sink.most;
      failing = m.turns.failing.items;
      calls = m.turns.calls;
      faults = m.turns.faults;
    } };
}

impl MemSink {
    /// A sink that holds these bytes and takes at most `most` in one write, where 0 counts as 1. The
    /// writes whose numbers are in `failing` fail; they are numbered from 0.
    pub fn new(bytes: Vec<u8>, most: usize, failing: Vec<u32>) -> Self
        ensures { result ≡ record { bytes = bytes.items; most = most; failing = failing.items; calls = 0; faults = 0 } }
    {
        MemSink {
            sink: SureSink::new(bytes, most),
            turns: Turns::new(failing),
        }
    }

    /// The bytes that were written, first the oldest one.
    pub fn bytes(&self) -> &[u8]
        ensures { result.now ≡ self.now.bytes }
    {
        self.sink.bytes()
    }

    /// How many writes were called.
    pub fn calls(&self) -> u64
        ensures { result ≡ self.now.calls }
    {
        self.turns.calls
    }

    /// How many writes have failed.
    pub fn faults(&self) -> u64
        ensures { result ≡ self.now.faults }
    {
        self.turns.faults
    }
}

impl Sink for MemSink {
    ghost written = { λ m. Some m.bytes };

    ghost faults = { λ m. m.faults };

    /// Costs the bytes that it takes, and a look at each number in `failing`. `NoMemory` says that
    /// the vector could not grow; the call is counted, and is no fault.
    fn write(&mut self, bytes: &[u8]) -> Result<usize, SinkFault>
        ensures count { IfOk result (λ n. n ≤ length bytes.now) }
        ensures progress { IfOk result (λ n. 0 < length bytes.now → 0 < n) }
        ensures cause { result ≡ Err SinkFault.Failed → Rose self.old.faults self.new.faults }
        ensures steady { self.old.faults ≤ self.new.faults }
        ensures bounded { self.new.faults < 2 ^ 64 }

        // A call fails exactly where its number is among the failing ones, and then takes nothing.
        ensures fails { (result ≡ Err SinkFault.Failed) ↔ IsTrue (fails self.old) }
        ensures refused { OnErr result (self.new ≡ counted self.old) }

        // Any other call takes the front of the piece, up to the most.
        ensures moves { IfOk result (λ n. n ≡ moved self.old.most (length bytes.now)) }
        ensures after { IfOk result (λ n. self.new ≡ record (counted self.old) { bytes = self.old.bytes ++ take n bytes.now }) }
    {
        if self.turns.next_fails() {
            return Err(SinkFault::Failed);
        }
        self.sink.write(bytes)
    }
}

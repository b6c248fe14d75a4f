//! The standard streams of the process. What they hold is known to no contract.

ghost use Rattle.std.specs.Prelude.{◌≡◌, None};

use lama_base::{Failed, Sink, SinkFault, Source};
use std::io::{Read, Stdin, Stdout, Write};
use std::marker::Model;

/// Standard input, with no buffer of its own. A contract sees how many reads have failed.
///
/// Every error of the system counts as a failed read, an interruption too.
#[derive(Drop)]
pub struct StdSource {
    stdin: Stdin,
    faults: u64,
}

impl Model for StdSource {
    ghost use Rattle.std.specs.Prelude.{ℕ, ◌<◌, ◌^◌};

    ghost Value = { ℕ };

    ghost view = { λ s. s.faults };

    ghost invariant = { λ s. s.faults < 2 ^ 64 };
}

impl StdSource {
    /// The standard input of the process.
    pub fn new(rt: &HostRuntime) -> Self
        ensures { result ≡ 0 }
    {
        StdSource {
            stdin: rt.stdin(),
            faults: 0,
        }
    }
}

impl Source for StdSource {
    ghost left = { λ _. None };

    ghost faults = { λ s. s };

    fn read(&mut self, buf: &mut [u8]) -> Result<usize, Failed> {
        if let Ok(count) = self.stdin.read(buf) {
            return Ok(count);
        }
        self.faults = self.faults.saturating_add(1);
        Err(Failed)
    }
}

/// Standard output, with no buffer of its own. A contract sees how many writes have failed.
///
/// Every error of the system counts as a failed write, an interruption too, and so does a write that
/// takes nothing of a piece that is not empty.
#[derive(Drop)]
pub struct StdSink {
    stdout: Stdout,
    faults: u64,
}

impl Model for StdSink {
    ghost use Rattle.std.specs.Prelude.{ℕ, ◌<◌, ◌^◌};

    ghost Value = { ℕ };

    ghost view = { λ s. s.faults };

    ghost invariant = { λ s. s.faults < 2 ^ 64 };
}

impl StdSink {
    /// The standard output of the process.
    pub fn new(rt: &HostRuntime) -> Self
        ensures { result ≡ 0 }
    {
        StdSink {
            stdout: rt.stdout(),
            faults: 0,
        }
    }
}

impl Sink for StdSink {
    ghost written = { λ _. None };

    ghost faults = { λ s. s };

    fn write(&mut self, bytes: &[u8]) -> Result<usize, SinkFault> {
        if let Ok(count) = self.stdout.write(bytes)
            && (count > 0 || bytes.is_empty())
        {
            return Ok(count);
        }
        self.faults = self.faults.saturating_add(1);
        Err(SinkFault::Failed)
    }
}

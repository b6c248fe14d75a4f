//! Sources and sinks: over memory with failing calls, over memory without, and over the standard
//! streams of the process; and gates, one that holds no thread and one at which two threads meet.
#![tactic(auto)]

mod meeting;
mod mem;
mod piece;
mod standard;
mod sure;
mod turns;

use lama_base::Gate;
pub use meeting::Meeting;
pub use mem::{MemSink, MemSource};
pub use standard::{StdSink, StdSource};
pub use sure::{SureSink, SureSource};

/// The gate of a program that is not held anywhere.
#[derive(Clone, Copy, Debug)]
pub struct NoGate;

impl Gate for NoGate {
    fn reach(&self, _point: u32, _piece: u32) {}
}

#[cfg(test)]
mod tests;

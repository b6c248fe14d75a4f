//! Who does the work of a reading command.

use std::alloc::Global;

/// So many workers, which are threads of the runtime, and the gate that each piece of their work reaches.
#[derive(Drop)]
pub struct Team<'a, R, G> {
    pub rt: &'a R,
    pub alloc: Global,
    pub gate: &'a G,
    /// From 1 to 16.
    pub workers: u32,
}

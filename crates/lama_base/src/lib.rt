//! The limits of the engine, its edges, and the three edges of the program's world: a source of
//! bytes, a sink of bytes, and a gate at which tests may hold a thread.
#![tactic(auto)]

pub mod limits;
pub mod outside;

/// A directed edge with its weight. Repeats and loops are edges like others.
#[derive(Clone, Copy, Debug, PartialEq, Eq)]
pub struct Edge {
    /// The vertex that it leaves.
    pub source: u32,
    /// The vertex that it enters.
    pub target: u32,
    /// Its weight, at most [`limits::MAX_WEIGHT`].
    pub weight: u64,
}

pub use outside::{Failed, Gate, PIECE_BEGINS, Sink, SinkFault, Source};

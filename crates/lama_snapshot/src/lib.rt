//! Snapshots of a graph: a base in compressed sparse rows, and levels of fragments above it.
//!
//! This is the form of LLAMA (Macko, Marathe, Margo, Seltzer: LLAMA: Efficient Graph Analytics Using Large
//! Multiversioned Arrays, ICDE 2015). Each snapshot has a version of the vertex table, whose pages it shares with the
//! others; a vertex's record leads to its newest fragment, and the slot behind a fragment to the older edges.
#![tactic(auto)]

mod apply;
mod base;
mod found;
mod level;
mod snapshot;
mod targets;
mod writer;

pub use base::{Base, BaseAt};
pub use level::SnapshotAt;
pub use snapshot::{RowAt, Snapshot};
pub use targets::Targets;

#[cfg(test)]
mod tests;

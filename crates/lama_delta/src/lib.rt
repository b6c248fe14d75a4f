//! Pending writes, and the changes that they make of a graph.
//!
//! Writes wait in a [`Delta`], in the order in which they came. A checkpoint turns them into a [`Change`]: for each
//! source that they touch, what is new in its row and what has gone from it.
#![tactic(auto)]

mod change;
mod delta;
mod edge_writes;
mod grouping;
mod row_writes;
mod sieve;

pub use change::{Change, RowChange};
pub use delta::Delta;

#[cfg(test)]
mod tests;

//! Merging: the levels of a snapshot gathered into a new base, and the kept snapshots put onto it.
//!
//! Levels pile up above a base, and each makes reading a little slower. LLAMA merges them into one (Macko, Marathe, Margo,
//! Seltzer: LLAMA: Efficient Graph Analytics Using Large Multiversioned Arrays, ICDE 2015). A merged base has the rows of one
//! snapshot, under its number. It is built beside the store; then the snapshots from that number on get it as their base.
#![tactic(auto)]

mod merged;
mod rebasing;

pub use merged::Merged;
pub use rebasing::rebase;

#[cfg(test)]
mod tests;

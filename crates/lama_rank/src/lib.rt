//! PageRank in whole numbers, and how many edges leave the vertices of a graph.
#![tactic(auto)]

mod blocks;
mod degree_totals;
mod page_rank;
mod round;

pub use degree_totals::{Totals, degrees};
pub use page_rank::rank;

#[cfg(test)]
mod tests;

//! Work on the numbers below a bound, cut into one piece for each worker, the pieces done beside each other; and the edges
//! of rows, as a list for each piece.
#![tactic(auto)]

mod edge_lists;
mod pieces;

pub use edge_lists::edges_in_pieces;
pub use pieces::{FEW, cut, map_pieces};

#[cfg(test)]
mod tests;

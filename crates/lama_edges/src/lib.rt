//! Edge tables: the adjacency lists of one level of a graph, kept one after another.
//!
//! This is the form of compressed sparse rows (Y. Saad, Iterative Methods for Sparse Linear Systems, section 3.4), with
//! continuation records as in LLAMA (Macko, Marathe, Margo, Seltzer: LLAMA: Efficient Graph Analytics Using Large
//! Multiversioned Arrays, ICDE 2015): a level has a table of the fragments that it adds, and the slot behind a fragment
//! leads to the older edges of the same vertex.
#![tactic(auto)]

mod builder;
mod records;
mod table;
mod tails;

pub use builder::TableBuilder;
pub use records::{Fragment, Slot, VertexRec};
pub use table::EdgeTable;

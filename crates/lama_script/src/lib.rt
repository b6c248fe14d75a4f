//! The script language: a parser that takes one line at a time, and printers for what commands answer.
#![tactic(auto)]

mod analyses;
mod distances;
mod grammar;
pub mod item;
pub mod parser;
pub mod printers;
mod ranks;
#[cfg(test)]
mod tests;

pub use analyses::{print_labels, print_levels};
pub use distances::print_dist;
pub use grammar::number;
pub use item::{Item, ScriptFault};
pub use lama_model::{Command, Read};
pub use parser::Parser;
pub use printers::{print_asof, print_edges, print_numbered, print_reply, print_row};
pub use ranks::{print_degrees, print_rank};

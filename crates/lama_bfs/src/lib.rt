//! Breadth-first levels of a graph's vertices.
#![tactic(auto)]

mod breadth_first;
mod flat;
mod frontier;
mod kept;
mod path;

pub use breadth_first::levels;

#[cfg(test)]
mod tests;

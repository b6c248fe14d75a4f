//! Labels of a graph's weak components.
#![tactic(auto)]

mod components;
mod lowering;

pub use components::labels;

#[cfg(test)]
mod tests;

//! The book behind the history lock: lanes in threads call it, and each lane knows from its own calls which one journal
//! it is in.
#![tactic(auto)]

mod asks;
mod engine;
mod keeper;

pub use engine::{Engine, Pass};
pub use keeper::Keeper;
pub use lama_lock::Placed;

#[cfg(test)]
mod tests;

//! Weighted distances from one vertex, and a check of such an answer by the answer alone.
#![tactic(auto)]

mod certificate;
mod marks;
mod search;
mod sums;

pub use certificate::check;
pub use lama_model::Reach;
pub use search::distances;

#[cfg(test)]
mod tests;

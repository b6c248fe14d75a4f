//! Pages of 256 records, the blocks that versions of an array share, and the counter of made pages.
#![tactic(auto)]

mod block;
mod page;
mod steps;

pub use page::{PAGE_RECORDS, Page};
pub use steps::Steps;

#[cfg(test)]
mod tests;

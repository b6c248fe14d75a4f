//! What a level keeps beside each slot of its edge table: a mark that says from which snapshot on the edge is deleted,
//! and the edge's weight.
#![tactic(auto)]

mod hidden;
mod weights;
mod wide;

pub use hidden::Hidden;
pub use weights::{Weights, WeightsBuilder};

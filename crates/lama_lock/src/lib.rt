//! A lock under which one value serves many callers, each of which knows from its own calls which one journal it is in.
//!
//! A hall keeps the value. A caller goes in with its pass, and comes out knowing a longer part of the journal: all that it
//! had seen, then the calls of others, then its own. No proof says that a caller who waits is ever served, or in which
//! order callers come.
#![tactic(auto)]

mod hall;
mod kept;
mod pass;
mod steps;
mod view;

pub use hall::{Hall, Placed};
pub use kept::Kept;
pub use pass::Pass;

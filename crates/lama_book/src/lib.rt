//! The book: it takes the calls one after another, answers each, and keeps the snapshots that they make.
#![tactic(auto)]

mod book;
mod fault;
mod opening;

pub use book::{Book, Looked};
pub use fault::CallFault;
pub use opening::Opening;

#[cfg(test)]
mod tests;

//! Versions of a large array that share their pages, and edits that copy a page before they write to it.
#![tactic(auto)]

mod builder;
mod edit;
mod grow;
mod held;
mod table;
mod version;

pub use builder::Builder;
pub use edit::Edit;
pub use version::VArray;

#[cfg(test)]
mod tests;

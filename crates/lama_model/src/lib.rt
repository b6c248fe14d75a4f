//! The model: graphs as lists of edges, journals of calls, and what each call is answered.
//!
//! The definitions are in `specs/`, in words of lists of edges and journals alone. This crate has the
//! types of the calls and answers that they speak of, worked examples that are proved by computation, and
//! laws on every journal.
#![tactic(auto)]

pub mod adjacency;
pub mod answers;
pub mod calls;
pub mod commands;
pub mod edge_pairs;
pub mod examples;
pub mod laws;
pub mod plain_rows;
pub mod reach;

pub use adjacency::Rows;
pub use answers::{Refusal, Reply};
pub use calls::{Call, Entry, Write};
pub use commands::{Command, Read};
pub use edge_pairs::edges_between;
pub use plain_rows::PlainRows;
pub use reach::Reach;

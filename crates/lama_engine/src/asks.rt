//! What a lane asks of the book, and what it is given.

use lama_book::Looked;
use lama_model::{Reply, Write};
use lama_snapshot::Snapshot;
use std::alloc::Global;
use std::sync::Arc;

/// A call of the book, without its caller.
#[derive(Clone, Copy)]
pub enum Ask {
    Write(Write),
    Checkpoint,
    Look,
    LookAt { k: u32 },
    Retire { k: u32 },
}

/// What the book answered.
#[derive(Drop)]
pub enum Given {
    /// To a write, a checkpoint or a retirement.
    Replied(Reply),
    /// To a look: the newest snapshot.
    Newest(Arc<Snapshot, Global>),
    /// To a look at a number.
    Found(Looked),
}

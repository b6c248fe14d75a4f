//! The calls that a journal records.

/// A change to the standing graph. It can be read from the next checkpoint on.
#[derive(Clone, Copy, Debug, PartialEq, Eq)]
pub enum Write {
    /// So many vertices more.
    Vertices(u32),
    /// An edge: its source, its target and its weight.
    Add(u32, u32, u64),
    /// Takes away every edge from the first vertex to the second.
    Remove(u32, u32),
    /// Gives every edge from the first vertex to the second the weight.
    Weigh(u32, u32, u64),
}

/// A call on the store.
#[derive(Clone, Copy, Debug, PartialEq, Eq)]
pub enum Call {
    Write(Write),
    /// Makes the standing graph the graph of the next number.
    Checkpoint,
    /// Hands out the newest snapshot.
    Look,
    /// Hands out the snapshot of a number.
    LookAt { k: u32 },
    /// Puts a base that was merged from snapshot `k` below it and the later ones.
    Install { k: u32 },
    /// Lets go the snapshots older than `k`.
    Retire { k: u32 },
}

/// A call with the caller who made it: the lane's number, or 0 outside a block.
#[derive(Clone, Copy, Debug, PartialEq, Eq)]
pub struct Entry {
    pub caller: u16,
    pub call: Call,
}

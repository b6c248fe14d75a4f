//! The commands of a script.

use crate::calls::Write;

/// What a reading command reads of a snapshot.
#[derive(Clone, Copy, Debug, PartialEq, Eq)]
pub enum Read {
    /// The row of a vertex.
    Row { v: u32 },
    /// All edges.
    Edges,
    /// How many edges leave vertices.
    Degrees,
    /// How far each vertex is from the vertex `s`, or, where `sum` is true, how far they are in all.
    Bfs { s: u32, sum: bool },
    /// The weak component of each vertex, or, where `sum` is true, how many and how large they are.
    Labels { sum: bool },
    /// The PageRank of each vertex after so many rounds, or, where `sum` is true, all of it and where it is greatest.
    Rank { rounds: u32, sum: bool },
    /// What the cheapest walk from the vertex `s` to each vertex costs, or, where `sum` is true, what they cost in all.
    Dist { s: u32, sum: bool },
    /// The targets of the row of `v` in the graph of the number `j`.
    AsOf { j: u32, v: u32 },
}

/// One command of a script.
#[derive(Clone, Copy, Debug, PartialEq, Eq)]
pub enum Command {
    Write(Write),
    Checkpoint,
    /// Gathers the levels of the newest snapshot into a base of its own.
    Merge,
    /// Lets the snapshots before that of the number `k` go.
    Retire { k: u32 },
    /// Reads the newest snapshot, or the one of the number `at`.
    Read { at: Option<u32>, what: Read },
}

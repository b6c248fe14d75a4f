//! What a call is answered.

/// Why a call was refused. It changed nothing, and stands in the journal all the same.
#[derive(Clone, Copy, Debug, PartialEq, Eq)]
pub enum Refusal {
    /// The vertex is not below the count of vertices.
    UnknownVertex {
        vertex: u32,
        count: u32,
    },
    /// There would be more than [`lama_base::limits::MAX_VERTICES`] vertices.
    FullVertices,
    /// There would be more than [`lama_base::limits::MAX_EDGES`] edges.
    FullEdges,
    /// [`lama_base::limits::MAX_KEPT`] snapshots are kept.
    FullKept,
    /// The newest number is [`lama_base::limits::MAX_NUMBER`].
    FullNumbers,
    /// No snapshot of the number is kept: those from `oldest` to `newest` are.
    NoSnapshot {
        asked: u32,
        oldest: u32,
        newest: u32,
    },
}

/// What a call is answered.
#[derive(Clone, Copy, Debug, PartialEq, Eq)]
pub enum Reply {
    Accepted,
    /// The count of vertices, those of pending writes too.
    Count { count: u32 },
    /// The number of a snapshot.
    Snapshot { number: u32 },
    /// The oldest and the newest number that are kept.
    Kept { oldest: u32, newest: u32 },
    Refused(Refusal),
}

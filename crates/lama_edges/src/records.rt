/// A vertex's record in a vertex table: where the newest fragment of its adjacency list is, and how many edges it has.
#[derive(Clone, Copy, Debug, PartialEq, Eq)]
pub struct VertexRec {
    /// The level whose edge table has the newest fragment.
    pub level: u32,
    /// The place of the fragment's first slot in that table, counted in slots from 0.
    pub offset: u32,
    /// How many edges the fragment has. Its tail is one more slot, which isn't counted.
    pub len: u32,
    /// How many edges the whole list has, over all of its fragments.
    pub degree: u32,
}

/// A slot of an edge table.
#[derive(Clone, Copy, Debug, PartialEq, Eq)]
pub enum Slot {
    /// An edge to the vertex `target`.
    Edge { target: u32 },
    /// A continuation record, behind the last edge of a fragment: the list goes on with an older fragment of `len`
    /// edges, whose first slot is at place `offset` in the edge table of level `level`.
    Next { level: u32, offset: u32, len: u32 },
    /// Behind the last edge of a fragment that is the oldest of its list: the list ends.
    End,
}

/// A fragment of an adjacency list: the edges that one level adds to a vertex, and what comes after them.
#[derive(Debug, PartialEq, Eq, Drop)]
pub struct Fragment {
    /// The targets of the edges, newest first.
    pub targets: Vec<u32>,
    /// What comes after the oldest of them: `Next`, which leads to the edges that are older still, or `End`.
    pub tail: Slot,
}

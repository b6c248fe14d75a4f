//! How much the engine takes. A call that would go past a limit is refused by name, and changes nothing.

/// Vertices of one graph.
pub const MAX_VERTICES: u32 = 4_194_304;

/// Edges of one graph, and edges of the newest graph at the start plus accepted additions.
pub const MAX_EDGES: u32 = 33_554_432;

/// Entries of the journal of one run.
pub const MAX_JOURNAL: u32 = 4_194_304;

/// Snapshots that are kept at one time.
pub const MAX_KEPT: u32 = 4_096;

/// The greatest number of a snapshot; the least is 0.
pub const MAX_NUMBER: u32 = 100_000_000;

/// Lines of a script.
pub const MAX_LINES: u32 = 2_097_152;

/// Bytes of a script's line without its line feed.
pub const MAX_LINE_BYTES: usize = 1_024;

/// Lanes of a block.
pub const MAX_LANES: u16 = 16;

/// Workers of a kernel.
pub const MAX_WORKERS: u32 = 16;

/// Rounds of a rank.
pub const MAX_ROUNDS: u32 = 100;

/// Bytes of a file.
pub const MAX_FILE_BYTES: u64 = 536_870_912;

/// Records of a page.
pub const PAGE_RECORDS: usize = 256;

/// The greatest weight of an edge.
pub const MAX_WEIGHT: u64 = 4_294_967_295;

/// A law of the limits: each `prove!` of its body is a relation between them, and the prover refuses a limit that breaks
/// one. A call of it does nothing.
pub fn limits_fit() {
    // A line of a script makes at most two calls, so no script fills the journal.
    prove!(2 * MAX_LINES <= MAX_JOURNAL);

    // A base of the greatest size has a slot for each edge and one for the end of each row, and its places fit 32 bits.
    prove!(MAX_VERTICES + MAX_EDGES <= u32::MAX);

    // A column of narrow weights has 32 bits for each.
    prove!(MAX_WEIGHT == u32::MAX as u64);

    // The records of a vertex table of the greatest size fill whole pages.
    prove!(MAX_VERTICES as usize % PAGE_RECORDS == 0);
}

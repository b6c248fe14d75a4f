//! Why a run stops before the end of its script.

/// Why a run stops before the end of its script.
#[derive(Clone, Copy, Debug, PartialEq, Eq)]
pub enum Stop {
    /// The line of this number is bad.
    BadLine { line: u32 },
    /// The greatest number of lines was taken, and a further byte came.
    TooManyLines,
    /// The source failed.
    ReadFault,
    /// The sink failed. What it did not take is lost.
    WriteFault,
    /// There was no memory.
    NoMemory,
}

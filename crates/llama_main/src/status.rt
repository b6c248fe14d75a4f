//! How a run ended.

ghost use Rattle.std.specs.Prelude.{◌≡◌, is_some};

use lama_book::Book;

/// How a run ended, with the last line that it wrote.
#[derive(Clone, Copy, Debug, PartialEq, Eq)]
pub enum Status {
    /// The script was read to its end: `end J`, with the number of calls.
    Done,
    /// The words of the command line are not in the grammar: `usage`.
    Usage,
    /// The line of this number is the first bad line, numbered from 1: `bad line N`.
    BadLine { line: u32 },
    /// The source failed. No last line is written.
    ReadFault,
    /// The sink failed, and did not take all that was to be written.
    WriteFault,
    /// There was no memory. No last line is written.
    NoMemory,
    /// More than [`lama_base::limits::MAX_LINES`] lines came: `too many lines`.
    TooManyLines,
}

impl Status {
    ghost use Rattle.llama_main.specs.Ending.{code_of, end_of};

    /// Whether it names the script's end.
    pub fn names_end(&self) -> bool
        ensures { result ≡ is_some (end_of self.now) }
    {
        match self {
            Status::Done | Status::BadLine { .. } | Status::TooManyLines => true,
            Status::Usage | Status::ReadFault | Status::WriteFault | Status::NoMemory => false,
        }
    }

    /// The exit status of the program.
    pub fn code(&self) -> u8
        ensures { result ≡ code_of self.now }
    {
        match self {
            Status::Done => 0,
            Status::Usage => 2,
            Status::BadLine { .. } => 3,
            Status::ReadFault => 4,
            Status::WriteFault => 5,
            Status::NoMemory => 9,
            Status::TooManyLines => 10,
        }
    }
}

/// What a run leaves.
#[derive(Drop)]
pub struct RunEnd {
    pub status: Status,
    /// The book, where the script was read to its end, to a bad line or past the last line.
    pub book: Option<Book>,
    /// For each block that was run to its end, the lane of each of its calls, oldest first.
    pub orders: Vec<Vec<u16>>,
}

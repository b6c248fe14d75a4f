//! What a parser answers.

use lama_model::Command;
use thiserror::Error;

/// What a script does in one step.
#[derive(Clone, Copy, Debug, PartialEq, Eq)]
pub enum Item {
    /// A command outside a block.
    One(Command),
}

/// Why a parser refused a line.
#[derive(Clone, Copy, Debug, PartialEq, Eq, Error)]
pub enum ScriptFault {
    /// The line of that number is none of the script language. The first line has the number 1.
    #[error("line {line} is a bad line")]
    BadLine { line: u32 },
    /// The script has more than [`lama_base::limits::MAX_LINES`] lines.
    #[error("the script has too many lines")]
    TooLong,
    /// There was no memory for what the line says. The line was not taken, and may be given again.
    #[error("out of memory")]
    NoMemory,
}

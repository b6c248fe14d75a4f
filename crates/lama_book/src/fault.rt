use thiserror::Error;

/// Why a book took no call. It has no entry of it, and is as it was before, though it may have more room.
#[derive(Clone, Copy, Debug, PartialEq, Eq, Error)]
pub enum CallFault {
    /// The journal has [`lama_base::limits::MAX_JOURNAL`] entries.
    #[error("the journal is full")]
    JournalFull,
    /// There was no memory for the call.
    #[error("out of memory")]
    NoMemory,
}

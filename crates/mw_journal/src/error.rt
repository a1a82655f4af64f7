use thiserror::Error;

/// Why a journal wasn't created or opened.
#[derive(Clone, Copy, Debug, PartialEq, Eq, Error)]
pub enum OpenError {
    /// The disk failed, and its count of faults rose.
    #[error("disk failed")]
    DiskFault,
    /// A byte stands where a journal was to be created.
    #[error("not empty")]
    NotEmpty,
    /// The bytes are no journal.
    #[error("no journal: byte {at}")]
    NotJournal {
        /// The place of what is wrong or missing.
        at: u64,
    },
    /// The journal belongs to another seed file.
    #[error("journal of another seed")]
    OtherSeed {
        /// The digest that stands in it.
        found: [u8; 32],
    },
    /// Memory ran out.
    #[error("no memory")]
    Memory,
}

/// Why a batch wasn't appended.
#[derive(Clone, Copy, Debug, PartialEq, Eq, Error)]
pub enum AppendError {
    /// The disk failed, and its count of faults rose; or a call before this one was answered so.
    #[error("disk failed")]
    DiskFault,
    /// The file would pass 1,073,741,824 bytes.
    #[error("journal full: {len} bytes")]
    JournalFull {
        /// The length that it would have.
        len: u64,
    },
    /// Memory ran out.
    #[error("no memory")]
    Memory,
}

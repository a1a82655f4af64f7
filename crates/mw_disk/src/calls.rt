use crate::disk::DiskError;
use mw_base::Bytes;

/// What is asked of a disk.
#[derive(Drop)]
pub enum DiskCall {
    /// So many bytes from a place on.
    Read {
        /// The place of the first.
        at: u64,
        /// How many.
        len: usize,
    },
    /// Bytes are written.
    Write {
        /// The place of the first.
        at: u64,
        /// The bytes.
        bytes: Bytes,
    },
    /// The bytes are cut to a length.
    Cut {
        /// The length.
        len: u64,
    },
    /// All bytes are made safe.
    Sync,
}

/// A call that was made.
#[derive(Drop)]
pub struct MadeCall {
    /// What was asked.
    pub call: DiskCall,
    /// Whether it was done.
    pub answer: Result<(), DiskError>,
}

/// What a crash makes of the writes and cuts since the last sync.
#[derive(Clone, Copy, PartialEq, Eq)]
pub enum Tear {
    /// None of them was done.
    Lost,
    /// Each was done, also one that was answered by an error.
    Done,
    /// Each range that was written holds this byte, and no cut was done.
    Filled(u8),
}

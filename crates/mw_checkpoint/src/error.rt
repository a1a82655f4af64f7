ghost use Rattle.std.specs.Prelude.{◌≡◌};
ghost use Rattle.mw_checkpoint.specs.Refused.{append_error_of, choice_error_of, disk_error_of, pair_error_of};

use mw_disk::DiskError;
use mw_journal::{AppendError, OpenError};
use thiserror::Error;

/// Why a call on the three files of a pair room gave nothing. A place is 0 for CHOICE, 1 for the
/// journal 0 and 2 for the journal 1.
#[derive(Clone, Copy, Debug, PartialEq, Eq, Error)]
pub enum PairError {
    /// A disk failed, and its count of faults rose.
    #[error("disk {place} failed")]
    DiskFault {
        /// The file's place.
        place: u8,
    },
    /// A byte stands where a journal was to be created.
    #[error("file {place} not empty")]
    NotEmpty {
        /// The file's place.
        place: u8,
    },
    /// The bytes are no journal.
    #[error("file {place} no journal: byte {at}")]
    NotJournal {
        /// The file's place.
        place: u8,
        /// The place of what is wrong or missing in it.
        at: u64,
    },
    /// The journal belongs to another seed file.
    #[error("file {place} of another seed")]
    OtherSeed {
        /// The file's place.
        place: u8,
        /// The digest that stands in it.
        found: [u8; 32],
    },
    /// A byte of CHOICE is neither 0 nor 1.
    #[error("bad choice {at}")]
    BadChoice {
        /// The first such byte's place in the joined bodies of its batches.
        at: u64,
    },
    /// The journal that counts isn't whole records.
    #[error("bad record {at}")]
    BadRecord {
        /// The place in its text at which no record begins.
        at: u64,
    },
    /// CHOICE would pass 1,073,741,824 bytes.
    #[error("choice full: {len} bytes")]
    ChoiceFull {
        /// The length that it would have.
        len: u64,
    },
    /// Memory ran out.
    #[error("no memory")]
    Memory,
}

/// The error of a pair room for one of the journal at a place.
pub(crate) fn pair_error(place: u8, error: OpenError) -> PairError
    ensures { result ≡ pair_error_of place error }
{
    match error {
        OpenError::DiskFault => PairError::DiskFault { place },
        OpenError::NotEmpty => PairError::NotEmpty { place },
        OpenError::NotJournal { at } => PairError::NotJournal { place, at },
        OpenError::OtherSeed { found } => PairError::OtherSeed { place, found },
        OpenError::Memory => PairError::Memory,
    }
}

/// The error of a pair room for one of the disk at a place.
pub(crate) fn disk_error(place: u8, error: DiskError) -> PairError
    ensures { result ≡ disk_error_of place error }
{
    match error {
        DiskError::Failed => PairError::DiskFault { place },
        DiskError::Memory => PairError::Memory,
    }
}

/// The error of a pair room for one of an append to CHOICE.
pub(crate) fn choice_error(error: AppendError) -> PairError
    ensures { result ≡ choice_error_of error }
{
    match error {
        AppendError::DiskFault => PairError::DiskFault { place: 0 },
        AppendError::JournalFull { len } => PairError::ChoiceFull { len },
        AppendError::Memory => PairError::Memory,
    }
}

/// The error of a pair room for one of an append to the journal at a place. A journal's records
/// have room in one batch of another one, so none is full.
pub(crate) fn append_error(place: u8, error: AppendError) -> PairError
    ensures { result ≡ append_error_of place error }
{
    match error {
        AppendError::DiskFault => PairError::DiskFault { place },
        AppendError::JournalFull { len: _ } | AppendError::Memory => PairError::Memory,
    }
}

use mw_base::Memory;
use thiserror::Error;

/// Why no record is read.
#[derive(Clone, Copy, Debug, PartialEq, Eq, Error)]
pub enum RecordError {
    /// No record's spelling begins at the place.
    #[error("no record at {at}")]
    BadRecord {
        /// The place.
        at: u64,
    },
    /// Memory ran out.
    #[error("no memory")]
    Memory,
}

impl From<Memory> for RecordError {
    ghost use Rattle.mw_records.specs.declared.error.RecordError.TheVariants.{Memory as OutOfMemory};
    ghost use Rattle.std.specs.Prelude.{◌≡◌};

    ghost from_gives = { λ _ e. e ≡ OutOfMemory };

    fn from(_error: Memory) -> Self {
        RecordError::Memory
    }
}

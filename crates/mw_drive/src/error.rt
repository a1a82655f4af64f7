use mw_base::Memory;
use mw_script::ScriptError;
use thiserror::Error;

/// Why a journal gives no room.
#[derive(Clone, Copy, Debug, PartialEq, Eq, Error)]
pub enum JournalRefusal {
    /// The bytes are no journal.
    #[error("NotJournal")]
    NotJournal {
        /// The place of what is wrong or missing.
        at: u64,
    },
    /// The journal belongs to another seed file.
    #[error("OtherSeed")]
    OtherSeed {
        /// The digest that stands in it.
        found: [u8; 32],
    },
    /// The journal's bodies, joined, aren't whole records of the seed's.
    #[error("BadRecord")]
    BadRecord {
        /// The first place in them at which no record begins, or one that names a team, a slot or a
        /// location of it that the seed hasn't.
        at: u64,
    },
}

/// Why a script isn't run to its end.
#[derive(Clone, Copy, Debug, PartialEq, Eq, Error)]
pub enum DriveError {
    /// The disk, the input or the out sink failed, and its count of faults rose.
    #[error("device failed")]
    Fault,
    /// Memory ran out.
    #[error("no memory")]
    Memory,
    /// With its next batch the journal's file would pass 1,073,741,824 bytes, or the room has had
    /// 2^63 calls.
    #[error("journal full")]
    Full,
    /// The journal is refused, as the run begins or at a crash.
    #[error("journal refused: {refusal}")]
    Journal {
        /// Why.
        refusal: JournalRefusal,
    },
    /// The script is refused at a line.
    #[error("script refused: line {line}")]
    Script {
        /// The line, counted from 1.
        line: u64,
    },
}

impl From<Memory> for DriveError {
    ghost use Rattle.std.specs.Prelude.{◌≡◌};
    ghost use Rattle.mw_drive.specs.declared.error.DriveError.TheVariants.{Memory as OutOfMemory};

    ghost from_gives = { λ _ e. e ≡ OutOfMemory };

    fn from(_error: Memory) -> Self {
        DriveError::Memory
    }
}

impl From<ScriptError> for DriveError {
    ghost use Rattle.std.specs.Prelude.{◌≡◌};
    ghost use Rattle.mw_drive.specs.Calls.{script_error};

    ghost from_gives = { λ error e. e ≡ script_error error };

    fn from(error: ScriptError) -> Self {
        match error {
            ScriptError::Memory => DriveError::Memory,
            ScriptError::Refused { line } => DriveError::Script { line },
        }
    }
}

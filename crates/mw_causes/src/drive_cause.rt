//! Why `drive` doesn't do all.
ghost use Rattle.std.specs.Prelude.{◌≡◌};
ghost use Rattle.mw_causes.specs.DriveCauses.{refusal_word as refusal_word_lem};

use crate::seed_cause::SeedCause;
use crate::stop::{Cause, Stop};
use mw_base::Memory;
use mw_drive::{DriveError, JournalRefusal};
use std::alloc::Global;

/// Why `drive` refuses what it read, or goes no further.
#[derive(Drop)]
pub enum DriveCause {
    /// The seed file is refused.
    SeedFile {
        /// The cause.
        cause: SeedCause,
    },
    /// The journal is refused.
    Journal {
        /// Why.
        refusal: JournalRefusal,
    },
    /// The script is refused at a line.
    Script {
        /// The line, counted from 1.
        line: u64,
    },
    /// The journal is full.
    Full,
}

/// The word for why a journal is refused.
fn refusal_word(refusal: JournalRefusal) -> &'static str
    ensures { result.now ≡ refusal_word_lem refusal }
{
    match refusal {
        JournalRefusal::NotJournal { .. } => "NotJournal",
        JournalRefusal::OtherSeed { .. } => "OtherSeed",
        JournalRefusal::BadRecord { .. } => "BadRecord",
    }
}

impl Cause for DriveCause {
    ghost use Rattle.mw_causes.specs.DriveCauses.{drive_status, drive_line};

    ghost status_of = { drive_status };

    ghost line_of = { drive_line };

    fn status(&self) -> u8 {
        match self {
            DriveCause::Full => 8,
            DriveCause::SeedFile { .. } | DriveCause::Journal { .. } | DriveCause::Script { .. } =>
                7,
        }
    }

    fn line(&self, alloc: Global) -> Result<String, Memory> {
        match self {
            DriveCause::SeedFile { cause } => cause.line(alloc),
            DriveCause::Journal { refusal } => {
                let word = refusal_word(*refusal);
                Ok(format!(in alloc; "journal refused: {word}\n")?)
            }
            DriveCause::Script { line } => Ok(format!(in alloc; "script refused: line {line}\n")?),
            DriveCause::Full => Ok(String::from_str(alloc, "journal full\n")?),
        }
    }
}

impl From<Stop<SeedCause>> for Stop<DriveCause> {
    ghost use Rattle.mw_causes.specs.Ends.{stop_with};
    ghost use Rattle.mw_causes.specs.declared.drive_cause.DriveCause.TheVariants.{SeedFile};

    ghost from_gives = { λ stop e. e ≡ stop_with SeedFile stop };

    fn from(stop: Stop<SeedCause>) -> Self {
        match stop {
            Stop::Fault => Stop::Fault,
            Stop::Memory => Stop::Memory,
            Stop::Refused { cause } => Stop::Refused {
                cause: DriveCause::SeedFile { cause },
            },
        }
    }
}

impl From<DriveError> for Stop<DriveCause> {
    ghost use Rattle.mw_causes.specs.DriveCauses.{drive_stop};

    ghost from_gives = { λ error e. e ≡ drive_stop error };

    fn from(error: DriveError) -> Self {
        match error {
            DriveError::Fault => Stop::Fault,
            DriveError::Memory => Stop::Memory,
            DriveError::Full => Stop::Refused {
                cause: DriveCause::Full,
            },
            DriveError::Journal { refusal } => Stop::Refused {
                cause: DriveCause::Journal { refusal },
            },
            DriveError::Script { line } => Stop::Refused {
                cause: DriveCause::Script { line },
            },
        }
    }
}

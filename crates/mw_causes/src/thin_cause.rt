//! Why `thin` doesn't do all.
ghost use Rattle.std.specs.Prelude.{◌≡◌};
ghost use Rattle.mw_causes.specs.PairCauses.{thin_stop as thin_stop_lem};

use crate::pair_refusal::{PairRefusal, pair_line};
use crate::seed_cause::SeedCause;
use crate::stop::{Cause, Stop};
use mw_base::Memory;
use mw_checkpoint::PairError;
use std::alloc::Global;

/// Why `thin` refuses what it read, or can't go on.
#[derive(Drop)]
pub enum ThinCause {
    /// The seed file is refused.
    SeedFile {
        /// The cause.
        cause: SeedCause,
    },
    /// A file of the pair room is refused.
    File {
        /// Why.
        refusal: PairRefusal,
    },
    /// CHOICE is full.
    Full,
}

impl Cause for ThinCause {
    ghost use Rattle.mw_causes.specs.PairCauses.{thin_status, thin_line};

    ghost status_of = { thin_status };

    ghost line_of = { thin_line };

    fn status(&self) -> u8 {
        match self {
            ThinCause::Full => 8,
            ThinCause::SeedFile { .. } | ThinCause::File { .. } => 7,
        }
    }

    fn line(&self, alloc: Global) -> Result<String, Memory> {
        match self {
            ThinCause::SeedFile { cause } => cause.line(alloc),
            ThinCause::File { refusal } => pair_line(alloc, *refusal),
            ThinCause::Full => Ok(String::from_str(alloc, "journal full\n")?),
        }
    }
}

impl From<Stop<SeedCause>> for Stop<ThinCause> {
    ghost use Rattle.mw_causes.specs.Ends.{stop_with};
    ghost use Rattle.mw_causes.specs.declared.thin_cause.ThinCause.TheVariants.{SeedFile};

    ghost from_gives = { λ stop e. e ≡ stop_with SeedFile stop };

    fn from(stop: Stop<SeedCause>) -> Self {
        match stop {
            Stop::Fault => Stop::Fault,
            Stop::Memory => Stop::Memory,
            Stop::Refused { cause } => Stop::Refused {
                cause: ThinCause::SeedFile { cause },
            },
        }
    }
}

/// The stop of a refusal.
fn refused(refusal: PairRefusal) -> Stop<ThinCause>
    ensures { result ≡ Stop.Refused (ThinCause.File refusal) }
{
    Stop::Refused {
        cause: ThinCause::File { refusal },
    }
}

/// The stop for an error of a checkpoint: a fault of a disk is a fault.
pub fn thin_stop(error: PairError) -> Stop<ThinCause>
    ensures { result ≡ thin_stop_lem error }
{
    match error {
        PairError::DiskFault { place: _ } => Stop::Fault,
        PairError::NotEmpty { place: _ } => refused(PairRefusal::NotEmpty),
        PairError::NotJournal { place: _, at: _ } => refused(PairRefusal::NotJournal),
        PairError::OtherSeed { place: _, found: _ } => refused(PairRefusal::OtherSeed),
        PairError::BadChoice { at: _ } => refused(PairRefusal::BadChoice),
        PairError::BadRecord { at: _ } => refused(PairRefusal::BadRecord),
        PairError::ChoiceFull { len: _ } => Stop::Refused {
            cause: ThinCause::Full,
        },
        PairError::Memory => Stop::Memory,
    }
}

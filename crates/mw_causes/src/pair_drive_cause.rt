//! Why `drive` and `serve` don't do all on a pair room.
ghost use Rattle.std.specs.Prelude.{◌≡◌};
ghost use Rattle.mw_causes.specs.PairCauses.{choice_stop as choice_stop_lem};

use crate::drive_cause::DriveCause;
use crate::pair_refusal::{PairRefusal, pair_line};
use crate::seed_cause::SeedCause;
use crate::stop::{Cause, Stop};
use mw_base::Memory;
use mw_checkpoint::PairError;
use mw_drive::DriveError;
use std::alloc::Global;

/// Why a pair room isn't played, or is played no further.
#[derive(Drop)]
pub enum PairDriveCause {
    /// What a room of one journal is refused for, or stops for, of the journal that CHOICE names.
    Drive {
        /// The cause.
        cause: DriveCause,
    },
    /// CHOICE is refused.
    Choice {
        /// Why.
        refusal: PairRefusal,
    },
}

impl Cause for PairDriveCause {
    ghost use Rattle.mw_causes.specs.PairCauses.{pair_drive_status, pair_drive_line};

    ghost status_of = { pair_drive_status };

    ghost line_of = { pair_drive_line };

    fn status(&self) -> u8 {
        match self {
            PairDriveCause::Drive { cause } => cause.status(),
            PairDriveCause::Choice { .. } => 7,
        }
    }

    fn line(&self, alloc: Global) -> Result<String, Memory> {
        match self {
            PairDriveCause::Drive { cause } => cause.line(alloc),
            PairDriveCause::Choice { refusal } => pair_line(alloc, *refusal),
        }
    }
}

impl From<Stop<SeedCause>> for Stop<PairDriveCause> {
    ghost use Rattle.mw_causes.specs.Ends.{stop_with};
    ghost use Rattle.mw_causes.specs.PairCauses.{seed_cause_of};

    ghost from_gives = { λ stop e. e ≡ stop_with seed_cause_of stop };

    fn from(stop: Stop<SeedCause>) -> Self {
        match stop {
            Stop::Fault => Stop::Fault,
            Stop::Memory => Stop::Memory,
            Stop::Refused { cause } => Stop::Refused {
                cause: PairDriveCause::Drive {
                    cause: DriveCause::SeedFile { cause },
                },
            },
        }
    }
}

impl From<Stop<DriveCause>> for Stop<PairDriveCause> {
    ghost use Rattle.mw_causes.specs.Ends.{stop_with};
    ghost use Rattle.mw_causes.specs.declared.pair_drive_cause.PairDriveCause.TheVariants.{Drive};

    ghost from_gives = { λ stop e. e ≡ stop_with Drive stop };

    fn from(stop: Stop<DriveCause>) -> Self {
        match stop {
            Stop::Fault => Stop::Fault,
            Stop::Memory => Stop::Memory,
            Stop::Refused { cause } => Stop::Refused {
                cause: PairDriveCause::Drive { cause },
            },
        }
    }
}

/// The stop of a cause of a room of one journal.
fn driven(cause: DriveCause) -> Stop<PairDriveCause>
    ensures { result ≡ Stop.Refused (PairDriveCause.Drive cause) }
{
    Stop::Refused {
        cause: PairDriveCause::Drive { cause },
    }
}

impl From<DriveError> for Stop<PairDriveCause> {
    ghost use Rattle.mw_causes.specs.PairCauses.{played_stop};

    ghost from_gives = { λ error e. e ≡ played_stop error };

    fn from(error: DriveError) -> Self {
        match error {
            DriveError::Fault => Stop::Fault,
            DriveError::Memory => Stop::Memory,
            DriveError::Full => driven(DriveCause::Full),
            DriveError::Journal { refusal } => driven(DriveCause::Journal { refusal }),
            DriveError::Script { line } => driven(DriveCause::Script { line }),
        }
    }
}

/// The stop of a refusal of CHOICE.
fn refused(refusal: PairRefusal) -> Stop<PairDriveCause>
    ensures { result ≡ Stop.Refused (PairDriveCause.Choice refusal) }
{
    Stop::Refused {
        cause: PairDriveCause::Choice { refusal },
    }
}

/// The stop for an error of reading what CHOICE names: a fault of its disk is a fault.
pub fn choice_stop(error: PairError) -> Stop<PairDriveCause>
    ensures { result ≡ choice_stop_lem error }
{
    match error {
        PairError::DiskFault { place: _ } => Stop::Fault,
        PairError::NotEmpty { place: _ } => refused(PairRefusal::NotEmpty),
        PairError::NotJournal { place: _, at: _ } => refused(PairRefusal::NotJournal),
        PairError::OtherSeed { place: _, found: _ } => refused(PairRefusal::OtherSeed),
        PairError::BadChoice { at: _ } => refused(PairRefusal::BadChoice),
        PairError::BadRecord { at: _ } => refused(PairRefusal::BadRecord),
        PairError::ChoiceFull { len: _ } => driven(DriveCause::Full),
        PairError::Memory => Stop::Memory,
    }
}

//! Why `new-room` makes no room.
ghost use Rattle.std.specs.Prelude.{◌≡◌};
ghost use Rattle.mw_causes.specs.PairCauses.{IsOfMaking, making_stop as making_stop_lem};
ghost use Rattle.mw_causes.specs.RoomCauses.{open_stop};

use crate::seed_cause::SeedCause;
use crate::stop::{Cause, Stop};
use mw_base::Memory;
use mw_checkpoint::PairError;
use mw_journal::OpenError;
use std::alloc::Global;

/// Why `new-room` refuses what it read.
#[derive(Drop)]
pub enum RoomCause {
    /// The seed file is refused.
    SeedFile {
        /// The cause.
        cause: SeedCause,
    },
    /// A byte stands where the journal was to be made.
    NotEmpty,
}

impl Cause for RoomCause {
    ghost use Rattle.mw_causes.specs.RoomCauses.{room_status, room_line};

    ghost status_of = { room_status };

    ghost line_of = { room_line };

    fn status(&self) -> u8 {
        7
    }

    fn line(&self, alloc: Global) -> Result<String, Memory> {
        match self {
            RoomCause::SeedFile { cause } => cause.line(alloc),
            RoomCause::NotEmpty => Ok(String::from_str(alloc, "journal refused: NotEmpty\n")?),
        }
    }
}

impl From<Stop<SeedCause>> for Stop<RoomCause> {
    ghost use Rattle.mw_causes.specs.Ends.{stop_with};
    ghost use Rattle.mw_causes.specs.declared.room_cause.RoomCause.TheVariants.{SeedFile};

    ghost from_gives = { λ stop e. e ≡ stop_with SeedFile stop };

    fn from(stop: Stop<SeedCause>) -> Self {
        match stop {
            Stop::Fault => Stop::Fault,
            Stop::Memory => Stop::Memory,
            Stop::Refused { cause } => Stop::Refused {
                cause: RoomCause::SeedFile { cause },
            },
        }
    }
}

/// The stop for an error of making a journal: a fault of the disk is a fault, and `NotEmpty` a cause
/// of `new-room`'s own. Making judges no journal that is there, so the others stand for want of
/// memory.
pub fn room_stop(error: OpenError) -> Stop<RoomCause>
    ensures { result ≡ open_stop error }
{
    match error {
        OpenError::DiskFault => Stop::Fault,
        OpenError::NotEmpty => Stop::Refused {
            cause: RoomCause::NotEmpty,
        },
        OpenError::NotJournal { at: _ } => Stop::Memory,
        OpenError::OtherSeed { found: _ } => Stop::Memory,
        OpenError::Memory => Stop::Memory,
    }
}

/// The stop for an error of making the three journals of a pair room: a fault of a disk is a fault.
pub fn making_stop(error: PairError) -> Stop<RoomCause>
    requires { IsOfMaking error }
    ensures { result ≡ making_stop_lem error }
{
    match error {
        PairError::DiskFault { place: _ } => Stop::Fault,
        PairError::NotEmpty { place: _ } => Stop::Refused {
            cause: RoomCause::NotEmpty,
        },
        PairError::NotJournal { place: _, at: _ }
        | PairError::OtherSeed { place: _, found: _ }
        | PairError::BadChoice { at: _ }
        | PairError::BadRecord { at: _ }
        | PairError::ChoiceFull { len: _ } => unreachable!(),
        PairError::Memory => Stop::Memory,
    }
}

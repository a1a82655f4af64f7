ghost use Rattle.std.specs.Prelude.{◌≡◌, ◌≢◌, ◌<◌, ◌≤◌, ◌∷◌, [], IfOk, IfErr, IsTrue, Ok, is_some};
ghost use Rattle.mw_model.specs.Seed.{Seed};
ghost use Rattle.mw_multidata.specs.Digest.{digest_of};
ghost use Rattle.mw_multidata.specs.SeedOf.{SeedOf};
ghost use Rattle.mw_protocol.specs.Lives.{Life};
ghost use Rattle.mw_keep.specs.Entered.{AreSound};
ghost use Rattle.mw_keep.specs.Keeps.{Keeps, kept_disk};
ghost use Rattle.mw_drive.specs.Calls.{IsOutside};
ghost use Rattle.mw_drive.specs.Crashes.{IsAccepted, disk_left, error_of};
ghost use Rattle.mw_drive.specs.Drive.{life_recovered};
ghost use Rattle.mw_keep.specs.Left.{IsLeft};
ghost use Rattle.mw_script.specs.Commands.{crashes};
ghost use Rattle.mw_drive.specs.Left.{IsGoing};
ghost use Rattle.mw_drive.specs.Runs.{HasLife, IsOfRun};

use crate::error::{DriveError, JournalRefusal};
use mw_disk::Disk;
use mw_keep::{KeepError, KeptRoom, recover};
use std::alloc::Global;

/// The error for one of recovering a room, whose seed file is accepted.
pub fn drive_error(error: KeepError) -> DriveError
    ensures { result ≡ error_of error }
{
    match error {
        KeepError::DiskFault => DriveError::Fault,
        KeepError::NotJournal { at } => DriveError::Journal {
            refusal: JournalRefusal::NotJournal { at },
        },
        KeepError::OtherSeed { found } => DriveError::Journal {
            refusal: JournalRefusal::OtherSeed { found },
        },
        KeepError::BadRecord { at } => DriveError::Journal {
            refusal: JournalRefusal::BadRecord { at },
        },
        KeepError::BadSeed { kind: _, path: _ } | KeepError::Memory => DriveError::Memory,
    }
}

/// Drops a room, with what is pending, and recovers it from its journal.
pub(crate) fn crash<D: Disk>(
    alloc: Global,
    kept: KeptRoom<D>,
    file: &[u8],
) -> Result<KeptRoom<D>, (D, DriveError)>
    ensures ok { IfOk result (λ k. (seed : Seed) (life : Life) → SeedOf file.now (Ok seed)
        → Keeps D.may_leave (digest_of file.now) life kept → IsGoing seed life kept
        → IsTrue (is_some (D.told (kept_disk kept)))
        → Keeps D.may_leave (digest_of file.now) (life_recovered life) k
        × IsGoing seed (life_recovered life) k) }
    ensures left { IfErr result (λ e. (seed : Seed) (life : Life)
        → Keeps D.may_leave (digest_of file.now) life kept → IsGoing seed life kept
        → IsLeft (D.may_leave e.0) (digest_of file.now) life) }
    ensures outside { IfErr result (λ e. (seed : Seed) (life : Life) → SeedOf file.now (Ok seed)
        → Keeps D.may_leave (digest_of file.now) life kept → IsGoing seed life kept
        → IsTrue (is_some (D.told (kept_disk kept))) → AreSound seed life.room.journal
        → IsOutside e.1) }
    ensures own { IfErr result (λ e. e.1 ≢ DriveError.Full) }
    ensures ran { IfErr result (λ e. IsOfRun (crashes ∷ []) e.1) }
    ensures lives { IfOk result (λ k. IsAccepted file.now → HasLife D.may_leave file.now k) }
    ensures fault { IfErr result (λ e. IsAccepted file.now → e.1 ≡ DriveError.Fault
        → D.faults (kept_disk kept) < D.faults e.0) }
    ensures tells { is_some (D.told (disk_left result)) ≡ is_some (D.told (kept_disk kept)) }
    ensures count { D.faults (kept_disk kept) ≤ D.faults (disk_left result) }
{
    match recover(alloc, kept.into_disk(), file) {
        Ok(kept) => Ok(kept),
        Err((disk, error)) => Err((disk, drive_error(error))),
    }
}

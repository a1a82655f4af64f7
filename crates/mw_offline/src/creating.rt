//! Makes a journal on a disk.
ghost use Rattle.std.specs.Prelude.{◌≡◌, ◌≢◌, ◌≤◌, ℕ, List, [], Some, IfErr, OnOk};
ghost use Rattle.mw_journal.specs.Opening.{RefusesCreate};
ghost use Rattle.mw_journal.specs.Reads.{OnlyReads};
ghost use Rattle.mw_journal.specs.Settled.{AllShut};

use mw_disk::Disk;
use mw_journal::{OpenError, create};
use std::alloc::Global;

/// Makes an empty journal on a disk, and gives the disk back.
#[tactic(auto, using(crate::proofs::FirstGates::all_first))]
pub(crate) fn create_on<D: Disk>(
    alloc: Global,
    disk: D,
    digest: &[u8; 32],
) -> (D, Result<(), OpenError>)
    ensures ok { OnOk result.1 (AllShut (D.may_leave result.0) digest.now [] 40) }
    ensures empty { OnOk result.1 ((f : List ℕ) → D.told disk ≡ Some f → f ≡ []) }
    ensures refused { IfErr result.1
        (RefusesCreate (D.told disk) (D.faults disk) (D.faults result.0)) }
    ensures count { D.faults disk ≤ D.faults result.0 }
    ensures kept { result.1 ≡ Err OpenError.NotEmpty → OnlyReads D.told D.may_leave D.moment
        D.left_since D.faults disk result.0 }
    ensures bytes { (f : List ℕ) → D.told disk ≡ Some f → f ≢ [] → OnlyReads D.told D.may_leave
        D.moment D.left_since D.faults disk result.0 }
{
    match create(alloc, disk, digest) {
        Ok(journal) => (journal.into_disk(), Ok(())),
        Err((disk, error)) => (disk, Err(error)),
    }
}

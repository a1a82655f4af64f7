ghost use Rattle.std.specs.Prelude.{◌≡◌, ◌≢◌, ◌<◌, ◌≤◌, [], MatchResult, ℕ, List, IfOk, IfErr, OnOk, IsErrOf, Some, is_some};
ghost use Rattle.mw_journal.specs.Opening.{RefusesCreate, open_error_of};
ghost use Rattle.mw_journal.specs.Journal.{StandsFor, disk_of, gate_of};
ghost use Rattle.mw_journal.specs.Reads.{OnlyReads};
ghost use Rattle.mw_journal.specs.Settled.{AllShut};

use crate::error::OpenError;
use crate::header::empty_journal;
use crate::journal::Journal;
use crate::steps::put_safely;
use mw_disk::{Disk, DiskError};
use std::alloc::Global;

/// The error of opening for one of the disk.
pub(crate) fn open_error(error: DiskError) -> OpenError
    ensures { result ≡ open_error_of error }
{
    match error {
        DiskError::Failed => OpenError::DiskFault,
        DiskError::Memory => OpenError::Memory,
    }
}

/// Writes the header and a gate that isn't open, if no byte stands.
fn write_empty<D: Disk>(alloc: Global, disk: &mut D, digest: &[u8; 32]) -> Result<(), OpenError>
    ensures ok { OnOk result (AllShut (D.may_leave disk.new) digest.now [] 40) }
    ensures empty { OnOk result ((f : List ℕ) → D.told disk.old ≡ Some f → f ≡ []) }
    ensures refused { IfErr result
        (RefusesCreate (D.told disk.old) (D.faults disk.old) (D.faults disk.new)) }
    ensures tells { is_some (D.told disk.new) ≡ is_some (D.told disk.old) }
    ensures count { D.faults disk.old ≤ D.faults disk.new }
    ensures kept { IsErrOf result OpenError.NotEmpty → OnlyReads D.told D.may_leave D.moment
        D.left_since D.faults disk.old disk.new }
    ensures untouched { (f : List ℕ) → D.told disk.old ≡ Some f → f ≢ []
        → OnlyReads D.told D.may_leave D.moment D.left_since D.faults disk.old disk.new }
{
    let mut first = [0; 1];
    let count = match disk.read(0, &mut first) {
        Ok(count) => count,
        Err(error) => return Err(open_error(error)),
    };
    if count > 0 {
        return Err(OpenError::NotEmpty);
    }
    let Ok(bytes) = empty_journal(alloc, digest) else {
        return Err(OpenError::Memory);
    };
    match put_safely(disk, 0, bytes.as_slice()) {
        Ok(()) => Ok(()),
        Err(error) => Err(open_error(error)),
    }
}

/// Makes an empty journal of a seed file's digest, on a disk without bytes. Its gate is at 40.
///
/// `NotEmpty` comes exactly where a byte stands. Where one does nothing is written, whatever is
/// answered. `DiskFault` comes only where the disk's count rose.
pub fn create<D: Disk>(
    alloc: Global,
    disk: D,
    digest: &[u8; 32],
) -> Result<Journal<D>, (D, OpenError)>
    ensures ok { IfOk result (StandsFor D.may_leave digest.now []) }
    ensures gate { IfOk result (λ j. gate_of j ≡ 40) }
    ensures tells { IfOk result (λ j. is_some (D.told (disk_of j)) ≡ is_some (D.told disk)) }
    ensures empty { OnOk result ((f : List ℕ) → D.told disk ≡ Some f → f ≡ []) }
    ensures refused { IfErr result (λ e.
        RefusesCreate (D.told disk) (D.faults disk) (D.faults e.0) e.1) }
    ensures count { MatchResult result (λ j. D.faults disk ≤ D.faults (disk_of j))
        (λ e. D.faults disk ≤ D.faults e.0) }
    ensures kept { IfErr result (λ e. e.1 ≡ OpenError.NotEmpty → OnlyReads D.told D.may_leave
        D.moment D.left_since D.faults disk e.0) }
    ensures untouched { (f : List ℕ) → D.told disk ≡ Some f → f ≢ [] → IfErr result (λ e.
        OnlyReads D.told D.may_leave D.moment D.left_since D.faults disk e.0) }
{
    let mut disk = disk;
    match write_empty(alloc, &mut disk, digest) {
        Ok(()) => Ok(Journal::at_gate(alloc, disk, 40)),
        Err(error) => Err((disk, error)),
    }
}

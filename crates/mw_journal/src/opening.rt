ghost use Rattle.std.specs.Prelude.{◌≡◌, ◌<◌, ◌≤◌, ◌^◌, ◌⊎◌, ◌++◌, ℕ, List, IfOk, IfErr, OnOk, Some, is_some};
ghost use Rattle.mw_disk.specs.Crash.{LeavesOnly, OnlyTold};
ghost use Rattle.mw_journal.specs.Image.{IsShut, StandsAt};
ghost use Rattle.mw_journal.specs.Opening.{RefusesOpen, IsOfBytes, IsOutside};
ghost use Rattle.mw_journal.specs.Journal.{StandsFor, disk_after, gate_of};
ghost use Rattle.mw_journal.specs.Reads.{OnlyReads};
ghost use Rattle.mw_journal.specs.Settled.{IsSettled, AllShut, AllSettled};

use crate::creating::open_error;
use crate::error::OpenError;
use crate::journal::Journal;
use crate::scan::{Found, read_journal};
use crate::steps::put_safely;
use mw_base::Bytes;
use mw_disk::Disk;
use std::alloc::Global;

/// Makes all bytes safe, and reads them.
fn look<D: Disk>(alloc: Global, disk: &mut D, digest: &[u8; 32]) -> Result<Found, OpenError>
    ensures reads { OnlyReads D.told D.may_leave D.moment D.left_since D.faults disk.old disk.new }
    ensures safe { OnOk result (OnlyTold (D.told disk.new) (D.may_leave disk.new)) }
    ensures within { IfOk result (λ found. found.place < 2 ^ 30) }
    ensures found { IfOk result (λ found. (f : List ℕ) → D.told disk.old ≡ Some f
        → IsShut f digest.now found.text.items found.place found.gate) }
    ensures refused { IfErr result (RefusesOpen (D.told disk.old) digest.now
        (D.faults disk.old) (D.faults disk.new)) }
{
    if let Err(error) = disk.sync() {
        return Err(open_error(error));
    }
    read_journal(alloc, disk, digest)
}

/// Reads a journal, and writes 0 at its first gate that isn't open, where it isn't 0.
fn open_bytes<D: Disk>(alloc: Global, disk: &mut D, digest: &[u8; 32]) -> Result<Found, OpenError>
    ensures any_moment { (text body : List ℕ)
        → AllSettled (D.may_leave disk.old) digest.now text body
        → LeavesOnly D.moment D.left_since disk.old disk.new
        (λ c. IsSettled c digest.now text body) }
    ensures shut { IfOk result (λ found.
        AllShut (D.may_leave disk.new) digest.now found.text.items found.place) }
    ensures within { IfOk result (λ found. found.place < 2 ^ 30) }
    ensures stands { IfOk result (λ found. (f : List ℕ) → D.told disk.old ≡ Some f
        → StandsAt f digest.now found.text.items found.place) }
    ensures refused { IfErr result (RefusesOpen (D.told disk.old) digest.now
        (D.faults disk.old) (D.faults disk.new)) }
    ensures read { IfErr result (λ e. IsOfBytes e → OnlyReads D.told D.may_leave D.moment
        D.left_since D.faults disk.old disk.new) }
    ensures tells { is_some (D.told disk.new) ≡ is_some (D.told disk.old) }
    ensures count { D.faults disk.old ≤ D.faults disk.new }
{
    let found = match look(alloc, disk, digest) {
        Ok(found) => found,
        Err(error) => return Err(error),
    };
    if found.gate == 0 {
        return Ok(found);
    }
    match put_safely(disk, found.place, &[0]) {
        Ok(()) => Ok(found),
        Err(error) => Err(open_error(error)),
    }
}

/// Opens a journal of a seed file's digest, and gives its text: the bodies behind the open gates,
/// joined.
///
/// Where the first gate that isn't open isn't 0, it is written 0. At each moment of the call a
/// crash leaves what it might have left before: a settled journal stays settled. It then gives the
/// text, or the text and the batch whose append was cut short, and each image of the disk stands
/// for just that. A disk that tells its bytes goes on to tell them.
///
/// `NotJournal` and `OtherSeed` come exactly where the bytes are no journal or another seed's, and
/// then nothing is written. `DiskFault` comes only where the disk's count rose.
pub fn open<D: Disk>(
    alloc: Global,
    disk: D,
    digest: &[u8; 32],
) -> Result<(Journal<D>, Bytes), (D, OpenError)>
    ensures any_moment { (text body : List ℕ)
        → AllSettled (D.may_leave disk) digest.now text body
        → LeavesOnly D.moment D.left_since disk (disk_after result)
        (λ c. IsSettled c digest.now text body) }
    ensures ok { IfOk result (λ r. StandsFor D.may_leave digest.now r.1 r.0) }
    ensures stands { IfOk result (λ r. (f : List ℕ) → D.told disk ≡ Some f
        → StandsAt f digest.now r.1 (gate_of r.0)) }
    ensures one { IfOk result (λ r. (f text body : List ℕ) → D.told disk ≡ Some f
        → AllSettled (D.may_leave disk) digest.now text body
        → (r.1 ≡ text) ⊎ (r.1 ≡ text ++ body)) }

    ensures refused { IfErr result (λ e. RefusesOpen (D.told disk) digest.now
        (D.faults disk) (D.faults e.0) e.1) }
    ensures read { IfErr result (λ e. IsOfBytes e.1 → OnlyReads D.told D.may_leave D.moment
        D.left_since D.faults disk e.0) }
    ensures tells { is_some (D.told (disk_after result)) ≡ is_some (D.told disk) }
    ensures count { D.faults disk ≤ D.faults (disk_after result) }
    ensures settled { IfErr result (λ e. (f text body : List ℕ) → D.told disk ≡ Some f
        → AllSettled (D.may_leave disk) digest.now text body → IsOutside e.1) }
{
    let mut disk = disk;
    match open_bytes(alloc, &mut disk, digest) {
        Ok(found) => {
            let Found {
                text,
                place,
                gate: _,
            } = found;
            let journal = Journal::at_gate(alloc, disk, place);
            Ok((journal, Bytes::from_vec(text)))
        }
        Err(error) => Err((disk, error)),
    }
}

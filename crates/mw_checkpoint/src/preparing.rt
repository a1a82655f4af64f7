ghost use Rattle.std.specs.Prelude.{◌≡◌, ◌≤◌, ◌++◌, ◌⊎◌, List, ℕ, IfOk, IfErr, Some, is_some, length, map};
ghost use Rattle.mw_disk.specs.Crash.{LeavesOnly};
ghost use Rattle.mw_journal.specs.Image.{Stands};
ghost use Rattle.mw_journal.specs.Reads.{OnlyReads};
ghost use Rattle.mw_journal.specs.Settled.{IsSettled, AllSettled};
ghost use Rattle.mw_protocol.specs.Records.{Record as PlainRecord};
ghost use Rattle.mw_protocol.specs.Spelled.{records_bytes};
ghost use Rattle.mw_records.specs.Records.{record_view};
ghost use Rattle.mw_thinning.specs.Thinning.{thinned};
ghost use Rattle.mw_checkpoint.specs.Choices.{AreChoices, named_in};
ghost use Rattle.mw_checkpoint.specs.Chosen.{IsChosen};
ghost use Rattle.mw_checkpoint.specs.Pair.{HoldsText, PairStands, files_then, journal_at, journal_place, other_of, pick};
ghost use Rattle.mw_checkpoint.specs.Preparing.{Prepares, RefusesPrepare, RefusesReading, RefusesWriting};
ghost use Rattle.mw_checkpoint.specs.Refused.{IsNoJournal};
ghost use Rattle.mw_checkpoint.specs.Disks.{disk_read, disk_then};
ghost use Rattle.mw_checkpoint.specs.Whole.{AreRecords};

use crate::appending::append;
use crate::error::{PairError, append_error, disk_error, pair_error};
use crate::files::Files;
use crate::prepared::Prepared;
use crate::reading::{records_of, spelled};
use crate::thinning::thin;
use mw_base::{Bytes, List, Memory};
use mw_disk::Disk;
use mw_journal::{create, open};
use mw_records::{Record, RecordError};
use std::alloc::Global;

/// The number of the other journal.
fn other_number(named: u8) -> u8
    ensures { result ≡ other_of named }
{
    if named == 0 { 1 } else { 0 }
}

/// The place of a journal among the three files.
fn place_of(named: u8) -> u8
    ensures { result ≡ journal_place named }
{
    if named == 0 { 1 } else { 2 }
}

/// Opens the journal at a place, and reads its records.
fn read_records<D: Disk>(
    alloc: Global,
    place: u8,
    disk: D,
    digest: &[u8; 32],
) -> Result<(D, List<Record>), (D, PairError)>
    ensures holds { IfOk result (λ r.
        HoldsText D.may_leave digest.now (records_bytes (map record_view r.1)) r.0) }
    ensures records { IfOk result (λ r. AreRecords (map record_view r.1)) }
    ensures stands { IfOk result (λ r. (f : List ℕ) → D.told disk ≡ Some f
        → Stands f digest.now (records_bytes (map record_view r.1))) }
    ensures one { IfOk result (λ r. (f text body : List ℕ) → D.told disk ≡ Some f
        → AllSettled (D.may_leave disk) digest.now text body
        → (records_bytes (map record_view r.1) ≡ text)
        ⊎ (records_bytes (map record_view r.1) ≡ text ++ body)) }
    ensures any_moment { (text body : List ℕ)
        → AllSettled (D.may_leave disk) digest.now text body
        → LeavesOnly D.moment D.left_since disk (disk_read result)
        (λ c. IsSettled c digest.now text body) }
    ensures refused { IfErr result (λ e. RefusesReading place (D.told disk) digest.now
        (D.faults disk) (D.faults e.0) e.1) }
    ensures read { IfErr result (λ e. IsNoJournal e.1 → OnlyReads D.told D.may_leave D.moment
        D.left_since D.faults disk e.0) }
    ensures tells { is_some (D.told (disk_read result)) ≡ is_some (D.told disk) }
    ensures count { D.faults disk ≤ D.faults (disk_read result) }
{
    match open(alloc, disk, digest) {
        Ok((journal, text)) => {
            let read = records_of(alloc, text.as_slice());
            let disk = journal.into_disk();
            match read {
                Ok(records) => Ok((disk, records)),
                Err(RecordError::BadRecord { at }) => Err((disk, PairError::BadRecord { at })),
                Err(RecordError::Memory) => Err((disk, PairError::Memory)),
            }
        }
        Err((disk, error)) => Err((disk, pair_error(place, error))),
    }
}

/// How many of the records still count, and their spellings, one after another.
fn thin_bytes(alloc: Global, records: &List<Record>) -> Result<(u64, Bytes), Memory>
    ensures count { IfOk result (λ r. r.0 ≡ length (thinned (map record_view records.now))) }
    ensures bytes { IfOk result (λ r.
        r.1 ≡ records_bytes (thinned (map record_view records.now))) }
{
    let kept = thin(alloc, records)?;
    let bytes = spelled(alloc, kept.as_slice())?;
    Ok((kept.len() as u64, bytes))
}

/// Makes the journal at a place anew, with these bytes as its one batch, or none where they are
/// none.
fn write_anew<D: Disk>(
    alloc: Global,
    place: u8,
    disk: D,
    digest: &[u8; 32],
    bytes: &Bytes,
) -> Result<D, (D, PairError)>
    ensures ok { IfOk result (HoldsText D.may_leave digest.now bytes.now) }
    ensures refused { IfErr result (λ e. RefusesWriting place (D.told disk)
        (D.faults disk) (D.faults e.0) e.1) }
    ensures count { D.faults disk ≤ D.faults (disk_then result) }
{
    let mut disk = disk;
    if let Err(error) = disk.cut(0) {
        return Err((disk, disk_error(place, error)));
    }
    if let Err(error) = disk.sync() {
        return Err((disk, disk_error(place, error)));
    }
    let journal = match create(alloc, disk, digest) {
        Ok(journal) => journal,
        Err((disk, error)) => return Err((disk, pair_error(place, error))),
    };
    if bytes.as_slice().is_empty() {
        return Ok(journal.into_disk());
    }
    match append(journal, bytes) {
        Ok(disk) => Ok(disk),
        Err((disk, error)) => Err((disk, append_error(place, error))),
    }
}

/// Prepares a switch to the other journal: opens the journal of this number, which CHOICE names,
/// cuts the other one to nothing, and writes there what still counts of the records, as one batch.
/// CHOICE isn't touched.
///
/// At each moment of the call a crash leaves of the journal that is named what `open` leaves: where
/// it was settled it stays settled.
///
/// `NotJournal`, `OtherSeed` and `BadRecord` come exactly where the journal that is named is no
/// journal, another seed's, or not whole records, and then the other isn't touched. `DiskFault`
/// comes only where the count of its disk rose. `NotEmpty` comes of no disk that tells its bytes.
pub fn prepare<D: Disk>(
    alloc: Global,
    files: Files<D>,
    digest: &[u8; 32],
    named: u8,
) -> Result<Prepared<D>, (Files<D>, PairError)>
    requires { IsChosen D.may_leave digest.now named files.choice }
    ensures prepares { IfOk result (Prepares D.told D.may_leave digest.now named files) }
    ensures choice { (files_then result).choice ≡ files.choice }
    ensures any_moment { (text body : List ℕ)
        → AllSettled (D.may_leave (journal_at named files)) digest.now text body
        → LeavesOnly D.moment D.left_since (journal_at named files)
        (journal_at named (files_then result)) (λ c. IsSettled c digest.now text body) }
    ensures pairs { (text : List ℕ) (kept batch : List PlainRecord)
        → HoldsText D.may_leave digest.now text files.choice → AreChoices text
        → named ≡ named_in text
        → AllSettled (D.may_leave (journal_at named files)) digest.now
        (records_bytes kept) (records_bytes batch)
        → (c image other : List ℕ) → D.may_leave files.choice c
        → D.left_since (journal_at named (files_then result))
        (D.moment (journal_at named files)) image
        → PairStands c (pick named image other) (pick named other image) digest.now kept
        ⊎ PairStands c (pick named image other) (pick named other image) digest.now
        (kept ++ batch) }

    ensures refused { IfErr result (λ e. RefusesPrepare D.told D.faults digest.now named
        files e.0 e.1) }
    ensures read { IfErr result (λ e. IsNoJournal e.1 → OnlyReads D.told D.may_leave D.moment
        D.left_since D.faults (journal_at named files) (journal_at named e.0)) }
    ensures count { (D.faults (journal_at named files)
        ≤ D.faults (journal_at named (files_then result)))
        × (D.faults (journal_at (other_of named) files)
        ≤ D.faults (journal_at (other_of named) (files_then result))) }
{
    let (choice, chosen, other) = files.split(named);
    let (chosen, records) = match read_records(alloc, place_of(named), chosen, digest) {
        Ok(read) => read,
        Err((chosen, error)) => {
            return Err((Files::join(named, choice, chosen, other), error));
        }
    };
    let (kept, bytes) = match thin_bytes(alloc, &records) {
        Ok(thinned) => thinned,
        Err(Memory) => {
            return Err((Files::join(named, choice, chosen, other), PairError::Memory));
        }
    };
    let number = other_number(named);
    match write_anew(alloc, place_of(number), other, digest, &bytes) {
        Ok(other) => {
            let files = Files::join(named, choice, chosen, other);
            let of = records.len() as u64;
            Ok(Prepared::new(files, *digest, number, kept, of))
        }
        Err((other, error)) => Err((Files::join(named, choice, chosen, other), error)),
    }
}

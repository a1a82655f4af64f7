ghost use Rattle.std.specs.Prelude.{◌≡◌, ◌≢◌, ◌<◌, ◌≤◌, [], ℕ, List, IfOk, IfErr, OnOk, Ok, Err, Some, is_some, length};
ghost use Rattle.mw_disk.specs.Crash.{LeavesOnly};
ghost use Rattle.mw_json.specs.Grammar.{Breach};
ghost use Rattle.mw_journal.specs.Reads.{OnlyReads};
ghost use Rattle.mw_journal.specs.Settled.{IsSettled, AllSettled};
ghost use Rattle.mw_model.specs.Seed.{Seed};
ghost use Rattle.mw_multidata.specs.Digest.{digest_of};
ghost use Rattle.mw_multidata.specs.SeedOf.{SeedOf};
ghost use Rattle.mw_protocol.specs.Lives.{Life, Step, life_after_all};
ghost use Rattle.mw_protocol.specs.Records.{Record};
ghost use Rattle.mw_protocol.specs.Rooms.{Room as Plain, empty_room};
ghost use Rattle.mw_protocol.specs.Spelled.{records_bytes};
ghost use Rattle.mw_room.specs.Represents.{Represents};
ghost use Rattle.mw_keep.specs.Entered.{AreSound, IsEntered, HasEntered, RefusesRecord, RefusesText};
ghost use Rattle.mw_keep.specs.Left.{GoesOn, WasLeft};
ghost use Rattle.mw_keep.specs.Standing.{HasLived, first_disk};
ghost use Rattle.mw_keep.specs.Keeps.{kept_disk};
ghost use Rattle.mw_keep.specs.Recovers.{IsNoJournal, IsOutside, Resumes, Recovers, RefusesResume, RefusesRecover, disk_left, keep_error_of};

use crate::error::KeepError;
use crate::kept::KeptRoom;
use crate::laws::{journals_are_named, names_fit};
use mw_base::Memory;
use mw_disk::Disk;
use mw_journal::{OpenError, open};
use mw_multidata::{DataRefusal, Multidata, RoomTables, digest, read};
use mw_records::{RecordError, decode};
use mw_room::Room;
use std::alloc::Global;

/// A room that nobody has entered.
fn room_of(alloc: Global, multidata: Multidata) -> Result<Room, Memory>
    ensures { IfOk result (λ r. Represents r (empty_room multidata)) }
{
    let tables = RoomTables::of(alloc, multidata)?;
    Room::new(alloc, tables)
}

/// Enters the record that begins at a place, and gives the place after it.
#[tactic(auto, using(crate::proofs::Appending::some_bytes))]
fn enter_one(alloc: Global, room: &mut Room, text: &[u8], at: u64) -> Result<u64, KeepError>
    ensures entered { IfOk result (λ next. (r : Plain) → Represents room.old r
        → IsEntered r text.now at next room.new) }
    ensures further { IfOk result (λ next. at < next) }
    ensures refused { IfErr result (λ e. (r : Plain) → Represents room.old r
        → RefusesRecord r.seed text.now at e) }
{
    match decode(alloc, text, at) {
        Ok((record, next)) => match room.enter(&record) {
            Ok(true) => Ok(next),
            Ok(false) => Err(KeepError::BadRecord { at }),
            Err(_) => Err(KeepError::Memory),
        },
        Err(RecordError::BadRecord { at }) => Err(KeepError::BadRecord { at }),
        Err(RecordError::Memory) => Err(KeepError::Memory),
    }
}

/// Enters the records of a journal's text, one after another.
fn enter_all(alloc: Global, room: &mut Room, text: &[u8]) -> Result<(), KeepError>
    ensures entered { OnOk result ((seed : Seed) → Represents room.old (empty_room seed)
        → HasEntered seed text.now (length text.now) room.new) }
    ensures refused { IfErr result (λ e. (seed : Seed) → Represents room.old (empty_room seed)
        → RefusesText seed text.now e) }
{
    let mut at = 0;
    while (at as usize) < text.len() {
        match enter_one(alloc, room, text, at) {
            Ok(next) => at = next,
            Err(error) => return Err(error),
        }
    }
    Ok(())
}

/// The error of a room for one of its journal.
fn keep_error(error: OpenError) -> KeepError
    requires { error ≢ OpenError.NotEmpty }
    ensures { result ≡ keep_error_of error }
{
    match error {
        OpenError::DiskFault => KeepError::DiskFault,
        OpenError::NotEmpty => unreachable!(),
        OpenError::NotJournal { at } => KeepError::NotJournal { at },
        OpenError::OtherSeed { found } => KeepError::OtherSeed { found },
        OpenError::Memory => KeepError::Memory,
    }
}

/// Makes the room of a journal anew, that of a seed with this digest. A life begins: with all that
/// was committed in the life before, where a crash left it, and maybe some of the first records that
/// were pending.
///
/// A journal's first gate that isn't open is written 0, where it isn't 0. At each moment of the
/// call a crash leaves what it might have left before: records that were settled stay settled.
///
/// `NotJournal`, `OtherSeed` and `BadRecord` come exactly where the bytes are so, in this order,
/// and never where each image of the disk is settled for records of the seed, as those are that a
/// room of it wrote; with the first two nothing is written. `DiskFault` comes only where the disk's
/// count rose.
pub fn resume<D: Disk>(
    alloc: Global,
    disk: D,
    multidata: Multidata,
    digest: &[u8; 32],
) -> Result<KeptRoom<D>, (D, KeepError)>
    ensures fresh { IfOk result (λ k. HasLived D.may_leave D.told D.faults k []) }
    ensures disk { IfOk result (λ k. first_disk k ≡ kept_disk k) }
    ensures resumes { IfOk result (Resumes D.told D.may_leave digest.now multidata disk) }
    ensures refused { IfErr result (λ e. RefusesResume (D.told disk) digest.now multidata
        (D.faults disk) (D.faults e.0) e.1) }
    ensures settled { IfErr result (λ e. (f : List ℕ) (kept batch : List Record)
        → D.told disk ≡ Some f → AreSound multidata kept → AreSound multidata batch
        → AllSettled (D.may_leave disk) digest.now (records_bytes kept) (records_bytes batch)
        → IsOutside e.1) }
    ensures goes_on { IfOk result (λ k. (life : Life)
        → WasLeft (D.told disk) (D.may_leave disk) digest.now multidata life
        → GoesOn D.may_leave digest.now life k) }
    ensures accepted { IfErr result (λ e. (steps : List Step)
        → WasLeft (D.told disk) (D.may_leave disk) digest.now multidata
        (life_after_all multidata steps) → IsOutside e.1) }
    ensures read { IfErr result (λ e. IsNoJournal e.1 → OnlyReads D.told D.may_leave D.moment
        D.left_since D.faults disk e.0) }
    ensures any_moment { (text body : List ℕ)
        → AllSettled (D.may_leave disk) digest.now text body
        → LeavesOnly D.moment D.left_since disk (disk_left result)
        (λ c. IsSettled c digest.now text body) }
    ensures tells { is_some (D.told (disk_left result)) ≡ is_some (D.told disk) }
    ensures count { D.faults disk ≤ D.faults (disk_left result) }
{
    // What a room of the seed wrote names only what the seed has.
    names_fit(&multidata);
    journals_are_named();
    let Ok(mut room) = room_of(alloc, multidata) else {
        return Err((disk, KeepError::Memory));
    };
    match open(alloc, disk, digest) {
        Ok((journal, text)) => match enter_all(alloc, &mut room, text.as_slice()) {
            Ok(()) => Ok(KeptRoom::new(alloc, room, journal)),
            Err(error) => Err((journal.into_disk(), error)),
        },
        Err((disk, error)) => Err((disk, keep_error(error))),
    }
}

/// Makes the room of a journal anew, that of a seed file's bytes, which are judged first.
///
/// `BadSeed` comes exactly where the seed file is refused, and then the disk isn't touched. All
/// else is as `resume` says.
pub fn recover<D: Disk>(
    alloc: Global,
    disk: D,
    multidata: &[u8],
) -> Result<KeptRoom<D>, (D, KeepError)>
    ensures fresh { IfOk result (λ k. HasLived D.may_leave D.told D.faults k []) }
    ensures disk { IfOk result (λ k. first_disk k ≡ kept_disk k) }
    ensures recovers { IfOk result (Recovers D.told D.may_leave multidata.now
        (digest_of multidata.now) disk) }
    ensures refused { IfErr result (λ e. RefusesRecover (D.told disk) multidata.now
        (digest_of multidata.now) (D.faults disk) (D.faults e.0) e.1) }
    ensures settled { IfErr result (λ e. (seed : Seed) → SeedOf multidata.now (Ok seed)
        → (f : List ℕ) (kept batch : List Record)
        → D.told disk ≡ Some f → AreSound seed kept → AreSound seed batch
        → AllSettled (D.may_leave disk) (digest_of multidata.now) (records_bytes kept)
        (records_bytes batch) → IsOutside e.1) }
    ensures goes_on { IfOk result (λ k. (seed : Seed) (life : Life) → SeedOf multidata.now (Ok seed)
        → WasLeft (D.told disk) (D.may_leave disk) (digest_of multidata.now) seed life
        → GoesOn D.may_leave (digest_of multidata.now) life k) }
    ensures accepted { IfErr result (λ e. (seed : Seed) (steps : List Step)
        → SeedOf multidata.now (Ok seed)
        → WasLeft (D.told disk) (D.may_leave disk) (digest_of multidata.now) seed
        (life_after_all seed steps) → IsOutside e.1) }
    ensures read { IfErr result (λ e. IsNoJournal e.1 → OnlyReads D.told D.may_leave D.moment
        D.left_since D.faults disk e.0) }
    ensures untouched { (breach : Breach) → SeedOf multidata.now (Err breach)
        → disk_left result ≡ disk }
    ensures any_moment { (text body : List ℕ)
        → AllSettled (D.may_leave disk) (digest_of multidata.now) text body
        → LeavesOnly D.moment D.left_since disk (disk_left result)
        (λ c. IsSettled c (digest_of multidata.now) text body) }
    ensures tells { is_some (D.told (disk_left result)) ≡ is_some (D.told disk) }
    ensures count { D.faults disk ≤ D.faults (disk_left result) }
{
    match read(alloc, multidata) {
        Ok(seed) => resume(alloc, disk, seed, &digest(multidata)),
        Err(DataRefusal::Memory) => Err((disk, KeepError::Memory)),
        Err(DataRefusal::Named { kind, path }) => Err((disk, KeepError::BadSeed { kind, path })),
    }
}

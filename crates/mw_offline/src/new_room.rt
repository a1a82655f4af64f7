//! The command `new-room`.
ghost use Rattle.std.specs.Prelude.{◌≡◌, ◌≤◌, ◌⊎◌, [], IfErr, OnOk, true, false};
ghost use Rattle.mw_edges.specs.Causes.{Rose};
ghost use Rattle.mw_journal.specs.Settled.{AllShut};
ghost use Rattle.mw_causes.specs.Ends.{HasLeft, told_by};
ghost use Rattle.mw_offline.specs.FilesAround.{files_around, OthersStay, IsOnlyRead};
ghost use Rattle.mw_offline.specs.NewRooms.{IsEmpty, ShowsByte, HasJournalCause, HasRoomCause};
ghost use Rattle.mw_offline.specs.NewRooms.{NoRoom, MakesSome, MakesRoom, NewRoomEnds};
ghost use Rattle.mw_offline.specs.PairRooms.{PairRoomEnds};

use crate::creating::create_on;
use crate::new_pair::new_pair;
use mw_base::Text;
use mw_causes::{RoomCause, Stop, end, put_text, read_digest, room_stop};
use mw_edges::{Folder, FolderError, Sink};
use mw_words::NewRoomWords;
use std::alloc::Global;

/// Makes an empty journal in a file without bytes, or in one that isn't there. Its disk is closed
/// again.
fn make_journal<F: Folder>(
    alloc: Global,
    folder: &mut F,
    name: &Text,
    digest: &[u8; 32],
) -> Result<(), Stop<RoomCause>>
    ensures ok { OnOk result (AllShut (F.images folder.new name.now) digest.now [] 40) }
    ensures empty { OnOk result (IsEmpty (F.holds folder.old name.now)) }
    ensures refused { IfErr result (HasJournalCause (F.holds folder.old name.now)) }
    ensures fault { result ≡ Err Stop.Fault → Rose (F.faults folder.old) (F.faults folder.new) }
    ensures later { F.faults folder.old ≤ F.faults folder.new }
    ensures kept { result ≡ Err (Stop.Refused RoomCause.NotEmpty)
        → IsOnlyRead (files_around F.holds F.images F.is_open F.may_fail F.faults
        folder.old folder.new) name.now }
    ensures bytes { ShowsByte (F.holds folder.old name.now)
        → IsOnlyRead (files_around F.holds F.images F.is_open F.may_fail F.faults
        folder.old folder.new) name.now }
    ensures others { OthersStay (files_around F.holds F.images F.is_open F.may_fail F.faults
        folder.old folder.new) name.now }
{
    let disk = match folder.open_disk(alloc, name) {
        Ok(disk) => disk,
        Err(FolderError::Failed) => return Err(Stop::Fault),
        Err(FolderError::Memory) => return Err(Stop::Memory),
    };
    let (disk, created) = create_on(alloc, disk, digest);
    folder.close_disk(name, disk);
    match created {
        Ok(()) => Ok(()),
        Err(error) => Err(room_stop(error)),
    }
}

/// Does all that `new-room` does but for its error line.
fn new_room<F: Folder, O: Sink>(
    alloc: Global,
    words: &NewRoomWords,
    folder: &mut F,
    out: &mut O,
) -> Result<(), Stop<RoomCause>>
    ensures done { OnOk result
        (MakesRoom (files_around F.holds F.images F.is_open F.may_fail F.faults
        folder.old folder.new) words.now (O.held out.old) (O.held out.new)) }
    ensures left { IfErr result
        (HasLeft (HasRoomCause (files_around F.holds F.images F.is_open F.may_fail F.faults
        folder.old folder.new) words.now)
        (NoRoom (files_around F.holds F.images F.is_open F.may_fail F.faults
        folder.old folder.new) words.now (O.held out.old) (O.held out.new))
        (MakesSome (files_around F.holds F.images F.is_open F.may_fail F.faults
        folder.old folder.new) words.now (O.held out.old) (O.held out.new))
        (Rose (F.faults folder.old) (F.faults folder.new)
        ⊎ Rose (O.faults out.old) (O.faults out.new))) }
    ensures fault { result ≡ Err Stop.Fault
        → Rose (F.faults folder.old) (F.faults folder.new)
        ⊎ Rose (O.faults out.old) (O.faults out.new) }
    ensures others { OthersStay (files_around F.holds F.images F.is_open F.may_fail F.faults
        folder.old folder.new) words.now.journal }
    ensures bytes { ShowsByte (F.holds folder.old words.now.journal)
        → IsOnlyRead (files_around F.holds F.images F.is_open F.may_fail F.faults
        folder.old folder.new) words.now.journal }
{
    let digest = read_digest(alloc, folder, &words.multidata)?;
    make_journal(alloc, folder, &words.journal, &digest)?;
    put_text(out, "room made\n")
}

/// Makes the journal of a room, and tells how it ended.
fn create_room<F: Folder, O: Sink, E: Sink>(
    alloc: Global,
    words: &NewRoomWords,
    folder: &mut F,
    out: &mut O,
    err: &mut E,
) -> u8
    ensures ends { NewRoomEnds result
        (files_around F.holds F.images F.is_open F.may_fail F.faults folder.old folder.new)
        words.now (told_by O.held O.faults out.old out.new)
        (told_by E.held E.refusals err.old err.new) }
    ensures fault { result ≡ 5
        → Rose (F.faults folder.old) (F.faults folder.new)
        ⊎ Rose (O.faults out.old) (O.faults out.new) }
{
    let outcome = new_room(alloc, words, folder, out);
    end(alloc, err, outcome)
}

/// Makes the three journals of a pair room, and tells how it ended.
fn create_pair_room<F: Folder, O: Sink, E: Sink>(
    alloc: Global,
    words: &NewRoomWords,
    folder: &mut F,
    out: &mut O,
    err: &mut E,
) -> u8
    ensures ends { PairRoomEnds result
        (files_around F.holds F.images F.is_open F.may_fail F.faults folder.old folder.new)
        words.now (told_by O.held O.faults out.old out.new)
        (told_by E.held E.refusals err.old err.new) }
    ensures fault { result ≡ 5
        → Rose (F.faults folder.old) (F.faults folder.new)
        ⊎ Rose (O.faults out.old) (O.faults out.new) }
{
    let outcome = new_pair(alloc, words, folder, out);
    end(alloc, err, outcome)
}

/// Makes an empty journal for a seed file, in a file without bytes or in one that isn't there, and
/// prints that; or with `--pair` the three empty journals of a pair room, of which the words name
/// CHOICE.
///
/// The status is 0 where all is done: whatever a crash then leaves of each journal's file stands for
/// no records of that seed file. It is 5 where the folder, a journal's disk or the out sink failed;
/// 6 where memory ran out; 7 where the seed file is refused, and then no journal's file is touched,
/// or where a byte stands in such a file. Where one does nothing is written in that file, whatever
/// the status is; the three files of a pair room are opened before one is judged, and those before
/// the refused one are made. With a status other than 0 the error sink gets that status's line, or a
/// front of it where it refuses.
pub fn cmd_new_room<F: Folder, O: Sink, E: Sink>(
    alloc: Global,
    words: &NewRoomWords,
    folder: &mut F,
    out: &mut O,
    err: &mut E,
) -> u8
    ensures ends { words.now.pair ≡ false → NewRoomEnds result
        (files_around F.holds F.images F.is_open F.may_fail F.faults folder.old folder.new)
        words.now (told_by O.held O.faults out.old out.new)
        (told_by E.held E.refusals err.old err.new) }
    ensures pair { words.now.pair ≡ true → PairRoomEnds result
        (files_around F.holds F.images F.is_open F.may_fail F.faults folder.old folder.new)
        words.now (told_by O.held O.faults out.old out.new)
        (told_by E.held E.refusals err.old err.new) }
    ensures fault { result ≡ 5
        → Rose (F.faults folder.old) (F.faults folder.new)
        ⊎ Rose (O.faults out.old) (O.faults out.new) }
{
    if words.pair {
        return create_pair_room(alloc, words, folder, out, err);
    }
    create_room(alloc, words, folder, out, err)
}

//! Opens a pair room in a folder to be played.
ghost use Rattle.std.specs.Prelude.{◌≤◌, IfErr, IfOk, OnErr, OnOk};
ghost use Rattle.mw_edges.specs.Causes.{Rose};
ghost use Rattle.mw_pair.specs.Choosing.{Chooses, ChoosesNone, IsClosedRoom, IsOpenedRoom};
ghost use Rattle.mw_pair.specs.Choosing.{IsUnplayed, PassesRoom, RefusesChoice};
ghost use Rattle.mw_pair.specs.Folders.{AreOpen, AreShut, IsFault, OthersStay};

use crate::folder_files::{close_pair, open_pair};
use crate::names::PairNames;
use mw_checkpoint::{Files, PairError, chosen};
use mw_disk::Disk;
use mw_edges::Folder;
use std::alloc::Global;

/// The disks of a pair room that is played.
#[derive(Drop)]
pub struct Chosen<D> {
    /// CHOICE. Nobody else opens it while the room is played, so that it goes on to name the same
    /// journal.
    pub choice: D,
    /// The journal that it names.
    pub journal: D,
    /// The other journal.
    pub other: D,
    /// The number of the journal that it names, 0 or 1.
    pub named: u8,
}

/// Tells of three open disks which journal is played.
fn choose<D: Disk>(
    alloc: Global,
    files: Files<D>,
    digest: &[u8; 32],
) -> Result<Chosen<D>, (Files<D>, PairError)>
    ensures chooses { IfOk result (Chooses D.told D.may_leave digest.now files) }
    ensures none { IfErr result (λ e. ChoosesNone D.told D.may_leave D.faults digest.now
        files e.0 e.1) }
{
    match chosen(alloc, files, digest) {
        Ok((files, named)) => {
            let (choice, journal, other) = files.split(named);
            Ok(Chosen {
                choice,
                journal,
                other,
                named,
            })
        }
        Err((files, error)) => Err((files, error)),
    }
}

/// Opens the three files of a pair room as disks, and tells by CHOICE, a journal under this digest,
/// which journal is played. One that isn't there is made, empty. Where CHOICE is refused they are
/// closed again; the journals aren't judged.
///
/// The errors are those of `chosen`; `DiskFault` comes only where the folder's count of faults rose.
pub fn open_chosen<F: Folder>(
    alloc: Global,
    folder: &mut F,
    names: &PairNames,
    digest: &[u8; 32],
) -> Result<Chosen<F::Drive>, PairError>
    ensures opened { IfOk result (IsOpenedRoom F.Drive.told F.Drive.may_leave F.Drive.faults
        (F.holds folder.old) (F.images folder.old) names.now digest.now) }
    ensures open { OnOk result (AreOpen (F.is_open folder.new) names.now) }
    ensures shut { OnOk result (AreShut (F.is_open folder.old) names.now) }
    ensures unplayed { OnErr result (IsUnplayed (F.holds folder.old) (F.holds folder.new)
        (F.images folder.old) (F.images folder.new) (F.is_open folder.old) (F.is_open folder.new)
        names.now digest.now) }
    ensures refused { IfErr result (RefusesChoice (F.holds folder.old) names.now digest.now) }
    ensures others { OthersStay (F.holds folder.old) (F.holds folder.new) (F.images folder.old)
        (F.images folder.new) (F.is_open folder.old) (F.is_open folder.new) names.now }
    ensures fault { IfErr result (λ e. IsFault e
        → Rose (F.faults folder.old) (F.faults folder.new)) }
    ensures later { F.faults folder.old ≤ F.faults folder.new }
{
    let files = open_pair(alloc, folder, names)?;
    match choose(alloc, files, digest) {
        Ok(room) => Ok(room),
        Err((files, error)) => {
            close_pair(folder, names, files);
            Err(error)
        }
    }
}

/// Closes the three open disks of a pair room that was played.
pub fn close_chosen<F: Folder>(folder: &mut F, names: &PairNames, room: Chosen<F::Drive>)
    requires { AreOpen (F.is_open folder.now) names.now }
    ensures closed { IsClosedRoom F.Drive.told F.Drive.may_leave (F.holds folder.new)
        (F.images folder.new) (F.is_open folder.new) names.now room }
    ensures others { OthersStay (F.holds folder.old) (F.holds folder.new) (F.images folder.old)
        (F.images folder.new) (F.is_open folder.old) (F.is_open folder.new) names.now }
    ensures count { PassesRoom F.Drive.faults room (F.faults folder.old) (F.faults folder.new) }
{
    let Chosen {
        choice,
        journal,
        other,
        named,
    } = room;
    close_pair(folder, names, Files::join(named, choice, journal, other));
}

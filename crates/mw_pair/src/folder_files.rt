//! The three files of a pair room, opened and closed as disks.
ghost use Rattle.std.specs.Prelude.{◌≡◌, ◌≤◌, true, IfErr, IfOk, OnErr, OnOk};
ghost use Rattle.mw_edges.specs.Causes.{PassesOn, Rose};
ghost use Rattle.mw_pair.specs.Folders.{ArePairClosed, ArePairOpened, AreOpen, AreOpenedAtMost};
ghost use Rattle.mw_pair.specs.Folders.{AreShut, IsFault, IsOpening, OthersStay, PassesAll};
ghost use Rattle.mw_pair.specs.Steps.{Closes, Opens, Unopens};

use crate::names::PairNames;
use mw_base::Text;
use mw_checkpoint::{Files, PairError};
use mw_edges::{Folder, FolderError};
use std::alloc::Global;

/// Opens the file of a place as a disk.
fn open_one<F: Folder>(
    alloc: Global,
    folder: &mut F,
    place: u8,
    name: &Text,
) -> Result<F::Drive, PairError>
    ensures opens { IfOk result (Opens F.holds F.images F.is_open folder.old folder.new name.now
        F.Drive.told F.Drive.may_leave F.Drive.faults) }
    ensures unopens { OnErr result
        (Unopens F.holds F.images F.is_open folder.old folder.new name.now) }
    ensures kind { IfErr result IsOpening }
    ensures fault { IfErr result (λ e. IsFault e
        → Rose (F.faults folder.old) (F.faults folder.new)) }
    ensures later { F.faults folder.old ≤ F.faults folder.new }
{
    match folder.open_disk(alloc, name) {
        Ok(disk) => Ok(disk),
        Err(FolderError::Failed) => Err(PairError::DiskFault { place }),
        Err(FolderError::Memory) => Err(PairError::Memory),
    }
}

/// Closes the open disk of a file.
fn close_one<F: Folder>(folder: &mut F, name: &Text, disk: F::Drive)
    requires { F.is_open folder.now name.now ≡ true }
    ensures closes { Closes F.holds F.images F.is_open folder.old folder.new name.now
        F.Drive.told F.Drive.may_leave disk }
    ensures count { PassesOn (F.Drive.faults disk) (F.faults folder.old) (F.faults folder.new) }
{
    folder.close_disk(name, disk);
}

/// Opens CHOICE, the journal 0 and the journal 1 as disks, in this order; one that isn't there is
/// made, empty. Where one isn't opened those before it are closed again.
///
/// `DiskFault` comes only where the folder's count of faults rose, else `Memory`.
pub(crate) fn open_pair<F: Folder>(
    alloc: Global,
    folder: &mut F,
    names: &PairNames,
) -> Result<Files<F::Drive>, PairError>
    ensures opened { IfOk result (ArePairOpened F.Drive.told F.Drive.may_leave F.Drive.faults
        (F.holds folder.old) (F.images folder.old) names.now) }
    ensures open { OnOk result (AreOpen (F.is_open folder.new) names.now) }
    ensures shut { OnOk result (AreShut (F.is_open folder.old) names.now) }
    ensures others { OthersStay (F.holds folder.old) (F.holds folder.new)
        (F.images folder.old) (F.images folder.new) (F.is_open folder.old) (F.is_open folder.new)
        names.now }
    ensures unopened { OnErr result (AreOpenedAtMost (F.holds folder.old) (F.holds folder.new)
        (F.images folder.old) (F.images folder.new) (F.is_open folder.old) (F.is_open folder.new)) }
    ensures kind { IfErr result IsOpening }
    ensures fault { IfErr result (λ e. IsFault e
        → Rose (F.faults folder.old) (F.faults folder.new)) }
    ensures later { F.faults folder.old ≤ F.faults folder.new }
{
    let choice = match open_one(alloc, folder, 0, names.choice()) {
        Ok(disk) => disk,
        Err(error) => return Err(error),
    };
    let zero = match open_one(alloc, folder, 1, names.zero()) {
        Ok(disk) => disk,
        Err(error) => {
            close_one(folder, names.choice(), choice);
            return Err(error);
        }
    };
    match open_one(alloc, folder, 2, names.one()) {
        Ok(one) => Ok(Files { choice, zero, one }),
        Err(error) => {
            close_one(folder, names.zero(), zero);
            close_one(folder, names.choice(), choice);
            Err(error)
        }
    }
}

/// Closes the three open disks of a pair room.
pub(crate) fn close_pair<F: Folder>(folder: &mut F, names: &PairNames, files: Files<F::Drive>)
    requires { AreOpen (F.is_open folder.now) names.now }
    ensures closed { ArePairClosed F.Drive.told F.Drive.may_leave (F.holds folder.new)
        (F.images folder.new) (F.is_open folder.new) names.now files }
    ensures others { OthersStay (F.holds folder.old) (F.holds folder.new)
        (F.images folder.old) (F.images folder.new) (F.is_open folder.old) (F.is_open folder.new)
        names.now }
    ensures count { PassesAll F.Drive.faults files (F.faults folder.old) (F.faults folder.new) }
{
    let Files { choice, zero, one } = files;
    close_one(folder, names.one(), one);
    close_one(folder, names.zero(), zero);
    close_one(folder, names.choice(), choice);
}

//! Makes the three journals of a pair room in a folder.
ghost use Rattle.std.specs.Prelude.{◌≤◌, IfErr, OnOk};
ghost use Rattle.mw_edges.specs.Causes.{Rose};
ghost use Rattle.mw_checkpoint.specs.Created.{OnEach};
ghost use Rattle.mw_pair.specs.Folders.{IsFault, OthersStay};
ghost use Rattle.mw_pair.specs.Making.{BytesStay, IsMadeIn, MadeFiles, RefusesMaking};

use crate::folder_files::{close_pair, open_pair};
use crate::names::PairNames;
use mw_checkpoint::{Files, PairError, create_pair};
use mw_disk::Disk;
use mw_edges::Folder;
use std::alloc::Global;

/// Makes three journals on disks, and gives these back.
fn create_all<D: Disk>(
    alloc: Global,
    files: Files<D>,
    digest: &[u8; 32],
) -> (Files<D>, Result<(), PairError>)
    ensures made { MadeFiles D.told D.may_leave D.moment D.left_since D.faults digest.now files
        result.0 result.1 }
    ensures count { OnEach (λ before after. D.faults before ≤ D.faults after) files result.0 }
{
    match create_pair(alloc, files, digest) {
        Ok(files) => (files, Ok(())),
        Err((files, error)) => (files, Err(error)),
    }
}

/// Makes three empty journals of a seed file's digest in a folder, in files without bytes or in ones
/// that aren't there: CHOICE, the journal 0 and the journal 1, in this order. The first one that
/// isn't made is the last that is written. All three are opened before, and closed again.
///
/// `NotEmpty` comes exactly where a byte stands in one of them, and then nothing is written there.
/// `DiskFault` comes only where the folder's count of faults rose, and else `Memory`.
pub fn make_pair<F: Folder>(
    alloc: Global,
    folder: &mut F,
    names: &PairNames,
    digest: &[u8; 32],
) -> Result<(), PairError>
    ensures made { OnOk result
        (IsMadeIn (F.holds folder.old) (F.images folder.new) names.now digest.now) }
    ensures refused { IfErr result (RefusesMaking (F.holds folder.old) names.now) }
    ensures bytes { BytesStay (F.holds folder.old) (F.holds folder.new) (F.images folder.old)
        (F.images folder.new) names.now }
    ensures others { OthersStay (F.holds folder.old) (F.holds folder.new) (F.images folder.old)
        (F.images folder.new) (F.is_open folder.old) (F.is_open folder.new) names.now }
    ensures fault { IfErr result (λ e. IsFault e
        → Rose (F.faults folder.old) (F.faults folder.new)) }
    ensures later { F.faults folder.old ≤ F.faults folder.new }
{
    let files = open_pair(alloc, folder, names)?;
    let (files, outcome) = create_all(alloc, files, digest);
    close_pair(folder, names, files);
    outcome
}

//! A checkpoint of a pair room in a folder.
ghost use Rattle.std.specs.Prelude.{◌≤◌, IfErr, IfOk};
ghost use Rattle.mw_edges.specs.Causes.{Rose};
ghost use Rattle.mw_pair.specs.Folders.{IsFault, OthersStay};
ghost use Rattle.mw_pair.specs.Thinning.{AreThinned, KeepAllowed, KeepSettled, RefusesThin};

use crate::folder_files::{close_pair, open_pair};
use crate::names::PairNames;
use mw_checkpoint::{Kept, PairError, checkpoint};
use mw_edges::Folder;
use std::alloc::Global;

/// Keeps what still counts of the journal that CHOICE names in the other journal, and names that
/// one. The three files are opened before, in the order of their places, and closed again; one that
/// isn't there is made.
///
/// After Ok each three images of the files stand for what counts of the records that were read. After
/// an error they stand for records for which they might have stood before the call, or for what
/// counts of such, where what a crash might have left was settled; and what it may leave then is.
///
/// The errors are those of a checkpoint; `DiskFault` comes only where the folder's count of faults
/// rose.
pub fn thin_pair<F: Folder>(
    alloc: Global,
    folder: &mut F,
    names: &PairNames,
    digest: &[u8; 32],
) -> Result<Kept, PairError>
    ensures thinned { IfOk result
        (AreThinned (F.holds folder.old) (F.images folder.new) names.now digest.now) }
    ensures kept { KeepAllowed (F.holds folder.old) (F.images folder.old) (F.images folder.new)
        names.now digest.now }
    ensures settled { KeepSettled (F.holds folder.old) (F.images folder.old)
        (F.images folder.new) names.now digest.now }
    ensures refused { IfErr result (RefusesThin (F.holds folder.old) names.now digest.now) }
    ensures others { OthersStay (F.holds folder.old) (F.holds folder.new) (F.images folder.old)
        (F.images folder.new) (F.is_open folder.old) (F.is_open folder.new) names.now }
    ensures fault { IfErr result (λ e. IsFault e
        → Rose (F.faults folder.old) (F.faults folder.new)) }
    ensures later { F.faults folder.old ≤ F.faults folder.new }
{
    let files = open_pair(alloc, folder, names)?;
    let (files, outcome) = checkpoint(alloc, files, digest);
    close_pair(folder, names, files);
    outcome
}

ghost use Rattle.std.specs.Prelude.{◌≤◌, List, IfErr, IfOk};
ghost use Rattle.mw_protocol.specs.Records.{Record as PlainRecord};
ghost use Rattle.mw_checkpoint.specs.Checkpointing.{AllStandForOne, AreSettled, IsThinned};
ghost use Rattle.mw_checkpoint.specs.Checkpointing.{JournalsTell, MayStand, RefusesCheckpoint};
ghost use Rattle.mw_checkpoint.specs.Checkpointing.{with_thinned};
ghost use Rattle.mw_checkpoint.specs.Created.{OnEach};

use crate::choosing::chosen;
use crate::error::PairError;
use crate::files::Files;
use crate::preparing::prepare;
use crate::switching::{Kept, switch};
use mw_disk::Disk;
use std::alloc::Global;

/// Keeps what still counts of the journal that CHOICE names in the other journal, and names that
/// one: a whole checkpoint, by `chosen`, `prepare` and `switch`. Whatever it answers it gives the
/// three files back.
///
/// After Ok each three images of the files stand for what counts of the records that were read. After
/// an error they stand for records for which they might have stood before the call, or for what
/// counts of such. Where what a crash might have left was settled for records, so is what it may
/// leave, for these or for what counts of them.
///
/// The errors are those of the three calls, of which the first that fails is the last that is made.
pub fn checkpoint<D: Disk>(
    alloc: Global,
    files: Files<D>,
    digest: &[u8; 32],
) -> (Files<D>, Result<Kept, PairError>)
    ensures done { IfOk result.1
        (IsThinned D.told D.may_leave digest.now files result.0) }
    ensures kept { (allowed : List (List PlainRecord))
        → AreSettled D.told D.may_leave digest.now files allowed
        → AllStandForOne D.may_leave digest.now result.0 allowed }
    ensures settled { (allowed : List (List PlainRecord))
        → AreSettled D.told D.may_leave digest.now files allowed → JournalsTell D.told files
        → MayStand D.may_leave digest.now result.0 (with_thinned allowed) }
    ensures refused { IfErr result.1 (RefusesCheckpoint D.told D.faults digest.now files result.0) }
    ensures count { OnEach (λ before after. D.faults before ≤ D.faults after) files result.0 }
{
    let (files, named) = match chosen(alloc, files, digest) {
        Ok(read) => read,
        Err((files, error)) => return (files, Err(error)),
    };
    let prepared = match prepare(alloc, files, digest, named) {
        Ok(prepared) => prepared,
        Err((files, error)) => return (files, Err(error)),
    };
    match switch(alloc, prepared) {
        Ok((files, kept)) => (files, Ok(kept)),
        Err((files, error)) => (files, Err(error)),
    }
}

use mw_base::{Bytes, List};
use mw_cases::ROOM_A;
use mw_disk::{DiskError, MemDisk};
use mw_journal::create;
use mw_keep::{KeptRoom, recover};
use mw_multidata::digest;
use std::alloc::Global;
use std::test::Fail;

/// The room of a seed file that a disk keeps.
pub(crate) fn room_of(
    alloc: Global,
    disk: MemDisk,
    seed: &[u8],
) -> Result<KeptRoom<MemDisk>, Fail> {
    Ok(recover(alloc, disk, seed).ok().ok_or("no room")?)
}

/// A new room on a disk whose calls of these numbers are answered so.
pub(crate) fn room_on(
    alloc: Global,
    plan: List<(u64, DiskError)>,
) -> Result<KeptRoom<MemDisk>, Fail> {
    let bytes = Bytes::from_vec(new_journal(alloc)?);
    room_of(alloc, MemDisk::new(alloc, bytes, plan)?, ROOM_A.as_bytes())
}

/// The plan that the call of a number fails, if one is given.
fn plan_of(alloc: Global, failing: Option<u64>) -> Result<List<(u64, DiskError)>, Fail> {
    let mut plan = List::new(alloc);
    if let Some(number) = failing {
        plan.push((number, DiskError::Failed))?;
    }
    Ok(plan)
}

/// A disk of these bytes, on which the call of a number fails, if one is given.
pub(crate) fn disk_of(alloc: Global, bytes: &[u8], failing: Option<u64>) -> Result<MemDisk, Fail> {
    let plan = plan_of(alloc, failing)?;
    let start = Bytes::from_vec(Vec::from_slice(alloc, bytes)?);
    Ok(MemDisk::new(alloc, start, plan)?)
}

/// The bytes of a new journal under a digest.
pub(crate) fn journal_under(alloc: Global, digest: &[u8; 32]) -> Result<Vec<u8>, Fail> {
    let disk = disk_of(alloc, b"", None)?;
    let journal = create(alloc, disk, digest).ok();
    Ok(Vec::from_slice(alloc, journal.ok_or("no journal")?.into_disk().bytes())?)
}

/// The bytes of a new journal of the seed file.
pub(crate) fn new_journal(alloc: Global) -> Result<Vec<u8>, Fail> {
    journal_under(alloc, &digest(ROOM_A.as_bytes()))
}

/// The room that a disk of these bytes keeps.
pub(crate) fn kept_room(
    alloc: Global,
    bytes: &[u8],
    failing: Option<u64>,
) -> Result<KeptRoom<MemDisk>, Fail> {
    room_of(alloc, disk_of(alloc, bytes, failing)?, ROOM_A.as_bytes())
}

/// A new room.
pub(crate) fn new_room(alloc: Global, failing: Option<u64>) -> Result<KeptRoom<MemDisk>, Fail> {
    let bytes = new_journal(alloc)?;
    kept_room(alloc, bytes.as_slice(), failing)
}

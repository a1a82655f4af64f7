ghost use Rattle.std.specs.Prelude.{◌≡◌, IfOk, OnOk, length, is_ok};
ghost use Rattle.mw_disk.specs.Calls.{ImageAfter, IsImage, bytes_after, done};
ghost use Rattle.mw_disk.specs.Crash.{Torn, CutShort};

use crate::calls::{DiskCall, MadeCall, Tear};
use crate::memory::{cut_to, put_range};
use mw_base::Memory;
use std::alloc::Global;

/// What a crash may make of a write.
fn tear_write(image: &mut Vec<u8>, at: u64, put: &[u8], tear: Tear) -> Result<(), Memory>
    ensures { OnOk result (Torn at (length put.now) image.old.items image.new.items) }
{
    match tear {
        Tear::Lost => Ok(()),
        Tear::Done => put_range(image, at as usize, put),
        Tear::Filled(byte) => {
            let mut filled = Vec::from_slice(*image.allocator(), put)?;
            filled.fill(byte);
            put_range(image, at as usize, filled.as_slice())
        }
    }
}

/// What a crash may make of a cut.
fn tear_cut(image: &mut Vec<u8>, len: u64, tear: Tear)
    ensures { CutShort len image.old.items image.new.items }
{
    if tear == Tear::Done {
        cut_to(image, len);
    }
}

/// The bytes after a call that was done.
fn do_call(bytes: &mut Vec<u8>, call: &DiskCall) -> Result<(), Memory>
    ensures { OnOk result (bytes.new.items ≡ done call.now bytes.old.items) }
{
    match call {
        DiskCall::Write { at, bytes: put } => put_range(bytes, *at as usize, put.as_slice())?,
        DiskCall::Cut { len } => cut_to(bytes, *len),
        DiskCall::Read { at: _, len: _ } | DiskCall::Sync => {}
    }
    Ok(())
}

/// What a crash may leave after a call.
fn tear_call(image: &mut Vec<u8>, made: &MadeCall, bytes: &[u8], tear: Tear) -> Result<(), Memory>
    ensures { OnOk result (ImageAfter made.now.call (is_ok made.now.answer) bytes.now
        (λ d. d ≡ image.old.items) image.new.items) }
{
    match &made.call {
        DiskCall::Write { at, bytes: put } => tear_write(image, *at, put.as_slice(), tear)?,
        DiskCall::Cut { len } => tear_cut(image, *len, tear),
        DiskCall::Read { at: _, len: _ } => {}
        DiskCall::Sync => {
            if made.answer.is_ok() {
                *image = Vec::from_slice(*image.allocator(), bytes)?;
            }
        }
    }
    Ok(())
}

/// The bytes and an image that a crash may leave, after one call more.
fn replay_call(
    bytes: &mut Vec<u8>,
    image: &mut Vec<u8>,
    made: &MadeCall,
    tear: Tear,
) -> Result<(), Memory>
    ensures bytes { OnOk result (bytes.new.items ≡ bytes_after made.now bytes.old.items) }
    ensures image { OnOk result (ImageAfter made.now.call (is_ok made.now.answer) bytes.old.items
        (λ d. d ≡ image.old.items) image.new.items) }
{
    tear_call(image, made, bytes.as_slice(), tear)?;
    if made.answer.is_ok() {
        do_call(bytes, &made.call)?;
    }
    Ok(())
}

/// An image that a crash may leave after some calls on a disk that began with these bytes.
pub(crate) fn replay(
    alloc: Global,
    start: &[u8],
    calls: &[MadeCall],
    tear: Tear,
) -> Result<Vec<u8>, Memory>
    ensures { IfOk result (λ image. IsImage start.now calls.now image.items) }
{
    let mut bytes = Vec::from_slice(alloc, start)?;
    let mut image = Vec::from_slice(alloc, start)?;
    for made in calls {
        replay_call(&mut bytes, &mut image, made, tear)?;
    }
    Ok(image)
}

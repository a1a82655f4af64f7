ghost use Rattle.std.specs.Prelude.{◌≡◌, ◌+◌, ◌<◌, ◌≤◌, ◌^◌, ◌∷◌, ◌++◌, [], ℕ, List, length, is_some, OnOk, IfOk};
ghost use Rattle.mw_disk.specs.Causes.{HasCause};
ghost use Rattle.mw_disk.specs.Crash.{LeavesOnly};
ghost use Rattle.mw_journal.specs.Image.{measured};
ghost use Rattle.mw_journal.specs.Settled.{IsSettled, AllShut};

use crate::steps::put_safely;
use mw_base::Memory;
use mw_disk::{Disk, DiskError};
use std::alloc::Global;

/// A body with its length before it, and a gate that isn't open behind it.
pub(crate) fn framed(alloc: Global, body: &[u8]) -> Result<Vec<u8>, Memory>
    requires { length body.now < 2 ^ 32 }
    ensures { IfOk result (λ bytes. bytes.items ≡ measured body.now ++ 0 ∷ []) }
{
    let len = body.len() as u32;
    let mut bytes = Vec::with_capacity(alloc, body.len() + 5)?;
    bytes.extend_from_slice(&len.to_be_bytes())?;
    bytes.extend_from_slice(body)?;
    bytes.push(0)?;
    Ok(bytes)
}

/// Writes a framed body behind the gate at a place, and opens the gate once that is safe.
///
/// `_body` is for contracts alone.
pub(crate) fn commit<D: Disk>(
    disk: &mut D,
    place: u64,
    bytes: &[u8],
    _body: &[u8],
) -> Result<(), DiskError>
    requires framed { bytes.now ≡ measured _body.now ++ 0 ∷ [] }
    requires some { 1 ≤ length _body.now }
    requires within { place + 5 + length _body.now < 2 ^ 30 }
    ensures any_moment { (digest text : List ℕ)
        → AllShut (D.may_leave disk.old) digest text place
        → LeavesOnly D.moment D.left_since disk.old disk.new
        (λ c. IsSettled c digest text _body.now) }
    ensures ok { OnOk result ((digest text : List ℕ)
        → AllShut (D.may_leave disk.old) digest text place
        → AllShut (D.may_leave disk.new) digest (text ++ _body.now)
        (place + 5 + length _body.now)) }
    ensures tells { is_some (D.told disk.new) ≡ is_some (D.told disk.old) }
    ensures cause { HasCause (D.faults disk.old) (D.faults disk.new) result }
{
    put_safely(disk, place + 1, bytes)?;
    put_safely(disk, place, &[1])
}

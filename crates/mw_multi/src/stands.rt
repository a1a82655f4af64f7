ghost use Rattle.std.specs.Prelude.{◌≡◌, ◌<◌, IfOk, Some, length, slice_set};
ghost use Rattle.mw_multi.specs.Joint.{place_total};
ghost use Rattle.mw_multi.specs.Placement.{IsPlacement, AreStanding};

use crate::joint::Joint;
use crate::placement::{Placement, Put};
use mw_base::Memory;
use std::alloc::Global;

/// Notes what stands at its place.
fn note(stands: &mut Vec<Option<Put>>, put: Put)
    requires { put.place < length stands.old.items }
    ensures { stands.new.items ≡ slice_set stands.old.items put.place (Some put) }
{
    stands[put.place as usize] = Some(put);
}

/// For each place of the joint what the placement puts there; `Memory` where memory ran out.
pub fn stands_of(
    alloc: Global,
    joint: &Joint,
    placement: &Placement,
) -> Result<Vec<Option<Put>>, Memory>
    requires { IsPlacement joint.now placement.now }
    ensures size { IfOk result (λ stands. length stands.items ≡ place_total joint.now.slots) }
    ensures entries { IfOk result (λ stands. AreStanding placement.now stands.items) }
{
    let mut stands = vec![in alloc; None; joint.place_count() as usize]?;
    let puts = placement.as_slice();
    for done in 0..puts.len() {
        note(&mut stands, puts[puts.len() - 1 - done]);
    }
    Ok(stands)
}

ghost use Rattle.std.specs.Prelude.{◌≡◌, ◌≤◌, IfOk, length, sum_by};
ghost use Rattle.mw_multi.specs.Joint.{IsJoint};
ghost use Rattle.mw_multi.specs.Placement.{IsPlacement};
ghost use Rattle.mw_reach.specs.Reached.{IsPlacedFor};
ghost use Rattle.mw_spheres.specs.Spots.{placement_table};

use mw_base::Memory;
use mw_multi::{Joint, Placed, Placement};
use std::alloc::Global;

/// What a placement and the joint's events put at each place, for reach.
pub(crate) fn table_for(
    alloc: Global,
    joint: &Joint,
    placement: &Placement,
) -> Result<Placed, Memory>
    requires { IsPlacement joint.now placement.now }
    ensures joint { IsJoint joint.now }
    ensures value { IfOk result (λ table. table ≡ placement_table joint.now placement.now) }
    ensures fits { IfOk result (IsPlacedFor joint.now) }
    ensures few { IfOk result (λ table. sum_by length table ≤ 409600000) }
{
    let _ = &joint.slots;
    let table = Placed::with_events(alloc, joint, placement)?;
    Ok(table)
}

ghost use Rattle.std.specs.Prelude.{◌≡◌, ◌≤◌, ◌+◌, ◌++◌, [], All, List, IfOk, OnOk, length, sum_by};
ghost use Rattle.mw_model.specs.Seed as plain;
ghost use Rattle.mw_rules.specs.Holds.{bag_of};
ghost use Rattle.mw_multi.specs.Joint.{IsJoint, place_total};
ghost use Rattle.mw_multi.specs.Placement.{IsPlacement, IsPlaced};
ghost use Rattle.mw_reach.specs.Reached.{IsBagFor, IsPlacedFor, IsMadeFor, HasLeast, KeepsRules};
ghost use Rattle.mw_reach.specs.Counts.{missing};
ghost use Rattle.mw_spheres.specs.Spots.{IsSpot, items_at};
ghost use Rattle.mw_spheres.specs.Spheres.{IsSphere, AreSpheres, IsSpheres};
ghost use Rattle.mw_spheres.specs.Gathering.{BagFits, IsInHand};

use crate::gather::visit_slot;
use crate::place::place_of;
use crate::table::table_for;
use mw_base::{List, Memory, SphereList, Spot};
use mw_multi::{Bag, Joint, Placed, Placement};
use mw_reach::{Reached, go_on, reach};
use std::alloc::Global;

/// Adds the numbers of the items.
pub(crate) fn push_items(numbers: &[u32], items: &mut List<u32>) -> Result<(), Memory>
    ensures { OnOk result (items.new ≡ items.old ++ numbers.now) }
{
    for &number in numbers {
        items.push(number)?;
    }
    Ok(())
}

/// What stands at the locations of a sphere.
fn items_of(
    alloc: Global,
    joint: &Joint,
    table: &Placed,
    sphere: &[Spot],
) -> Result<List<u32>, Memory>
    requires spots { All (IsSpot joint.now.slots) sphere.now }
    requires size { length table.now ≡ place_total joint.now.slots }
    ensures { IfOk result (λ items. items ≡ items_at joint.now.slots table.now sphere.now) }
{
    let mut items = List::new(alloc);
    for &spot in sphere {
        push_items(table.at(place_of(joint, spot)), &mut items)?;
    }
    Ok(items)
}

/// The sphere after those that are taken, which takes it with what it holds. `nothing` is the table of no placement.
/// `reached` has the list for what is in hand, and goes on with what the sphere holds.
fn next_sphere(
    alloc: Global,
    joint: &Joint,
    table: &Placed,
    nothing: &Placed,
    reached: &mut Reached,
    taken: &mut [bool],
    bag: &mut Bag,
) -> Result<List<Spot>, Memory>
    requires table { IsPlacedFor joint.now table.now }
    requires nothing { IsPlaced joint.now [] nothing.now }
    requires reached { IsMadeFor joint.now reached.old }
    requires rules { KeepsRules joint.now reached.old }
    requires bag { IsBagFor joint.now bag.old }
    requires room { BagFits table.now taken.old bag.old }
    requires least { HasLeast joint.now (bag_of bag.old) [] reached.old }
    ensures reached { IsMadeFor joint.now reached.new }
    ensures rules { KeepsRules joint.now reached.new }
    ensures least { OnOk result (HasLeast joint.now (bag_of bag.new) [] reached.new) }
    ensures bag { IsBagFor joint.now bag.new }
    ensures room { BagFits table.now taken.new bag.new }
    ensures sphere { IfOk result (λ sphere. (earlier : List plain.Spot)
        → IsInHand joint.now table.now earlier taken.old bag.old
        → IsSphere joint.now table.now earlier sphere) }
    ensures hand { IfOk result (λ sphere. (earlier : List plain.Spot)
        → IsInHand joint.now table.now earlier taken.old bag.old
        → IsInHand joint.now table.now (earlier ++ sphere) taken.new bag.new) }
    ensures fewer { IfOk result (λ sphere. missing taken.new + length sphere ≡ missing taken.old) }
{
    let slots = joint.slots.len();
    let mut sphere = List::new(alloc);
    for before in 0..slots {
        visit_slot(joint, table, reached, before, taken, bag, &mut sphere)?;
    }
    let items = items_of(alloc, joint, table, sphere.as_slice())?;
    go_on(joint, items.as_slice(), nothing, reached);
    Ok(sphere)
}

/// The spheres of a table from what is in hand at first. `nothing` is the table of no placement, and `reached` has the list
/// for what is in hand.
fn spheres_from(
    alloc: Global,
    joint: &Joint,
    table: &Placed,
    nothing: &Placed,
    reached: &mut Reached,
    taken: &mut [bool],
    bag: &mut Bag,
) -> Result<SphereList, Memory>
    requires table { IsPlacedFor joint.now table.now }
    requires nothing { IsPlaced joint.now [] nothing.now }
    requires reached { IsMadeFor joint.now reached.old }
    requires rules { KeepsRules joint.now reached.old }
    requires bag { IsBagFor joint.now bag.old }
    requires room { BagFits table.now taken.old bag.old }
    requires least { HasLeast joint.now (bag_of bag.old) [] reached.old }
    requires hand { IsInHand joint.now table.now [] taken.old bag.old }
    ensures { IfOk result (AreSpheres joint.now table.now []) }
{
    let mut spheres = List::new(alloc);
    let mut sphere = next_sphere(alloc, joint, table, nothing, reached, taken, bag)?;
    while sphere.len() > 0 {
        spheres.push(sphere)?;
        sphere = next_sphere(alloc, joint, table, nothing, reached, taken, bag)?;
    }
    Ok(spheres)
}

/// The spheres of a table.
pub(crate) fn spheres_of(
    alloc: Global,
    joint: &Joint,
    table: &Placed,
    reached: &mut Reached,
) -> Result<SphereList, Memory>
    requires joint { IsJoint joint.now }
    requires table { IsPlacedFor joint.now table.now }
    requires few { sum_by length table.now ≤ 409600000 }
    requires reached { IsMadeFor joint.now reached.old }
    requires rules { KeepsRules joint.now reached.old }
    ensures { IfOk result (AreSpheres joint.now table.now []) }
{
    let nothing = Placed::none(alloc, joint)?;
    let mut bag = Bag::starting(alloc, joint)?;
    let mut taken = vec![in alloc; false; joint.place_count() as usize]?;
    let taken = taken.as_mut_slice();
    reach(joint, &bag, &nothing, reached);
    spheres_from(alloc, joint, table, &nothing, reached, taken, &mut bag)
}

/// The spheres of a placement with the joint's events, the first one first, each by slot and then in table order. A sphere
/// is the locations that hold a progression item and are reached with the starting items and what the earlier spheres hold,
/// with nothing found on the way, less the earlier spheres; no sphere is empty. `Memory` where memory ran out.
pub fn spheres(alloc: Global, joint: &Joint, placement: &Placement) -> Result<SphereList, Memory>
    requires { IsPlacement joint.now placement.now }
    ensures { IfOk result (IsSpheres joint.now placement.now) }
{
    let table = table_for(alloc, joint, placement)?;
    let mut reached = Reached::new(alloc, joint)?;
    spheres_of(alloc, joint, &table, &mut reached)
}

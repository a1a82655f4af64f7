ghost use Rattle.std.specs.Prelude.{◌≡◌, ◌≤◌, [], All, OnOk, length, slice_index_or};
ghost use Rattle.mw_multi.specs.Placement.{IsPlacement};
ghost use Rattle.mw_spheres.specs.Spheres.{IsSpheres};
ghost use Rattle.mw_spheres.specs.Check as plain;
ghost use Rattle.mw_spheres.specs.Check.{same_spot, IsChecked};

use crate::lacking::lack_of;
use crate::refusal::CheckRefusal;
use crate::sphere::spheres_of;
use crate::table::table_for;
use mw_base::{List, SphereList, Spot};
use mw_multi::{Bag, Joint, Placement};
use mw_reach::{Lack, Reached};
use std::alloc::Global;

/// Whether two spots are of one location.
fn same(a: Spot, b: Spot) -> bool
    ensures { result ≡ same_spot a b }
{
    a.slot == b.slot && a.index == b.index
}

/// Compares the places of the sphere of this number, from 0.
fn compare_places(sphere: u64, claimed: &[Spot], due: &[Spot]) -> Result<(), CheckRefusal>
    ensures { result ≡ plain.compare_places sphere claimed.now due.now }
{
    for (index, &place) in claimed.iter().enumerate() {
        if index >= due.len() || !same(place, due[index]) {
            return Err(CheckRefusal::Wrong { sphere, place });
        }
    }
    if claimed.len() < due.len() {
        return Err(CheckRefusal::Missing {
            sphere,
            place: due[claimed.len()],
        });
    }
    Ok(())
}

/// The sphere of a number, from 0; an empty one past the end.
fn sphere_at(spheres: &[List<Spot>], number: usize) -> &[Spot]
    ensures { result.now ≡ slice_index_or spheres.now number [] }
{
    match spheres.get(number) {
        Some(sphere) => sphere.as_slice(),
        None => &[],
    }
}

/// Compares the spheres from the first on.
fn compare_spheres(claimed: &[List<Spot>], due: &[List<Spot>]) -> Result<(), CheckRefusal>
    ensures { result ≡ plain.compare_spheres 0 claimed.now due.now }
{
    for (number, sphere) in claimed.iter().enumerate() {
        compare_places(number as u64, sphere.as_slice(), sphere_at(due, number))?;
    }
    compare_places(claimed.len() as u64, &[], sphere_at(due, claimed.len()))
}

/// Checks that each slot's goal is reached, and each location of each slot that wants all of its
/// world, with the starting items and the placement with the joint's events, and that the claimed
/// spheres are those of the placement. `GoalMissed` is judged first, then `LocationMissed`. Then
/// the spheres are compared from the first, place by place: `Wrong` at the first claimed place that
/// isn't the one due there, also one that no table has, and `Missing` at the first due place that
/// the claimed list lacks. `Memory` where memory ran out.
pub fn check_spheres(
    alloc: Global,
    joint: &Joint,
    placement: &Placement,
    claimed: &SphereList,
) -> Result<(), CheckRefusal>
    requires placement { IsPlacement joint.now placement.now }
    requires claimed { All (λ sphere. 1 ≤ length sphere) claimed.now }
    ensures found { IsChecked joint.now placement.now claimed.now result }
    ensures ok { OnOk result (IsSpheres joint.now placement.now claimed.now) }
{
    let table = table_for(alloc, joint, placement)?;
    let start = Bag::starting(alloc, joint)?;
    let mut reached = Reached::new(alloc, joint)?;
    if let Some(lack) = lack_of(joint, &start, &table, &mut reached) {
        return Err(CheckRefusal::of(lack));
    }
    let due = spheres_of(alloc, joint, &table, &mut reached)?;
    compare_spheres(claimed.as_slice(), due.as_slice())
}

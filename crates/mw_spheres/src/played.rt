ghost use Rattle.std.specs.Prelude.{◌≡◌, ◌++◌, IfOk, OnOk, All, filter, map};
ghost use Rattle.mw_rules.specs.Holds.{places_of};
ghost use Rattle.mw_multi.specs.Placement.{IsPlacement};
ghost use Rattle.mw_spheres.specs.Spots.{IsSpot, spot_place};
ghost use Rattle.mw_spheres.specs.Spheres.{IsSpheres, listed};
ghost use Rattle.mw_spheres.specs.Playthrough.{is_kept, IsPlaythrough, NoneToSpare};

use crate::place::place_of;
use crate::table::table_for;
use crate::thin::{mark, thin_all};
use mw_base::{List, Memory, SphereList, Spot};
use mw_multi::{Joint, Placement};
use std::alloc::Global;

/// Adds the places of a sphere.
fn push_places(joint: &Joint, sphere: &[Spot], places: &mut Vec<u32>) -> Result<(), Memory>
    requires { All (IsSpot joint.now.slots) sphere.now }
    ensures { OnOk result (places.new.items ≡ places.old.items
        ++ map (spot_place joint.now.slots) sphere.now) }
{
    for &spot in sphere {
        places.push(place_of(joint, spot))?;
    }
    Ok(())
}

/// The places of all spheres.
fn all_places(alloc: Global, joint: &Joint, spheres: &[List<Spot>]) -> Result<Vec<u32>, Memory>
    requires { All (All (IsSpot joint.now.slots)) spheres.now }
    ensures { IfOk result (λ places. places.items
        ≡ map (spot_place joint.now.slots) (listed spheres.now)) }
{
    let mut places = Vec::new(alloc);
    for sphere in spheres {
        push_places(joint, sphere.as_slice(), &mut places)?;
    }
    Ok(places)
}

/// Whether a place is kept.
fn is_marked(kept: &[bool], place: u32) -> bool
    ensures { result ≡ places_of kept.now place }
{
    match kept.get(place as usize) {
        Some(&is_kept) => is_kept,
        None => false,
    }
}

/// Those locations of a sphere that are kept.
fn kept_in(
    alloc: Global,
    joint: &Joint,
    kept: &[bool],
    sphere: &[Spot],
) -> Result<List<Spot>, Memory>
    requires { All (IsSpot joint.now.slots) sphere.now }
    ensures { IfOk result (λ found. found ≡ filter (is_kept joint.now.slots kept.now) sphere.now) }
{
    let mut found = List::new(alloc);
    for &spot in sphere {
        if is_marked(kept, place_of(joint, spot)) {
            found.push(spot)?;
        }
    }
    Ok(found)
}

/// The spheres with those locations that are kept.
fn kept_spheres(
    alloc: Global,
    joint: &Joint,
    kept: &[bool],
    spheres: &[List<Spot>],
) -> Result<SphereList, Memory>
    requires { All (All (IsSpot joint.now.slots)) spheres.now }
    ensures { IfOk result (λ found. found
        ≡ map (filter (is_kept joint.now.slots kept.now)) spheres.now) }
{
    let mut found = List::new(alloc);
    for sphere in spheres {
        found.push(kept_in(alloc, joint, kept, sphere.as_slice())?)?;
    }
    Ok(found)
}

/// The entries of a placement's spheres that the goals need: the entries are asked from the last to the first, and one is
/// dropped where each goal holds with the starting items and the other kept entries as the whole placement. Each entry
/// stays in its sphere, so a sphere may be left empty: an entry's number, from 0, is its list's. No entry that is left can be
/// left out alone with each goal still met. `Memory` where memory ran out.
pub fn playthrough(
    alloc: Global,
    joint: &Joint,
    placement: &Placement,
    spheres: &SphereList,
) -> Result<SphereList, Memory>
    requires placement { IsPlacement joint.now placement.now }
    requires spheres { IsSpheres joint.now placement.now spheres.now }
    ensures played { IfOk result (IsPlaythrough joint.now placement.now spheres.now) }
    ensures spare { IfOk result (NoneToSpare joint.now placement.now) }
{
    let full = table_for(alloc, joint, placement)?;
    let places = all_places(alloc, joint, spheres.as_slice())?;
    let mut kept = vec![in alloc; false; joint.place_count() as usize]?;
    let kept = kept.as_mut_slice();
    mark(places.as_slice(), kept);
    thin_all(alloc, joint, &full, places.as_slice(), kept)?;
    kept_spheres(alloc, joint, kept, spheres.as_slice())
}

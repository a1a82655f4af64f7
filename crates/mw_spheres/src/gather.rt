ghost use Rattle.std.specs.Prelude.{◌≡◌, ◌<◌, ◌≤◌, ◌+◌, ◌^◌, ◌++◌, ◌∷◌, ◌&&◌, [], ℕ, List, Bool, Some, OnOk, All, false, true, length, not, slice_get, slice_set};
ghost use Rattle.mw_model.specs.Seed as plain;
ghost use Rattle.mw_rules.specs.Holds.{bag_of, places_of};
ghost use Rattle.mw_multi.specs.Joint.{Slot, place_total, slot_places};
ghost use Rattle.mw_multi.specs.Placement.{numbers_at};
ghost use Rattle.mw_reach.specs.Reach.{times_in};
ghost use Rattle.mw_reach.specs.Reached.{places_in};
ghost use Rattle.mw_spheres.specs.Spots.{IsSpot, spot_place, slot_spots, holds_progression};
ghost use Rattle.mw_spheres.specs.Gathering.{BagFits, Gathered};

use crate::place::place_of;
use mw_base::{List, Memory, Spot};
use mw_multi::{Bag, Joint, Placed};
use mw_reach::Reached;

/// Adds each of the items once.
fn add_items(items: &[u32], bag: &mut Bag)
    requires items { All (λ i. i < length bag.old) items.now }
    requires room { (i : ℕ) → bag_of bag.old i + times_in i items.now < 2 ^ 31 }
    ensures size { length bag.new ≡ length bag.old }
    ensures counts { (i : ℕ) → bag_of bag.new i ≡ bag_of bag.old i + times_in i items.now }
{
    for &item in items {
        bag.add(item, 1);
    }
}

/// Takes a place that isn't taken yet, with what stands there.
fn take(table: &Placed, place: u32, taken: &mut [bool], bag: &mut Bag)
    requires place { place < length table.now }
    requires new { places_of taken.old place ≡ false }
    requires room { BagFits table.now taken.old bag.old }
    ensures room { BagFits table.now taken.new bag.new }
    ensures size { length bag.new ≡ length bag.old }
    ensures taken { taken.new ≡ slice_set taken.old place true }
    ensures counts { (i : ℕ) → bag_of bag.new i ≡ bag_of bag.old i
        + times_in i (numbers_at table.now place) }
{
    taken[place as usize] = true;
    add_items(table.at(place), bag);
}

/// Whether a place was reached, holds a progression item and isn't taken yet.
fn is_due(table: &Placed, reached: &Reached, place: u32, taken: &[bool]) -> bool
    requires place { place < length table.now }
    requires size { length taken.now ≡ length table.now }
    ensures { result ≡ ((places_in reached.now place && holds_progression table.now place)
        && not (places_of taken.now place)) }
{
    reached.has(place) && !table.at(place).is_empty() && !taken[place as usize]
}

/// Takes a location into the sphere, where it is due. After `Memory` nothing was taken.
fn visit(
    joint: &Joint,
    table: &Placed,
    reached: &Reached,
    spot: Spot,
    taken: &mut [bool],
    bag: &mut Bag,
    sphere: &mut List<Spot>,
) -> Result<(), Memory>
    requires spot { IsSpot joint.now.slots spot }
    requires size { length table.now ≡ place_total joint.now.slots }
    requires room { BagFits table.now taken.old bag.old }
    ensures room { BagFits table.now taken.new bag.new }
    ensures size { length bag.new ≡ length bag.old }
    ensures gathered { OnOk result ((first : List Bool) (start : List ℕ) (spots : List plain.Spot)
        (bound : ℕ) → bound ≤ spot_place joint.now.slots spot
        → Gathered joint.now.slots table.now
        (places_in reached.now) first start spots bound taken.old bag.old sphere.old
        → Gathered joint.now.slots table.now (places_in reached.now) first start
        (spots ++ spot ∷ []) (spot_place joint.now.slots spot + 1) taken.new bag.new sphere.new) }
{
    let place = place_of(joint, spot);
    if !is_due(table, reached, place, taken) {
        return Ok(());
    }
    sphere.push(spot)?;
    take(table, place, taken, bag);
    Ok(())
}

/// Takes those locations of a slot into the sphere that are due; the slot's index counts from 0.
pub(crate) fn visit_slot(
    joint: &Joint,
    table: &Placed,
    reached: &Reached,
    before: usize,
    taken: &mut [bool],
    bag: &mut Bag,
    sphere: &mut List<Spot>,
) -> Result<(), Memory>
    requires slot { before < length joint.now.slots }
    requires size { length table.now ≡ place_total joint.now.slots }
    requires room { BagFits table.now taken.old bag.old }
    ensures room { BagFits table.now taken.new bag.new }
    ensures size { length bag.new ≡ length bag.old }
    ensures gathered { OnOk result ((s : Slot) (first : List Bool) (start : List ℕ)
        (spots : List plain.Spot) (bound : ℕ) → slice_get joint.now.slots before ≡ Some s
        → bound ≤ s.first_place → Gathered joint.now.slots table.now
        (places_in reached.now) first start spots bound taken.old bag.old sphere.old
        → Gathered joint.now.slots table.now (places_in reached.now) first start
        (spots ++ slot_spots (before + 1) s)
        (s.first_place + slot_places s) taken.new bag.new sphere.new) }
{
    let slot = &joint.slots.as_slice()[before];
    let world = slot.world;
    for index in 0..world.locations.len() {
        let spot = Spot {
            slot: before as u16 + 1,
            index: index as u32,
        };
        visit(joint, table, reached, spot, taken, bag, sphere)?;
    }
    Ok(())
}

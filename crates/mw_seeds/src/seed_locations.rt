//! What stands at the locations of a seed.
ghost use Rattle.std.specs.Prelude.{◌≡◌, ◌≤◌, ◌<◌, ◌+◌, ◌^◌, ◌++◌, IfOk, OnOk, Some, None, length, slice_get, slice_index_or};
ghost use Rattle.std.specs.Option.{option_to_list};
ghost use Rattle.mw_multi.specs.Joint.{place_total, slot_places};
ghost use Rattle.mw_multi.specs.Placement.{IsPlacement};
ghost use Rattle.mw_multi.specs.Steps.{location_place};
ghost use Rattle.mw_multidata.specs.SeedKept.{held_cmp};
ghost use Rattle.mw_seeds.specs.SeedFile.{held_item as plain_item, held_put as plain_held, held_where, slot_held, all_held, AreLocations};

use crate::owners::first_owner;
use crate::seed_slots::class_flags;
use mw_base::{List, LocId, Memory, SlotId};
use mw_multi::{Joint, Location, Placement, Put, Slot, stands_of};
use mw_multidata::Held;
use std::alloc::Global;
use std::cmp::Ordering;

/// An item of a slot, for the slot of this number, at a location.
fn held_item(
    finder: SlotId,
    location: LocId,
    receiver: u16,
    owner: &Slot,
    item: u32,
) -> Option<Held>
    ensures { option_to_list result ≡ plain_item finder location receiver
        (slice_get owner.now.world.items item) }
{
    let world = owner.world;
    let item = world.items.get(item as usize)?;
    let id = item.id?;
    Some(Held {
        slot: finder,
        location,
        item: id,
        receiver,
        flags: class_flags(item.class),
    })
}

/// What a put is at a location of the slot of this number, where its item has an id.
fn held_put(joint: &Joint, finder: SlotId, location: LocId, put: Put) -> Option<Held>
    ensures { option_to_list result ≡ plain_held joint.now finder location (Some put) }
{
    match first_owner(joint, put.receiver) {
        Some(owner) => held_item(finder, location, put.receiver, owner, put.item),
        None => None,
    }
}

/// Adds what stands at a location with this id of the slot of this number.
fn push_held(
    held: &mut Vec<Held>,
    joint: &Joint,
    finder: SlotId,
    location: LocId,
    put: Option<Put>,
) -> Result<(), Memory>
    ensures { OnOk result (held.new.items ≡ held.old.items
        ++ plain_held joint.now finder location put) }
{
    let Some(put) = put else {
        return Ok(());
    };
    if let Some(entry) = held_put(joint, finder, location, put) {
        held.push(entry)?;
    }
    Ok(())
}

/// Adds what stands at a location of the slot of this number, where the location has an id.
fn push_location(
    held: &mut Vec<Held>,
    joint: &Joint,
    finder: SlotId,
    location: &Location,
    put: Option<Put>,
) -> Result<(), Memory>
    ensures { OnOk result (held.new.items ≡ held.old.items
        ++ held_where joint.now finder location.now.id put) }
{
    match location.id {
        Some(id) => push_held(held, joint, finder, id, put),
        None => Ok(()),
    }
}

/// Adds what stands at the locations of the slot of this number.
fn push_slot(
    held: &mut Vec<Held>,
    joint: &Joint,
    stands: &[Option<Put>],
    finder: SlotId,
    slot: &Slot,
) -> Result<(), Memory>
    requires fits { slot.now.first_place + slot_places slot.now < 2 ^ 32 }
    requires within { slot.now.first_place + slot_places slot.now ≤ length stands.now }
    ensures { OnOk result (held.new.items ≡ held.old.items
        ++ slot_held joint.now (λ p. slice_index_or stands.now p None) finder slot.now) }
{
    let world = slot.world;
    for (index, location) in world.locations.as_slice().iter().enumerate() {
        let put = stands[slot.location_place(index as u32) as usize];
        push_location(held, joint, finder, location, put)?;
    }
    Ok(())
}

/// The slot with this index from 0.
pub(crate) fn slot_id(index: usize) -> SlotId
    requires { index < 1024 }
    ensures { result ≡ index + 1 }
{
    SlotId::new(index as u16 + 1).unwrap()
}

/// What stands at the locations with an id, by slot and table order.
fn table_order(alloc: Global, joint: &Joint, stands: &[Option<Put>]) -> Result<Vec<Held>, Memory>
    requires { length stands.now ≡ place_total joint.now.slots }
    ensures { IfOk result
        (λ held. held.items ≡ all_held joint.now (λ p. slice_index_or stands.now p None)) }
{
    let mut held = Vec::new(alloc);
    for (index, slot) in joint.slots.as_slice().iter().enumerate() {
        push_slot(&mut held, joint, stands, slot_id(index), slot)?;
    }
    Ok(held)
}

/// The order by slot, then by location.
pub(crate) fn compare_held(a: &Held, b: &Held) -> Ordering
    ensures { result ≡ held_cmp a.now b.now }
{
    a.slot
        .get()
        .cmp(&b.slot.get())
        .then(a.location.get().cmp(&b.location.get()))
}

/// What stands at the locations with an id, by slot and then by location.
pub(crate) fn locations_of(
    alloc: Global,
    joint: &Joint,
    placement: &Placement,
) -> Result<List<Held>, Memory>
    requires { IsPlacement joint.now placement.now }
    ensures { IfOk result (AreLocations joint.now placement.now) }
{
    // Reading the joint makes known what its type keeps.
    let _ = &joint.slots;
    let stands = stands_of(alloc, joint, placement)?;
    let mut held = table_order(alloc, joint, stands.as_slice())?;
    held.sort_unstable_by(|a, b| compare_held(a, b));
    Ok(List::from_vec(held))
}

//! The locations with an id of joined tables, in ascending order.
ghost use Rattle.std.specs.Prelude.{◌≡◌, ◌++◌, IfOk, OnOk};
ghost use Rattle.mw_multi.specs.Numbered.{each_numbered};
ghost use Rattle.mw_multidata.specs.SeedKept.{held_cmp};
ghost use Rattle.mw_seeds.specs.Keys.{as_held, key_where, location_key, all_keys as plain_keys, AreKeys};

use crate::seed_locations::slot_id;
use mw_base::{List, LocId, Memory, SlotId};
use mw_multi::{Joint, Location};
use std::alloc::Global;
use std::cmp::Ordering;
use std::marker::Model;

/// A location by its slot and its id.
#[derive(Clone, Copy)]
pub(crate) struct Key {
    /// The slot.
    pub slot: SlotId,
    /// The location's id.
    pub location: LocId,
}

impl Model for Key {
    ghost use Rattle.mw_seeds.specs.Keys as plain;

    ghost Value = { plain.Key };

    ghost view = { λ k. record { slot = k.slot; location = k.location } };

    ghost inverse = { λ k. record { slot = k.slot; location = k.location } };
}

/// Adds the key of a location, where it has an id.
fn push_key(keys: &mut Vec<Key>, slot: SlotId, location: &Location) -> Result<(), Memory>
    ensures { OnOk result (keys.new.items ≡ keys.old.items ++ key_where slot location.now.id) }
{
    if let Some(location) = location.id {
        keys.push(Key { slot, location })?;
    }
    Ok(())
}

/// Adds the keys of a slot's locations.
fn push_slot(keys: &mut Vec<Key>, slot: SlotId, locations: &[Location]) -> Result<(), Memory>
    ensures { OnOk result (keys.new.items
        ≡ keys.old.items ++ each_numbered (location_key slot) 0 locations.now) }
{
    for location in locations {
        push_key(keys, slot, location)?;
    }
    Ok(())
}

/// The keys of all locations with an id, by slot and table order.
fn table_order(alloc: Global, joint: &Joint) -> Result<Vec<Key>, Memory>
    ensures { IfOk result (λ keys. keys.items ≡ plain_keys joint.now.slots) }
{
    let mut keys = Vec::new(alloc);
    for (index, slot) in joint.slots.as_slice().iter().enumerate() {
        let world = slot.world;
        push_slot(&mut keys, slot_id(index), world.locations.as_slice())?;
    }
    Ok(keys)
}

/// The order by slot, then by location.
pub(crate) fn compare_keys(a: &Key, b: &Key) -> Ordering
    ensures { result ≡ held_cmp (as_held a.now) (as_held b.now) }
{
    a.slot
        .get()
        .cmp(&b.slot.get())
        .then(a.location.get().cmp(&b.location.get()))
}

/// The keys of all locations with an id, by slot and then by location.
pub(crate) fn keys_of(alloc: Global, joint: &Joint) -> Result<List<Key>, Memory>
    ensures { IfOk result (AreKeys joint.now.slots) }
{
    // Reading the joint makes known what its type keeps.
    let _ = &joint.slots;
    let mut keys = table_order(alloc, joint)?;
    keys.sort_unstable_by(|a, b| compare_keys(a, b));
    Ok(List::from_vec(keys))
}

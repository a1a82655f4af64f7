//! What the entries of a seed file put at the locations of joined tables.
ghost use Rattle.std.specs.Prelude.{◌≡◌, ◌<◌, ◌+◌, ◌++◌, ◌^◌, IfOk, OnOk, Some, None};
ghost use Rattle.mw_model.specs.Seed.{held_among};
ghost use Rattle.mw_multi.specs.Joint.{slot_places};
ghost use Rattle.mw_multi.specs.Numbered.{each_numbered};
ghost use Rattle.mw_model.specs.Ascending.{Ascend};
ghost use Rattle.mw_multidata.specs.SeedKept.{held_cmp};
ghost use Rattle.mw_seeds.specs.Agreeing.{index_among, location_cmp};
ghost use Rattle.mw_seeds.specs.FilePuts.{catalog_at, file_put as plain_put, put_where, slot_puts};

use crate::catalog::Catalog;
use crate::seed_locations::slot_id;
use mw_base::{List, LocId, Memory, SlotId};
use mw_multi::{Joint, Location, Placement, Put, Slot};
use mw_multidata::Held;
use std::alloc::Global;
use std::cmp::Ordering;

/// Where the item of an entry stands in its receiver's world, if it has an id there and the entry's
/// flags are those of its class.
pub(crate) fn index_of(catalogs: &[Catalog], held: &Held) -> Option<u32>
    ensures { result ≡ index_among held.now (catalog_at catalogs.now held.now.receiver) }
{
    if held.receiver == 0 {
        return None;
    }
    let catalog = catalogs.get(held.receiver as usize - 1)?;
    catalog.find(held.item, held.flags)
}

/// How an entry's location lies to the one of this slot and id.
fn compare(held: &Held, slot: u16, location: i64) -> Ordering
    ensures { result ≡ location_cmp held.now.slot held.now.location slot location }
{
    held.slot
        .get()
        .cmp(&slot)
        .then(held.location.get().cmp(&location))
}

/// The entry of a location, by its slot and id; None exactly where there is none.
fn find_held(held: &[Held], slot: u16, location: i64) -> Option<Held>
    requires { Ascend held_cmp held.now }
    ensures { result ≡ held_among held.now slot location }
{
    match held.binary_search_by(|entry| compare(entry, slot, location)) {
        Ok(index) => Some(held[index]),
        Err(_) => None,
    }
}

/// What an entry puts at a place of the slot of this number, or else its own filler.
fn file_put(catalogs: &[Catalog], number: u16, slot: &Slot, place: u32, found: Option<Held>) -> Put
    ensures { result ≡ plain_put catalogs.now number slot.now place found }
{
    let world = slot.world;
    let own = Put {
        place,
        receiver: number,
        item: world.filler,
    };
    let Some(held) = found else {
        return own;
    };
    match index_of(catalogs, &held) {
        Some(item) => Put {
            place,
            receiver: held.receiver,
            item,
        },
        None => own,
    }
}

/// Adds what the file puts at a location of the slot of this number, where the location has an id.
fn push_location(
    puts: &mut List<Put>,
    catalogs: &[Catalog],
    held: &[Held],
    number: u16,
    slot: &Slot,
    place: u32,
    location: &Location,
) -> Result<(), Memory>
    requires { Ascend held_cmp held.now }
    ensures { OnOk result
        (puts.new ≡ puts.old
        ++ put_where catalogs.now held.now number slot.now place location.now.id) }
{
    let Some(id) = location.id else {
        return Ok(());
    };
    let found = find_held(held, number, id.get());
    puts.push(file_put(catalogs, number, slot, place, found))?;
    Ok(())
}

/// Adds what the file puts at the locations of the slot of this number.
fn push_slot(
    puts: &mut List<Put>,
    catalogs: &[Catalog],
    held: &[Held],
    number: u16,
    slot: &Slot,
) -> Result<(), Memory>
    requires ascend { Ascend held_cmp held.now }
    requires fits { slot.now.first_place + slot_places slot.now < 2 ^ 32 }
    ensures { OnOk result (puts.new ≡ puts.old ++ slot_puts catalogs.now held.now number slot.now) }
{
    let world = slot.world;
    for (index, location) in world.locations.as_slice().iter().enumerate() {
        let place = slot.location_place(index as u32);
        push_location(puts, catalogs, held, number, slot, place, location)?;
    }
    Ok(())
}

/// What the entries of a seed file put at the locations with an id, in ascending order of places:
/// the item that an entry names, or the location's own filler where no entry names an item that
/// fits.
pub(crate) fn file_puts(
    alloc: Global,
    catalogs: &[Catalog],
    joint: &Joint,
    held: &[Held],
) -> Result<Placement, Memory>
    requires { Ascend held_cmp held.now }
    ensures { IfOk result
        (λ puts. puts ≡ each_numbered (slot_puts catalogs.now held.now) 1 joint.now.slots) }
{
    let mut puts = List::new(alloc);
    for (index, slot) in joint.slots.as_slice().iter().enumerate() {
        push_slot(&mut puts, catalogs, held, slot_id(index).get(), slot)?;
    }
    Ok(puts)
}

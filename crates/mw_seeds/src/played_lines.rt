//! The lines of a playthrough.
ghost use Rattle.std.specs.Prelude.{◌≡◌, ◌++◌, ◌+◌, ◌<◌, ◌≤◌, ◌^◌, IfOk, None, OnOk, Some, flat_map, length, slice_get, slice_index_or, string_bytes};
ghost use Rattle.mw_multi.specs.Joint.{slot_places, place_total};
ghost use Rattle.mw_multi.specs.Placement.{slot_at, item_at, IsPlacement, what_stands};
ghost use Rattle.mw_seeds.specs.Played.{first_name as plain_first_name, slot_name as plain_slot_name, receiver_named, name_of_item, name_of_location, receiver_name as plain_receiver_name, put_name, stands_in, entry_line, found_line, spot_line, played_lines as plain_lines};

use crate::owners::first_owner;
use mw_base::{List, Memory, SphereList, Spot};
use mw_multi::{Joint, Placement, Put, Slot, slot_of, stands_of};
use std::alloc::Global;
use std::fmt::Write;

/// The slot's name in the first team; empty where it has none.
pub fn first_name<'a>(slot: &Slot<'a>) -> &'a str
    ensures { result.now ≡ plain_first_name slot.now }
{
    let player = slot.player;
    match player.names.get(0) {
        Some(name) => name.as_str(),
        None => "",
    }
}

/// The name of the slot of a number in the first team; empty where there is no such slot.
fn slot_name<'a>(slots: &[Slot<'a>], number: u16) -> &'a str
    ensures { result.now ≡ plain_slot_name (slot_at slots.now number) }
{
    match slot_of(slots, number) {
        Some(slot) => first_name(slot),
        None => "",
    }
}

/// The name of a receiver: a slot's in the first team, or a link's; empty where there is no such
/// receiver.
fn receiver_name<'a>(joint: &'a Joint, receiver: u16) -> &'a str
    ensures { result.now ≡ receiver_named joint.now receiver }
{
    let slots = joint.slots.as_slice();
    let number = receiver as usize;
    if number <= slots.len() {
        return slot_name(slots, receiver);
    }
    match joint.links.get(number - slots.len() - 1) {
        Some(shared) => {
            let link = shared.link;
            link.name.as_str()
        }
        None => "",
    }
}

/// The name of an item of a slot's world; empty where there is none.
fn item_name<'a>(owner: &Slot<'a>, item: u32) -> &'a str
    ensures { result.now ≡ name_of_item (slice_get owner.now.world.items item) }
{
    let world = owner.world;
    match world.items.get(item as usize) {
        Some(item) => item.name.as_str(),
        None => "",
    }
}

/// The name of an item of a receiver's world; empty where there is none.
fn item_of<'a>(joint: &'a Joint, receiver: u16, item: u32) -> &'a str
    ensures { result.now ≡ name_of_item (item_at joint.now receiver item) }
{
    match first_owner(joint, receiver) {
        Some(owner) => item_name(owner, item),
        None => "",
    }
}

/// The name of a slot's location; empty where there is none.
fn location_name<'a>(slot: &Slot<'a>, index: u32) -> &'a str
    ensures { result.now ≡ name_of_location (slice_get slot.now.world.locations index) }
{
    let world = slot.world;
    match world.locations.get(index as usize) {
        Some(location) => location.name.as_str(),
        None => "",
    }
}

/// What stands at a location of the slot of this number: its own event, or else what is put there.
fn standing_at(stands: &[Option<Put>], number: u16, slot: &Slot, index: u32) -> Option<Put>
    requires fits { slot.now.first_place + slot_places slot.now < 2 ^ 32 }
    requires within { slot.now.first_place + slot_places slot.now ≤ length stands.now }
    ensures { result ≡ stands_in (λ p. slice_index_or stands.now p None) number slot.now index
        (slice_get slot.now.world.locations index) }
{
    let world = slot.world;
    let location = world.locations.get(index as usize)?;
    let place = slot.location_place(index);
    match location.event {
        Some(item) => Some(Put {
            place,
            receiver: number,
            item,
        }),
        None => stands[place as usize],
    }
}

/// Adds the line of an entry.
fn add_entry(
    out: &mut String,
    number: u64,
    finder: &str,
    location: &str,
    receiver: &str,
    item: &str,
) -> Result<(), Memory>
    ensures { OnOk result (string_bytes out.new ≡ string_bytes out.old
        ++ entry_line number finder.now location.now receiver.now item.now) }
{
    write!(out, "{number} {finder}: {location}")?;
    write!(out, " -> {receiver}: {item}\n")?;
    Ok(())
}

/// Adds the line of what is put at a location.
fn add_put(
    out: &mut String,
    joint: &Joint,
    number: u64,
    finder: &str,
    location: &str,
    put: Option<Put>,
) -> Result<(), Memory>
    ensures { OnOk result (string_bytes out.new ≡ string_bytes out.old
        ++ entry_line number finder.now location.now (plain_receiver_name joint.now put)
        (put_name joint.now put)) }
{
    match put {
        Some(put) => {
            let receiver = receiver_name(joint, put.receiver);
            let item = item_of(joint, put.receiver, put.item);
            add_entry(out, number, finder, location, receiver, item)
        }
        None => add_entry(out, number, finder, location, "", ""),
    }
}

/// Adds the line of the location with this index, of the slot of this number, in the sphere of a
/// number.
fn add_found(
    out: &mut String,
    joint: &Joint,
    stands: &[Option<Put>],
    number: u64,
    finder: u16,
    index: u32,
    slot: &Slot,
) -> Result<(), Memory>
    requires fits { slot.now.first_place + slot_places slot.now < 2 ^ 32 }
    requires within { slot.now.first_place + slot_places slot.now ≤ length stands.now }
    ensures { OnOk result (string_bytes out.new ≡ string_bytes out.old
        ++ found_line joint.now
        (λ p. slice_index_or stands.now p None) number finder index slot.now) }
{
    let name = first_name(slot);
    let location = location_name(slot, index);
    let put = standing_at(stands, finder, slot, index);
    add_put(out, joint, number, name, location, put)
}

/// Adds the line of a location in the sphere of a number.
fn add_spot(
    out: &mut String,
    joint: &Joint,
    stands: &[Option<Put>],
    number: u64,
    spot: Spot,
) -> Result<(), Memory>
    requires { length stands.now ≡ place_total joint.now.slots }
    ensures { OnOk result (string_bytes out.new ≡ string_bytes out.old
        ++ spot_line joint.now (λ p. slice_index_or stands.now p None) number spot) }
{
    match slot_of(joint.slots.as_slice(), spot.slot) {
        Some(slot) => add_found(out, joint, stands, number, spot.slot, spot.index, slot),
        None => Ok(()),
    }
}

/// Adds the lines of the sphere of a number.
fn add_sphere(
    out: &mut String,
    joint: &Joint,
    stands: &[Option<Put>],
    number: u64,
    sphere: &[Spot],
) -> Result<(), Memory>
    requires { length stands.now ≡ place_total joint.now.slots }
    ensures { OnOk result (string_bytes out.new ≡ string_bytes out.old
        ++ flat_map (spot_line joint.now (λ p. slice_index_or stands.now p None) number)
        sphere.now) }
{
    for &spot in sphere {
        add_spot(out, joint, stands, number, spot)?;
    }
    Ok(())
}

/// Adds a line for each entry of the spheres, which are numbered from 1.
fn add_lines(
    out: &mut String,
    joint: &Joint,
    stands: &[Option<Put>],
    spheres: &[List<Spot>],
) -> Result<(), Memory>
    requires { length stands.now ≡ place_total joint.now.slots }
    ensures { OnOk result (string_bytes out.new ≡ string_bytes out.old
        ++ plain_lines joint.now (λ p. slice_index_or stands.now p None) 1 spheres.now) }
{
    for (index, sphere) in spheres.iter().enumerate() {
        add_sphere(out, joint, stands, index as u64 + 1, sphere.as_slice())?;
    }
    Ok(())
}

/// A text, and after it the lines of a playthrough: for each entry its sphere's number from 1, who
/// finds it where, for whom, and what. `Memory` where memory ran out; the text is let go then.
pub fn with_played(
    alloc: Global,
    text: String,
    joint: &Joint,
    placement: &Placement,
    played: &SphereList,
) -> Result<String, Memory>
    requires { IsPlacement joint.now placement.now }
    ensures { IfOk result (λ t. string_bytes t ≡ string_bytes text
        ++ plain_lines joint.now (what_stands placement.now) 1 played.now) }
{
    let mut text = text;
    let stands = stands_of(alloc, joint, placement)?;
    add_lines(&mut text, joint, stands.as_slice(), played.as_slice())?;
    Ok(text)
}

ghost use Rattle.std.specs.Prelude.{◌≡◌, ◌<◌, ◌+◌, ◌++◌, ◌≤◌, ◌^◌, List, Some, true, IfOk, OnOk, All, length, map, replicate, slice_get, sum_by};
ghost use Rattle.mw_multi.specs.Joint as joined;
ghost use Rattle.mw_multi.specs.Placement as plain;
ghost use Rattle.mw_multi.specs.Placement.{PutKept, IsPlacement, IsPlaced, put_numbers};
ghost use Rattle.mw_multi.specs.Events.{event_at, slot_events, events_of, with_events, lacks_event, slot_flags, event_free, put_where};

use crate::joint::Joint;
use crate::location::Location;
use crate::placed::Placed;
use crate::placement::{Placement, Put};
use crate::slot::Slot;
use mw_base::Memory;
use std::alloc::Global;

/// Puts an event location's event into a table of the joint.
fn put_event(
    placed: &mut Placed,
    alloc: Global,
    joint: &Joint,
    receiver: u16,
    place: u32,
    event: Option<u32>,
) -> Result<(), Memory>
    requires placed { (puts : List plain.Put) × IsPlaced joint.now puts placed.old }
    requires kept { All (PutKept joint.now) (event_at receiver place event) }
    requires slot { receiver ≤ length joint.now.slots }
    requires room { sum_by length placed.old + 1 < 2 ^ 31 }
    ensures more { sum_by length placed.new ≤ sum_by length placed.old + 1 }
    ensures put { OnOk result ((puts : List plain.Put) → IsPlaced joint.now puts placed.old
        → IsPlaced joint.now (puts ++ event_at receiver place event) placed.new) }
{
    match event {
        None => Ok(()),
        Some(item) => placed.put(
            alloc,
            joint,
            Put {
                place,
                receiver,
                item,
            },
        ),
    }
}

/// Puts the events of the slot at an index, which counts from 0, into a table of the joint.
fn put_events(
    placed: &mut Placed,
    alloc: Global,
    joint: &Joint,
    before: usize,
) -> Result<(), Memory>
    requires placed { (puts : List plain.Put) × IsPlaced joint.now puts placed.old }
    requires slot { before < length joint.now.slots }
    requires room { sum_by length placed.old + 10000 < 2 ^ 31 }
    ensures more { OnOk result (sum_by length placed.new ≤ sum_by length placed.old + 10000) }
    ensures put { OnOk result ((puts : List plain.Put) (s : joined.Slot)
        → slice_get joint.now.slots before ≡ Some s → IsPlaced joint.now puts placed.old
        → IsPlaced joint.now (puts ++ slot_events (before + 1) s) placed.new) }
{
    let slot = &joint.slots.as_slice()[before];
    let world = slot.world;
    let first = slot.first_place + world.regions.len() as u32;
    let number = before as u16 + 1;
    for (index, location) in world.locations.as_slice().iter().enumerate() {
        let place = first + index as u32;
        put_event(placed, alloc, joint, number, place, location.event)?;
    }
    Ok(())
}

/// Adds a flag for each of so many regions: no event stands there.
fn push_regions(flags: &mut Vec<bool>, regions: usize) -> Result<(), Memory>
    ensures { OnOk result (flags.new.items ≡ flags.old.items ++ replicate regions true) }
{
    for _ in 0..regions {
        flags.push(true)?;
    }
    Ok(())
}

/// Adds a flag for each location: whether it has no event.
fn push_locations(flags: &mut Vec<bool>, locations: &[Location]) -> Result<(), Memory>
    ensures { OnOk result (flags.new.items ≡ flags.old.items ++ map lacks_event locations.now) }
{
    for location in locations {
        flags.push(location.event.is_none())?;
    }
    Ok(())
}

/// Adds a flag for each place of the slot: whether no event stands there.
fn push_slot(flags: &mut Vec<bool>, slot: &Slot) -> Result<(), Memory>
    ensures { OnOk result (flags.new.items ≡ flags.old.items ++ slot_flags slot.now) }
{
    let world = slot.world;
    push_regions(flags, world.regions.len())?;
    push_locations(flags, world.locations.as_slice())?;
    Ok(())
}

/// For each place of the joint, whether no event stands there.
fn flags_of(alloc: Global, joint: &Joint) -> Result<Vec<bool>, Memory>
    ensures { IfOk result (λ flags. flags.items ≡ event_free joint.now.slots) }
{
    let mut flags = Vec::new(alloc);
    for slot in joint.slots.as_slice() {
        push_slot(&mut flags, slot)?;
    }
    Ok(flags)
}

/// Puts an item into a table of the joint, where it is to stand there.
fn put_if(
    placed: &mut Placed,
    alloc: Global,
    joint: &Joint,
    put: Put,
    free: bool,
) -> Result<(), Memory>
    requires placed { (puts : List plain.Put) × IsPlaced joint.now puts placed.old }
    requires kept { PutKept joint.now put }
    requires room { sum_by length placed.old + length (put_numbers joint.now put) < 2 ^ 31 }
    ensures more { sum_by length placed.new
        ≤ sum_by length placed.old + length (put_numbers joint.now put) }
    ensures put { OnOk result ((puts : List plain.Put) → IsPlaced joint.now puts placed.old
        → IsPlaced joint.now (puts ++ put_where free put) placed.new) }
{
    if free {
        placed.put(alloc, joint, put)
    } else {
        Ok(())
    }
}

impl Placed {
    /// The table of the joint's events, and of what the placement puts at locations that have none; `Memory` where memory
    /// ran out.
    pub fn with_events(
        alloc: Global,
        joint: &Joint,
        placement: &Placement,
    ) -> Result<Placed, Memory>
        requires { IsPlacement joint.now placement.now }
        ensures { IfOk result (IsPlaced joint.now (with_events joint.now placement.now)) }
    {
        // Reading the joint makes known what its type keeps.
        let _ = &joint.slots;
        let mut placed = Placed::events(alloc, joint)?;
        let flags = flags_of(alloc, joint)?;
        for put in placement.as_slice() {
            put_if(&mut placed, alloc, joint, *put, flags[put.place as usize])?;
        }
        Ok(placed)
    }

    /// The table of the joint's events alone, each at its event location; `Memory` where memory ran out.
    pub fn events(alloc: Global, joint: &Joint) -> Result<Placed, Memory>
        ensures value { IfOk result (IsPlaced joint.now (events_of joint.now)) }
        ensures few { IfOk result (λ placed. sum_by length placed ≤ 10240000) }
    {
        // Reading the joint makes known what its type keeps.
        let _ = &joint.slots;
        let mut placed = Placed::none(alloc, joint)?;
        for before in 0..joint.slots.len() {
            put_events(&mut placed, alloc, joint, before)?;
        }
        Ok(placed)
    }
}

ghost use Rattle.std.specs.Prelude.{◌≡◌, ◌<◌, ◌≤◌, ◌+◌, ◌^◌, ◌++◌, All, IfOk, OnOk, length};
ghost use Rattle.mw_multi.specs.Joint.{slot_places};
ghost use Rattle.mw_multi.specs.declared.location.LocKind.{LocKind};
ghost use Rattle.mw_fill.specs.Kept.{OpeningKept};
ghost use Rattle.mw_fill.specs.Openings as plain;
ghost use Rattle.mw_fill.specs.Openings.{opening_at, slot_openings, of_kind};

use crate::opening::Opening;
use mw_base::{List, Memory};
use mw_multi::{Joint, LocKind, Location, Slot};
use std::alloc::Global;

/// The kind of a location that an option excludes or not and gives priority or not, and that is of
/// this kind in its table.
fn kind_of(exclude: bool, priority: bool, table: LocKind) -> LocKind
    ensures { result ≡ plain.kind_of exclude priority table }
{
    if exclude || matches!(table, LocKind::Excluded) {
        LocKind::Excluded
    } else if priority || matches!(table, LocKind::Priority) {
        LocKind::Priority
    } else {
        LocKind::Default
    }
}

/// The location with this index of the slot of this number.
fn opening_of(number: u16, slot: &Slot, index: u32, location: &Location) -> Opening
    requires index { index < length slot.now.world.locations }
    requires fits { slot.now.first_place + slot_places slot.now < 2 ^ 32 }
    ensures { result ≡ plain.opening_of number slot.now index location.now }
{
    let exclude = slot.exclude_locations.as_slice()[index as usize];
    let priority = slot.priority_locations.as_slice()[index as usize];
    let world = slot.world;
    Opening {
        place: slot.location_place(index),
        slot: number,
        kind: kind_of(exclude, priority, location.kind),
        filler: world.filler,
    }
}

/// Adds a location of the slot of this number, where it has an id.
fn push_opening(
    openings: &mut List<Opening>,
    number: u16,
    slot: &Slot,
    index: u32,
    location: &Location,
) -> Result<(), Memory>
    requires index { index < length slot.now.world.locations }
    requires fits { slot.now.first_place + slot_places slot.now < 2 ^ 32 }
    ensures { OnOk result (openings.new ≡ openings.old
        ++ opening_at number slot.now index location.now) }
{
    if location.id.is_some() {
        openings.push(opening_of(number, slot, index, location))?;
    }
    Ok(())
}

/// Adds the locations with an id of the slot of this number.
fn push_slot(openings: &mut List<Opening>, number: u16, slot: &Slot) -> Result<(), Memory>
    requires fits { slot.now.first_place + slot_places slot.now < 2 ^ 32 }
    ensures { OnOk result (openings.new ≡ openings.old ++ slot_openings number slot.now) }
{
    let world = slot.world;
    for (index, location) in world.locations.as_slice().iter().enumerate() {
        push_opening(openings, number, slot, index as u32, location)?;
    }
    Ok(())
}

/// The locations with an id, by slot and table order; `Memory` where memory ran out.
pub(crate) fn openings_of(alloc: Global, joint: &Joint) -> Result<List<Opening>, Memory>
    ensures openings { IfOk result (λ openings. openings ≡ plain.openings_of joint.now) }
    ensures few { IfOk result (λ openings. length openings ≤ 200000) }
    ensures kept { IfOk result (All (OpeningKept joint.now)) }
{
    let mut openings = List::new(alloc);
    for (index, slot) in joint.slots.as_slice().iter().enumerate() {
        push_slot(&mut openings, index as u16 + 1, slot)?;
    }
    Ok(openings)
}

/// Adds those of a kind.
fn push_kind(into: &mut List<Opening>, openings: &[Opening], kind: LocKind) -> Result<(), Memory>
    ensures { OnOk result (into.new ≡ into.old ++ of_kind kind openings.now) }
{
    for opening in openings {
        if opening.has_kind(kind) {
            into.push(*opening)?;
        }
    }
    Ok(())
}

/// Those with priority, then the default ones; `Memory` where memory ran out.
pub(crate) fn regular(alloc: Global, openings: &[Opening]) -> Result<List<Opening>, Memory>
    ensures { IfOk result (λ found. found ≡ plain.regular openings.now) }
{
    let mut found = List::new(alloc);
    push_kind(&mut found, openings, LocKind::Priority)?;
    push_kind(&mut found, openings, LocKind::Default)?;
    Ok(found)
}

/// The excluded ones, then those with priority, then the default ones; `Memory` where memory ran
/// out.
pub(crate) fn all_kinds(alloc: Global, openings: &[Opening]) -> Result<List<Opening>, Memory>
    ensures { IfOk result (λ found. found ≡ plain.all_kinds openings.now) }
{
    let mut found = List::new(alloc);
    push_kind(&mut found, openings, LocKind::Excluded)?;
    push_kind(&mut found, openings, LocKind::Priority)?;
    push_kind(&mut found, openings, LocKind::Default)?;
    Ok(found)
}

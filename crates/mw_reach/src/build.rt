ghost use Rattle.std.specs.Prelude.{◌≡◌, ◌<◌, ◌≤◌, ◌+◌, ◌^◌, ◌∷◌, ◌++◌, [], Some, List, OnOk, IfOk, length, map};
ghost use Rattle.mw_multi.specs.Joint.{place_total};
ghost use Rattle.mw_multi.specs.Steps.{entrance_rule, location_rule, entrance_step, location_steps, origin_step, slot_rules, slot_steps, steps_of, rule_list};
ghost use Rattle.mw_reach.specs.Rows.{StartFits, steps_in};
ghost use Rattle.mw_reach.specs.Building.{SlotFits, HasRules, AreJointRows};

use crate::draft::Draft;
use crate::notes::Notes;
use crate::row::{Rows, Start};
use crate::watch::{add_origin, add_step};
use mw_base::{List, Memory};
use mw_multi::{Joint, Slot};
use mw_rules::Ruling;
use std::alloc::Global;

/// Adds a step of the slot with this index. After `Memory` the rows are of no use.
fn add_ruled<R: Ruling>(
    joint: &Joint,
    rules: &R,
    rows: &mut Draft,
    index: u32,
    slot: &Slot,
    start: Start,
    to: u32,
) -> Result<(), Memory>
    requires rules { R.stands_for rules.now (rule_list joint.now) }
    requires slot { SlotFits joint.now index slot.now }
    requires few { length rows.old.rows < 2 ^ 32 }
    requires start { StartFits (rule_list joint.now) slot.now (place_total joint.now.slots) start }
    requires to { to < place_total joint.now.slots }
    requires rows { AreJointRows joint.now rows.old }
    ensures kept { OnOk result (AreJointRows joint.now rows.new) }
    ensures rows { OnOk result (rows.new.rows ≡ rows.old.rows
        ++ record { slot = index; start = Some start; to = to } ∷ []) }
{
    let named = rules.named(start.rule);
    add_step(
        rows,
        index,
        start,
        to,
        slot.first_place,
        slot.first_item,
        named,
    )?;
    Ok(())
}

/// Adds the step into the origin of the slot with this index. After `Memory` the rows are of no use.
fn add_first(joint: &Joint, rows: &mut Draft, index: u32, slot: &Slot) -> Result<(), Memory>
    requires slot { SlotFits joint.now index slot.now }
    requires few { length rows.old.rows < 2 ^ 32 }
    requires rows { AreJointRows joint.now rows.old }
    ensures kept { OnOk result (AreJointRows joint.now rows.new) }
    ensures steps { OnOk result (steps_in joint.now rows.new ≡ steps_in joint.now rows.old
        ++ origin_step slot.now ∷ []) }
    ensures many { OnOk result (length rows.new.rows ≡ length rows.old.rows + 1) }
{
    let world = slot.world;
    add_origin(rows, index, slot.first_place + world.origin)?;
    Ok(())
}

/// Adds the entrances of the slot with this index, the first of which has this rule. After `Memory` the rows are of no use.
fn add_entrances<R: Ruling>(
    joint: &Joint,
    rules: &R,
    rows: &mut Draft,
    index: u32,
    slot: &Slot,
    first_rule: u32,
) -> Result<(), Memory>
    requires rules { R.stands_for rules.now (rule_list joint.now) }
    requires slot { SlotFits joint.now index slot.now }
    requires numbers { HasRules (rule_list joint.now) first_rule
        (map entrance_rule slot.now.world.entrances) }
    requires few { (length rows.old.rows + 10000 < 2 ^ 32) × (first_rule + 10000 < 2 ^ 32) }
    requires rows { AreJointRows joint.now rows.old }
    ensures kept { OnOk result (AreJointRows joint.now rows.new) }
    ensures steps { OnOk result (steps_in joint.now rows.new ≡ steps_in joint.now rows.old
        ++ map (entrance_step slot.now) slot.now.world.entrances) }
    ensures many { OnOk result (length rows.new.rows ≡ length rows.old.rows
        + length slot.now.world.entrances) }
{
    let world = slot.world;
    for (i, entrance) in world.entrances.as_slice().iter().enumerate() {
        let start = Start {
            from: slot.first_place + entrance.from,
            rule: first_rule + i as u32,
        };
        let to = slot.first_place + entrance.to;
        add_ruled(joint, rules, rows, index, slot, start, to)?;
    }
    Ok(())
}

/// Adds the locations of the slot with this index, the first of which has this rule. After `Memory` the rows are of no use.
fn add_locations<R: Ruling>(
    joint: &Joint,
    rules: &R,
    rows: &mut Draft,
    index: u32,
    slot: &Slot,
    first_rule: u32,
) -> Result<(), Memory>
    requires rules { R.stands_for rules.now (rule_list joint.now) }
    requires slot { SlotFits joint.now index slot.now }
    requires numbers { HasRules (rule_list joint.now) first_rule
        (map location_rule slot.now.world.locations) }
    requires few { (length rows.old.rows + 10000 < 2 ^ 32) × (first_rule + 10000 < 2 ^ 32) }
    requires rows { AreJointRows joint.now rows.old }
    ensures kept { OnOk result (AreJointRows joint.now rows.new) }
    ensures steps { OnOk result (steps_in joint.now rows.new ≡ steps_in joint.now rows.old
        ++ location_steps slot.now 0 slot.now.world.locations) }
    ensures many { OnOk result (length rows.new.rows ≡ length rows.old.rows
        + length slot.now.world.locations) }
{
    let world = slot.world;
    let first_location = slot.first_place + world.regions.len() as u32;
    for (i, location) in world.locations.as_slice().iter().enumerate() {
        let start = Start {
            from: slot.first_place + location.region,
            rule: first_rule + i as u32,
        };
        let to = first_location + i as u32;
        add_ruled(joint, rules, rows, index, slot, start, to)?;
    }
    Ok(())
}

/// Adds the steps of the slot with this index, whose rules begin with this one. After `Memory` the rows are of no use.
fn add_slot<R: Ruling>(
    joint: &Joint,
    rules: &R,
    rows: &mut Draft,
    index: u32,
    slot: &Slot,
    first_rule: u32,
) -> Result<(), Memory>
    requires rules { R.stands_for rules.now (rule_list joint.now) }
    requires slot { SlotFits joint.now index slot.now }
    requires numbers { HasRules (rule_list joint.now) first_rule (slot_rules slot.now) }
    requires few { (length rows.old.rows + 30000 < 2 ^ 32) × (first_rule + 30000 < 2 ^ 32) }
    requires rows { AreJointRows joint.now rows.old }
    ensures kept { OnOk result (AreJointRows joint.now rows.new) }
    ensures steps { OnOk result (steps_in joint.now rows.new ≡ steps_in joint.now rows.old
        ++ slot_steps slot.now) }
    ensures many { OnOk result (length rows.new.rows ≡ length rows.old.rows
        + length (slot_rules slot.now)) }
{
    let world = slot.world;
    add_first(joint, rows, index, slot)?;
    add_entrances(joint, rules, rows, index, slot, first_rule)?;
    let first_location_rule = first_rule + world.entrances.len() as u32;
    add_locations(joint, rules, rows, index, slot, first_location_rule)?;
    Ok(())
}

/// How many rules a slot has: its entrances', its locations' and its goal.
pub(crate) fn rule_count(slot: &Slot) -> u32
    ensures value { result ≡ length (slot_rules slot.now) }
    ensures few { result ≤ 20001 }
{
    let world = slot.world;
    (world.entrances.len() + world.locations.len() + 1) as u32
}

/// Rows for no step yet.
fn no_rows(alloc: Global, joint: &Joint) -> Result<Draft, Memory>
    ensures kept { IfOk result (AreJointRows joint.now) }
    ensures rows { IfOk result (λ rows. rows.rows ≡ []) }
{
    let by_place = Notes::new(alloc, joint.place_count() as usize)?;
    let by_item = Notes::new(alloc, joint.item_count() as usize)?;
    Ok(Draft {
        rows: List::new(alloc),
        origins: List::new(alloc),
        by_place,
        by_item,
    })
}

/// The steps of the joint, and which of them a place or an item may open; `Memory` where memory ran out.
pub(crate) fn rows_of<R: Ruling>(alloc: Global, joint: &Joint, rules: &R) -> Result<Rows, Memory>
    requires rules { R.stands_for rules.now (rule_list joint.now) }
    ensures kept { IfOk result (AreJointRows joint.now) }
    ensures steps { IfOk result (λ rows. steps_in joint.now rows ≡ steps_of joint.now) }
{
    let mut rows = no_rows(alloc, joint)?;
    let mut rule = 0;
    for (i, slot) in joint.slots.as_slice().iter().enumerate() {
        add_slot(joint, rules, &mut rows, i as u32, slot, rule)?;
        rule += rule_count(slot);
    }
    let rows = rows.finish(alloc)?;
    Ok(rows)
}

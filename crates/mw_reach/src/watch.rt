ghost use Rattle.std.specs.Prelude.{◌≡◌, ◌<◌, ◌+◌, ◌^◌, ◌∷◌, ◌++◌, [], Some, None, All, OnOk, length, nat_eq};
ghost use Rattle.mw_reach.specs.Reach.{one_if, times_in};
ghost use Rattle.mw_reach.specs.Building.{StartsThere, StartsNowhere, AddsStep};
ghost use Rattle.mw_reach.specs.Tables.{IsNoted, shifted, but_at};

use crate::draft::Draft;
use crate::notes::Notes;
use crate::row::{Row, Start};
use mw_base::Memory;
use mw_rules::Named;

/// Notes a number for each of a slot's items.
fn note_items(table: &mut Notes, first: u32, items: &[u32], number: u32) -> Result<(), Memory>
    requires few { length table.old < 2 ^ 32 }
    requires items { All (λ i. first + i < length table.old) items.now }
    ensures { OnOk result (IsNoted table.old table.new number
        (λ k. times_in k (shifted first items.now))) }
{
    for &item in items {
        table.note((first + item) as usize, number)?;
    }
    Ok(())
}

/// Notes a number for a place, but not for the place where the step starts.
fn note_other(table: &mut Notes, start: u32, place: u32, number: u32) -> Result<(), Memory>
    requires { place < length table.old }
    ensures { OnOk result (IsNoted table.old table.new number
        (but_at start (λ k. one_if (nat_eq place k)))) }
{
    if place == start {
        return Ok(());
    }
    table.note(place as usize, number)?;
    Ok(())
}

/// Notes a number for each of a slot's places, but not for the place where the step starts.
fn note_places(
    table: &mut Notes,
    start: u32,
    first: u32,
    places: &[u32],
    number: u32,
) -> Result<(), Memory>
    requires few { length table.old < 2 ^ 32 }
    requires places { All (λ p. first + p < length table.old) places.now }
    ensures { OnOk result (IsNoted table.old table.new number
        (but_at start (λ k. times_in k (shifted first places.now)))) }
{
    for &place in places {
        note_other(table, start, first + place, number)?;
    }
    Ok(())
}

/// Notes a step where it starts and for each place that its rule names.
fn note_start(
    table: &mut Notes,
    start: u32,
    first: u32,
    places: &[u32],
    number: u32,
) -> Result<(), Memory>
    requires few { length table.old < 2 ^ 32 }
    requires start { start < length table.old }
    requires places { All (λ p. first + p < length table.old) places.now }
    ensures { OnOk result (IsNoted table.old table.new number
        (λ k. one_if (nat_eq start k) + but_at start
        (λ j. times_in j (shifted first places.now)) k)) }
{
    table.note(start as usize, number)?;
    note_places(table, start, first, places, number)?;
    Ok(())
}

/// Adds a step of a slot that starts nowhere. After `Memory` the rows are of no use.
pub(crate) fn add_origin(rows: &mut Draft, slot: u32, to: u32) -> Result<(), Memory>
    requires few { length rows.old.rows < 2 ^ 32 }
    ensures rows { OnOk result (rows.new.rows ≡ rows.old.rows
        ++ record { slot = slot; start = None; to = to } ∷ []) }
    ensures origins { OnOk result (rows.new.origins ≡ rows.old.origins
        ++ length rows.old.rows ∷ []) }
    ensures sizes { OnOk result ((length rows.new.by_place ≡ length rows.old.by_place)
        × (length rows.new.by_item ≡ length rows.old.by_item)) }
    ensures watched { OnOk result (AddsStep rows.old rows.new StartsNowhere) }
{
    let number = rows.rows.len() as u32;
    rows.rows.push(Row {
        slot,
        start: None,
        to,
    })?;
    rows.origins.push(number)?;
    Ok(())
}

/// Adds a step of the slot with these first numbers. After `Memory` the rows are of no use.
pub(crate) fn add_step(
    rows: &mut Draft,
    slot: u32,
    start: Start,
    to: u32,
    first_place: u32,
    first_item: u32,
    named: &Named,
) -> Result<(), Memory>
    requires few { length rows.old.rows < 2 ^ 32 }
    requires keys { (length rows.old.by_place < 2 ^ 32) × (length rows.old.by_item < 2 ^ 32) }
    requires start { start.from < length rows.old.by_place }
    requires places { All (λ p. first_place + p < length rows.old.by_place) named.now.places }
    requires items { All (λ i. first_item + i < length rows.old.by_item) named.now.items }
    ensures rows { OnOk result (rows.new.rows ≡ rows.old.rows
        ++ record { slot = slot; start = Some start; to = to } ∷ []) }
    ensures origins { OnOk result (rows.new.origins ≡ rows.old.origins) }
    ensures sizes { OnOk result ((length rows.new.by_place ≡ length rows.old.by_place)
        × (length rows.new.by_item ≡ length rows.old.by_item)) }
    ensures watched { OnOk result (AddsStep rows.old rows.new
        (StartsThere start.from first_place first_item named.now.items named.now.places)) }
{
    let number = rows.rows.len() as u32;
    let places = named.places.as_slice();
    note_start(&mut rows.by_place, start.from, first_place, places, number)?;
    let items = named.items.as_slice();
    note_items(&mut rows.by_item, first_item, items, number)?;
    rows.rows.push(Row {
        slot,
        start: Some(start),
        to,
    })?;
    Ok(())
}

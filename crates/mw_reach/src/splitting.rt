ghost use Rattle.std.specs.Prelude.{◌≡◌, ◌<◌, All, IfOk, length};
ghost use Rattle.mw_multi.specs.Placement.{numbers_at};
ghost use Rattle.mw_reach.specs.Rows.{steps_in};
ghost use Rattle.mw_reach.specs.Building.{AreJointRows};
ghost use Rattle.mw_rules.specs.Holds.{places_of};
ghost use Rattle.mw_reach.specs.Split as plain;
ghost use Rattle.mw_reach.specs.Split.{AreAlways, IsSplit, asked_numbers, leaf_places};

use crate::row::Rows;
use crate::split::Split;
use crate::table::Table;
use mw_base::{List, Memory};
use mw_multi::Joint;
use std::alloc::Global;

/// Whether the flag with this number is set.
fn is_set(flags: &[bool], number: u32) -> bool
    ensures { result ≡ places_of flags.now number }
{
    match flags.get(number as usize) {
        Some(&flag) => flag,
        None => false,
    }
}

/// Whether the step with this number may always be taken from the place, and no step waits for where it leads.
fn leads_to_leaf(free: &[bool], rows: &Rows, place: usize, number: u32) -> bool
    requires number { number < length rows.now.rows }
    requires to { All (λ row. row.to < length rows.now.by_place) rows.now.rows }
    ensures { result
        ≡ plain.leads_to_leaf free.now rows.now.rows rows.now.by_place place number }
{
    let row = &rows.rows.as_slice()[number as usize];
    match row.start {
        None => false,
        Some(start) => {
            start.from as usize == place
                && is_set(free, start.rule)
                && rows.by_place.at(row.to as usize).len() == 0
        }
    }
}

/// Whether the step with this number has to be asked at the place.
fn is_asked(free: &[bool], rows: &Rows, place: usize, number: u32) -> bool
    requires number { number < length rows.now.rows }
    requires to { All (λ row. row.to < length rows.now.by_place) rows.now.rows }
    ensures { result ≡ plain.is_asked free.now rows.now.rows rows.now.by_place place number }
{
    !leads_to_leaf(free, rows, place, number)
}

/// The numbers of the steps at a place that have to be asked.
fn asked_at(alloc: Global, free: &[bool], rows: &Rows, place: usize) -> Result<List<u32>, Memory>
    requires place { place < length rows.now.by_place }
    requires numbers { All (λ n. n < length rows.now.rows) (numbers_at rows.now.by_place place) }
    requires to { All (λ row. row.to < length rows.now.by_place) rows.now.rows }
    ensures { IfOk result (λ found. found
        ≡ asked_numbers free.now rows.now.rows rows.now.by_place place) }
{
    let mut found = List::new(alloc);
    for &number in rows.by_place.at(place) {
        if is_asked(free, rows, place, number) {
            found.push(number)?;
        }
    }
    Ok(found)
}

/// The leaves that the other steps at a place lead to.
fn leaves_at(alloc: Global, free: &[bool], rows: &Rows, place: usize) -> Result<List<u32>, Memory>
    requires place { place < length rows.now.by_place }
    requires numbers { All (λ n. n < length rows.now.rows) (numbers_at rows.now.by_place place) }
    requires to { All (λ row. row.to < length rows.now.by_place) rows.now.rows }
    ensures { IfOk result (λ found. found
        ≡ leaf_places free.now rows.now.rows rows.now.by_place place) }
{
    let mut found = List::new(alloc);
    for &number in rows.by_place.at(place) {
        if leads_to_leaf(free, rows, place, number) {
            found.push(rows.rows.as_slice()[number as usize].to)?;
        }
    }
    Ok(found)
}

/// The steps at each place, split by whether they have to be asked; `Memory` where memory ran out.
pub(crate) fn split_of(
    alloc: Global,
    joint: &Joint,
    free: &[bool],
    rows: &Rows,
) -> Result<Split, Memory>
    requires free { AreAlways joint.now free.now }
    requires rows { AreJointRows joint.now rows.now }
    ensures { IfOk result (IsSplit (steps_in joint.now rows.now) rows.now.by_place) }
{
    let mut asked = Table::new(alloc);
    let mut leaves = Table::new(alloc);
    for place in 0..joint.place_count() as usize {
        let numbers = asked_at(alloc, free, rows, place)?;
        asked = asked.with(numbers.as_slice())?;
        let places = leaves_at(alloc, free, rows, place)?;
        leaves = leaves.with(places.as_slice())?;
    }
    Ok(Split { asked, leaves })
}

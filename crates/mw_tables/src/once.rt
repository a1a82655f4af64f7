ghost use Rattle.std.specs.Prelude.{◌≡◌};
ghost use Rattle.mw_json.specs.Grammar.{Gives};
ghost use Rattle.mw_tables.specs.Names.{is_at as is_at_place, names_once};
ghost use Rattle.mw_tables.specs.WorldNames.{region_once, item_name_once, item_id_once, item_named, items_named, entrance_once, location_name_once, location_id_once, location_once};

use crate::judge::judge;
use crate::raw::{RawEntrance, RawLocation};
use crate::tables::Tables;
use mw_base::Text;
use mw_json::{Kind, Refusal, at_index, at_name};
use mw_multi::Item;
use std::alloc::Global;

fn is_at(place: usize, found: Option<u32>) -> bool
    ensures { result ≡ is_at_place place found }
{
    match found {
        Some(first) => first as usize == place,
        None => false,
    }
}

fn judge_region(alloc: Global, tables: &Tables, at: usize, name: &Text) -> Result<(), Refusal>
    ensures { Gives result (region_once tables.now at name.now) }
{
    let once = is_at(at, tables.region(name.as_str()));
    judge(alloc, once, Kind::DuplicateName)
}

/// No region's name stands twice.
pub(crate) fn judge_regions(alloc: Global, tables: &Tables) -> Result<(), Refusal>
    ensures { Gives result (names_once tables.now.regions 0 tables.now.regions) }
{
    let world = tables.world();
    for (i, name) in world.regions.as_slice().iter().enumerate() {
        at_index(judge_region(alloc, tables, i, name), i as u64)?;
    }
    Ok(())
}

fn judge_item_name(alloc: Global, tables: &Tables, at: usize, item: &Item) -> Result<(), Refusal>
    ensures { Gives result (item_name_once tables.now at item.now) }
{
    let once = is_at(at, tables.item(item.name.as_str()));
    judge(alloc, once, Kind::DuplicateName)
}

fn judge_item_id(alloc: Global, tables: &Tables, at: usize, item: &Item) -> Result<(), Refusal>
    ensures { Gives result (item_id_once tables.now at item.now) }
{
    match &item.id {
        Some(id) => {
            let once = is_at(at, tables.item_of_id(id.get()));
            judge(alloc, once, Kind::DuplicateId)
        }
        None => Ok(()),
    }
}

#[tactic(auto, unfolding(crate::specs::WorldNames::item_named))]
fn judge_item(alloc: Global, tables: &Tables, at: usize, item: &Item) -> Result<(), Refusal>
    ensures { Gives result (item_named tables.now at item.now) }
{
    at_name(alloc, judge_item_name(alloc, tables, at, item), "name")?;
    at_name(alloc, judge_item_id(alloc, tables, at, item), "id")
}

/// No item's name and no item's id stands twice.
pub(crate) fn judge_items(alloc: Global, tables: &Tables) -> Result<(), Refusal>
    ensures { Gives result (items_named tables.now 0 tables.now.items) }
{
    let world = tables.world();
    for (i, item) in world.items.as_slice().iter().enumerate() {
        at_index(judge_item(alloc, tables, i, item), i as u64)?;
    }
    Ok(())
}

/// The entrance's name stands at no earlier one.
pub(crate) fn judge_entrance_name(
    alloc: Global,
    tables: &Tables,
    at: usize,
    entrance: &RawEntrance,
) -> Result<(), Refusal>
    ensures { Gives result (entrance_once tables.now at entrance.now) }
{
    let once = is_at(at, tables.entrance(entrance.name.as_str()));
    judge(alloc, once, Kind::DuplicateName)
}

/// The location's name stands at no earlier one.
fn judge_location_name(
    alloc: Global,
    tables: &Tables,
    at: usize,
    location: &RawLocation,
) -> Result<(), Refusal>
    ensures { Gives result (location_name_once tables.now at location.now) }
{
    let once = is_at(at, tables.location(location.name.as_str()));
    judge(alloc, once, Kind::DuplicateName)
}

/// The location's id, if it has one, stands at no earlier one.
fn judge_location_id(
    alloc: Global,
    tables: &Tables,
    at: usize,
    location: &RawLocation,
) -> Result<(), Refusal>
    ensures { Gives result (location_id_once tables.now at location.now) }
{
    match &location.id {
        Some(id) => {
            let once = is_at(at, tables.location_of_id(id.get()));
            judge(alloc, once, Kind::DuplicateId)
        }
        None => Ok(()),
    }
}

/// The location's name and id stand at no earlier one.
#[tactic(auto, unfolding(crate::specs::WorldNames::location_once))]
pub(crate) fn judge_location(
    alloc: Global,
    tables: &Tables,
    at: usize,
    location: &RawLocation,
) -> Result<(), Refusal>
    ensures { Gives result (location_once tables.now at location.now) }
{
    at_name(
        alloc,
        judge_location_name(alloc, tables, at, location),
        "name",
    )?;
    at_name(alloc, judge_location_id(alloc, tables, at, location), "id")
}

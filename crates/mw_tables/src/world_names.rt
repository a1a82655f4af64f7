ghost use Rattle.std.specs.Prelude.{◌≡◌};
ghost use Rattle.mw_json.specs.Grammar.{Gives};
ghost use Rattle.mw_tables.specs.WorldNames.{entrance_named, entrances_named, event_named, location_named, locations_named, entry_named, entries_named, rows_named, start_named, world_names};

use crate::item_names::{event_item_in, filler_item_in, pool_item_in, region_in};
use crate::named::NamedWorld;
use crate::named_rows::NamedRows;
use crate::once::{judge_entrance_name, judge_items, judge_location, judge_regions};
use crate::raw::{RawEntrance, RawEntry, RawLocation};
use crate::rule_names::named_rule_in;
use crate::tables::Tables;
use mw_base::{List, LocId, Text};
use mw_json::{Refusal, at_index, at_name};
use mw_multi::{Entrance, Location, PoolEntry};
use std::alloc::Global;

#[tactic(auto, unfolding(crate::specs::WorldNames::entrance_named))]
fn entrance_in(
    alloc: Global,
    tables: &Tables,
    at: usize,
    entrance: &RawEntrance,
) -> Result<Entrance, Refusal>
    ensures { Gives result (entrance_named tables.now at entrance.now) }
{
    at_name(
        alloc,
        judge_entrance_name(alloc, tables, at, entrance),
        "name",
    )?;
    let from = at_name(
        alloc,
        region_in(alloc, tables, entrance.from.as_str()),
        "from",
    )?;
    let to = at_name(alloc, region_in(alloc, tables, entrance.to.as_str()), "to")?;
    let rule = at_name(alloc, named_rule_in(alloc, tables, &entrance.rule), "rule")?;
    let name = Text::of(alloc, entrance.name.as_str())?;
    Ok(Entrance {
        name,
        from,
        to,
        rule: rule.rule,
    })
}

fn entrances_in(alloc: Global, tables: &Tables) -> Result<List<Entrance>, Refusal>
    ensures { Gives result (entrances_named tables.now 0 tables.now.entrances) }
{
    let world = tables.world();
    let mut entrances = List::new(alloc);
    for (i, entrance) in world.entrances.as_slice().iter().enumerate() {
        let named = at_index(entrance_in(alloc, tables, i, entrance), i as u64)?;
        entrances.push(named)?;
    }
    Ok(entrances)
}

fn event_in(alloc: Global, tables: &Tables, location: &RawLocation) -> Result<Option<u32>, Refusal>
    ensures { Gives result (event_named tables.now location.now.event) }
{
    match &location.event {
        Some(name) => Ok(Some(event_item_in(alloc, tables, name.as_str())?)),
        None => Ok(None),
    }
}

fn id_of(location: &RawLocation) -> Option<LocId>
    ensures { result ≡ location.now.id }
{
    location.id
}

#[tactic(auto, unfolding(crate::specs::WorldNames::location_named))]
fn location_in(
    alloc: Global,
    tables: &Tables,
    at: usize,
    location: &RawLocation,
) -> Result<Location, Refusal>
    ensures { Gives result (location_named tables.now at location.now) }
{
    judge_location(alloc, tables, at, location)?;
    let region = at_name(
        alloc,
        region_in(alloc, tables, location.region.as_str()),
        "region",
    )?;
    let rule = at_name(alloc, named_rule_in(alloc, tables, &location.rule), "rule")?;
    let event = at_name(alloc, event_in(alloc, tables, location), "event")?;
    let name = Text::of(alloc, location.name.as_str())?;
    Ok(Location {
        name,
        id: id_of(location),
        region,
        kind: location.kind,
        rule: rule.rule,
        event,
    })
}

fn locations_in(alloc: Global, tables: &Tables) -> Result<List<Location>, Refusal>
    ensures { Gives result (locations_named tables.now 0 tables.now.locations) }
{
    let world = tables.world();
    let mut locations = List::new(alloc);
    for (i, location) in world.locations.as_slice().iter().enumerate() {
        let named = at_index(location_in(alloc, tables, i, location), i as u64)?;
        locations.push(named)?;
    }
    Ok(locations)
}

#[tactic(auto, unfolding(crate::specs::WorldNames::entry_named))]
fn entry_in(alloc: Global, tables: &Tables, entry: &RawEntry) -> Result<PoolEntry, Refusal>
    ensures { Gives result (entry_named tables.now entry.now) }
{
    let item = at_name(
        alloc,
        pool_item_in(alloc, tables, entry.item.as_str()),
        "item",
    )?;
    Ok(PoolEntry {
        item,
        count: entry.count,
    })
}

fn entries_in(alloc: Global, tables: &Tables) -> Result<List<PoolEntry>, Refusal>
    ensures { Gives result (entries_named tables.now 0 tables.now.pool) }
{
    let world = tables.world();
    let mut entries = List::new(alloc);
    for (i, entry) in world.pool.as_slice().iter().enumerate() {
        let named = at_index(entry_in(alloc, tables, entry), i as u64)?;
        entries.push(named)?;
    }
    Ok(entries)
}

/// Where a player begins, where no region and no item stands twice.
#[tactic(auto, unfolding(crate::specs::WorldNames::start_named))]
fn start_in(alloc: Global, tables: &Tables) -> Result<u32, Refusal>
    ensures { Gives result (start_named tables.now) }
{
    let world = tables.world();
    let origin = region_in(alloc, tables, world.origin.as_str());
    let origin = at_name(alloc, origin, "origin")?;
    at_name(alloc, judge_regions(alloc, tables), "regions")?;
    at_name(alloc, judge_items(alloc, tables), "items")?;
    Ok(origin)
}

/// What the names of the entrances, the locations and the pool stand for.
#[tactic(auto, unfolding(crate::specs::WorldNames::rows_named))]
fn rows_in(alloc: Global, tables: &Tables) -> Result<NamedRows, Refusal>
    ensures { Gives result (rows_named tables.now) }
{
    let entrances = at_name(alloc, entrances_in(alloc, tables), "entrances")?;
    let locations = at_name(alloc, locations_in(alloc, tables), "locations")?;
    let pool = at_name(alloc, entries_in(alloc, tables), "pool")?;
    Ok(NamedRows {
        entrances,
        locations,
        pool,
    })
}

/// The names of a world, resolved in the order of its tables.
#[tactic(auto, unfolding(crate::specs::WorldNames::world_names))]
pub(crate) fn names_in(alloc: Global, tables: &Tables) -> Result<NamedWorld, Refusal>
    ensures { Gives result (world_names tables.now) }
{
    let world = tables.world();
    let origin = start_in(alloc, tables)?;
    let rows = rows_in(alloc, tables)?;
    let filler = filler_item_in(alloc, tables, world.filler.as_str());
    let filler = at_name(alloc, filler, "filler")?;
    let goal = at_name(alloc, named_rule_in(alloc, tables, &world.goal), "goal")?;
    Ok(NamedWorld {
        origin,
        entrances: rows.entrances,
        locations: rows.locations,
        pool: rows.pool,
        filler,
        goal: goal.rule,
    })
}

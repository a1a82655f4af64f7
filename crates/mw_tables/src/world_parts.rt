ghost use Rattle.std.specs.Prelude.{codes};
ghost use Rattle.mw_json.specs.View.{view, members_view};
ghost use Rattle.mw_json.specs.Grammar.{Gives, name_at};
ghost use Rattle.mw_json.specs.Readers.{list_of_at, field_or_at};
ghost use Rattle.mw_tables.specs.WorldShape.{item_at, entrance_at, location_at, parts_in as parts_in_members, rows_in as rows_in_members};

use crate::parts::long_name_in;
use crate::raw::{RawEntrance, RawLocation};
use crate::raw_parts::{WorldParts, WorldRows};
use crate::world_entrances::entrance_of;
use crate::world_items::item_of;
use crate::world_locations::location_of;
use crate::world_pool::pool_of;
use mw_base::{List, Text};
use mw_json::{Member, Refusal, Tree, field_in, field_or, list};
use mw_multi::Item;
use std::alloc::Global;

/// The region where a player begins, `Menu` where none is named.
fn origin_in(alloc: Global, members: &[Member]) -> Result<Text, Refusal>
    ensures { Gives result
        (field_or_at (codes "origin") (codes "Menu") (name_at 128) (members_view members.now)) }
{
    let menu = Text::of(alloc, "Menu")?;
    field_or(alloc, members, "origin", menu, long_name_in)
}

/// At most 5,000 regions.
fn regions_of(alloc: Global, tree: &Tree) -> Result<List<Text>, Refusal>
    ensures { Gives result (list_of_at 5000 (name_at 128) (view tree.now)) }
{
    list(alloc, tree, 5_000, long_name_in)
}

/// At most 10,000 items.
fn items_of(alloc: Global, tree: &Tree) -> Result<List<Item>, Refusal>
    ensures { Gives result (list_of_at 10000 item_at (view tree.now)) }
{
    list(alloc, tree, 10_000, item_of)
}

/// At most 10,000 entrances.
fn entrances_of(alloc: Global, tree: &Tree) -> Result<List<RawEntrance>, Refusal>
    ensures { Gives result (list_of_at 10000 entrance_at (view tree.now)) }
{
    list(alloc, tree, 10_000, entrance_of)
}

/// At most 10,000 locations.
fn locations_of(alloc: Global, tree: &Tree) -> Result<List<RawLocation>, Refusal>
    ensures { Gives result (list_of_at 10000 location_at (view tree.now)) }
{
    list(alloc, tree, 10_000, location_of)
}

/// The game, the region where a player begins, the regions and the items.
#[tactic(auto, unfolding(crate::specs::WorldShape::parts_in))]
pub(crate) fn parts_in(alloc: Global, members: &[Member]) -> Result<WorldParts, Refusal>
    ensures { Gives result (parts_in_members (members_view members.now)) }
{
    let game = field_in(alloc, members, "game", long_name_in)?;
    let origin = origin_in(alloc, members)?;
    let regions = field_in(alloc, members, "regions", regions_of)?;
    let items = field_in(alloc, members, "items", items_of)?;
    Ok(WorldParts {
        game,
        origin,
        regions,
        items,
    })
}

/// The entrances, the locations, the pool and the filler.
#[tactic(auto, unfolding(crate::specs::WorldShape::rows_in))]
pub(crate) fn rows_in(alloc: Global, members: &[Member]) -> Result<WorldRows, Refusal>
    ensures { Gives result (rows_in_members (members_view members.now)) }
{
    let entrances = field_in(alloc, members, "entrances", entrances_of)?;
    let locations = field_in(alloc, members, "locations", locations_of)?;
    let pool = field_in(alloc, members, "pool", pool_of)?;
    let filler = field_in(alloc, members, "filler", long_name_in)?;
    Ok(WorldRows {
        entrances,
        locations,
        pool,
        filler,
    })
}

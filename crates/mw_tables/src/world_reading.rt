ghost use Rattle.std.specs.Prelude.{◌≡◌};
ghost use Rattle.mw_json.specs.View.{view};
ghost use Rattle.mw_json.specs.Grammar.{Gives};
ghost use Rattle.mw_json.specs.Files.{GivesFile};
ghost use Rattle.mw_multi.specs.WorldKept.{IsWorld};
ghost use Rattle.mw_tables.specs.Small.{IsSmall};
ghost use Rattle.mw_tables.specs.WorldNames.{world_names};
ghost use Rattle.mw_tables.specs.WorldOf.{resolved, world_at};

use crate::named::NamedWorld;
use crate::raw::RawWorld;
use crate::tables::Tables;
use crate::world_names::names_in;
use crate::world_shape::world_shape;
use mw_json::{Refusal, Tree, tree_of_file};
use mw_multi::World;
use std::alloc::Global;

/// The names of a world, resolved.
fn named_world(alloc: Global, world: &RawWorld) -> Result<NamedWorld, Refusal>
    requires { IsSmall world.now }
    ensures { Gives result (world_names world.now) }
{
    let tables = Tables::of(alloc, world)?;
    names_in(alloc, &tables)
}

/// The world of these tables and of what their names stand for.
fn world_of(raw: RawWorld, named: NamedWorld) -> World
    requires { IsWorld (resolved raw named) }
    ensures { result ≡ resolved raw named }
{
    World {
        game: raw.game,
        origin: named.origin,
        regions: raw.regions,
        entrances: named.entrances,
        locations: named.locations,
        items: raw.items,
        pool: named.pool,
        filler: named.filler,
        goal: named.goal,
    }
}

/// The world that a tree stands for.
#[tactic(auto, unfolding(crate::specs::WorldOf::world_at))]
fn world_of_tree(alloc: Global, tree: &Tree) -> Result<World, Refusal>
    ensures { Gives result (world_at (view tree.now)) }
{
    let raw = world_shape(alloc, tree)?;
    let named = named_world(alloc, &raw)?;
    Ok(world_of(raw, named))
}

/// The world that a file's bytes stand for, or the first refusal.
///
/// `NoJson` and `TooDeep` stand at the whole. Then comes the first value that isn't of its kind or in its range, in
/// the order format, game, origin, regions, items, entrances, locations, pool, filler, goal; a rule that is too large
/// is refused as a whole, after what is in it. Then comes the first name or id that stands twice, isn't there or names
/// an item that a rule may not ask for, in that same order. `Memory` is want of memory.
pub fn read_world(alloc: Global, bytes: &[u8]) -> Result<World, Refusal>
    ensures { GivesFile result world_at bytes.now }
{
    let tree = tree_of_file(alloc, bytes)?;
    world_of_tree(alloc, &tree)
}

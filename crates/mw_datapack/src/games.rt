ghost use Rattle.std.specs.Prelude.{◌≡◌, IfOk, map};
ghost use Rattle.mw_model.specs.Json.{IsOrdered, IsWritable};
ghost use Rattle.mw_protocol.specs.Packages.{package_json};
ghost use Rattle.mw_json.specs.View.{view, member_view};
ghost use Rattle.mw_datapack.specs.Chosen.{chosen_members};

use crate::game::data_tree;
use crate::played::is_played;
use crate::wanted::Wanted;
use mw_base::{List, Memory, Text};
use mw_json::{Field, Member, Tree, object, object_tree, put};
use mw_multidata::{Game, Multidata, RoomTables, Slot};
use std::alloc::Global;

/// The wanted games that a slot plays, each under its name.
fn games_in(
    alloc: Global,
    slots: &[Slot],
    wanted: &Wanted,
    games: &[Game],
) -> Result<List<Member>, Memory>
    ensures { IfOk result (λ ms. map member_view ms
        ≡ chosen_members slots.now wanted.now games.now) }
{
    let mut found = List::new(alloc);
    for game in games {
        let name = game.name.as_str();
        if wanted.has(name) && is_played(slots, name) {
            put(alloc, &mut found, name, data_tree(alloc, game)?)?;
        }
    }
    Ok(found)
}

/// The data package of a seed, as an object.
fn package_tree(
    alloc: Global,
    seed: &Multidata,
    wanted: &Option<List<Text>>,
) -> Result<Tree, Memory>
    ensures { IfOk result (λ t. view t ≡ package_json seed.now wanted.now) }
{
    let wanted = Wanted::of(alloc, wanted)?;
    let games = games_in(alloc, seed.slots.as_slice(), &wanted, seed.games.as_slice())?;
    object(
        alloc,
        &mut [("games", Field::Built(Ok(object_tree(games))))],
    )
}

/// The data package: the games of these names that a slot plays, or all that a slot plays, in byte
/// order, each with its names and their ids and with their checksum. Memory is its only error.
pub fn package(
    alloc: Global,
    tables: &RoomTables,
    wanted: &Option<List<Text>>,
) -> Result<Tree, Memory>
    ensures value { IfOk result (λ t. view t ≡ package_json tables.now wanted.now) }
    ensures writable { IfOk result (λ t. IsWritable (view t)) }
    ensures ordered { IfOk result (λ t. IsOrdered (view t)) }
{
    package_tree(alloc, tables.multidata(), wanted)
}

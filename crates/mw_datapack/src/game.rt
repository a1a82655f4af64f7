ghost use Rattle.std.specs.Prelude.{◌≡◌, ◌↔◌, IfOk, IfSome, IsSome, IsTrue, option_map};
ghost use Rattle.mw_model.specs.Json.{IsWritable};
ghost use Rattle.mw_model.specs.Games.{checksum_of};
ghost use Rattle.mw_protocol.specs.Players.{plays};
ghost use Rattle.mw_json.specs.View.{view};
ghost use Rattle.mw_protocol.specs.Packages.{data_json};
ghost use Rattle.mw_datapack.specs.Played.{game_played};

use crate::names::checksum_of_game;
use crate::played::played;
use mw_base::{Memory, Text};
use mw_json::{Field, Tree, object};
use mw_multidata::{Game, RoomTables, ids_tree};
use std::alloc::Global;

/// A game's entry in the data package, as an object.
pub(crate) fn data_tree(alloc: Global, game: &Game) -> Result<Tree, Memory>
    ensures value { IfOk result (λ t. view t ≡ data_json game.now) }
    ensures writable { IfOk result (λ t. IsWritable (view t)) }
{
    let checksum = checksum_of_game(alloc, game)?;
    object(
        alloc,
        &mut [
            ("checksum", Field::Words(checksum.as_str())),
            (
                "item_name_to_id",
                Field::Built(ids_tree(alloc, game.item_name_to_id.as_slice())),
            ),
            (
                "location_name_to_id",
                Field::Built(ids_tree(alloc, game.location_name_to_id.as_slice())),
            ),
        ],
    )
}

/// A game's entry in the data package: its names with their ids, and their checksum. None exactly
/// where no slot plays the game. Memory is its only error.
pub fn game_data(alloc: Global, tables: &RoomTables, game: &Text) -> Result<Option<Tree>, Memory>
    ensures value { IfOk result (λ t. option_map view t
        ≡ option_map data_json (game_played tables.now game.now)) }
    ensures some { IfOk result (λ t. IsSome t ↔ IsTrue (plays tables.now.slots game.now)) }
    ensures writable { IfOk result (λ t. IfSome t (λ d. IsWritable (view d))) }
{
    match played(tables, game.as_str()) {
        Some(found) => Ok(Some(data_tree(alloc, found)?)),
        None => Ok(None),
    }
}

/// The checksum of a game's names. None exactly where no slot plays the game. Memory is its only
/// error.
pub fn checksum(alloc: Global, tables: &RoomTables, game: &Text) -> Result<Option<Text>, Memory>
    ensures value { IfOk result (λ t. t
        ≡ option_map checksum_of (game_played tables.now game.now)) }
    ensures some { IfOk result (λ t. IsSome t ↔ IsTrue (plays tables.now.slots game.now)) }
{
    match played(tables, game.as_str()) {
        Some(found) => Ok(Some(checksum_of_game(alloc, found)?)),
        None => Ok(None),
    }
}

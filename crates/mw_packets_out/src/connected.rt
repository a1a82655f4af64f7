ghost use Rattle.std.specs.Prelude.{◌≡◌, IfOk, map};
ghost use Rattle.mw_model.specs.Json.{IsWritable, many};
ghost use Rattle.mw_model.specs.Trees.{items_of};
ghost use Rattle.mw_protocol.specs.Messages.{connected_json, player_json};
ghost use Rattle.mw_json.specs.View.{view};

use crate::lists::ids_tree;
use crate::people::{Connected, NetworkPlayer};
use crate::slot_info::slot_info_tree;
use mw_base::{List, Memory};
use mw_json::{Field, Tree, object, object_tree, push_tree};
use std::alloc::Global;

/// A player as an object.
fn player_tree(alloc: Global, player: &NetworkPlayer) -> Result<Tree, Memory>
    ensures value { IfOk result (λ t. view t ≡ player_json player.now) }
    ensures writable { IfOk result (λ t. IsWritable (view t)) }
{
    object(
        alloc,
        &mut [
            ("alias", Field::Words(player.name.as_str())),
            ("class", Field::Words("NetworkPlayer")),
            ("name", Field::Words(player.name.as_str())),
            ("slot", Field::Number(u64::from(player.slot.get()))),
            ("team", Field::Number(u64::from(player.team.get()))),
        ],
    )
}

/// The players as a list.
fn players_tree(alloc: Global, players: &[NetworkPlayer]) -> Result<Tree, Memory>
    ensures value { IfOk result (λ t. view t ≡ many (items_of (map player_json players.now))) }
    ensures writable { IfOk result (λ t. IsWritable (view t)) }
{
    let mut trees = List::new(alloc);
    for player in players {
        push_tree(&mut trees, player_tree(alloc, player)?)?;
    }
    Ok(Tree::Many(trees))
}

/// What a session is told once it is connected, as an object.
pub(crate) fn connected_tree(alloc: Global, it: &Connected) -> Result<Tree, Memory>
    ensures value { IfOk result (λ t. view t ≡ connected_json it.now) }
    ensures writable { IfOk result (λ t. IsWritable (view t)) }
{
    object(
        alloc,
        &mut [
            (
                "checked_locations",
                Field::Built(ids_tree(alloc, it.checked_locations.as_slice())),
            ),
            ("cmd", Field::Words("Connected")),
            ("hint_points", Field::Number(it.hint_points)),
            (
                "missing_locations",
                Field::Built(ids_tree(alloc, it.missing_locations.as_slice())),
            ),
            (
                "players",
                Field::Built(players_tree(alloc, it.players.as_slice())),
            ),
            ("slot", Field::Number(u64::from(it.slot.get()))),
            ("slot_data", Field::Built(Ok(object_tree(List::new(alloc))))),
            (
                "slot_info",
                Field::Built(slot_info_tree(alloc, it.slot_info.as_slice())),
            ),
            ("team", Field::Number(u64::from(it.team.get()))),
        ],
    )
}

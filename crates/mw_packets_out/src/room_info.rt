ghost use Rattle.std.specs.Prelude.{◌≡◌, IfOk, map};
ghost use Rattle.mw_model.specs.Json.{IsWritable, many, members};
ghost use Rattle.mw_model.specs.Trees.{items_of, text_json};
ghost use Rattle.mw_protocol.specs.Messages.{checksum_members, game_name, permissions_json, room_info_json, version_json};
ghost use Rattle.mw_json.specs.View.{view};

use crate::room::{GameSum, RoomInfo};
use mw_base::{List, Memory};
use mw_json::{Field, Tree, array_tree, object, object_tree, push_tree, put, words_tree};
use std::alloc::Global;

/// The version of the protocol, as an object.
fn version_tree(alloc: Global) -> Result<Tree, Memory>
    ensures value { IfOk result (λ t. view t ≡ version_json) }
    ensures writable { IfOk result (λ t. IsWritable (view t)) }
{
    object(
        alloc,
        &mut [
            ("build", Field::Number(0)),
            ("class", Field::Words("Version")),
            ("major", Field::Number(0)),
            ("minor", Field::Number(5)),
        ],
    )
}

/// The names of the games.
fn games_tree(alloc: Global, games: &[GameSum]) -> Result<Tree, Memory>
    ensures value { IfOk result (λ t. view t
        ≡ many (items_of (map text_json (map game_name games.now)))) }
    ensures writable { IfOk result (λ t. IsWritable (view t)) }
{
    let mut trees = List::new(alloc);
    for game in games {
        push_tree(&mut trees, words_tree(alloc, game.game.as_str())?)?;
    }
    Ok(Tree::Many(trees))
}

/// The checksums of the games, each under its game's name.
#[tactic(auto, using(crate::proofs::Writable::same_checksums, crate::proofs::Writable::checksums))]
fn checksums_tree(alloc: Global, games: &[GameSum]) -> Result<Tree, Memory>
    ensures value { IfOk result (λ t. view t ≡ members (checksum_members games.now)) }
    ensures writable { IfOk result (λ t. IsWritable (view t)) }
{
    let mut sums = List::new(alloc);
    for game in games {
        let checksum = words_tree(alloc, game.checksum.as_str())?;
        put(alloc, &mut sums, game.game.as_str(), checksum)?;
    }
    Ok(object_tree(sums))
}

/// Who may use which command, by number.
fn permissions_tree(alloc: Global, info: &RoomInfo) -> Result<Tree, Memory>
    ensures value { IfOk result (λ t. view t ≡ permissions_json info.now) }
    ensures writable { IfOk result (λ t. IsWritable (view t)) }
{
    let collect = u64::from(info.collect.number());
    let release = u64::from(info.release.number());
    let remaining = u64::from(info.remaining.number());
    object(
        alloc,
        &mut [
            ("collect", Field::Number(collect)),
            ("release", Field::Number(release)),
            ("remaining", Field::Number(remaining)),
        ],
    )
}

/// What a session is told first, as an object.
pub(crate) fn room_info_tree(alloc: Global, info: &RoomInfo) -> Result<Tree, Memory>
    ensures value { IfOk result (λ t. view t ≡ room_info_json info.now) }
    ensures writable { IfOk result (λ t. IsWritable (view t)) }
{
    object(
        alloc,
        &mut [
            ("cmd", Field::Words("RoomInfo")),
            (
                "datapackage_checksums",
                Field::Built(checksums_tree(alloc, info.games.as_slice())),
            ),
            (
                "games",
                Field::Built(games_tree(alloc, info.games.as_slice())),
            ),
            ("generator_version", Field::Built(version_tree(alloc))),
            ("hint_cost", Field::Number(u64::from(info.hint_cost))),
            (
                "location_check_points",
                Field::Number(u64::from(info.location_check_points)),
            ),
            ("password", Field::Flag(info.password)),
            ("permissions", Field::Built(permissions_tree(alloc, info))),
            ("seed_name", Field::Words(info.seed_name.as_str())),
            ("tags", Field::Built(Ok(array_tree(List::new(alloc))))),
            ("time", Field::Number(info.time)),
            ("version", Field::Built(version_tree(alloc))),
        ],
    )
}

ghost use Rattle.std.specs.Prelude.{◌≡◌, ◌++◌, ◌∷◌, [], IfOk, OnOk, map};
ghost use Rattle.mw_model.specs.Json.{IsWritable, MembersAreWritable, members, whole};
ghost use Rattle.mw_model.specs.Games.{game_json, ids_members};
ghost use Rattle.mw_json.specs.View.{view, member_view, members_view};

use crate::seed::{Game, NamedId};
use mw_base::{List, Memory};
use mw_json::{Field, Member, Tree, id_tree, object, object_tree, put};
use std::alloc::Global;

/// An id under its name, after the others.
#[tactic(auto, using(mw_json::proofs::Built::one_member_more))]
fn put_id(alloc: Global, ids: &mut List<Member>, named: &NamedId) -> Result<(), Memory>
    requires { MembersAreWritable (members_view ids.old) }
    ensures value { OnOk result (map member_view ids.new
        ≡ map member_view ids.old ++ (named.now.name, whole named.now.id) ∷ []) }
    ensures writable { OnOk result (MembersAreWritable (members_view ids.new)) }
{
    put(alloc, ids, named.name.as_str(), id_tree(named.id))
}

/// Names with their ids, as an object.
pub fn ids_tree(alloc: Global, names: &[NamedId]) -> Result<Tree, Memory>
    ensures value { IfOk result (λ t. view t ≡ members (ids_members names.now)) }
    ensures writable { IfOk result (λ t. IsWritable (view t)) }
{
    let mut ids = List::new(alloc);
    for named in names {
        put_id(alloc, &mut ids, named)?;
    }
    Ok(object_tree(ids))
}

/// The names of a game's items and locations with their ids, as an object.
pub fn game_tree(alloc: Global, game: &Game) -> Result<Tree, Memory>
    ensures value { IfOk result (λ t. view t ≡ game_json game.now) }
    ensures writable { IfOk result (λ t. IsWritable (view t)) }
{
    object(
        alloc,
        &mut [
            (
                "item_name_to_id",
                Field::Built(ids_tree(alloc, game.item_name_to_id.as_slice())),
            ),
            (
                "location_name_to_id",
                Field::Built(ids_tree(alloc, game.location_name_to_id.as_slice())),
            ),
        ],
    )
}

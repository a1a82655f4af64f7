ghost use Rattle.mw_json.specs.View.{view};
ghost use Rattle.mw_json.specs.Grammar.{Gives};
ghost use Rattle.mw_multidata.specs.Shape.{named_id_at, ids_at, game_at, games_at};

use crate::seed::{Game, NamedId};
use mw_base::List;
use mw_json::{Refusal, Tree, copy_name, each_member, field_in, id_in, object_of};
use std::alloc::Global;

#[tactic(auto, unfolding(crate::specs::Shape::named_id_at))]
fn named_id_of(alloc: Global, name: &str, tree: &Tree) -> Result<NamedId, Refusal>
    ensures { Gives result (named_id_at name.now (view tree.now)) }
{
    let name = copy_name(alloc, name, 128)?;
    let id = id_in(alloc, tree)?;
    Ok(NamedId { name, id })
}

#[tactic(auto, unfolding(crate::specs::Shape::ids_at))]
fn ids_of(alloc: Global, tree: &Tree) -> Result<List<NamedId>, Refusal>
    ensures { Gives result (ids_at (view tree.now)) }
{
    let members = object_of(alloc, tree)?;
    each_member(alloc, members, named_id_of)
}

#[tactic(auto, unfolding(crate::specs::Shape::game_at))]
fn game_of(alloc: Global, name: &str, tree: &Tree) -> Result<Game, Refusal>
    ensures { Gives result (game_at name.now (view tree.now)) }
{
    let name = copy_name(alloc, name, 128)?;
    let members = object_of(alloc, tree)?;
    let item_name_to_id = field_in(alloc, members, "item_name_to_id", ids_of)?;
    let location_name_to_id = field_in(alloc, members, "location_name_to_id", ids_of)?;
    Ok(Game {
        name,
        item_name_to_id,
        location_name_to_id,
    })
}

/// The games of a seed file.
#[tactic(auto, unfolding(crate::specs::Shape::games_at))]
pub(crate) fn games_of(alloc: Global, tree: &Tree) -> Result<List<Game>, Refusal>
    ensures { Gives result (games_at (view tree.now)) }
{
    let members = object_of(alloc, tree)?;
    each_member(alloc, members, game_of)
}

ghost use Rattle.std.specs.Prelude.{◌-◌};
ghost use Rattle.mw_json.specs.View.{view, items_view, members_view};
ghost use Rattle.mw_json.specs.Grammar.{Gives, GivesBy};
ghost use Rattle.mw_json.specs.Readers.{list_of_at};
ghost use Rattle.mw_multidata.specs.Shape.{several_of, group_members_at, group_at, groups_at};

use crate::parts::slot_in;
use crate::seed::Group;
use crate::slots::{game_name_in, player_name_in};
use mw_base::{List, SlotId};
use mw_json::{Kind, Member, Refusal, Tree, each, field_in, list, list_of, object_of, refuse};
use std::alloc::Global;

/// At least two elements.
#[tactic(auto, using(mw_json::proofs::Trees::as_many))]
fn several_in<'a>(alloc: Global, items: &'a [Tree]) -> Result<&'a [Tree], Refusal>
    ensures { GivesBy (λ ts. items_view ts.now) result (several_of (items_view items.now)) }
{
    if items.len() < 2 {
        refuse(alloc, Kind::WrongKind)
    } else {
        Ok(items)
    }
}

#[tactic(auto, unfolding(crate::specs::Shape::group_members_at))]
fn members_of(alloc: Global, tree: &Tree) -> Result<List<SlotId>, Refusal>
    ensures { Gives result (group_members_at (view tree.now)) }
{
    let items = list_of(alloc, tree)?;
    let items = several_in(alloc, items)?;
    each(alloc, items, |a, t| slot_in(a, t))
}

#[tactic(auto, unfolding(crate::specs::Shape::group_at))]
fn group_of(alloc: Global, tree: &Tree) -> Result<Group, Refusal>
    ensures { Gives result (group_at (view tree.now)) }
{
    let members = object_of(alloc, tree)?;
    let name = field_in(alloc, members, "name", player_name_in)?;
    let game = field_in(alloc, members, "game", game_name_in)?;
    let members = field_in(alloc, members, "members", members_of)?;
    Ok(Group {
        name,
        game,
        members,
    })
}

/// Groups beside this many slots, together at most 1,024.
fn groups_beside(alloc: Global, tree: &Tree, slots: usize) -> Result<List<Group>, Refusal>
    ensures { Gives result (list_of_at (1024 - slots) group_at (view tree.now)) }
{
    list(alloc, tree, 1024_usize.saturating_sub(slots), group_of)
}

/// The groups of a seed file of this many slots; the first form has none.
pub(crate) fn groups_in(
    alloc: Global,
    members: &[Member],
    second: bool,
    slots: usize,
) -> Result<List<Group>, Refusal>
    ensures { Gives result (groups_at second slots (members_view members.now)) }
{
    if second {
        field_in(alloc, members, "groups", |a, t| groups_beside(a, t, slots))
    } else {
        Ok(List::new(alloc))
    }
}

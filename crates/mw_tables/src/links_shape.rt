ghost use Rattle.std.specs.Prelude.{◌-◌};
ghost use Rattle.mw_json.specs.View.{view, items_view, members_view};
ghost use Rattle.mw_json.specs.Grammar.{Gives, GivesBy};
ghost use Rattle.mw_json.specs.Readers.{list_of_at};
ghost use Rattle.mw_tables.specs.PlayersShape.{slot_number_at, several_of, link_members_at, link_at, links_in};

use crate::player_options::wishes_of;
use crate::players_shape::short_name_in;
use mw_base::{List, SlotId};
use mw_json::{
    Kind, Member, Refusal, Tree, each, field_in, field_or, list, list_of, number_between,
    object_of, refuse,
};
use mw_multi::ItemLink;
use std::alloc::Global;

/// The number of a slot, 1 to 1,024.
fn slot_in(alloc: Global, tree: &Tree) -> Result<SlotId, Refusal>
    ensures { Gives result (slot_number_at (view tree.now)) }
{
    let number = number_between(alloc, tree, 1, 1024)?;
    match SlotId::new(number as u16) {
        Some(slot) => Ok(slot),
        None => refuse(alloc, Kind::WrongKind),
    }
}

/// At least two elements.
#[tactic(auto, using(mw_json::proofs::Trees::as_many))]
fn several_in<'a>(alloc: Global, items: &'a [Tree]) -> Result<&'a [Tree], Refusal>
    ensures { GivesBy (λ ts. items_view ts.now) result (several_of (items_view items.now)) }
{
    if items.len() < 2 {
        refuse(alloc, Kind::WrongKind)
    } else {
        Ok(items)
    }
}

#[tactic(auto, unfolding(crate::specs::PlayersShape::link_members_at))]
fn members_of(alloc: Global, tree: &Tree) -> Result<List<SlotId>, Refusal>
    ensures { Gives result (link_members_at (view tree.now)) }
{
    let items = list_of(alloc, tree)?;
    let items = several_in(alloc, items)?;
    each(alloc, items, |a, t| slot_in(a, t))
}

#[tactic(auto, unfolding(crate::specs::PlayersShape::link_at))]
fn link_of(alloc: Global, tree: &Tree) -> Result<ItemLink, Refusal>
    ensures { Gives result (link_at (view tree.now)) }
{
    let object = object_of(alloc, tree)?;
    let name = field_in(alloc, object, "name", short_name_in)?;
    let members = field_in(alloc, object, "members", members_of)?;
    let items = field_in(alloc, object, "items", wishes_of)?;
    Ok(ItemLink {
        name,
        members,
        items,
    })
}

/// Links beside this many players, together at most 1,024.
fn links_beside(alloc: Global, tree: &Tree, players: usize) -> Result<List<ItemLink>, Refusal>
    ensures { Gives result (list_of_at (1024 - players) link_at (view tree.now)) }
{
    list(alloc, tree, 1024_usize.saturating_sub(players), link_of)
}

/// The links of a players file of this many players; the first form has none.
pub(crate) fn links_in(
    alloc: Global,
    members: &[Member],
    second: bool,
    players: usize,
) -> Result<List<ItemLink>, Refusal>
    ensures { Gives result (links_in second players (members_view members.now)) }
{
    if second {
        field_or(
            alloc,
            members,
            "links",
            List::new(alloc),
            |a, t| links_beside(a, t, players),
        )
    } else {
        Ok(List::new(alloc))
    }
}

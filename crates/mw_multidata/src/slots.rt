ghost use Rattle.mw_json.specs.View.{view};
ghost use Rattle.mw_json.specs.Grammar.{Gives, name_at};
ghost use Rattle.mw_json.specs.Readers.{list_of_at};
ghost use Rattle.mw_multidata.specs.Shape.{names_at, start_item_at, slot_at, slots_at};

use crate::parts::flags_in;
use crate::seed::{Slot, StartItem};
use mw_base::{List, Text};
use mw_json::{
    Refusal, Tree, each, element_in, field_in, item_id_in, list, list_of_at_most, list_with,
    name_in, object_of, some_of,
};
use std::alloc::Global;

/// A player's or a group's name, of at most 16 characters.
pub(crate) fn player_name_in(alloc: Global, tree: &Tree) -> Result<Text, Refusal>
    ensures { Gives result (name_at 16 (view tree.now)) }
{
    name_in(alloc, tree, 16)
}

/// A game's name, of at most 128 characters.
pub(crate) fn game_name_in(alloc: Global, tree: &Tree) -> Result<Text, Refusal>
    ensures { Gives result (name_at 128 (view tree.now)) }
{
    name_in(alloc, tree, 128)
}

#[tactic(auto, unfolding(crate::specs::Shape::names_at))]
fn names_of(alloc: Global, tree: &Tree, teams: u8) -> Result<List<Text>, Refusal>
    ensures { Gives result (names_at teams (view tree.now)) }
{
    let items = list_with(alloc, tree, teams as usize)?;
    each(alloc, items, player_name_in)
}

#[tactic(auto, unfolding(crate::specs::Shape::start_item_at))]
fn start_item_of(alloc: Global, tree: &Tree) -> Result<StartItem, Refusal>
    ensures { Gives result (start_item_at (view tree.now)) }
{
    let items = list_with(alloc, tree, 2)?;
    let item = element_in(alloc, items, 0, |a, t| item_id_in(a, t))?;
    let flags = element_in(alloc, items, 1, flags_in)?;
    Ok(StartItem { item, flags })
}

/// At most 256 items to begin with.
fn start_of(alloc: Global, tree: &Tree) -> Result<List<StartItem>, Refusal>
    ensures { Gives result (list_of_at 256 start_item_at (view tree.now)) }
{
    list(alloc, tree, 256, start_item_of)
}

#[tactic(auto, unfolding(crate::specs::Shape::slot_at))]
fn slot_of(alloc: Global, tree: &Tree, teams: u8) -> Result<Slot, Refusal>
    ensures { Gives result (slot_at teams (view tree.now)) }
{
    let members = object_of(alloc, tree)?;
    let names = field_in(alloc, members, "names", |a, t| names_of(a, t, teams))?;
    let game = field_in(alloc, members, "game", game_name_in)?;
    let start = field_in(alloc, members, "start", start_of)?;
    Ok(Slot { names, game, start })
}

/// The slots of a seed file of this many teams.
#[tactic(auto, unfolding(crate::specs::Shape::slots_at))]
pub(crate) fn slots_of(alloc: Global, tree: &Tree, teams: u8) -> Result<List<Slot>, Refusal>
    ensures { Gives result (slots_at teams (view tree.now)) }
{
    let items = list_of_at_most(alloc, tree, 1024)?;
    let items = some_of(alloc, items)?;
    each(alloc, items, |a, t| slot_of(a, t, teams))
}

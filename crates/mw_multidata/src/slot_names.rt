ghost use Rattle.std.specs.Prelude.{◌≡◌, ◌++◌, ◌||◌, List, []};
ghost use Rattle.mw_json.specs.Grammar.{Gives, under};
ghost use Rattle.mw_json.specs.declared.refusal.Step.TheVariants.{Name, Index};
ghost use Rattle.mw_multidata.specs.Names.{has_id, has_name, names_differ, start_named, find_game, known, demand, all_names, slot_named, slots_named};
ghost use Rattle.mw_json.specs.declared.refusal.Kind.TheVariants.{UnknownName};

use crate::catalog::{Catalog, Plays, find_game};
use crate::seed::{Slot, StartItem};
use mw_base::{List, Text};
use mw_json::{Kind, Refusal, at_index, at_name, refuse};
use std::alloc::Global;

/// Whether a name is among these.
fn has_name(names: &[Text], name: &str) -> bool
    ensures { result ≡ has_name names.now name.now }
{
    for other in names {
        if other.as_str() == name {
            return true;
        }
    }
    false
}

/// Whether a slot has a name.
#[tactic(auto, using(crate::proofs::Names::has_name_append))]
pub(crate) fn some_slot_has(slots: &[Slot], name: &str) -> bool
    ensures { result ≡ has_name (all_names slots.now) name.now }
{
    for slot in slots {
        if has_name(slot.names.as_slice(), name) {
            return true;
        }
    }
    false
}

/// Whether a name stands before, in a slot or among the names of the same slot.
#[tactic(auto, using(crate::proofs::Names::has_name_append))]
fn is_taken(earlier: &[Slot], before: &[Text], name: &str) -> bool
    ensures { result ≡ has_name (all_names earlier.now ++ before.now) name.now }
{
    some_slot_has(earlier, name) || has_name(before, name)
}

/// The names of a slot differ from each other and from those of earlier slots.
fn judge_names(alloc: Global, earlier: &[Slot], names: &[Text]) -> Result<(), Refusal>
    ensures { Gives result (names_differ (all_names earlier.now) 0 names.now) }
{
    for (i, name) in names.iter().enumerate() {
        if is_taken(earlier, &names[..i], name.as_str()) {
            return at_index(refuse(alloc, Kind::DuplicateName), i as u64);
        }
    }
    Ok(())
}

/// The game of a name that has to be there.
pub(crate) fn game_in<'a>(
    alloc: Global,
    catalogs: &'a [Catalog<'a>],
    name: &str,
) -> Result<Plays<'a>, Refusal>
    ensures { Gives result (known (find_game catalogs.now name.now)) }
{
    match find_game(catalogs, name) {
        Some(game) => Ok(game),
        None => refuse(alloc, Kind::UnknownName),
    }
}

/// A starting item is of the game.
fn judge_start_item(alloc: Global, game: &Catalog, start: &StartItem) -> Result<(), Refusal>
    ensures { Gives result (under (Index 0)
        (demand UnknownName (has_id game.now.item_name_to_id start.now.item))) }
{
    if game.has_item(start.item.get()) {
        Ok(())
    } else {
        at_index(refuse(alloc, Kind::UnknownName), 0)
    }
}

fn judge_start(alloc: Global, game: &Catalog, start: &[StartItem]) -> Result<(), Refusal>
    ensures { Gives result (start_named game.now 0 start.now) }
{
    for (i, item) in start.iter().enumerate() {
        at_index(judge_start_item(alloc, game, item), i as u64)?;
    }
    Ok(())
}

/// The game that a slot plays, after these slots.
#[tactic(auto, unfolding(crate::specs::Names::slot_named))]
fn judge_slot<'a>(
    alloc: Global,
    catalogs: &'a [Catalog<'a>],
    earlier: &[Slot],
    slot: &Slot,
) -> Result<Plays<'a>, Refusal>
    ensures { Gives result (slot_named catalogs.now earlier.now slot.now) }
{
    at_name(
        alloc,
        judge_names(alloc, earlier, slot.names.as_slice()),
        "names",
    )?;
    let game = at_name(alloc, game_in(alloc, catalogs, slot.game.as_str()), "game")?;
    at_name(
        alloc,
        judge_start(alloc, game.catalog(), slot.start.as_slice()),
        "start",
    )?;
    Ok(game)
}

/// The games that the slots play.
pub(crate) fn judge_slots<'a>(
    alloc: Global,
    catalogs: &'a [Catalog<'a>],
    slots: &[Slot],
) -> Result<List<Plays<'a>>, Refusal>
    ensures { Gives result (slots_named catalogs.now [] 0 slots.now) }
{
    let mut played = List::new(alloc);
    for (i, slot) in slots.iter().enumerate() {
        let game = at_index(judge_slot(alloc, catalogs, &slots[..i], slot), i as u64)?;
        played.push(game)?;
    }
    Ok(played)
}

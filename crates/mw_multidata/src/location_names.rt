ghost use Rattle.std.specs.Prelude.{◌≡◌, Some, None};
ghost use Rattle.std.specs.Option.{option_copied};
ghost use Rattle.mw_json.specs.Grammar.{Gives};
ghost use Rattle.mw_json.specs.declared.refusal.Kind.TheVariants.{UnknownName, WrongOrder};
ghost use Rattle.mw_multidata.specs.Names.{demand, has_id, played_by, received_by, comes_after, held_named, locations_named};

use crate::catalog::{Catalog, Plays};
use crate::seed::Held;
use mw_json::{Kind, Refusal, at_index, refuse};
use std::alloc::Global;

/// The game that a slot plays; None exactly where there is no such slot. Numbers count from 1.
pub(crate) fn played_in<'a, 'b>(played: &'a [Plays<'b>], slot: u16) -> Option<&'a Plays<'b>>
    ensures { option_copied result ≡ played_by played.now slot }
{
    if slot == 0 {
        None
    } else {
        played.get(slot as usize - 1)
    }
}

/// The game that a receiver plays: a slot or, numbered on from the slots, a group; None exactly where there is none.
fn received_in<'a, 'b>(
    played: &'a [Plays<'b>],
    grouped: &'a [Plays<'b>],
    number: u16,
) -> Option<&'a Plays<'b>>
    ensures { option_copied result ≡ received_by played.now grouped.now number }
{
    let slots = played.len();
    if usize::from(number) <= slots {
        played_in(played, number)
    } else {
        grouped.get(usize::from(number) - slots - 1)
    }
}

fn judge_location(alloc: Global, finder: &Catalog, held: &Held) -> Result<(), Refusal>
    ensures { Gives result (demand UnknownName
        (has_id finder.now.location_name_to_id held.now.location)) }
{
    if finder.has_location(held.location.get()) {
        Ok(())
    } else {
        refuse(alloc, Kind::UnknownName)
    }
}

fn judge_item(alloc: Global, receiver: &Catalog, held: &Held) -> Result<(), Refusal>
    ensures { Gives result (demand UnknownName
        (has_id receiver.now.item_name_to_id held.now.item)) }
{
    if receiver.has_item(held.item.get()) {
        Ok(())
    } else {
        refuse(alloc, Kind::UnknownName)
    }
}

fn precedes(before: &Held, held: &Held) -> bool
    ensures { result ≡ comes_after (Some before.now) held.now }
{
    let earlier = before.slot.get();
    let later = held.slot.get();
    earlier < later || (earlier == later && before.location.get() < held.location.get())
}

fn judge_order(alloc: Global, before: Option<Held>, held: &Held) -> Result<(), Refusal>
    ensures { Gives result (demand WrongOrder (comes_after before held.now)) }
{
    match before {
        None => Ok(()),
        Some(before) => {
            if precedes(&before, held) {
                Ok(())
            } else {
                refuse(alloc, Kind::WrongOrder)
            }
        }
    }
}

/// An entry's slot, location, receiver and item are there, and it comes after the one before it.
#[tactic(auto, unfolding(crate::specs::Names::held_named))]
fn judge_held(
    alloc: Global,
    played: &[Plays],
    grouped: &[Plays],
    before: Option<Held>,
    held: &Held,
) -> Result<(), Refusal>
    ensures { Gives result (held_named played.now grouped.now before held.now) }
{
    let Some(finder) = played_in(played, held.slot.get()) else {
        return at_index(refuse(alloc, Kind::UnknownName), 0);
    };
    at_index(judge_location(alloc, finder.catalog(), held), 1)?;
    let Some(receiver) = received_in(played, grouped, held.receiver) else {
        return at_index(refuse(alloc, Kind::UnknownName), 3);
    };
    at_index(judge_item(alloc, receiver.catalog(), held), 2)?;
    judge_order(alloc, before, held)
}

/// The entries of a seed file, in the games that the slots and the groups play.
pub(crate) fn judge_locations(
    alloc: Global,
    played: &[Plays],
    grouped: &[Plays],
    locations: &[Held],
) -> Result<(), Refusal>
    ensures { Gives result (locations_named played.now grouped.now None 0 locations.now) }
{
    let mut before = None;
    for (i, held) in locations.iter().enumerate() {
        at_index(judge_held(alloc, played, grouped, before, held), i as u64)?;
        before = Some(*held);
    }
    Ok(())
}

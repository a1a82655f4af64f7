ghost use Rattle.std.specs.Prelude.{◌≡◌, [], None, map, not};
ghost use Rattle.mw_json.specs.Grammar.{Gives};
ghost use Rattle.mw_json.specs.declared.refusal.Kind.TheVariants.{DuplicateName};
ghost use Rattle.mw_model.specs.Seed.{slot_of};
ghost use Rattle.mw_multidata.specs.Names.{has_name, demand, group_name, plays_game, is_above, member_named, members_named, names_with, group_named, groups_named};

use crate::catalog::{Catalog, Plays};
use crate::seed::Group;
use crate::shape::Shape;
use crate::slot_names::{game_in, some_slot_has};
use mw_base::{List, SlotId};
use mw_json::{Kind, Refusal, at_index, at_name, refuse};
use std::alloc::Global;

/// Whether a group has a name.
fn some_group_has(groups: &[Group], name: &str) -> bool
    ensures { result ≡ has_name (map group_name groups.now) name.now }
{
    for group in groups {
        if group.name.as_str() == name {
            return true;
        }
    }
    false
}

/// Whether a player or an earlier group has a name.
#[tactic(auto, using(crate::proofs::Names::has_name_append))]
fn is_taken(shape: &Shape, earlier: &[Group], name: &str) -> bool
    ensures { result ≡ has_name (names_with shape.now earlier.now) name.now }
{
    some_slot_has(shape.slots.as_slice(), name) || some_group_has(earlier, name)
}

fn judge_name(alloc: Global, shape: &Shape, earlier: &[Group], name: &str) -> Result<(), Refusal>
    ensures { Gives result
        (demand DuplicateName (not (has_name (names_with shape.now earlier.now) name.now))) }
{
    if is_taken(shape, earlier, name) {
        refuse(alloc, Kind::DuplicateName)
    } else {
        Ok(())
    }
}

/// Whether a slot is there and plays a game.
fn plays(shape: &Shape, number: SlotId, game: &str) -> bool
    ensures { result ≡ plays_game (slot_of shape.now number) game.now }
{
    match shape.slot(number) {
        Some(slot) => slot.game.as_str() == game,
        None => false,
    }
}

fn is_above(before: Option<SlotId>, number: SlotId) -> bool
    ensures { result ≡ is_above before number }
{
    match before {
        None => true,
        Some(before) => before.get() < number.get(),
    }
}

/// A member is a slot of the game, above the member before it.
#[tactic(auto, unfolding(crate::specs::Names::member_named))]
fn judge_member(
    alloc: Global,
    shape: &Shape,
    game: &str,
    before: Option<SlotId>,
    number: SlotId,
) -> Result<(), Refusal>
    ensures { Gives result (member_named shape.now game.now before number) }
{
    if !plays(shape, number, game) {
        return refuse(alloc, Kind::UnknownName);
    }
    if is_above(before, number) {
        Ok(())
    } else {
        refuse(alloc, Kind::WrongOrder)
    }
}

fn judge_members(
    alloc: Global,
    shape: &Shape,
    game: &str,
    numbers: &[SlotId],
) -> Result<(), Refusal>
    ensures { Gives result (members_named shape.now game.now None 0 numbers.now) }
{
    let mut before = None;
    for (i, number) in numbers.iter().enumerate() {
        at_index(judge_member(alloc, shape, game, before, *number), i as u64)?;
        before = Some(*number);
    }
    Ok(())
}

/// The game of a group, after these groups.
#[tactic(auto, unfolding(crate::specs::Names::group_named))]
fn judge_group<'a>(
    alloc: Global,
    catalogs: &'a [Catalog<'a>],
    shape: &Shape,
    earlier: &[Group],
    group: &Group,
) -> Result<Plays<'a>, Refusal>
    ensures { Gives result (group_named catalogs.now shape.now earlier.now group.now) }
{
    let game_name = group.game.as_str();
    at_name(
        alloc,
        judge_name(alloc, shape, earlier, group.name.as_str()),
        "name",
    )?;
    let game = at_name(alloc, game_in(alloc, catalogs, game_name), "game")?;
    at_name(
        alloc,
        judge_members(alloc, shape, game_name, group.members.as_slice()),
        "members",
    )?;
    Ok(game)
}

/// The games of the groups.
pub(crate) fn judge_groups<'a>(
    alloc: Global,
    catalogs: &'a [Catalog<'a>],
    shape: &Shape,
    groups: &[Group],
) -> Result<List<Plays<'a>>, Refusal>
    ensures { Gives result (groups_named catalogs.now shape.now [] 0 groups.now) }
{
    let mut grouped = List::new(alloc);
    for (i, group) in groups.iter().enumerate() {
        let judged = judge_group(alloc, catalogs, shape, &groups[..i], group);
        grouped.push(at_index(judged, i as u64)?)?;
    }
    Ok(grouped)
}

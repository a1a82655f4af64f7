ghost use Rattle.std.specs.Prelude.{◌≡◌, ◌++◌, ◌==◌, ◌&&◌, ◌||◌, ℕ, IfOk, List as Listed, OnOk, map, nat_eq};
ghost use Rattle.std.specs.HashSet.{contains};
ghost use Rattle.mw_protocol.specs.Commands.{players_text};
ghost use Rattle.mw_protocol.specs.Connecting.{Member};
ghost use Rattle.mw_protocol.specs.Players.{name_in};
ghost use Rattle.mw_answers.specs.Names.{name_if};
ghost use Rattle.mw_answers.specs.Present.{is_there, names_of, played_by};

use crate::counting::listed;
use crate::names::name_in;
use mw_base::{List, Memory, SlotId, TeamId, Text};
use mw_multidata::{RoomTables, Slot};
use std::alloc::Global;
use std::collections::HashSet;

/// Notes a slot, where it is played in the team.
fn note(there: &mut HashSet<usize>, slot: usize, plays: bool) -> Result<(), Memory>
    ensures { OnOk result ((n : ℕ) → contains nat_eq there.new n
        ≡ (contains nat_eq there.old n || (plays && (slot == n)))) }
{
    if plays {
        there.insert(slot)?;
    }
    Ok(())
}

/// The slots that are played in a team.
fn slots_there(
    alloc: Global,
    team: TeamId,
    members: &[(TeamId, SlotId)],
) -> Result<HashSet<usize>, Memory>
    ensures { IfOk result (λ s. (n : ℕ) → contains nat_eq s n ≡ is_there team n members.now) }
{
    let mut there = HashSet::new(alloc);
    for (of, slot) in members {
        note(&mut there, usize::from(slot.get()), *of == team)?;
    }
    Ok(there)
}

/// Adds a slot's name, where it is played.
fn push_there<'a>(
    names: &mut List<&'a str>,
    slot: &'a Slot,
    team: TeamId,
    is_there: bool,
) -> Result<(), Memory>
    ensures { OnOk result (map (λ n. n.now) names.new
        ≡ map (λ n. n.now) names.old ++ name_if is_there (name_in team slot.now)) }
{
    if is_there {
        names.push(name_in(slot, team))?;
    }
    Ok(())
}

/// The names of the slots of these numbers.
fn names_there<'a>(
    alloc: Global,
    slots: &'a [Slot],
    team: TeamId,
    there: &HashSet<usize>,
) -> Result<List<&'a str>, Memory>
    ensures { IfOk result (λ ns. map (λ n. n.now) ns
        ≡ names_of (λ n. contains nat_eq there.now n) team 1 slots.now) }
{
    let mut names = List::new(alloc);
    for (i, slot) in slots.iter().enumerate() {
        push_there(&mut names, slot, team, there.contains(&(i + 1)))?;
    }
    Ok(names)
}

/// Which slots of a team are played by these members, each a team and a slot, by name. `Memory` is
/// the only error.
pub fn players_text(
    alloc: Global,
    tables: &RoomTables,
    team: TeamId,
    members: &[(TeamId, SlotId)],
) -> Result<Text, Memory>
    ensures { IfOk result (λ t. (ms : Listed Member) → map played_by ms ≡ members.now
        → t ≡ players_text tables.now team ms) }
{
    let there = slots_there(alloc, team, members)?;
    let names = names_there(alloc, tables.multidata().slots.as_slice(), team, &there)?;
    let row = listed(alloc, names.as_slice())?;
    Ok(Text::from_string(format!(in alloc; "Connected: {row}")?))
}

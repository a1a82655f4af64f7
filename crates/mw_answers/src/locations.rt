ghost use Rattle.std.specs.Prelude.{◌≡◌, ◌==◌, ◌&&◌, ◌++◌, IfOk, OnOk, filter, map, not};
ghost use Rattle.mw_model.specs.Seed.{is_owner};
ghost use Rattle.mw_protocol.specs.Asked.{locations_among};
ghost use Rattle.mw_protocol.specs.Commands.{checked_text, missing_text, name_among};
ghost use Rattle.mw_protocol.specs.Commands.{remaining_items, remaining_text};
ghost use Rattle.mw_answers.specs.Names.{is_as, name_if};

use crate::counting::counted;
use crate::names::{Names, game_of, item_names, location_names};
use mw_base::{List, Memory, SlotId, TeamId, Text};
use mw_multidata::{Checks, Held};
use std::alloc::Global;

/// Whether a location is the slot's, and is checked or not, as wanted.
fn is_wanted<C: Checks>(log: &C, held: &Held, team: TeamId, slot: SlotId, checked: bool) -> bool
    ensures { result ≡ ((held.now.slot == slot)
        && is_as checked (C.is_found log.now team slot held.now.location)) }
{
    held.slot == slot && log.is_checked(team, slot, held.location) == checked
}

/// Adds the name of an id, where it is wanted.
fn push_named<'a>(
    found: &mut List<&'a str>,
    names: &Names<'a>,
    id: i64,
    wanted: bool,
) -> Result<(), Memory>
    ensures { OnOk result (map (λ n. n.now) found.new
        ≡ map (λ n. n.now) found.old ++ name_if wanted (name_among id names.now)) }
{
    if wanted {
        found.push(names.name(id))?;
    }
    Ok(())
}

/// The names of a slot's locations that are checked, or of those that aren't.
fn names_where<'a, C: Checks>(
    alloc: Global,
    log: &C,
    locations: &[Held],
    names: &Names<'a>,
    team: TeamId,
    slot: SlotId,
    checked: bool,
) -> Result<List<&'a str>, Memory>
    ensures { IfOk result (λ ns. map (λ n. n.now) ns
        ≡ map (λ l. name_among l names.now)
        (filter (λ l. is_as checked (C.is_found log.now team slot l))
        (locations_among slot locations.now))) }
{
    let mut found = List::new(alloc);
    for held in locations {
        let wanted = is_wanted(log, held, team, slot, checked);
        push_named(&mut found, names, held.location.get(), wanted)?;
    }
    Ok(found)
}

/// The slot's locations that aren't checked in the team, by id. `Memory` is the only error, of this
/// and of the texts below.
pub fn missing_text<C: Checks>(
    alloc: Global,
    log: &C,
    team: TeamId,
    slot: SlotId,
) -> Result<Text, Memory>
    ensures { IfOk result (λ t. t ≡ missing_text (C.seed log.now) (C.is_found log.now) team slot) }
{
    let seed = log.tables().multidata();
    let names = Names::of(alloc, location_names(game_of(seed, slot)))?;
    let locations = seed.locations.as_slice();
    let found = names_where(alloc, log, locations, &names, team, slot, false)?;
    counted(alloc, " missing: ", found.as_slice())
}

/// The slot's locations that are checked in the team, by id.
pub fn checked_text<C: Checks>(
    alloc: Global,
    log: &C,
    team: TeamId,
    slot: SlotId,
) -> Result<Text, Memory>
    ensures { IfOk result (λ t. t ≡ checked_text (C.seed log.now) (C.is_found log.now) team slot) }
{
    let seed = log.tables().multidata();
    let names = Names::of(alloc, location_names(game_of(seed, slot)))?;
    let locations = seed.locations.as_slice();
    let found = names_where(alloc, log, locations, &names, team, slot, true)?;
    counted(alloc, " checked: ", found.as_slice())
}

/// Whether a location that isn't checked holds an item of the slot.
fn is_left<C: Checks>(log: &C, held: &Held, team: TeamId, slot: SlotId) -> bool
    ensures { result ≡ (is_owner (C.seed log.now) held.now.receiver slot
        && not (C.is_found log.now team held.now.slot held.now.location)) }
{
    log.tables().multidata().is_owner(held.receiver, slot)
        && !log.is_checked(team, held.slot, held.location)
}

/// The names of the slot's items at unchecked locations.
fn names_left<'a, C: Checks>(
    alloc: Global,
    log: &C,
    locations: &[Held],
    names: &Names<'a>,
    team: TeamId,
    slot: SlotId,
) -> Result<List<&'a str>, Memory>
    ensures { IfOk result (λ ns. map (λ n. n.now) ns ≡ map (λ i. name_among i names.now)
        (remaining_items (C.seed log.now) (C.is_found log.now) team slot locations.now)) }
{
    let mut found = List::new(alloc);
    for held in locations {
        let left = is_left(log, held, team, slot);
        push_named(&mut found, names, held.item.get(), left)?;
    }
    Ok(found)
}

/// The slot's items at locations that aren't checked in the team, by finder, then location.
pub fn remaining_text<C: Checks>(
    alloc: Global,
    log: &C,
    team: TeamId,
    slot: SlotId,
) -> Result<Text, Memory>
    ensures { IfOk result (λ t. t
        ≡ remaining_text (C.seed log.now) (C.is_found log.now) team slot) }
{
    let seed = log.tables().multidata();
    let names = Names::of(alloc, item_names(game_of(seed, slot)))?;
    let found = names_left(alloc, log, seed.locations.as_slice(), &names, team, slot)?;
    counted(alloc, " remaining: ", found.as_slice())
}

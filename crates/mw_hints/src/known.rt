ghost use Rattle.std.specs.Prelude.{◌≡◌, ◌∷◌, ℤ, List, IfOk, OnOk};
ghost use Rattle.mw_protocol.specs.Checks.{checks_at};
ghost use Rattle.mw_protocol.specs.Locations.{known_checks};
ghost use Rattle.mw_hints.specs.Scouted.{found_with};

use indexmap::IndexSet;
use mw_base::{List, LocId, Memory, SlotId, TeamId};
use mw_multidata::Checks;
use std::alloc::Global;

/// Adds a location, unless the slot has none such or it is there.
fn note_known<C: Checks>(
    found: &mut IndexSet<LocId>,
    team: TeamId,
    slot: SlotId,
    location: LocId,
    log: &C,
) -> Result<(), Memory>
    ensures { OnOk result ((others : List ℤ)
        → found_with (C.seed log.now) team slot found.new.keys others
        ≡ found_with (C.seed log.now) team slot found.old.keys (location ∷ others)) }
{
    if log.held(slot, location).is_some() {
        found.insert(location)?;
    }
    Ok(())
}

/// Adds the location of a number, unless it is none of the slot's or is there.
fn note_number<C: Checks>(
    found: &mut IndexSet<LocId>,
    team: TeamId,
    slot: SlotId,
    number: i128,
    log: &C,
) -> Result<(), Memory>
    ensures { OnOk result ((others : List ℤ)
        → found_with (C.seed log.now) team slot found.new.keys others
        ≡ found_with (C.seed log.now) team slot found.old.keys (number ∷ others)) }
{
    match log.id_of(number) {
        Some(location) => note_known(found, team, slot, location, log),
        None => Ok(()),
    }
}

/// The keys of a set, in order.
fn listed(alloc: Global, found: &IndexSet<LocId>) -> Result<List<LocId>, Memory>
    ensures { IfOk result (λ ls. ls ≡ found.now.keys) }
{
    let mut list = List::new(alloc);
    for location in found.as_slice() {
        list.push(*location)?;
    }
    Ok(list)
}

/// Those of the numbers that are locations of a slot, each once, in order, as they would be checked
/// in a team.
pub fn known_locations<C: Checks>(
    alloc: Global,
    team: TeamId,
    slot: SlotId,
    numbers: &[i128],
    log: &C,
) -> Result<List<LocId>, Memory>
    ensures { IfOk result (λ ls. checks_at team slot ls
        ≡ known_checks (C.seed log.now) team slot numbers.now) }
{
    let mut found = IndexSet::new(alloc);
    for number in numbers {
        note_number(&mut found, team, slot, *number, log)?;
    }
    listed(alloc, &found)
}

ghost use Rattle.std.specs.Prelude.{◌≡◌, ◌≤◌, IfOk, OnOk, drop, length};
ghost use Rattle.mw_protocol.specs.Checks.{checks_at};
ghost use Rattle.mw_checks.specs.Fresh.{Notes, new_among, new_checks};
ghost use Rattle.mw_checks.specs.Log.{checks_of};

use crate::log::CheckLog;
use indexmap::IndexSet;
use mw_base::{List, LocId, Memory, SlotId, TeamId};
use std::alloc::Global;

/// Locations with their slots, each once, in order.
pub(crate) type Pairs = IndexSet<(SlotId, LocId)>;

/// The list of the pairs from an index on.
pub(crate) fn listed(
    alloc: Global,
    pairs: &Pairs,
    from: usize,
) -> Result<List<(SlotId, LocId)>, Memory>
    requires { from ≤ length pairs.now.keys }
    ensures { IfOk result (λ l. l ≡ drop from pairs.now.keys) }
{
    let mut list = List::new(alloc);
    for pair in &pairs.as_slice()[from..] {
        list.push(*pair)?;
    }
    Ok(list)
}

/// Adds a pair, unless it is no location of its slot or is checked.
pub(crate) fn note(
    log: &CheckLog,
    team: TeamId,
    pair: (SlotId, LocId),
    found: &mut Pairs,
) -> Result<(), Memory>
    ensures { OnOk result
        (Notes log.now.seed log.now.checked team pair found.old.keys found.new.keys) }
{
    let (slot, location) = pair;
    if log.held(slot, location).is_some() && !log.is_checked(team, slot, location) {
        found.insert(pair)?;
    }
    Ok(())
}

/// The new ones among locations of a slot.
pub(crate) fn fresh_numbers(
    log: &CheckLog,
    alloc: Global,
    team: TeamId,
    slot: SlotId,
    numbers: &[i128],
) -> Result<List<(SlotId, LocId)>, Memory>
    ensures { IfOk result (λ ps. checks_of team ps ≡
        new_checks log.now.seed log.now.checked (checks_at team slot numbers.now)) }
{
    let mut found = IndexSet::new(alloc);
    for number in numbers {
        if let Some(location) = log.id_of(*number) {
            note(log, team, (slot, location), &mut found)?;
        }
    }
    listed(alloc, &found, 0)
}

/// The new ones among pairs.
pub(crate) fn fresh_pairs(
    log: &CheckLog,
    alloc: Global,
    team: TeamId,
    pairs: &[(SlotId, LocId)],
) -> Result<List<(SlotId, LocId)>, Memory>
    ensures { IfOk result (λ ps. checks_of team ps ≡ new_among log.now team pairs.now) }
{
    let mut found = IndexSet::new(alloc);
    for pair in pairs {
        note(log, team, *pair, &mut found)?;
    }
    listed(alloc, &found, 0)
}

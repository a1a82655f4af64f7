ghost use Rattle.std.specs.Prelude.{◌≡◌, ◌++◌, IfOk, OnOk, option_to_list};
ghost use Rattle.mw_model.specs.Seed.{held_at};
ghost use Rattle.mw_protocol.specs.Checks.{checks_at};
ghost use Rattle.mw_protocol.specs.Locations.{scouted_item, scouted_at};

use crate::member::Member;
use mw_base::{List, LocId, Memory, NetItem, SlotId};
use mw_checks::CheckLog;
use std::alloc::Global;

/// The item at a location beside its receiver, if one stands there.
fn scout_of(log: &CheckLog, slot: SlotId, location: LocId) -> Option<NetItem>
    ensures { option_to_list result ≡ scouted_item (held_at log.now.seed slot location) }
{
    let held = log.held(slot, location)?;
    Some(NetItem {
        item: held.item.get(),
        location: held.location.get(),
        player: held.receiver,
        flags: held.flags,
    })
}

/// Adds an item, if there is one.
fn push_item(found: &mut List<NetItem>, item: Option<NetItem>) -> Result<(), Memory>
    ensures { OnOk result (found.new ≡ found.old ++ option_to_list item) }
{
    if let Some(item) = item {
        found.push(item)?;
    }
    Ok(())
}

/// What stands at locations of the member's slot, each item beside its receiver.
pub fn scouts_of(
    alloc: Global,
    log: &CheckLog,
    member: &Member,
    locations: &[LocId],
) -> Result<List<NetItem>, Memory>
    ensures { IfOk result (λ is. is ≡ scouted_at log.now.seed member.now.slot
        (checks_at member.now.team member.now.slot locations.now)) }
{
    let mut found = List::new(alloc);
    for location in locations {
        push_item(&mut found, scout_of(log, member.slot, *location))?;
    }
    Ok(found)
}

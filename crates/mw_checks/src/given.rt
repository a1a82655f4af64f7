ghost use Rattle.std.specs.Prelude.{◌≡◌, ◌++◌, IfOk, OnOk};
ghost use Rattle.std.specs.Option.{option_copied};
ghost use Rattle.mw_checks.specs.Views.{asked_of, given_at, given_to};

use crate::handling::Handling;
use crate::items::item_of;
use crate::places::Places;
use mw_base::{List, LocId, Memory, NetItem, SlotId};
use mw_multidata::Held;
use std::alloc::Global;

/// Adds an item, where it is the slot's and is asked for.
fn add_given(
    found: &mut List<NetItem>,
    places: &Places,
    handling: &Handling,
    held: Option<&Held>,
) -> Result<(), Memory>
    ensures { OnOk result (found.new ≡
        found.old ++ asked_of handling.now
        (given_at places.now handling.now.slot (option_copied held.entry))) }
{
    if let Some(held) = held {
        let item = item_of(held);
        if places.is_owner(held.receiver, handling.slot) && handling.keeps(&item) {
            found.push(item)?;
        }
    }
    Ok(())
}

/// The items that pairs give to the slot, where they are asked for.
pub(crate) fn given(
    alloc: Global,
    places: &Places,
    handling: &Handling,
    pairs: &[(SlotId, LocId)],
) -> Result<List<NetItem>, Memory>
    ensures { IfOk result (λ is. is ≡
        asked_of handling.now (given_to places.now handling.now.slot pairs.now)) }
{
    let mut found = List::new(alloc);
    for (slot, location) in pairs {
        add_given(&mut found, places, handling, places.held(*slot, *location))?;
    }
    Ok(found)
}

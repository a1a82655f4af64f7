ghost use Rattle.std.specs.Prelude.{◌≡◌, ◌++◌, IfOk, OnOk, map};
ghost use Rattle.mw_rules.specs.View.{view};
ghost use Rattle.mw_reach.specs.Split as plain;
ghost use Rattle.mw_reach.specs.Split.{entrance_always, location_always, slot_always, always_list};

use mw_base::{List, Memory};
use mw_multi::{Entrance, Joint, Location, Slot};
use mw_rules::Rule;
use std::alloc::Global;

/// Whether the rule is the one that always holds.
fn is_always(rule: &Rule) -> bool
    ensures { result ≡ plain.is_always (view rule.now) }
{
    matches!(rule, Rule::Always)
}

/// Adds whether each entrance's rule always holds.
fn push_entrances(free: &mut List<bool>, entrances: &[Entrance]) -> Result<(), Memory>
    ensures { OnOk result (free.new ≡ free.old ++ map entrance_always entrances.now) }
{
    for entrance in entrances {
        free.push(is_always(&entrance.rule))?;
    }
    Ok(())
}

/// Adds whether each location's rule always holds.
fn push_locations(free: &mut List<bool>, locations: &[Location]) -> Result<(), Memory>
    ensures { OnOk result (free.new ≡ free.old ++ map location_always locations.now) }
{
    for location in locations {
        free.push(is_always(&location.rule))?;
    }
    Ok(())
}

/// Adds whether each of a slot's rules always holds.
fn push_slot(free: &mut List<bool>, slot: &Slot) -> Result<(), Memory>
    ensures { OnOk result (free.new ≡ free.old ++ slot_always slot.now) }
{
    let world = slot.world;
    push_entrances(free, world.entrances.as_slice())?;
    push_locations(free, world.locations.as_slice())?;
    free.push(is_always(&world.goal))
}

/// For each rule of the joint, by number, whether it is the one that always holds; `Memory` where memory ran out.
pub(crate) fn always_of(alloc: Global, joint: &Joint) -> Result<List<bool>, Memory>
    ensures { IfOk result (λ free. free ≡ always_list joint.now) }
{
    let mut free = List::new(alloc);
    for slot in joint.slots.as_slice() {
        push_slot(&mut free, slot)?;
    }
    Ok(free)
}

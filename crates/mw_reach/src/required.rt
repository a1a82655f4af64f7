ghost use Rattle.std.specs.Prelude.{◌≡◌, ◌<◌, ◌+◌, ◌≤◌, ◌^◌, length};
ghost use Rattle.mw_rules.specs.Holds.{bag_of};
ghost use Rattle.mw_multi.specs.Joint.{slot_places};
ghost use Rattle.mw_multi.specs.Steps.{rule_list};
ghost use Rattle.mw_reach.specs.Required as plain;
ghost use Rattle.mw_reach.specs.Reached.{IsMadeFor, KeepsRules, counts_in, places_in};

use crate::goals::{unmet_goal, unmet_goal_by};
use crate::lack::Lack;
use crate::reached::Reached;
use mw_multi::{Access, Joint, Slot};
use mw_rules::{Ruling, Steps};
use std::sync::ledger::Ledger;

/// The index of the first of a slot's locations that wasn't reached.
fn first_outside(slot: &Slot, reached: &Reached) -> Option<u32>
    requires { slot.now.first_place + slot_places slot.now < 2 ^ 32 }
    ensures { result ≡ plain.first_outside (places_in reached.now) slot.now 0
        slot.now.world.locations }
{
    let world = slot.world;
    for index in 0..world.locations.len() {
        let place = slot.location_place(index as u32);
        if !reached.has(place) {
            return Some(index as u32);
        }
    }
    None
}

/// The index of the slot's first location that it wants and that wasn't reached.
fn missed_in(slot: &Slot, reached: &Reached) -> Option<u32>
    requires { slot.now.first_place + slot_places slot.now < 2 ^ 32 }
    ensures { result ≡ plain.missed_in (places_in reached.now) slot.now }
{
    match slot.access() {
        Access::Full => first_outside(slot, reached),
        Access::Items => None,
        Access::Minimal => None,
    }
}

/// The first location that wasn't reached of a slot that wants all of its world. It asks no rule
/// and takes no memory.
pub fn missed_location(joint: &Joint, reached: &Reached) -> Option<Lack>
    ensures { result ≡ plain.missed_location joint.now (places_in reached.now) }
{
    for (index, slot) in joint.slots.as_slice().iter().enumerate() {
        if let Some(place) = missed_in(slot, reached) {
            return Some(Lack::Location {
                slot: index as u16 + 1,
                place,
            });
        }
    }
    None
}

/// A goal that doesn't hold, or else the first location that is missed.
fn or_location(unmet: Option<u16>, joint: &Joint, reached: &Reached) -> Option<Lack>
    ensures { result ≡ plain.or_location unmet
        (plain.missed_location joint.now (places_in reached.now)) }
{
    match unmet {
        Some(slot) => Some(Lack::Goal { slot }),
        None => missed_location(joint, reached),
    }
}

/// The first slot whose goal doesn't hold for the items and the places that were reached; where
/// each holds, the first location that wasn't reached of a slot that wants all of its world; None
/// where nothing is lacking. It asks these rules, which are counted in `steps`, and takes no
/// memory.
pub fn first_lack_by<R: Ruling, L: Ledger>(
    joint: &Joint,
    rules: &R,
    reached: &Reached,
    steps: &mut Steps<L>,
) -> Option<Lack>
    requires rules { R.stands_for rules.now (rule_list joint.now) }
    requires reached { IsMadeFor joint.now reached.now }
    ensures lack { result ≡ plain.first_lack joint.now (bag_of (counts_in reached.now))
        (places_in reached.now) }
    ensures steps { steps.new ≤ steps.old + length joint.now.slots }
{
    let unmet = unmet_goal_by(joint, rules, reached, steps);
    or_location(unmet, joint, reached)
}

/// The first slot whose goal doesn't hold for the items and the places that were reached; where
/// each holds, the first location that wasn't reached of a slot that wants all of its world; None
/// where nothing is lacking. It takes no memory.
pub fn first_lack(joint: &Joint, reached: &Reached) -> Option<Lack>
    requires reached { IsMadeFor joint.now reached.now }
    requires rules { KeepsRules joint.now reached.now }
    ensures { result ≡ plain.first_lack joint.now (bag_of (counts_in reached.now))
        (places_in reached.now) }
{
    or_location(unmet_goal(joint, reached), joint, reached)
}

/// Whether each slot's goal holds for the items and the places that were reached, and each location
/// was reached of each slot that wants all of its world. It asks these rules, which are counted in
/// `steps`, and takes no memory.
pub fn is_required_by<R: Ruling, L: Ledger>(
    joint: &Joint,
    rules: &R,
    reached: &Reached,
    steps: &mut Steps<L>,
) -> bool
    requires rules { R.stands_for rules.now (rule_list joint.now) }
    requires reached { IsMadeFor joint.now reached.now }
    ensures answer { result ≡ plain.is_required joint.now (bag_of (counts_in reached.now))
        (places_in reached.now) }
    ensures steps { steps.new ≤ steps.old + length joint.now.slots }
{
    first_lack_by(joint, rules, reached, steps).is_none()
}

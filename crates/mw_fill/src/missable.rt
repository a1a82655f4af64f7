ghost use Rattle.std.specs.Prelude.{◌≡◌};
ghost use Rattle.std.specs.List.{list_all};
ghost use Rattle.mw_multi.specs.Placement.{owners};
ghost use Rattle.mw_fill.specs.Fill as plain;

use crate::item_copy::ItemCopy;
use mw_base::SlotId;
use mw_multi::{Access, Joint, slot_of};

/// Whether no more than the goal is wanted.
fn wants_least(access: Access) -> bool
    ensures { result ≡ plain.wants_least access }
{
    match access {
        Access::Full => false,
        Access::Items => false,
        Access::Minimal => true,
    }
}

/// Whether the slot of a number wants no more than its goal.
pub(crate) fn is_minimal_at(joint: &Joint, number: u16) -> bool
    ensures { result ≡ plain.is_minimal_at joint.now.slots number }
{
    match slot_of(joint.slots.as_slice(), number) {
        Some(slot) => wants_least(slot.access()),
        None => false,
    }
}

/// Whether so do the slots of these numbers.
fn are_minimal(joint: &Joint, numbers: &[SlotId]) -> bool
    ensures { result ≡ list_all (plain.is_minimal_at joint.now.slots) numbers.now }
{
    for number in numbers {
        if !is_minimal_at(joint, number.get()) {
            return false;
        }
    }
    true
}

/// Whether each owner of a receiver wants no more than its goal: a slot is its own owner, and a
/// link's are its members.
fn are_owners_minimal(joint: &Joint, receiver: u16) -> bool
    ensures { result ≡ list_all (plain.is_minimal_at joint.now.slots) (owners joint.now receiver) }
{
    let slots = joint.slots.len();
    let number = receiver as usize;
    if number <= slots {
        return is_minimal_at(joint, receiver);
    }
    match joint.links.get(number - slots - 1) {
        Some(shared) => {
            let link = shared.link;
            are_minimal(joint, link.members.as_slice())
        }
        None => true,
    }
}

/// Whether no owner of the copy wants more than its goal, so that the copy may stand where it isn't
/// reached.
pub(crate) fn is_missable(joint: &Joint, copy: &ItemCopy) -> bool
    ensures { result ≡ plain.is_missable joint.now copy.now }
{
    are_owners_minimal(joint, copy.receiver)
}

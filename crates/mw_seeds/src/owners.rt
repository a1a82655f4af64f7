//! The slot by whose world a receiver's items are named.
ghost use Rattle.std.specs.Prelude.{◌≡◌};
ghost use Rattle.std.specs.Option.{option_copied};
ghost use Rattle.mw_multi.specs.Joint.{first_slot as plain_first};
ghost use Rattle.mw_seeds.specs.Agreeing.{first_owner as plain_owner};

use mw_base::SlotId;
use mw_multi::{Joint, Slot, slot_of};

/// The slot of the first of these numbers.
pub(crate) fn first_slot<'a, 'b>(slots: &'a [Slot<'b>], members: &[SlotId]) -> Option<&'a Slot<'b>>
    ensures { option_copied result ≡ plain_first slots.now members.now }
{
    match members.first() {
        Some(number) => slot_of(slots, number.get()),
        None => None,
    }
}

/// The first of a receiver's owners, whose world is the receiver's; None where there is no such
/// receiver.
pub(crate) fn first_owner<'a, 'b>(joint: &'a Joint<'b>, receiver: u16) -> Option<&'a Slot<'b>>
    ensures { option_copied result ≡ plain_owner joint.now receiver }
{
    let slots = joint.slots.as_slice();
    let number = receiver as usize;
    if number <= slots.len() {
        return slot_of(slots, receiver);
    }
    match joint.links.get(number - slots.len() - 1) {
        Some(shared) => {
            let link = shared.link;
            first_slot(slots, link.members.as_slice())
        }
        None => None,
    }
}

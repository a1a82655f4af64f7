ghost use Rattle.std.specs.Prelude.{◌≡◌, ◌<◌, ◌+◌, ◌^◌, ◌++◌, OnOk, option_to_list, flat_map};
ghost use Rattle.mw_multi.specs.Joint.{slot_items};
ghost use Rattle.mw_multi.specs.Placement.{numbers_in, owner_numbers, receiver_numbers};

use crate::joint::Joint;
use crate::placed::slot_of;
use crate::slot::Slot;
use mw_base::{List, Memory, SlotId};

/// The number over all slots of an item of a slot, where it is a progression item.
fn number_in(slot: &Slot, item: u32) -> Option<u32>
    requires { slot.now.first_item + slot_items slot.now < 2 ^ 32 }
    ensures { option_to_list result ≡ numbers_in item slot.now }
{
    let world = slot.world;
    match world.items.get(item as usize) {
        Some(found) => {
            if found.is_progression() {
                Some(slot.first_item + item)
            } else {
                None
            }
        }
        None => None,
    }
}

/// Adds the number over all slots of an owner's item, where it is a progression item.
fn push_number(numbers: &mut List<u32>, joint: &Joint, owner: u16, item: u32) -> Result<(), Memory>
    ensures { OnOk result (numbers.new
        ≡ numbers.old ++ owner_numbers joint.now.slots item owner) }
{
    let Some(slot) = slot_of(joint.slots.as_slice(), owner) else {
        return Ok(());
    };
    match number_in(slot, item) {
        Some(number) => numbers.push(number),
        None => Ok(()),
    }
}

/// Adds the numbers over all slots of an item of each of these owners.
fn push_each(
    numbers: &mut List<u32>,
    joint: &Joint,
    owners: &[SlotId],
    item: u32,
) -> Result<(), Memory>
    ensures { OnOk result (numbers.new
        ≡ numbers.old ++ flat_map (owner_numbers joint.now.slots item) owners.now) }
{
    for owner in owners {
        push_number(numbers, joint, owner.get(), item)?;
    }
    Ok(())
}

/// Adds the numbers over all slots of a receiver's item, one for each of the receiver's owners, where it is a progression
/// item: a slot is its own owner, and a link's owners are its members.
pub fn push_numbers(
    numbers: &mut List<u32>,
    joint: &Joint,
    receiver: u16,
    item: u32,
) -> Result<(), Memory>
    ensures { OnOk result (numbers.new
        ≡ numbers.old ++ receiver_numbers joint.now receiver item) }
{
    let slots = joint.slots.len();
    let number = receiver as usize;
    if number <= slots {
        return push_number(numbers, joint, receiver, item);
    }
    match joint.links.get(number - slots - 1) {
        Some(shared) => {
            let link = shared.link;
            push_each(numbers, joint, link.members.as_slice(), item)
        }
        None => Ok(()),
    }
}

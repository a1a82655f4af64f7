ghost use Rattle.std.specs.Prelude.{◌≡◌, IfOk, decimal, map};
ghost use Rattle.mw_model.specs.Json.{IsWritable, many, members};
ghost use Rattle.mw_model.specs.Trees.{items_of};
ghost use Rattle.mw_protocol.specs.Messages.{number_json, slot_info_members, slot_json};
ghost use Rattle.mw_protocol.specs.Messages.{slot_type as slot_type_lem};
ghost use Rattle.mw_json.specs.View.{view};

use crate::people::NetworkSlot;
use crate::placing::insert;
use mw_base::{List, Memory, SlotId, Text};
use mw_json::{Field, Tree, number_tree, object, push_tree};
use std::alloc::Global;

/// Slots' numbers as a list.
fn numbers_tree(alloc: Global, slots: &[SlotId]) -> Result<Tree, Memory>
    ensures value { IfOk result (λ t. view t ≡ many (items_of (map number_json slots.now))) }
    ensures writable { IfOk result (λ t. IsWritable (view t)) }
{
    let mut trees = List::new(alloc);
    for slot in slots {
        push_tree(&mut trees, number_tree(u64::from(slot.get())))?;
    }
    Ok(Tree::Many(trees))
}

/// The number of a player's type, or of a group's, which has members.
fn slot_type(members: &[SlotId]) -> u64
    ensures { result ≡ slot_type_lem members.now }
{
    if members.is_empty() { 1 } else { 2 }
}

/// What is played in a slot, as an object.
fn slot_tree(alloc: Global, slot: &NetworkSlot) -> Result<Tree, Memory>
    ensures value { IfOk result (λ t. view t ≡ slot_json slot.now) }
    ensures writable { IfOk result (λ t. IsWritable (view t)) }
{
    object(
        alloc,
        &mut [
            ("class", Field::Words("NetworkSlot")),
            ("game", Field::Words(slot.game.as_str())),
            (
                "group_members",
                Field::Built(numbers_tree(alloc, slot.members.as_slice())),
            ),
            ("name", Field::Words(slot.name.as_str())),
            ("type", Field::Number(slot_type(slot.members.as_slice()))),
        ],
    )
}

/// A slot's number in decimal.
fn slot_name(alloc: Global, slot: SlotId) -> Result<Text, Memory>
    ensures { IfOk result (λ t. t ≡ decimal slot) }
{
    let number = slot.get();
    Ok(Text::from_string(format!(in alloc; "{number}")?))
}

/// The slots and groups, each under its number in decimal, in byte order.
pub(crate) fn slot_info_tree(alloc: Global, slots: &[NetworkSlot]) -> Result<Tree, Memory>
    ensures value { IfOk result (λ t. view t ≡ members (slot_info_members slots.now)) }
    ensures writable { IfOk result (λ t. IsWritable (view t)) }
{
    let mut infos = Vec::new(alloc);
    let mut left = slots.len();
    while left > 0 {
        left -= 1;
        let slot = &slots[left];
        let name = slot_name(alloc, slot.slot)?;
        insert(&mut infos, name, slot_tree(alloc, slot)?)?;
    }
    Ok(Tree::Members(List::from_vec(infos)))
}

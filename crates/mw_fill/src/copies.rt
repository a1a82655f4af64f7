ghost use Rattle.std.specs.Prelude.{◌≡◌, ◌<◌, ◌≤◌, ◌++◌, suc, All, IfOk, OnOk, flat_map, length, option_copied, replicate};
ghost use Rattle.mw_multi.specs.Joint.{LinkKept, first_slot, slot_items};
ghost use Rattle.mw_multi.specs.Numbered.{each_numbered};
ghost use Rattle.mw_fill.specs.Kept.{CopyKept};
ghost use Rattle.mw_fill.specs.Copies as plain;
ghost use Rattle.mw_fill.specs.Copies.{entry_copies, slot_copies, shared_copies, link_copies, has_others, all_numbers};

use crate::group::Group;
use crate::item_copy::ItemCopy;
use crate::locality::Locality;
use mw_base::{List, Memory};
use mw_multi::{Item, Joint, Link, PoolEntry, Slot, slot_of};
use std::alloc::Global;

/// A copy of an item of the slot of this number; `many` says whether there are other slots.
fn copy_of(many: bool, number: u16, slot: &Slot, item: u32) -> ItemCopy
    requires item { item < slot_items slot.now }
    ensures { result ≡ plain.copy_of many number slot.now item }
{
    let local = slot.local_items.as_slice()[item as usize];
    let non_local = slot.non_local_items.as_slice()[item as usize];
    ItemCopy {
        receiver: number,
        item,
        locality: Locality::of(many, local, non_local),
    }
}

/// Adds so many equal copies.
fn push_copies(copies: &mut List<ItemCopy>, copy: ItemCopy, count: u32) -> Result<(), Memory>
    ensures { OnOk result (copies.new ≡ copies.old ++ replicate count copy) }
{
    for _ in 0..count {
        copies.push(copy)?;
    }
    Ok(())
}

/// Adds the copies of a pool entry of the slot of this number, where its item is of the group.
fn push_entry(
    copies: &mut List<ItemCopy>,
    group: Group,
    many: bool,
    number: u16,
    slot: &Slot,
    entry: PoolEntry,
) -> Result<(), Memory>
    requires item { entry.item < slot_items slot.now }
    ensures { OnOk result (copies.new ≡ copies.old
        ++ entry_copies group many number slot.now entry) }
{
    let world = slot.world;
    let item = &world.items.as_slice()[entry.item as usize];
    if !group.has(item.class) {
        return Ok(());
    }
    push_copies(copies, copy_of(many, number, slot, entry.item), entry.count)
}

/// Adds the copies of the pool of the slot of this number.
fn push_slot(
    copies: &mut List<ItemCopy>,
    group: Group,
    many: bool,
    number: u16,
    slot: &Slot,
) -> Result<(), Memory>
    ensures { OnOk result (copies.new ≡ copies.old ++ slot_copies group many number slot.now) }
{
    // Reading the slot makes known what its type keeps.
    let _ = &slot.world;
    for entry in slot.pool() {
        push_entry(copies, group, many, number, slot, *entry)?;
    }
    Ok(())
}

/// Adds the copies of the pools, by slot, pool entry and copy.
fn push_slots(copies: &mut List<ItemCopy>, group: Group, joint: &Joint) -> Result<(), Memory>
    ensures { OnOk result (copies.new ≡ copies.old
        ++ each_numbered (slot_copies group (has_others joint.now)) 1 joint.now.slots) }
{
    let slots = joint.slots.as_slice();
    let many = slots.len() > 1;
    for (index, slot) in slots.iter().enumerate() {
        push_slot(copies, group, many, index as u16 + 1, slot)?;
    }
    Ok(())
}

/// Adds the copies of a link's entry, where its item is of the group. These are the items of the
/// world that the members play.
fn push_shared(
    copies: &mut List<ItemCopy>,
    group: Group,
    items: &[Item],
    number: u16,
    entry: PoolEntry,
) -> Result<(), Memory>
    requires item { entry.item < length items.now }
    ensures { OnOk result (copies.new ≡ copies.old
        ++ shared_copies group items.now number entry) }
{
    let item = &items[entry.item as usize];
    if !group.has(item.class) {
        return Ok(());
    }
    let copy = ItemCopy {
        receiver: number,
        item: entry.item,
        locality: Locality::Anywhere,
    };
    push_copies(copies, copy, entry.count)
}

/// Adds the copies of these entries of a link.
fn push_entries(
    copies: &mut List<ItemCopy>,
    group: Group,
    items: &[Item],
    number: u16,
    entries: &[PoolEntry],
) -> Result<(), Memory>
    requires items { All (λ e. e.item < length items.now) entries.now }
    ensures { OnOk result (copies.new ≡ copies.old
        ++ flat_map (shared_copies group items.now number) entries.now) }
{
    for entry in entries {
        push_shared(copies, group, items, number, *entry)?;
    }
    Ok(())
}

/// The slot of the first of a link's members, whose world is that of all.
fn first_member<'a, 'b>(joint: &'a Joint<'b>, link: &Link) -> Option<&'a Slot<'b>>
    ensures { option_copied result ≡ first_slot joint.now.slots link.now.members }
{
    let shared = link.link;
    match shared.members.get(0) {
        Some(member) => slot_of(joint.slots.as_slice(), member.get()),
        None => None,
    }
}

/// Adds the copies of the link of this number.
fn push_link(
    copies: &mut List<ItemCopy>,
    group: Group,
    joint: &Joint,
    number: u16,
    link: &Link,
) -> Result<(), Memory>
    requires kept { LinkKept joint.now.slots link.now }
    ensures { OnOk result (copies.new ≡ copies.old
        ++ link_copies group joint.now.slots number link.now) }
{
    let entries = link.copies.as_slice();
    match first_member(joint, link) {
        Some(slot) => {
            let world = slot.world;
            push_entries(copies, group, world.items.as_slice(), number, entries)
        }
        None => Ok(()),
    }
}

/// Adds the copies of the links, by link, item and copy.
fn push_links(copies: &mut List<ItemCopy>, group: Group, joint: &Joint) -> Result<(), Memory>
    ensures { OnOk result (copies.new ≡ copies.old
        ++ each_numbered (link_copies group joint.now.slots) (suc (length joint.now.slots))
        joint.now.links) }
{
    // Reading the joint makes known what its type keeps.
    let slots = joint.slots.len();
    for (index, link) in joint.links.as_slice().iter().enumerate() {
        let number = (slots + index + 1) as u16;
        push_link(copies, group, joint, number, link)?;
    }
    Ok(())
}

/// The copies of the group, by slot, pool entry and copy, then by link, item and copy; `Memory`
/// where memory ran out.
pub(crate) fn copies_of(
    alloc: Global,
    joint: &Joint,
    group: Group,
) -> Result<List<ItemCopy>, Memory>
    ensures copies { IfOk result (λ copies. copies ≡ plain.copies_of group joint.now) }
    ensures few { IfOk result (λ copies. length copies ≤ 10240000) }
    ensures few_numbers { IfOk result (λ copies. length (all_numbers joint.now copies)
        ≤ 10240000) }
    ensures kept { IfOk result (All (CopyKept joint.now)) }
{
    // Reading the joint makes known what its type keeps.
    let _ = &joint.slots;
    let mut copies = List::new(alloc);
    push_slots(&mut copies, group, joint)?;
    push_links(&mut copies, group, joint)?;
    Ok(copies)
}

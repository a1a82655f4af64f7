//! The slots of a seed.
ghost use Rattle.std.specs.Prelude.{◌≡◌, ◌++◌, IfOk, OnOk, Some, flat_map, map, replicate};
ghost use Rattle.mw_multi.specs.Joint.{StartFits};
ghost use Rattle.mw_seeds.specs.SeedFile.{class_flags as plain_flags, start_of, start_copies, start_items, file_slot};

use mw_base::{List, Memory, Text, copy_texts};
use mw_multi::{Class, Item, Joint, PoolEntry, Slot};
use mw_multidata::{Slot as FileSlot, StartItem};
use std::alloc::Global;

/// A class as the flags of the network protocol.
pub(crate) fn class_flags(class: Class) -> u8
    ensures { result ≡ plain_flags class }
{
    match class {
        Class::Progression => 1,
        Class::Useful => 2,
        Class::Filler => 0,
        Class::Trap => 4,
    }
}

/// Adds an item, where it has an id.
fn push_item(start: &mut List<StartItem>, item: &Item) -> Result<(), Memory>
    ensures { OnOk result (start.new ≡ start.old ++ start_of (Some item.now)) }
{
    if let Some(id) = item.id {
        start.push(StartItem {
            item: id,
            flags: class_flags(item.class),
        })?;
    }
    Ok(())
}

/// Adds so many copies of an item, where it has an id.
fn push_copies(start: &mut List<StartItem>, item: &Item, count: u32) -> Result<(), Memory>
    ensures { OnOk result
        (start.new ≡ start.old ++ flat_map start_of (replicate count (Some item.now))) }
{
    for _ in 0..count {
        push_item(start, item)?;
    }
    Ok(())
}

/// Adds an entry's copies.
fn push_start(start: &mut List<StartItem>, items: &[Item], entry: PoolEntry) -> Result<(), Memory>
    requires { StartFits items.now entry }
    ensures { OnOk result (start.new ≡ start.old ++ start_copies items.now entry) }
{
    push_copies(start, &items[entry.item as usize], entry.count)
}

/// The items that a slot begins with.
fn start_of(alloc: Global, slot: &Slot) -> Result<List<StartItem>, Memory>
    ensures { IfOk result (λ start. start ≡ start_items slot.now) }
{
    let world = slot.world;
    let mut start = List::new(alloc);
    for entry in slot.start.as_slice() {
        push_start(&mut start, world.items.as_slice(), *entry)?;
    }
    Ok(start)
}

/// A slot as the seed file has it.
fn slot_of(alloc: Global, slot: &Slot) -> Result<FileSlot, Memory>
    ensures { IfOk result (λ s. s ≡ file_slot slot.now) }
{
    let player = slot.player;
    let world = slot.world;
    let names = copy_texts(alloc, player.names.as_slice())?;
    let game = Text::of(alloc, world.game.as_str())?;
    let start = start_of(alloc, slot)?;
    Ok(FileSlot { names, game, start })
}

/// The slots as the seed file has them.
pub(crate) fn slots_of(alloc: Global, joint: &Joint) -> Result<List<FileSlot>, Memory>
    ensures { IfOk result (λ slots. slots ≡ map file_slot joint.now.slots) }
{
    let mut slots = List::new(alloc);
    for slot in joint.slots.as_slice() {
        slots.push(slot_of(alloc, slot)?)?;
    }
    Ok(slots)
}

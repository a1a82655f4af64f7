//! The copies and the locations of a fill that is plain: each list is made anew.
use mw_base::List;
use mw_fill::{Words, draw};
use mw_multi::{Access, Class, Joint, Link, LocKind, PoolEntry, Put, Slot, World};
use std::alloc::Global;

/// A copy of an item of a pool or of a link.
#[derive(Clone, Copy)]
pub(crate) struct Piece {
    pub(crate) receiver: u16,
    pub(crate) item: u32,
    pub(crate) class: Class,
    /// Whether it may stand in its receiver's world.
    pub(crate) home: bool,
    /// Whether it may stand in other worlds.
    pub(crate) away: bool,
    /// Whether each of its owners wants no more than goals.
    pub(crate) minimal: bool,
}

/// A location with an id.
#[derive(Drop)]
pub(crate) struct Opening {
    pub(crate) slot: u16,
    pub(crate) kind: LocKind,
    /// Whether the slot wants no more than goals.
    pub(crate) minimal: bool,
    /// What stands there: a filler of the slot where no copy is put.
    pub(crate) stands: Put,
    /// Whether a copy is put there.
    pub(crate) is_taken: bool,
}

/// All classes.
const CLASSES: [Class; 4] = [
    Class::Progression,
    Class::Useful,
    Class::Filler,
    Class::Trap,
];

/// The flag at an index, false past the end.
fn is_set(flags: &List<bool>, index: usize) -> bool {
    flags.get(index) == Some(&true)
}

/// Whether a slot owns what is for a receiver: a slot is its own owner, a link has its members.
pub(crate) fn owns(joint: &Joint, slot: u16, receiver: u16) -> bool {
    let slots = joint.slots.len();
    let number = receiver as usize;
    if number <= slots {
        return slot == receiver;
    }
    match joint.links.get(number - slots - 1) {
        Some(shared) => {
            let link = shared.link;
            let mut is_member = false;
            for member in link.members.as_slice() {
                is_member = is_member || member.get() == slot;
            }
            is_member
        }
        None => false,
    }
}

/// Whether each owner of a receiver wants no more than goals.
fn is_minimal(joint: &Joint, receiver: u16) -> bool {
    let mut minimal = true;
    for (before, slot) in joint.slots.as_slice().iter().enumerate() {
        if owns(joint, before as u16 + 1, receiver) {
            minimal = minimal && slot.access() == Access::Minimal;
        }
    }
    minimal
}

/// Adds so many copies of a piece. Where memory runs out some are left out, here and below, so that the fill's answer is
/// another one.
fn push_copies(pieces: &mut Vec<Piece>, piece: Piece, count: u32) {
    let count = pieces.len().saturating_add(count as usize);
    let _ = pieces.resize(count, piece);
}

/// Adds the copies of a slot's pool that are of the classes.
fn push_pool(pieces: &mut Vec<Piece>, joint: &Joint, slot: &Slot, number: u16, classes: &[Class]) {
    let world = slot.world;
    let many = joint.slots.len() > 1;
    for entry in slot.pool() {
        let index = entry.item as usize;
        let local = is_set(&slot.local_items, index);
        let abroad = is_set(&slot.non_local_items, index);
        if let Some(found) = world.items.get(index) {
            let piece = Piece {
                receiver: number,
                item: entry.item,
                class: found.class,
                home: local || !many || !abroad,
                away: !local,
                minimal: is_minimal(joint, number),
            };
            if classes.contains(&piece.class) {
                push_copies(pieces, piece, entry.count);
            }
        }
    }
}

/// The world that a link's members play.
fn world_of_link<'a>(joint: &Joint<'a>, shared: &Link<'a>) -> Option<&'a World> {
    let link = shared.link;
    let member = link.members.get(0)?;
    let slot = joint.slots.get((member.get() as usize).saturating_sub(1))?;
    Some(slot.world)
}

/// Adds the copies of a link that are of the classes; they may stand anywhere.
fn push_link(
    pieces: &mut Vec<Piece>,
    joint: &Joint,
    world: &World,
    copies: &[PoolEntry],
    receiver: u16,
    classes: &[Class],
) {
    for entry in copies {
        if let Some(found) = world.items.get(entry.item as usize) {
            let piece = Piece {
                receiver,
                item: entry.item,
                class: found.class,
                home: true,
                away: true,
                minimal: is_minimal(joint, receiver),
            };
            if classes.contains(&piece.class) {
                push_copies(pieces, piece, entry.count);
            }
        }
    }
}

/// Adds the copies of the classes, by slot, pool entry and copy, then by link, item and copy, put into the order that the
/// next words give.
pub(crate) fn push_shuffled(
    pieces: &mut Vec<Piece>,
    joint: &Joint,
    words: &mut Words,
    classes: &[Class],
) {
    let count = pieces.len();
    let mut number = 1u16;
    for slot in joint.slots.as_slice() {
        push_pool(pieces, joint, slot, number, classes);
        number = number.saturating_add(1);
    }
    for shared in joint.links.as_slice() {
        if let Some(world) = world_of_link(joint, shared) {
            let copies = shared.copies.as_slice();
            push_link(pieces, joint, world, copies, number, classes);
        }
        number = number.saturating_add(1);
    }
    let first = count.min(pieces.len());
    shuffle_entries(words, &mut pieces.as_mut_slice()[first..]);
}

/// The kind of a slot's location.
fn kind_of(slot: &Slot, index: usize, kind: LocKind) -> LocKind {
    if kind == LocKind::Excluded || is_set(&slot.exclude_locations, index) {
        LocKind::Excluded
    } else if is_set(&slot.priority_locations, index) {
        LocKind::Priority
    } else {
        kind
    }
}

/// Adds the locations of a slot that have an id.
fn push_openings(openings: &mut Vec<Opening>, slot: &Slot, number: u16) {
    let world = slot.world;
    let first = slot.first_place.saturating_add(world.regions.len() as u32);
    for (index, location) in world.locations.as_slice().iter().enumerate() {
        if location.id.is_some() {
            let _ = openings.push(Opening {
                slot: number,
                kind: kind_of(slot, index, location.kind),
                minimal: slot.access() == Access::Minimal,
                stands: Put {
                    place: first.saturating_add(index as u32),
                    receiver: number,
                    item: world.filler,
                },
                is_taken: false,
            });
        }
    }
}

/// The locations with an id, by slot and table order.
pub(crate) fn openings_of(alloc: Global, joint: &Joint) -> Vec<Opening> {
    let mut openings = Vec::new(alloc);
    for (before, slot) in joint.slots.as_slice().iter().enumerate() {
        push_openings(&mut openings, slot, before as u16 + 1);
    }
    openings
}

/// Puts entries into the order that the next words give.
pub(crate) fn shuffle_entries<T>(words: &mut Words, entries: &mut [T]) {
    for last in (1..entries.len()).rev() {
        if let Ok(count) = u32::try_from(last + 1) {
            let other = draw(words.next(), count);
            entries.swap(last, other as usize);
        }
    }
}

/// The copies of all pools and links.
pub(crate) fn copies_of(alloc: Global, joint: &Joint) -> Vec<Piece> {
    let mut pieces = Vec::new(alloc);
    push_shuffled(&mut pieces, joint, &mut Words::new(0, 0), &CLASSES);
    pieces
}

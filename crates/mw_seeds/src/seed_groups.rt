//! The groups of a seed, and whether a file's are those of joined tables.
ghost use Rattle.std.specs.Prelude.{◌≡◌, ◌↔◌, IfOk, IsTrue, map};
ghost use Rattle.mw_multi.specs.Joint.{first_slot as plain_first, world_of};
ghost use Rattle.mw_seeds.specs.SeedFile.{file_group, file_groups};
ghost use Rattle.mw_seeds.specs.Agreeing.{link_members, group_members};

use crate::owners::first_slot;
use mw_base::{List, Memory, SlotId, Text};
use mw_multi::{Joint, Link, Slot};
use mw_multidata::Group;
use std::alloc::Global;

/// The game of the first of these slots; empty where there is none.
fn game_of<'a>(slots: &'a [Slot], members: &[SlotId]) -> &'a str
    ensures { result.now ≡ (world_of (plain_first slots.now members.now)).game }
{
    match first_slot(slots, members) {
        Some(slot) => {
            let world = slot.world;
            world.game.as_str()
        }
        None => "",
    }
}

/// A copy of slots' numbers.
fn copy_members(alloc: Global, members: &[SlotId]) -> Result<List<SlotId>, Memory>
    ensures { IfOk result (λ copy. copy ≡ members.now) }
{
    let mut copy = List::new(alloc);
    for member in members {
        copy.push(*member)?;
    }
    Ok(copy)
}

/// A link as a group of the game that its members play.
fn group_of(alloc: Global, slots: &[Slot], shared: &Link) -> Result<Group, Memory>
    ensures { IfOk result (λ g. g ≡ file_group slots.now shared.now) }
{
    let link = shared.link;
    let members = link.members.as_slice();
    let name = Text::of(alloc, link.name.as_str())?;
    let game = Text::of(alloc, game_of(slots, members))?;
    let members = copy_members(alloc, members)?;
    Ok(Group {
        name,
        game,
        members,
    })
}

/// The links as the groups of the seed file.
pub(crate) fn groups_of(alloc: Global, joint: &Joint) -> Result<List<Group>, Memory>
    ensures { IfOk result (λ groups. groups ≡ file_groups joint.now) }
{
    let slots = joint.slots.as_slice();
    let mut groups = List::new(alloc);
    for link in joint.links.as_slice() {
        groups.push(group_of(alloc, slots, link)?)?;
    }
    Ok(groups)
}

/// Whether these are the same numbers.
fn same_members(a: &[SlotId], b: &[SlotId]) -> bool
    ensures { IsTrue result ↔ (a.now ≡ b.now) }
{
    if a.len() != b.len() {
        return false;
    }
    for (index, member) in a.iter().enumerate() {
        if member.get() != b[index].get() {
            return false;
        }
    }
    true
}

/// Whether a group has the members of a link.
fn is_of_link(group: &Group, shared: &Link) -> bool
    ensures { IsTrue result ↔ (group_members group.now ≡ link_members shared.now) }
{
    let link = shared.link;
    same_members(group.members.as_slice(), link.members.as_slice())
}

/// Whether groups have the members of links, in order.
pub(crate) fn links_agree(groups: &[Group], links: &[Link]) -> bool
    ensures { IsTrue result ↔ (map group_members groups.now ≡ map link_members links.now) }
{
    if groups.len() != links.len() {
        return false;
    }
    for (index, group) in groups.iter().enumerate() {
        if !is_of_link(group, &links[index]) {
            return false;
        }
    }
    true
}

ghost use Rattle.std.specs.Prelude.{◌≡◌, false, true, IfOk, OnOk, length};
ghost use Rattle.std.specs.Option.{option_copied};
ghost use Rattle.mw_multi.specs.Joint.{first_slot, world_of};
ghost use Rattle.mw_multi.specs.Labels.{item_labels};
ghost use Rattle.mw_multi.specs.JointOf.{Gives, member_plays, play_one_game, links_play, shared_item, shared_items, sharing_of, sharings_from};

use crate::item_link::ItemLink;
use crate::labels::Labels;
use crate::names::labels_of_world;
use crate::placed::slot_of;
use crate::refusal::JointRefusal;
use crate::slot::Slot;
use mw_base::{List, Memory, SlotId, Text};
use std::alloc::Global;
use std::marker::Model;

/// A link with the indexes of its items in its members' world.
#[derive(Drop)]
pub(crate) struct Sharing<'a> {
    pub link: &'a ItemLink,
    pub items: List<u32>,
}

impl<'a> Model for Sharing<'a> {
    ghost use Rattle.mw_multi.specs.Links as plain;

    ghost Value = { plain.Sharing };

    ghost view = { λ s. record {
      name = s.link.now.name;
      members = s.link.now.members;
      items = s.items;
    } };
}

/// The slot of the first of these numbers.
fn first_of<'a, 'b>(slots: &'a [Slot<'b>], members: &[SlotId]) -> Option<&'a Slot<'b>>
    ensures { option_copied result ≡ first_slot slots.now members.now }
{
    match members.first() {
        Some(number) => slot_of(slots, number.get()),
        None => None,
    }
}

/// The game of the first of these slots.
fn game_of<'a>(slots: &'a [Slot], members: &[SlotId]) -> &'a str
    ensures { result.now ≡ (world_of (first_slot slots.now members.now)).game }
{
    match first_of(slots, members) {
        Some(slot) => {
            let world = slot.world;
            world.game.as_str()
        }
        None => "",
    }
}

/// Whether a slot is there and plays a game.
fn plays(slots: &[Slot], number: SlotId, game: &str) -> bool
    ensures { result ≡ member_plays slots.now game.now number }
{
    match slot_of(slots, number.get()) {
        Some(slot) => {
            let world = slot.world;
            world.game.as_str() == game
        }
        None => false,
    }
}

/// Whether these slots all play one game.
fn play_one_game(slots: &[Slot], members: &[SlotId]) -> bool
    ensures { result ≡ play_one_game slots.now members.now }
{
    let game = game_of(slots, members);
    for number in members {
        if !plays(slots, *number, game) {
            return false;
        }
    }
    true
}

/// The members of each link all play one game; refused at the first whose don't.
pub(crate) fn judge_links(slots: &[Slot], links: &[ItemLink]) -> Result<(), JointRefusal>
    ensures { Gives result (links_play slots.now 0 links.now) }
{
    for (i, link) in links.iter().enumerate() {
        if !play_one_game(slots, link.members.as_slice()) {
            return Err(JointRefusal::LinkGame { link: i as u64 });
        }
    }
    Ok(())
}

/// The labels of the items of the first of these slots.
fn labels_for<'a>(
    alloc: Global,
    slots: &'a [Slot],
    members: &[SlotId],
) -> Result<Labels<'a>, Memory>
    ensures { IfOk result (λ labels. labels
        ≡ item_labels (world_of (first_slot slots.now members.now)).items) }
{
    match first_of(slots, members) {
        Some(slot) => labels_of_world(alloc, slot.world),
        None => Labels::of(alloc, List::new(alloc)),
    }
}

/// The index of a shared item, which has to be known.
#[tactic(auto, unfolding(crate::specs::JointOf::shared_item))]
fn item_in(link: u64, labels: &Labels, place: u64, name: &str) -> Result<u32, JointRefusal>
    ensures { Gives result (shared_item link labels.now place name.now) }
{
    match labels.find(name) {
        Some(index) => Ok(index),
        None => Err(JointRefusal::LinkName { link, place }),
    }
}

/// The indexes of shared items; refused at the first name that no label has.
fn items_in(
    alloc: Global,
    link: u64,
    labels: &Labels,
    names: &[Text],
) -> Result<List<u32>, JointRefusal>
    ensures { Gives result (shared_items link labels.now 0 names.now) }
{
    let mut items = List::new(alloc);
    for (i, name) in names.iter().enumerate() {
        let item = item_in(link, labels, i as u64, name.as_str())?;
        items.push(item)?;
    }
    Ok(items)
}

/// A link with the indexes of its items; refused at the first name that is no item with an id.
#[tactic(auto, unfolding(crate::specs::JointOf::sharing_of))]
fn sharing_in<'a>(
    alloc: Global,
    slots: &[Slot],
    index: u64,
    link: &'a ItemLink,
) -> Result<Sharing<'a>, JointRefusal>
    ensures { Gives result (sharing_of slots.now index link.now) }
{
    let labels = labels_for(alloc, slots, link.members.as_slice())?;
    let items = items_in(alloc, index, &labels, link.items.as_slice())?;
    Ok(Sharing { link, items })
}

/// The links with the indexes of their items; refused at the first name that is no item with an id.
pub(crate) fn sharings_in<'a>(
    alloc: Global,
    slots: &[Slot],
    links: &'a [ItemLink],
) -> Result<List<Sharing<'a>>, JointRefusal>
    ensures { Gives result (sharings_from slots.now 0 links.now) }
{
    let mut sharings = List::new(alloc);
    for (i, link) in links.iter().enumerate() {
        let sharing = sharing_in(alloc, slots, i as u64, link)?;
        sharings.push(sharing)?;
    }
    Ok(sharings)
}

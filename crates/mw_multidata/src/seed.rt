use mw_base::{ItemId, List, LocId, SlotId, Text};
use std::marker::Model;

/// A name with its id.
#[derive(Drop)]
pub struct NamedId {
    /// 1 to 128 characters, none below U+0020.
    pub name: Text,
    /// 1 to 2^53 - 1.
    pub id: i64,
}

impl Model for NamedId {
    ghost use Rattle.mw_model.specs.Seed as plain;

    ghost Value = { plain.NamedId };

    ghost view = { λ n. record { name = n.name; id = n.id } };
}

/// A game, with the names of its items and of its locations in byte order.
#[derive(Drop)]
pub struct Game {
    /// 1 to 128 characters, none below U+0020.
    pub name: Text,
    /// Its items; no two ids are equal.
    pub item_name_to_id: List<NamedId>,
    /// Its locations; no two ids are equal.
    pub location_name_to_id: List<NamedId>,
}

impl Model for Game {
    ghost use Rattle.mw_model.specs.Seed as plain;

    ghost Value = { plain.Game };

    ghost view = { λ g. record {
      name = g.name;
      item_name_to_id = g.item_name_to_id;
      location_name_to_id = g.location_name_to_id;
    } };
}

/// An item that a slot starts with.
#[derive(Clone, Copy)]
pub struct StartItem {
    /// An item of the slot's game.
    pub item: ItemId,
    /// Progression 1, useful 2, trap 4, else 0.
    pub flags: u8,
}

impl Model for StartItem {
    ghost use Rattle.mw_model.specs.Seed as plain;

    ghost Value = { plain.StartItem };

    ghost view = { λ s. record { item = s.item; flags = s.flags } };

    ghost inverse = { λ s. record { item = s.item; flags = s.flags } };
}

/// A player's place in the seed.
#[derive(Drop)]
pub struct Slot {
    /// The player's name in each team, of 1 to 16 characters, none below U+0020.
    pub names: List<Text>,
    /// The game that is played.
    pub game: Text,
    /// At most 256 items to begin with.
    pub start: List<StartItem>,
}

impl Model for Slot {
    ghost use Rattle.mw_model.specs.Seed as plain;

    ghost Value = { plain.Slot };

    ghost view = { λ s. record { names = s.names; game = s.game; start = s.start } };
}

/// A receiver that stands for several slots of one game: each of them gets its items, each once.
#[derive(Drop)]
pub struct Group {
    /// 1 to 16 characters, none below U+0020; no player's name and no other group's.
    pub name: Text,
    /// The game that all its members play.
    pub game: Text,
    /// At least two slots, strictly ascending.
    pub members: List<SlotId>,
}

impl Model for Group {
    ghost use Rattle.mw_model.specs.Seed as plain;

    ghost Value = { plain.Group };

    ghost view = { λ g. record { name = g.name; game = g.game; members = g.members } };
}

/// A location of a slot, with the item that it holds.
#[derive(Clone, Copy)]
pub struct Held {
    /// The slot that finds it.
    pub slot: SlotId,
    /// A location of that slot's game.
    pub location: LocId,
    /// An item of the receiver's game.
    pub item: ItemId,
    /// The number of the slot or of the group that receives it, 1 to 1,024.
    pub receiver: u16,
    /// Progression 1, useful 2, trap 4, else 0.
    pub flags: u8,
}

impl Model for Held {
    ghost use Rattle.mw_model.specs.Seed as plain;

    ghost Value = { plain.Held };

    ghost view = { λ h. record {
      slot = h.slot;
      location = h.location;
      item = h.item;
      receiver = h.receiver;
      flags = h.flags;
    } };

    ghost inverse = { λ h. record {
      slot = h.slot;
      location = h.location;
      item = h.item;
      receiver = h.receiver;
      flags = h.flags;
    } };
}

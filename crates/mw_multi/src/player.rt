use crate::access::Access;
use mw_base::{List, Text};
use std::marker::Model;

/// So many of an item to begin with.
#[derive(Drop)]
pub struct StartEntry {
    /// The item's name.
    pub name: Text,
    /// 1 to 256.
    pub count: u32,
}

impl Model for StartEntry {
    ghost use Rattle.mw_multi.specs.Players as plain;

    ghost Value = { plain.StartEntry };

    ghost view = { λ s. record { name = s.name; count = s.count } };
}

/// A player's wishes, each name as it was written: 1 to 128 characters, none below U+0020.
#[derive(Drop)]
pub struct Options {
    /// Items that stay in the player's own world.
    pub local_items: List<Text>,
    /// Items that stand in other players' worlds.
    pub non_local_items: List<Text>,
    /// Locations that hold no item of class progression or useful.
    pub exclude_locations: List<Text>,
    /// Locations that are filled first.
    pub priority_locations: List<Text>,
    /// At most 256 items to begin with, in byte order of names.
    pub start_inventory: List<StartEntry>,
    /// How much of the player's own world has to be reachable.
    pub accessibility: Access,
}

impl Model for Options {
    ghost use Rattle.mw_multi.specs.Players as plain;

    ghost Value = { plain.Options };

    ghost view = { λ o. record {
      local_items = o.local_items;
      non_local_items = o.non_local_items;
      exclude_locations = o.exclude_locations;
      priority_locations = o.priority_locations;
      start_inventory = o.start_inventory;
      accessibility = o.accessibility;
    } };
}

/// A player: one slot in each team.
#[derive(Drop)]
pub struct Player {
    /// The player's name in each team, of 1 to 16 characters, none below U+0020.
    pub names: List<Text>,
    /// The file of the player's world.
    pub world: Text,
    /// The player's wishes.
    pub options: Options,
}

impl Model for Player {
    ghost use Rattle.mw_multi.specs.Players as plain;

    ghost Value = { plain.Player };

    ghost view = { λ p. record { names = p.names; world = p.world; options = p.options } };
}

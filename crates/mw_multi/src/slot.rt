use crate::access::Access;
use crate::player::Player;
use crate::world::{PoolEntry, World};
use mw_base::List;
use std::marker::Model;

/// A player's slot in a joint.
#[derive(Drop)]
pub struct Slot<'a> {
    /// The player, with a name for each team.
    pub player: &'a Player,
    /// The tables of the player's world.
    pub world: &'a World,
    /// The number of the slot's first place over all slots.
    pub first_place: u32,
    /// The number of the slot's first item over all slots.
    pub first_item: u32,
    /// For each item of the world, whether it stays in this slot's world.
    pub local_items: List<bool>,
    /// For each item of the world, whether it stands in other slots' worlds.
    pub non_local_items: List<bool>,
    /// For each location of the world, whether the player excludes it.
    pub exclude_locations: List<bool>,
    /// For each location of the world, whether the player gives it priority.
    pub priority_locations: List<bool>,
    /// The items to begin with, at most 256 together.
    pub start: List<PoolEntry>,
    /// What links leave of the world's pool; None where that is the whole.
    pub own_pool: Option<List<PoolEntry>>,
}

impl<'a> Model for Slot<'a> {
    ghost use Rattle.std.specs.Prelude.{unwrap_or};
    ghost use Rattle.std.specs.Coded.{codes};
    ghost use Rattle.mw_multi.specs.RuleCode.{coded_rule};
    ghost use Rattle.mw_multi.specs.Joint as plain;
    ghost use Rattle.mw_multi.specs.Joint.{SlotKept};

    ghost Value = { plain.Slot };

    ghost coded = { Prim.hlevel (codes, coded_rule) };

    ghost view = { λ s. record {
      names = s.player.now.names;
      world = s.world.now;
      first_place = s.first_place;
      first_item = s.first_item;
      local_items = s.local_items;
      non_local_items = s.non_local_items;
      exclude_locations = s.exclude_locations;
      priority_locations = s.priority_locations;
      start = s.start;
      pool = unwrap_or s.own_pool s.world.now.pool;
      access = s.player.now.options.accessibility;
    } };

    ghost invariant = { λ s. SlotKept record {
      names = s.player.now.names;
      world = s.world.now;
      first_place = s.first_place;
      first_item = s.first_item;
      local_items = s.local_items;
      non_local_items = s.non_local_items;
      exclude_locations = s.exclude_locations;
      priority_locations = s.priority_locations;
      start = s.start;
      pool = unwrap_or s.own_pool s.world.now.pool;
      access = s.player.now.options.accessibility;
    } };
}

impl<'a> Slot<'a> {
    ghost use Rattle.std.specs.Prelude.{◌≡◌, ◌<◌, ◌+◌, ◌^◌, length};
    ghost use Rattle.mw_multi.specs.Joint.{slot_places};
    ghost use Rattle.mw_multi.specs.Steps.{region_place, location_place};

    /// What links leave of the world's pool.
    pub fn pool(&self) -> &[PoolEntry]
        ensures { result.now ≡ self.now.pool }
    {
        match &self.own_pool {
            Some(pool) => pool.as_slice(),
            None => {
                let world = self.world;
                world.pool.as_slice()
            }
        }
    }

    /// How much of the world has to be reachable.
    pub fn access(&self) -> Access
        ensures { result ≡ self.now.access }
    {
        let player = self.player;
        player.options.accessibility
    }

    /// The number over all slots of a region, given its index.
    pub fn region_place(&self, region: u32) -> u32
        requires region { region < length self.now.world.regions }
        requires fits { self.now.first_place + slot_places self.now < 2 ^ 32 }
        ensures { result ≡ region_place self.now region }
    {
        self.first_place + region
    }

    /// The number over all slots of a location, given its index; locations come after the regions.
    pub fn location_place(&self, location: u32) -> u32
        requires location { location < length self.now.world.locations }
        requires fits { self.now.first_place + slot_places self.now < 2 ^ 32 }
        ensures { result ≡ location_place self.now location }
    {
        let world = self.world;
        self.first_place + world.regions.len() as u32 + location
    }
}

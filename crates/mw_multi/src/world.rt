use crate::entrance::Entrance;
use crate::item::Item;
use crate::location::Location;
use mw_base::{List, Text};
use mw_rules::Rule;
use std::marker::Model;

/// So many copies of an item.
#[derive(Clone, Copy)]
pub struct PoolEntry {
    /// An item with an id, by its index from 0.
    pub item: u32,
    /// 1 to 10,000.
    pub count: u32,
}

impl Model for PoolEntry {
    ghost use Rattle.mw_multi.specs.World as plain;

    ghost Value = { plain.PoolEntry };

    ghost view = { λ p. record { item = p.item; count = p.count } };

    ghost inverse = { λ p. record { item = p.item; count = p.count } };
}

/// The tables of one world. A region or an item is its index from 0 in its list; a place in a rule counts the regions
/// and then the locations, from 0.
pub struct World {
    /// The game's name, 1 to 128 characters, none below U+0020.
    pub game: Text,
    /// The region in which each slot begins.
    pub origin: u32,
    /// The names of at most 5,000 regions, no two equal.
    pub regions: List<Text>,
    /// At most 10,000 entrances, no two names equal.
    pub entrances: List<Entrance>,
    /// At most 10,000 locations, no two names and no two ids equal.
    pub locations: List<Location>,
    /// At most 10,000 items, no two names and no two ids equal.
    pub items: List<Item>,
    /// At most 10,000 copies of items together.
    pub pool: List<PoolEntry>,
    /// An item with an id and of class filler.
    pub filler: u32,
    /// When a slot has won.
    pub goal: Rule,
}

/// By hand, so that whoever lets it go calls this, and what it frees is listed once.
impl Drop for World {
    fn drop(self) {
        let World {
            game: _,
            origin: _,
            regions: _,
            entrances: _,
            locations: _,
            items: _,
            pool: _,
            filler: _,
            goal: _,
        } = self;
    }
}

impl Model for World {
    ghost use Rattle.std.specs.Coded.{codes};
    ghost use Rattle.mw_rules.specs.View.{view as rule_view};
    ghost use Rattle.mw_multi.specs.RuleCode.{coded_rule};
    ghost use Rattle.mw_multi.specs.World as plain;
    ghost use Rattle.mw_multi.specs.WorldKept.{IsWorld};

    ghost Value = { plain.World };

    ghost coded = { Prim.hlevel (codes, coded_rule) };

    ghost view = { λ w. record {
      game = w.game;
      origin = w.origin;
      regions = w.regions;
      entrances = w.entrances;
      locations = w.locations;
      items = w.items;
      pool = w.pool;
      filler = w.filler;
      goal = rule_view w.goal;
    } };

    ghost invariant = { λ w. IsWorld record {
      game = w.game;
      origin = w.origin;
      regions = w.regions;
      entrances = w.entrances;
      locations = w.locations;
      items = w.items;
      pool = w.pool;
      filler = w.filler;
      goal = rule_view w.goal;
    } };
}

impl World {
    ghost use Rattle.std.specs.Prelude.{◌≡◌, ◌≤◌, length};
    ghost use Rattle.mw_multi.specs.World.{place_count};

    /// How many places it has, at most 15,000.
    pub fn place_count(&self) -> u32
        ensures value { result ≡ place_count self.now }
        ensures few { result ≤ 15000 }
    {
        (self.regions.len() + self.locations.len()) as u32
    }

    /// How many items it has, at most 10,000.
    pub fn item_count(&self) -> u32
        ensures value { result ≡ length self.now.items }
        ensures few { result ≤ 10000 }
    {
        self.items.len() as u32
    }
}

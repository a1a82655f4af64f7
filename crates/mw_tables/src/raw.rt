use crate::raw_rule::RawRule;
use mw_base::{List, LocId, Text};
use mw_multi::{Item, LocKind};
use std::marker::Model;

/// An entrance as it is written.
#[derive(Drop)]
pub(crate) struct RawEntrance {
    pub name: Text,
    pub from: Text,
    pub to: Text,
    pub rule: RawRule,
}

impl Model for RawEntrance {
    ghost use Rattle.std.specs.Coded.{codes};
    ghost use Rattle.mw_tables.specs.RawView.{raw_view};
    ghost use Rattle.mw_tables.specs.RawCode.{coded_raw_rule};
    ghost use Rattle.mw_tables.specs.Raw as plain;

    ghost Value = { plain.RawEntrance };

    ghost coded = { Prim.hlevel (codes, coded_raw_rule) };

    ghost view = { λ e. record {
      name = e.name;
      from = e.from;
      to = e.to;
      rule = raw_view e.rule;
    } };
}

/// A location as it is written.
#[derive(Drop)]
pub(crate) struct RawLocation {
    pub name: Text,
    pub id: Option<LocId>,
    pub region: Text,
    pub kind: LocKind,
    pub rule: RawRule,
    pub event: Option<Text>,
}

impl Model for RawLocation {
    ghost use Rattle.std.specs.Coded.{codes};
    ghost use Rattle.mw_tables.specs.RawView.{raw_view};
    ghost use Rattle.mw_tables.specs.RawCode.{coded_raw_rule};
    ghost use Rattle.mw_tables.specs.Raw as plain;

    ghost Value = { plain.RawLocation };

    ghost coded = { Prim.hlevel (codes, coded_raw_rule) };

    ghost view = { λ l. record {
      name = l.name;
      id = l.id;
      region = l.region;
      kind = l.kind;
      rule = raw_view l.rule;
      event = l.event;
    } };
}

/// An entry of the pool as it is written.
#[derive(Drop)]
pub(crate) struct RawEntry {
    pub item: Text,
    pub count: u32,
}

impl Model for RawEntry {
    ghost use Rattle.mw_tables.specs.Raw as plain;

    ghost Value = { plain.RawEntry };

    ghost view = { λ p. record { item = p.item; count = p.count } };
}

/// What stands in a world file, before its names are judged.
#[derive(Drop)]
pub(crate) struct RawWorld {
    pub game: Text,
    pub origin: Text,
    pub regions: List<Text>,
    pub items: List<Item>,
    pub entrances: List<RawEntrance>,
    pub locations: List<RawLocation>,
    pub pool: List<RawEntry>,
    pub filler: Text,
    pub goal: RawRule,
}

impl Model for RawWorld {
    ghost use Rattle.std.specs.Coded.{codes};
    ghost use Rattle.mw_tables.specs.RawView.{raw_view};
    ghost use Rattle.mw_tables.specs.RawCode.{coded_raw_rule};
    ghost use Rattle.mw_tables.specs.Raw as plain;

    ghost Value = { plain.RawWorld };

    ghost coded = { Prim.hlevel (codes, coded_raw_rule) };

    ghost view = { λ w. record {
      game = w.game;
      origin = w.origin;
      regions = w.regions;
      items = w.items;
      entrances = w.entrances;
      locations = w.locations;
      pool = w.pool;
      filler = w.filler;
      goal = raw_view w.goal;
    } };
}

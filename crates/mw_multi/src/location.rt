use mw_base::{LocId, Text};
use mw_rules::Rule;
use std::marker::Model;

/// How a location is filled.
#[derive(Clone, Copy)]
pub enum LocKind {
    /// After those with priority.
    Default,
    /// First.
    Priority,
    /// With no item of class progression or useful.
    Excluded,
}

/// A location of a world: one with an id holds an item of the placement, one without an id holds its event.
#[derive(Drop)]
pub struct Location {
    /// 1 to 128 characters, none below U+0020.
    pub name: Text,
    /// None for an event location.
    pub id: Option<LocId>,
    /// The region that it is in, by its index from 0.
    pub region: u32,
    /// How it is filled.
    pub kind: LocKind,
    /// When it can be reached from its region.
    pub rule: Rule,
    /// The event that it holds, an item without id by its index from 0; there exactly where the location has no id.
    pub event: Option<u32>,
}

impl Model for Location {
    ghost use Rattle.std.specs.Coded.{codes};
    ghost use Rattle.mw_rules.specs.View.{view as rule_view};
    ghost use Rattle.mw_multi.specs.RuleCode.{coded_rule};
    ghost use Rattle.mw_multi.specs.World as plain;

    ghost Value = { plain.Location };

    ghost coded = { Prim.hlevel (codes, coded_rule) };

    ghost view = { λ l. record {
      name = l.name;
      id = l.id;
      region = l.region;
      kind = l.kind;
      rule = rule_view l.rule;
      event = l.event;
    } };
}

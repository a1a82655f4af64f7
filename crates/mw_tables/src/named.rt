use mw_base::List;
use mw_multi::{Entrance, Location, PoolEntry};
use mw_rules::Rule;
use std::marker::Model;

/// A rule whose names are resolved, seen as what it stands for.
#[derive(Drop)]
pub(crate) struct NamedRule {
    pub rule: Rule,
}

impl Model for NamedRule {
    ghost use Rattle.std.specs.Coded.{codes};
    ghost use Rattle.mw_rules.specs.Rule as plain;
    ghost use Rattle.mw_rules.specs.View.{view as rule_view};
    ghost use Rattle.mw_multi.specs.RuleCode.{coded_rule};

    ghost Value = { plain.Rule };

    ghost coded = { coded_rule };

    ghost view = { λ r. rule_view r.rule };
}

/// What the names of a world stand for.
#[derive(Drop)]
pub(crate) struct NamedWorld {
    pub origin: u32,
    pub entrances: List<Entrance>,
    pub locations: List<Location>,
    pub pool: List<PoolEntry>,
    pub filler: u32,
    pub goal: Rule,
}

impl Model for NamedWorld {
    ghost use Rattle.std.specs.Coded.{codes};
    ghost use Rattle.mw_rules.specs.View.{view as rule_view};
    ghost use Rattle.mw_multi.specs.RuleCode.{coded_rule};
    ghost use Rattle.mw_tables.specs.WorldNames as plain;

    ghost Value = { plain.NamedWorld };

    ghost coded = { Prim.hlevel (codes, coded_rule) };

    ghost view = { λ n. record {
      origin = n.origin;
      entrances = n.entrances;
      locations = n.locations;
      pool = n.pool;
      filler = n.filler;
      goal = rule_view n.goal;
    } };
}

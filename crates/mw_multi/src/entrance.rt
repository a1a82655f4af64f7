use mw_base::Text;
use mw_rules::Rule;
use std::marker::Model;

/// A way from region to region.
#[derive(Drop)]
pub struct Entrance {
    /// 1 to 128 characters, none below U+0020.
    pub name: Text,
    /// The region where it starts, by its index from 0.
    pub from: u32,
    /// The region where it leads, by its index from 0.
    pub to: u32,
    /// When it may be taken.
    pub rule: Rule,
}

impl Model for Entrance {
    ghost use Rattle.std.specs.Coded.{codes};
    ghost use Rattle.mw_rules.specs.View.{view as rule_view};
    ghost use Rattle.mw_multi.specs.RuleCode.{coded_rule};
    ghost use Rattle.mw_multi.specs.World as plain;

    ghost Value = { plain.Entrance };

    ghost coded = { Prim.hlevel (codes, coded_rule) };

    ghost view = { λ e. record {
      name = e.name;
      from = e.from;
      to = e.to;
      rule = rule_view e.rule;
    } };
}

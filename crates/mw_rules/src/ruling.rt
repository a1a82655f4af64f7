ghost use Rattle.std.specs.Prelude.{◌≡◌, ◌+◌, ◌<◌, List, length};
ghost use Rattle.mw_rules.specs.Rule as plain;
ghost use Rattle.mw_rules.specs.Rule.{IsWithin};
ghost use Rattle.mw_rules.specs.Holds.{bag_of, places_of, holds};
ghost use Rattle.mw_rules.specs.Names.{AreNames};
ghost use Rattle.mw_rules.specs.Ruling.{rule_at};

use crate::named::Named;
use crate::steps::Steps;
use std::sync::ledger::Ledger;

/// Who answers rules by number, from 0. No call takes memory.
pub trait Ruling {
    /// Whether the answers are those of these rules.
    ghost stands_for: { Self → List plain.Rule → Type 0 };

    /// How many rules there are.
    fn count(&self) -> u32
        ensures { (rules : List plain.Rule) → stands_for self.now rules → result ≡ length rules };

    /// Whether the rule with this number holds for these counts of the items of the slot that owns it
    /// and these flags of the slot's places. It raises `steps` by one.
    fn ask<L: Ledger>(
        &self,
        number: u32,
        counts: &[u32],
        places: &[bool],
        steps: &mut Steps<L>,
    ) -> bool
        requires { (rules : List plain.Rule) × stands_for self.now rules × (number < length rules)
            × IsWithin (length counts.now) (length places.now) (rule_at rules number) }
        ensures answer { (rules : List plain.Rule) → stands_for self.now rules
            → number < length rules → IsWithin (length counts.now) (length places.now)
            (rule_at rules number) → result
            ≡ holds (rule_at rules number) (bag_of counts.now) (places_of places.now) }
        ensures steps { steps.new ≡ steps.old + 1 };

    /// The items and the places that the rule with this number names.
    fn named(&self, number: u32) -> &Named
        requires { (rules : List plain.Rule) × stands_for self.now rules × (number < length rules) }
        ensures names { (rules : List plain.Rule) → stands_for self.now rules
            → number < length rules → AreNames
            (rule_at rules number) result.now.items result.now.places };
}

ghost use Rattle.std.specs.Prelude.{◌≡◌, ◌+◌, ◌≤◌, length};
ghost use Rattle.mw_rules.specs.Holds.{bag_of};
ghost use Rattle.mw_multi.specs.Steps.{rule_list};
ghost use Rattle.mw_reach.specs.Goals as plain;
ghost use Rattle.mw_reach.specs.Reached.{IsMadeFor, KeepsRules, counts_in, places_in};

use crate::build::rule_count;
use crate::reached::Reached;
use crate::row::RuleOfSlot;
use crate::worklist::holds;
use mw_multi::Joint;
use mw_rules::{Ruling, Steps};
use std::marker::Brand;
use std::sync::ledger::{Blank, Ledger};

/// The number of the first slot whose goal doesn't hold for the items and the places that were reached, from 1; None where
/// each slot's goal holds. It asks these rules, which are counted in `steps`, and takes no memory.
pub fn unmet_goal_by<R: Ruling, L: Ledger>(
    joint: &Joint,
    rules: &R,
    reached: &Reached,
    steps: &mut Steps<L>,
) -> Option<u16>
    requires rules { R.stands_for rules.now (rule_list joint.now) }
    requires reached { IsMadeFor joint.now reached.now }
    ensures slot { result ≡ plain.unmet_goal joint.now (bag_of (counts_in reached.now))
        (places_in reached.now) }
    ensures steps { steps.new ≤ steps.old + length joint.now.slots }
{
    let mut first_rule = 0;
    for (index, slot) in joint.slots.as_slice().iter().enumerate() {
        let goal = RuleOfSlot {
            slot: index as u32,
            rule: first_rule + rule_count(slot) - 1,
        };
        if !holds(joint, rules, goal, &reached.work.tally, steps) {
            return Some(index as u16 + 1);
        }
        first_rule = goal.rule + 1;
    }
    None
}

/// `unmet_goal` with a counter of its own.
fn count_and_ask<L: Ledger>(blank: Blank, joint: &Joint, reached: &Reached) -> Option<u16>
    requires name { blank.name ≡ L.name }
    requires parts { (blank.parts ≡ L.parts) × (blank.parts ≡ 1) }
    requires reached { IsMadeFor joint.now reached.now }
    requires rules { KeepsRules joint.now reached.now }
    ensures { result ≡ plain.unmet_goal joint.now (bag_of (counts_in reached.now))
        (places_in reached.now) }
{
    let mut steps = Steps::<L>::new(blank);
    match &reached.trees {
        Some(trees) => unmet_goal_by(joint, trees, reached, &mut steps),
        None => unreachable!(),
    }
}

/// The number of the first slot whose goal doesn't hold for the items and the places that were reached, from 1; None where
/// each slot's goal holds. It takes no memory.
pub fn unmet_goal(joint: &Joint, reached: &Reached) -> Option<u16>
    requires reached { IsMadeFor joint.now reached.now }
    requires rules { KeepsRules joint.now reached.now }
    ensures { result ≡ plain.unmet_goal joint.now (bag_of (counts_in reached.now))
        (places_in reached.now) }
{
    count_and_ask::<Brand>(Blank::new(1), joint, reached)
}

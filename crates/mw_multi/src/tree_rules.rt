ghost use Rattle.std.specs.Prelude.{◌≡◌, ◌≤◌, ◌++◌, ◌∷◌, [], IfOk, OnOk, length, map};
ghost use Rattle.mw_rules.specs.View.{view};
ghost use Rattle.mw_multi.specs.Steps.{entrance_rule, location_rule, world_rules, rule_list};

use crate::entrance::Entrance;
use crate::joint::Joint;
use crate::location::Location;
use crate::world::World;
use mw_base::{List, Memory};
use mw_rules::{Named, Rule, Ruling, Steps, eval_counted};
use std::alloc::Global;
use std::marker::Model;
use std::sync::ledger::Ledger;

/// A rule with what it names.
#[derive(Drop)]
struct TreeRule {
    rule: Rule,
    named: Named,
}

impl Model for TreeRule {
    ghost use Rattle.mw_rules.specs.Rule as meaning;
    ghost use Rattle.mw_rules.specs.Names.{AreNames};
    ghost use Rattle.mw_rules.specs.View.{view as rule_view};
    ghost use Rattle.mw_multi.specs.RuleCode.{coded_rule};

    ghost Value = { meaning.Rule };

    ghost coded = { coded_rule };

    ghost view = { λ t. rule_view t.rule };

    ghost invariant = { λ t. AreNames (rule_view t.rule) t.named.items t.named.places };
}

/// The rules of a joint by number, as trees of its own: slot by slot the entrances in table order, the locations in table
/// order and the goal.
pub struct TreeRules {
    trees: List<TreeRule>,
}

/// By hand, so that whoever lets it go calls this, and what it frees is listed once.
impl Drop for TreeRules {
    fn drop(self) {
        let TreeRules { trees: _ } = self;
    }
}

impl Model for TreeRules {
    ghost use Rattle.std.specs.Prelude.{◌<◌, ◌^◌, List, length};
    ghost use Rattle.std.specs.Coded.{coded_list};
    ghost use Rattle.mw_rules.specs.Rule as meaning;
    ghost use Rattle.mw_multi.specs.RuleCode.{coded_rule};

    ghost Value = { List meaning.Rule };

    ghost coded = { coded_list coded_rule };

    ghost view = { λ t. t.trees };

    ghost invariant = { λ t. length t.trees < 2 ^ 32 };
}

/// A copy of a rule, with what it names.
fn tree_of(alloc: Global, rule: &Rule) -> Result<TreeRule, Memory>
    ensures { IfOk result (λ t. t ≡ view rule.now) }
{
    let rule = rule.copy(alloc)?;
    let named = Named::of(alloc, &rule)?;
    Ok(TreeRule { rule, named })
}

/// Adds a rule.
fn push_rule(alloc: Global, trees: &mut List<TreeRule>, rule: &Rule) -> Result<(), Memory>
    ensures { OnOk result (trees.new ≡ trees.old ++ view rule.now ∷ []) }
{
    trees.push(tree_of(alloc, rule)?)
}

/// Adds the rules of entrances.
fn push_entrances(
    alloc: Global,
    trees: &mut List<TreeRule>,
    entrances: &[Entrance],
) -> Result<(), Memory>
    ensures { OnOk result (trees.new ≡ trees.old ++ map entrance_rule entrances.now) }
{
    for entrance in entrances {
        push_rule(alloc, trees, &entrance.rule)?;
    }
    Ok(())
}

/// Adds the rules of locations.
fn push_locations(
    alloc: Global,
    trees: &mut List<TreeRule>,
    locations: &[Location],
) -> Result<(), Memory>
    ensures { OnOk result (trees.new ≡ trees.old ++ map location_rule locations.now) }
{
    for location in locations {
        push_rule(alloc, trees, &location.rule)?;
    }
    Ok(())
}

/// Adds the rules of a world.
fn push_world(alloc: Global, trees: &mut List<TreeRule>, world: &World) -> Result<(), Memory>
    ensures rules { OnOk result (trees.new ≡ trees.old ++ world_rules world.now) }
    ensures few { length (world_rules world.now) ≤ 20001 }
{
    push_entrances(alloc, trees, world.entrances.as_slice())?;
    push_locations(alloc, trees, world.locations.as_slice())?;
    push_rule(alloc, trees, &world.goal)
}

impl TreeRules {
    /// Copies of the joint's rules; `Memory` where memory ran out.
    pub fn of(alloc: Global, joint: &Joint) -> Result<TreeRules, Memory>
        ensures { IfOk result (λ t. t ≡ rule_list joint.now) }
    {
        let mut trees = List::new(alloc);
        for slot in joint.slots.as_slice() {
            let world = slot.world;
            push_world(alloc, &mut trees, world)?;
        }
        Ok(TreeRules { trees })
    }
}

impl Ruling for TreeRules {
    ghost stands_for = { λ t rules. rules ≡ t };

    fn count(&self) -> u32 {
        self.trees.len() as u32
    }

    fn ask<L: Ledger>(
        &self,
        number: u32,
        counts: &[u32],
        places: &[bool],
        steps: &mut Steps<L>,
    ) -> bool {
        let tree = &self.trees.as_slice()[number as usize];
        eval_counted(&tree.rule, counts, places, steps)
    }

    fn named(&self, number: u32) -> &Named {
        let tree = &self.trees.as_slice()[number as usize];
        &tree.named
    }
}

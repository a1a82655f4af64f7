ghost use Rattle.std.specs.Prelude.{◌≡◌, IfOk, map};
ghost use Rattle.mw_rules.specs.View.{view};

use crate::rule::Rule;
use mw_base::{List, Memory};
use std::alloc::Global;

/// A copy of numbers.
fn copy_numbers(alloc: Global, numbers: &[u32]) -> Result<List<u32>, Memory>
    ensures { IfOk result (λ copy. copy ≡ numbers.now) }
{
    Ok(List::from_vec(Vec::from_slice(alloc, numbers)?))
}

/// A copy of a rule.
#[cycle(copy)]
#[tactic(auto, using(crate::proofs::Views::view_of_always, crate::proofs::Views::view_of_never, crate::proofs::Views::view_of_has, crate::proofs::Views::view_of_has_all, crate::proofs::Views::view_of_has_any, crate::proofs::Views::view_of_count, crate::proofs::Views::view_of_can_reach, crate::proofs::Views::view_of_and, crate::proofs::Views::view_of_or))]
fn copy_rule(alloc: Global, rule: &Rule) -> Result<Rule, Memory>
    ensures { IfOk result (λ copy. view copy ≡ view rule.now) }
{
    match rule {
        Rule::Always => Ok(Rule::Always),
        Rule::Never => Ok(Rule::Never),
        Rule::Has { item, count } => Ok(Rule::Has {
            item: *item,
            count: *count,
        }),
        Rule::HasAll(items) => Ok(Rule::HasAll(copy_numbers(alloc, items.as_slice())?)),
        Rule::HasAny(items) => Ok(Rule::HasAny(copy_numbers(alloc, items.as_slice())?)),
        Rule::Count { items, at_least } => Ok(Rule::Count {
            items: copy_numbers(alloc, items.as_slice())?,
            at_least: *at_least,
        }),
        Rule::CanReach { place } => Ok(Rule::CanReach { place: *place }),
        Rule::And(rules) => Ok(Rule::And(copy_rules(alloc, rules.as_slice())?)),
        Rule::Or(rules) => Ok(Rule::Or(copy_rules(alloc, rules.as_slice())?)),
    }
}

/// A copy of each of the rules.
#[cycle(copy)]
fn copy_rules(alloc: Global, rules: &[Rule]) -> Result<List<Rule>, Memory>
    ensures { IfOk result (λ copy. map view copy ≡ map view rules.now) }
{
    let mut copy = List::new(alloc);
    for rule in rules {
        copy.push(copy_rule(alloc, rule)?)?;
    }
    Ok(copy)
}

impl Rule {
    /// A copy of the rule; `Memory` where memory ran out.
    pub fn copy(&self, alloc: Global) -> Result<Rule, Memory>
        ensures { IfOk result (λ copy. view copy ≡ view self.now) }
    {
        copy_rule(alloc, self)
    }
}

ghost use Rattle.std.specs.Prelude.{◌≡◌, ◌<◌, [], ◌∷◌, All, IfOk};
ghost use Rattle.mw_rules.specs.Rule.{IsWithin, AreWithin};
ghost use Rattle.mw_rules.specs.Names.{AreNames};
ghost use Rattle.mw_rules.specs.View.{view, rules_view};

use mw_base::{List, Memory};
use mw_rules::{Named, Rule, Ruling, Steps, eval, eval_counted};
use std::alloc::Global;
use std::marker::Brand;
use std::sync::ledger::{Blank, Ledger};
use std::test::Fail;

/// The answer where there are none, one and two of the items 0, 1 and 2, and place 0 of two is in the list.
fn holds(rule: Rule) -> bool
    requires { IsWithin 3 2 (view rule) }
{
    eval(&rule, &[0, 1, 2], &[true, false])
}

#[test]
#[tactic(auto, using(mw_rules::proofs::Views::view_of_always, mw_rules::proofs::Views::view_of_never, mw_rules::proofs::Views::view_of_has, mw_rules::proofs::Views::view_of_can_reach))]
fn forms_without_lists_answer_at_their_edges(rt: HostRuntime) {
    assert!(rt;
        holds(Rule::Always)
            && !holds(Rule::Never)
            && holds(Rule::Has { item: 1, count: 1 })
            && !holds(Rule::Has { item: 1, count: 2 })
            && holds(Rule::Has { item: 2, count: 2 })
            && holds(Rule::CanReach { place: 0 })
            && !holds(Rule::CanReach { place: 1 })
    );
}

/// A list of two of the items.
fn two(alloc: Global, first: u32, second: u32) -> Result<List<u32>, Memory>
    requires { (first < 3) × (second < 3) }
    ensures { IfOk result (All (λ i. i < 3)) }
{
    Ok(List::from_vec(vec![in alloc; first, second]?))
}

/// A list of two rules.
fn both(alloc: Global, first: Rule, second: Rule) -> Result<List<Rule>, Memory>
    requires { IsWithin 3 2 (view first) × IsWithin 3 2 (view second) }
    ensures { IfOk result (λ rules. AreWithin 3 2 (rules_view rules)) }
{
    Ok(List::from_vec(vec![in alloc; first, second]?))
}

/// Whether the rules of no items and of two items answer so.
#[tactic(auto, using(mw_rules::proofs::Views::view_of_has_all, mw_rules::proofs::Views::view_of_has_any, mw_rules::proofs::Views::view_of_count))]
fn forms_of_items_answer(alloc: Global) -> Result<bool, Memory> {
    Ok(
        holds(Rule::HasAll(List::new(alloc)))
            && !holds(Rule::HasAny(List::new(alloc)))
            && holds(Rule::HasAll(two(alloc, 1, 2)?))
            && !holds(Rule::HasAll(two(alloc, 1, 0)?))
            && holds(Rule::HasAny(two(alloc, 0, 1)?))
            && !holds(Rule::HasAny(two(alloc, 0, 0)?))
            && holds(Rule::Count {
                items: two(alloc, 1, 2)?,
                at_least: 3,
            })
            && !holds(Rule::Count {
                items: two(alloc, 1, 2)?,
                at_least: 4,
            }),
    )
}

#[test]
fn forms_of_items_answer_at_their_edges(rt: HostRuntime) -> Result<(), Fail> {
    assert!(rt; forms_of_items_answer(rt.alloc())?);
    Ok(())
}

/// Whether the rules of no rules and of two rules do.
#[tactic(auto, using(mw_rules::proofs::Views::view_of_and, mw_rules::proofs::Views::view_of_or, mw_rules::proofs::Views::view_of_always, mw_rules::proofs::Views::view_of_never))]
fn forms_of_rules_answer(alloc: Global) -> Result<bool, Memory> {
    Ok(
        holds(Rule::And(List::new(alloc)))
            && !holds(Rule::Or(List::new(alloc)))
            && !holds(Rule::And(both(alloc, Rule::Always, Rule::Never)?))
            && holds(Rule::And(both(alloc, Rule::Always, Rule::Always)?))
            && holds(Rule::Or(both(alloc, Rule::Never, Rule::Always)?))
            && !holds(Rule::Or(both(alloc, Rule::Never, Rule::Never)?)),
    )
}

#[test]
fn forms_of_rules_answer_at_their_edges(rt: HostRuntime) -> Result<(), Fail> {
    assert!(rt; forms_of_rules_answer(rt.alloc())?);
    Ok(())
}

/// Whether the rule holds where there is nothing, counted.
fn counted<L: Ledger>(blank: Blank, rule: &Rule) -> bool
    requires name { blank.name ≡ L.name }
    requires parts { (blank.parts ≡ L.parts) × (blank.parts ≡ 1) }
    requires within { IsWithin 0 0 (view rule.now) }
{
    let mut steps = Steps::<L>::new(blank);
    eval_counted(rule, &[], &[], &mut steps)
}

/// The same, with a counter of its own.
fn answer_counted(rule: &Rule) -> bool
    requires { IsWithin 0 0 (view rule.now) }
{
    counted::<Brand>(Blank::new(1), rule)
}

#[test]
#[tactic(auto, using(mw_rules::proofs::Views::view_of_always, mw_rules::proofs::Views::view_of_never))]
fn a_counted_rule_answers_as_ever(rt: HostRuntime) {
    assert!(rt; answer_counted(&Rule::Always) && !answer_counted(&Rule::Never));
}

/// One rule, under the number 0.
#[derive(Drop)]
struct OneRule {
    rule: Rule,
    named: Named,
}

impl Ruling for OneRule {
    ghost stands_for = { λ one rules. (rules ≡ view one.rule ∷ [])
        × AreNames (view one.rule) one.named.items one.named.places };

    fn count(&self) -> u32 {
        1
    }

    fn ask<L: Ledger>(
        &self,
        _number: u32,
        counts: &[u32],
        places: &[bool],
        steps: &mut Steps<L>,
    ) -> bool {
        eval_counted(&self.rule, counts, places, steps)
    }

    fn named(&self, _number: u32) -> &Named {
        &self.named
    }
}

/// A rule that names items 2 and 0, item 2 again, and place 1.
#[tactic(auto, using(mw_rules::proofs::Views::view_of_has_all, mw_rules::proofs::Views::view_of_has, mw_rules::proofs::Views::view_of_can_reach, mw_rules::proofs::Views::view_of_and))]
fn naming_rule(alloc: Global) -> Result<Rule, Memory> {
    let all = Rule::HasAll(two(alloc, 2, 0)?);
    let has = Rule::Has { item: 2, count: 3 };
    let inner = Rule::And(both(alloc, has, Rule::CanReach { place: 1 })?);
    Ok(Rule::Or(both(alloc, all, inner)?))
}

/// That rule with what it names.
fn one_rule(alloc: Global) -> Result<OneRule, Memory> {
    let rule = naming_rule(alloc)?;
    let named = Named::of(alloc, &rule)?;
    Ok(OneRule { rule, named })
}

/// Whether there is one rule, and what is named is each item once, and the place.
fn is_told(one: &OneRule) -> bool {
    one.count() == 1
        && one.named.items.as_slice() == [0, 2].as_slice()
        && one.named.places.as_slice() == [1].as_slice()
}

#[test]
fn one_rule_tells_its_count_and_its_names(rt: HostRuntime) -> Result<(), Fail> {
    assert!(rt; is_told(&one_rule(rt.alloc())?));
    Ok(())
}

ghost use Rattle.std.specs.Prelude.{◌≡◌, [], ◌∷◌, ◌++◌, OnOk};
ghost use Rattle.mw_rules.specs.Names.{items_in, items_in_all, places_in, places_in_all};
ghost use Rattle.mw_rules.specs.View.{view, rules_view};

use crate::rule::Rule;
use mw_base::Memory;

/// Adds the items in the rule, in its order.
#[cycle(gather_items)]
pub(crate) fn gather_items(rule: &Rule, into: &mut Vec<u32>) -> Result<(), Memory>
    ensures { OnOk result (into.new.items ≡ into.old.items ++ items_in (view rule.now)) }
{
    match rule {
        Rule::Always => Ok(()),
        Rule::Never => Ok(()),
        Rule::Has { item, count: _ } => add_one(*item, into),
        Rule::HasAll(items) => add_all(items.as_slice(), into),
        Rule::HasAny(items) => add_all(items.as_slice(), into),
        Rule::Count { items, at_least: _ } => add_all(items.as_slice(), into),
        Rule::CanReach { place: _ } => Ok(()),
        Rule::And(rules) => gather_items_of(rules.as_slice(), into),
        Rule::Or(rules) => gather_items_of(rules.as_slice(), into),
    }
}

/// Adds the items in the rules, in their order.
#[cycle(gather_items)]
fn gather_items_of(rules: &[Rule], into: &mut Vec<u32>) -> Result<(), Memory>
    ensures { OnOk result (into.new.items ≡ into.old.items ++ items_in_all (rules_view rules.now)) }
{
    for rule in rules {
        gather_items(rule, into)?;
    }
    Ok(())
}

/// Adds the places in the rule, in its order.
#[cycle(gather_places)]
pub(crate) fn gather_places(rule: &Rule, into: &mut Vec<u32>) -> Result<(), Memory>
    ensures { OnOk result (into.new.items ≡ into.old.items ++ places_in (view rule.now)) }
{
    match rule {
        Rule::CanReach { place } => add_one(*place, into),
        Rule::And(rules) => gather_places_of(rules.as_slice(), into),
        Rule::Or(rules) => gather_places_of(rules.as_slice(), into),
        Rule::Always => Ok(()),
        Rule::Never => Ok(()),
        Rule::Has { item: _, count: _ } => Ok(()),
        Rule::HasAll(_) => Ok(()),
        Rule::HasAny(_) => Ok(()),
        Rule::Count {
            items: _,
            at_least: _,
        } => Ok(()),
    }
}

/// Adds the places in the rules, in their order.
#[cycle(gather_places)]
fn gather_places_of(rules: &[Rule], into: &mut Vec<u32>) -> Result<(), Memory>
    ensures { OnOk result (into.new.items ≡ into.old.items
        ++ places_in_all (rules_view rules.now)) }
{
    for rule in rules {
        gather_places(rule, into)?;
    }
    Ok(())
}

/// Adds a number.
fn add_one(number: u32, into: &mut Vec<u32>) -> Result<(), Memory>
    ensures { OnOk result (into.new.items ≡ into.old.items ++ number ∷ []) }
{
    into.push(number)?;
    Ok(())
}

/// Adds numbers.
fn add_all(numbers: &[u32], into: &mut Vec<u32>) -> Result<(), Memory>
    ensures { OnOk result (into.new.items ≡ into.old.items ++ numbers.now) }
{
    into.extend_from_slice(numbers)?;
    Ok(())
}

ghost use Rattle.std.specs.Prelude.{◌≡◌, ◌<◌, length, All, nat_le};
ghost use Rattle.std.specs.List.{list_all, list_any};
ghost use Rattle.mw_rules.specs.Rule.{IsWithin, AreWithin};
ghost use Rattle.mw_rules.specs.Holds.{bag_of, places_of, has_one, total, holds, all_hold, some_holds};
ghost use Rattle.mw_rules.specs.View.{view, rules_view};

use crate::rule::Rule;

/// Whether the rule holds for these counts of the slot's items and these flags of its places.
/// Each number in the rule is within the slices. It takes no memory.
#[cycle(eval)]
pub fn eval(rule: &Rule, counts: &[u32], places: &[bool]) -> bool
    requires { IsWithin (length counts.now) (length places.now) (view rule.now) }
    ensures { result ≡ holds (view rule.now) (bag_of counts.now) (places_of places.now) }
{
    match rule {
        Rule::Always => true,
        Rule::Never => false,
        Rule::Has { item, count } => *count <= counts[*item as usize],
        Rule::HasAll(items) => has_all(items.as_slice(), counts),
        Rule::HasAny(items) => has_any(items.as_slice(), counts),
        Rule::Count { items, at_least } => has_count(items.as_slice(), *at_least, counts),
        Rule::CanReach { place } => places[*place as usize],
        Rule::And(rules) => eval_all(rules.as_slice(), counts, places),
        Rule::Or(rules) => eval_some(rules.as_slice(), counts, places),
    }
}

/// Whether all of the rules hold.
#[cycle(eval)]
fn eval_all(rules: &[Rule], counts: &[u32], places: &[bool]) -> bool
    requires { AreWithin (length counts.now) (length places.now) (rules_view rules.now) }
    ensures { result ≡ all_hold (rules_view rules.now) (bag_of counts.now) (places_of places.now) }
{
    for rule in rules {
        if !eval(rule, counts, places) {
            return false;
        }
    }
    true
}

/// Whether some of the rules hold.
#[cycle(eval)]
fn eval_some(rules: &[Rule], counts: &[u32], places: &[bool]) -> bool
    requires { AreWithin (length counts.now) (length places.now) (rules_view rules.now) }
    ensures { result ≡ some_holds (rules_view rules.now) (bag_of counts.now)
        (places_of places.now) }
{
    for rule in rules {
        if eval(rule, counts, places) {
            return true;
        }
    }
    false
}

/// Whether there is one of each of the items.
fn has_all(items: &[u32], counts: &[u32]) -> bool
    requires { All (λ i. i < length counts.now) items.now }
    ensures { result ≡ list_all (has_one (bag_of counts.now)) items.now }
{
    for &item in items {
        if counts[item as usize] == 0 {
            return false;
        }
    }
    true
}

/// Whether there is one of some of the items.
fn has_any(items: &[u32], counts: &[u32]) -> bool
    requires { All (λ i. i < length counts.now) items.now }
    ensures { result ≡ list_any (has_one (bag_of counts.now)) items.now }
{
    for &item in items {
        if counts[item as usize] != 0 {
            return true;
        }
    }
    false
}

/// Whether the counts of the items add up to so many. What is still missing falls with each item, so
/// no sum can pass the range.
fn has_count(items: &[u32], at_least: u32, counts: &[u32]) -> bool
    requires { All (λ i. i < length counts.now) items.now }
    ensures { result ≡ nat_le at_least (total (bag_of counts.now) items.now) }
{
    let mut missing = at_least;
    for &item in items {
        missing = missing.saturating_sub(counts[item as usize]);
    }
    missing == 0
}

ghost use Rattle.std.specs.Prelude.{◌≡◌, [], Result, map};
ghost use Rattle.mw_json.specs.Grammar.{Breach, Gives, GivesBy};
ghost use Rattle.mw_rules.specs.Names.{is_among as is_among_items};
ghost use Rattle.mw_rules.specs.Rule as plain;
ghost use Rattle.mw_rules.specs.View.{view as rule_view};
ghost use Rattle.mw_tables.specs.Raw.{has, has_all, has_any, has_count, reach_region, reach_location};
ghost use Rattle.mw_tables.specs.RawView.{raw_view, raw_rules_view};
ghost use Rattle.mw_tables.specs.RuleNames.{is_new, rule_named, rules_under, listed_item, listed_items, location_place};

use crate::item_names::{item_in, judge_progression, region_in, rule_item_in};
use crate::judge::{judge, known};
use crate::named::NamedRule;
use crate::raw_rule::RawRule;
use crate::tables::Tables;
use mw_base::{List, Text};
use mw_json::{Kind, Refusal, at_index, at_name};
use mw_rules::Rule;
use std::alloc::Global;

fn is_among(items: &[u32], item: u32) -> bool
    ensures { result ≡ is_among_items items.now item }
{
    for other in items {
        if *other == item {
            return true;
        }
    }
    false
}

fn judge_once(alloc: Global, before: &[u32], item: u32) -> Result<(), Refusal>
    ensures { Gives result (is_new before.now item) }
{
    judge(alloc, !is_among(before, item), Kind::DuplicateName)
}

#[tactic(auto, unfolding(crate::specs::RuleNames::listed_item))]
fn listed_item_in(
    alloc: Global,
    tables: &Tables,
    before: &[u32],
    name: &str,
) -> Result<u32, Refusal>
    ensures { Gives result (listed_item tables.now before.now name.now) }
{
    let item = item_in(alloc, tables, name)?;
    judge_once(alloc, before, item)?;
    judge_progression(alloc, tables, item)?;
    Ok(item)
}

fn listed_items_in(alloc: Global, tables: &Tables, names: &[Text]) -> Result<List<u32>, Refusal>
    ensures { Gives result (listed_items tables.now [] 0 names.now) }
{
    let mut items = List::new(alloc);
    for (i, name) in names.iter().enumerate() {
        let item = listed_item_in(alloc, tables, items.as_slice(), name.as_str());
        let item = at_index(item, i as u64)?;
        items.push(item)?;
    }
    Ok(items)
}

/// A location's place comes after those of the regions.
#[tactic(auto, unfolding(crate::specs::RuleNames::location_place))]
fn location_place_in(alloc: Global, tables: &Tables, name: &str) -> Result<u32, Refusal>
    ensures { Gives result (location_place tables.now name.now) }
{
    known(alloc, tables.location_place(name))
}

fn has_in(alloc: Global, tables: &Tables, name: &str, count: u32) -> Result<Rule, Refusal>
    ensures { GivesBy rule_view result (rule_named tables.now (has name.now count)) }
{
    let item = at_name(alloc, rule_item_in(alloc, tables, name), "has")?;
    Ok(Rule::Has { item, count })
}

fn has_all_in(alloc: Global, tables: &Tables, names: &[Text]) -> Result<Rule, Refusal>
    ensures { GivesBy rule_view result (rule_named tables.now (has_all names.now)) }
{
    let items = at_name(alloc, listed_items_in(alloc, tables, names), "has_all")?;
    Ok(Rule::HasAll(items))
}

fn has_any_in(alloc: Global, tables: &Tables, names: &[Text]) -> Result<Rule, Refusal>
    ensures { GivesBy rule_view result (rule_named tables.now (has_any names.now)) }
{
    let items = at_name(alloc, listed_items_in(alloc, tables, names), "has_any")?;
    Ok(Rule::HasAny(items))
}

fn count_in(alloc: Global, tables: &Tables, names: &[Text], at_least: u32) -> Result<Rule, Refusal>
    ensures { GivesBy rule_view result (rule_named tables.now (has_count names.now at_least)) }
{
    let items = at_name(alloc, listed_items_in(alloc, tables, names), "count")?;
    Ok(Rule::Count { items, at_least })
}

fn reach_region_in(alloc: Global, tables: &Tables, name: &str) -> Result<Rule, Refusal>
    ensures { GivesBy rule_view result (rule_named tables.now (reach_region name.now)) }
{
    let place = at_name(alloc, region_in(alloc, tables, name), "region");
    let place = at_name(alloc, place, "can_reach")?;
    Ok(Rule::CanReach { place })
}

fn reach_location_in(alloc: Global, tables: &Tables, name: &str) -> Result<Rule, Refusal>
    ensures { GivesBy rule_view result (rule_named tables.now (reach_location name.now)) }
{
    let place = at_name(alloc, location_place_in(alloc, tables, name), "location");
    let place = at_name(alloc, place, "can_reach")?;
    Ok(Rule::CanReach { place })
}

/// The answer for a rule, seen as what it stands for.
fn named(answer: Result<Rule, Refusal>) -> Result<NamedRule, Refusal>
    ensures { (read : Result plain.Rule Breach) → GivesBy rule_view answer read
        → Gives result read }
{
    Ok(NamedRule { rule: answer? })
}

/// A rule with its names resolved.
pub(crate) fn named_rule_in(
    alloc: Global,
    tables: &Tables,
    rule: &RawRule,
) -> Result<NamedRule, Refusal>
    ensures { Gives result (rule_named tables.now (raw_view rule.now)) }
{
    named(rule_in(alloc, tables, rule))
}

#[cycle(named)]
fn rule_in(alloc: Global, tables: &Tables, rule: &RawRule) -> Result<Rule, Refusal>
    ensures { GivesBy rule_view result (rule_named tables.now (raw_view rule.now)) }
{
    match rule {
        RawRule::Always => Ok(Rule::Always),
        RawRule::Never => Ok(Rule::Never),
        RawRule::Has { item, count } => has_in(alloc, tables, item.as_str(), *count),
        RawRule::HasAll(items) => has_all_in(alloc, tables, items.as_slice()),
        RawRule::HasAny(items) => has_any_in(alloc, tables, items.as_slice()),
        RawRule::Count { items, at_least } => {
            count_in(alloc, tables, items.as_slice(), *at_least)
        }
        RawRule::Region(name) => reach_region_in(alloc, tables, name.as_str()),
        RawRule::Location(name) => reach_location_in(alloc, tables, name.as_str()),
        RawRule::And(rules) => Ok(Rule::And(rules_in(alloc, tables, rules.as_slice(), "and")?)),
        RawRule::Or(rules) => Ok(Rule::Or(rules_in(alloc, tables, rules.as_slice(), "or")?)),
    }
}

/// The rules that stand under a name, resolved.
#[cycle(named)]
fn rules_in(
    alloc: Global,
    tables: &Tables,
    rules: &[RawRule],
    name: &str,
) -> Result<List<Rule>, Refusal>
    ensures { GivesBy (map rule_view) result
        (rules_under name.now tables.now (raw_rules_view rules.now)) }
{
    let mut found = List::new(alloc);
    for (i, rule) in rules.iter().enumerate() {
        let rule = at_index(named(rule_in(alloc, tables, rule)), i as u64);
        let rule = at_name(alloc, rule, name)?;
        found.push(rule.rule)?;
    }
    Ok(found)
}

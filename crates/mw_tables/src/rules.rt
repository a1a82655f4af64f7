ghost use Rattle.std.specs.Prelude.{◌≡◌, map, option_map, nat_le};
ghost use Rattle.mw_json.specs.View.{view, items_view, members_view};
ghost use Rattle.mw_json.specs.Grammar.{GivesBy};
ghost use Rattle.mw_tables.specs.Raw.{nodes, nodes_of, depth, depth_of};
ghost use Rattle.mw_tables.specs.Sizes.{room_left};
ghost use Rattle.mw_tables.specs.RawView.{raw_view, raw_rules_view};
ghost use Rattle.mw_tables.specs.RuleShape.{form_at, rules_under as rules_under_name, rules_at, rules_from, sized as sized_rule, rule_at};

use crate::raw_rule::RawRule;
use crate::rule_forms::leaf_in;
use mw_base::List;
use mw_json::{Kind, Member, Refusal, Tree, at_index_seen, at_name_seen, refuse, refuse_other};
use std::alloc::Global;

/// A rule of any size.
#[cycle(form)]
fn form_of(alloc: Global, tree: &Tree) -> Result<RawRule, Refusal>
    ensures { GivesBy raw_view result (form_at (view tree.now)) }
{
    match tree {
        Tree::Flag(true) => Ok(RawRule::Always),
        Tree::Flag(false) => Ok(RawRule::Never),
        Tree::Members(members) => {
            let members = members.as_slice();
            if let Some(rule) = leaf_in(alloc, members)? {
                return Ok(rule);
            }
            if let Some(rules) = rules_under(alloc, members, "and")? {
                return Ok(RawRule::And(rules));
            }
            match rules_under(alloc, members, "or")? {
                Some(rules) => Ok(RawRule::Or(rules)),
                None => refuse(alloc, Kind::WrongKind),
            }
        }
        _ => refuse_other(alloc, tree),
    }
}

/// The rules under a name, if it is there.
#[cycle(form)]
fn rules_under(
    alloc: Global,
    members: &[Member],
    name: &str,
) -> Result<Option<List<RawRule>>, Refusal>
    ensures { GivesBy (option_map (map raw_view)) result
        (rules_under_name name.now (members_view members.now)) }
{
    for member in members {
        if member.name.as_str() == name {
            let rules = at_name_seen(alloc, rules_of(alloc, &member.value), name)?;
            return Ok(Some(rules));
        }
    }
    Ok(None)
}

#[cycle(form)]
fn rules_of(alloc: Global, tree: &Tree) -> Result<List<RawRule>, Refusal>
    ensures { GivesBy (map raw_view) result (rules_at (view tree.now)) }
{
    match tree {
        Tree::Many(items) => rules_in(alloc, items.as_slice()),
        _ => refuse_other(alloc, tree),
    }
}

#[cycle(form)]
fn rules_in(alloc: Global, items: &[Tree]) -> Result<List<RawRule>, Refusal>
    ensures { GivesBy (map raw_view) result (rules_from 0 (items_view items.now)) }
{
    let mut rules = List::new(alloc);
    for (i, item) in items.iter().enumerate() {
        let rule = at_index_seen(form_of(alloc, item), i as u64)?;
        rules.push(rule)?;
    }
    Ok(rules)
}

/// The room for forms that is left after the rule; None where there isn't enough.
#[cycle(room)]
fn room_after(rule: &RawRule, room: u32) -> Option<u32>
    ensures { result ≡ room_left room (nodes (raw_view rule.now)) }
{
    if room == 0 {
        return None;
    }
    match rule {
        RawRule::And(rules) => room_after_all(rules.as_slice(), room - 1),
        RawRule::Or(rules) => room_after_all(rules.as_slice(), room - 1),
        _ => Some(room - 1),
    }
}

#[cycle(room)]
fn room_after_all(rules: &[RawRule], room: u32) -> Option<u32>
    ensures { result ≡ room_left room (nodes_of (raw_rules_view rules.now)) }
{
    let mut left = room;
    for rule in rules {
        left = room_after(rule, left)?;
    }
    Some(left)
}

/// Whether the forms of a rule nest at most so deep.
#[cycle(shallow)]
fn is_shallow(rule: &RawRule, most: u32) -> bool
    ensures { result ≡ nat_le (depth (raw_view rule.now)) most }
{
    if most == 0 {
        return false;
    }
    match rule {
        RawRule::And(rules) => are_shallow(rules.as_slice(), most - 1),
        RawRule::Or(rules) => are_shallow(rules.as_slice(), most - 1),
        _ => true,
    }
}

#[cycle(shallow)]
fn are_shallow(rules: &[RawRule], most: u32) -> bool
    ensures { result ≡ nat_le (depth_of (raw_rules_view rules.now)) most }
{
    for rule in rules {
        if !is_shallow(rule, most) {
            return false;
        }
    }
    true
}

/// A rule of at most 64 forms, at most 16 deep.
fn sized(alloc: Global, rule: RawRule) -> Result<RawRule, Refusal>
    ensures { GivesBy raw_view result (sized_rule (raw_view rule)) }
{
    if room_after(&rule, 64).is_some() && is_shallow(&rule, 16) {
        Ok(rule)
    } else {
        refuse(alloc, Kind::RuleTooLarge)
    }
}

/// A rule.
#[tactic(auto, unfolding(crate::specs::RuleShape::rule_at))]
pub(crate) fn rule_of(alloc: Global, tree: &Tree) -> Result<RawRule, Refusal>
    ensures { GivesBy raw_view result (rule_at (view tree.now)) }
{
    let rule = form_of(alloc, tree)?;
    sized(alloc, rule)
}

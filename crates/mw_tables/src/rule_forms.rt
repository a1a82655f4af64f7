ghost use Rattle.std.specs.Prelude.{option_map};
ghost use Rattle.mw_json.specs.View.{view, members_view};
ghost use Rattle.mw_json.specs.Grammar.{Gives, GivesBy};
ghost use Rattle.mw_tables.specs.RawView.{raw_view};
ghost use Rattle.mw_tables.specs.RuleShape.{names_at, has_at, has_all_at, has_any_at, has_count_at, region_at, location_at, place_at, reach_at, leaf_in as leaf_in_members};

use crate::parts::{count_in, has_member, long_name_in};
use crate::raw_rule::RawRule;
use mw_base::{List, Text};
use mw_json::{
    Kind, Member, Refusal, Tree, field_in, field_or, field_seen, list, object_of, refuse,
};
use std::alloc::Global;

/// At most 64 names.
fn names_in(alloc: Global, tree: &Tree) -> Result<List<Text>, Refusal>
    ensures { Gives result (names_at (view tree.now)) }
{
    list(alloc, tree, 64, long_name_in)
}

#[tactic(auto, unfolding(crate::specs::RuleShape::has_at))]
fn has_in(alloc: Global, members: &[Member]) -> Result<RawRule, Refusal>
    ensures { GivesBy raw_view result (has_at (members_view members.now)) }
{
    let item = field_in(alloc, members, "has", long_name_in)?;
    let count = field_or(alloc, members, "count", 1, count_in)?;
    Ok(RawRule::Has { item, count })
}

#[tactic(auto, unfolding(crate::specs::RuleShape::has_all_at))]
fn has_all_in(alloc: Global, members: &[Member]) -> Result<RawRule, Refusal>
    ensures { GivesBy raw_view result (has_all_at (members_view members.now)) }
{
    Ok(RawRule::HasAll(field_in(alloc, members, "has_all", names_in)?))
}

#[tactic(auto, unfolding(crate::specs::RuleShape::has_any_at))]
fn has_any_in(alloc: Global, members: &[Member]) -> Result<RawRule, Refusal>
    ensures { GivesBy raw_view result (has_any_at (members_view members.now)) }
{
    Ok(RawRule::HasAny(field_in(alloc, members, "has_any", names_in)?))
}

#[tactic(auto, unfolding(crate::specs::RuleShape::has_count_at))]
fn has_count_in(alloc: Global, members: &[Member]) -> Result<RawRule, Refusal>
    ensures { GivesBy raw_view result (has_count_at (members_view members.now)) }
{
    let items = field_in(alloc, members, "count", names_in)?;
    let at_least = field_in(alloc, members, "at_least", count_in)?;
    Ok(RawRule::Count { items, at_least })
}

#[tactic(auto, unfolding(crate::specs::RuleShape::region_at))]
fn region_in(alloc: Global, members: &[Member]) -> Result<RawRule, Refusal>
    ensures { GivesBy raw_view result (region_at (members_view members.now)) }
{
    Ok(RawRule::Region(field_in(alloc, members, "region", long_name_in)?))
}

#[tactic(auto, unfolding(crate::specs::RuleShape::location_at))]
fn location_in(alloc: Global, members: &[Member]) -> Result<RawRule, Refusal>
    ensures { GivesBy raw_view result (location_at (members_view members.now)) }
{
    Ok(RawRule::Location(field_in(alloc, members, "location", long_name_in)?))
}

/// A region, or else a location.
#[tactic(auto, unfolding(crate::specs::RuleShape::place_at))]
fn place_of(alloc: Global, tree: &Tree) -> Result<RawRule, Refusal>
    ensures { GivesBy raw_view result (place_at (view tree.now)) }
{
    let members = object_of(alloc, tree)?;
    if has_member(members, "region") {
        return region_in(alloc, members);
    }
    if has_member(members, "location") {
        return location_in(alloc, members);
    }
    refuse(alloc, Kind::WrongKind)
}

fn reach_in(alloc: Global, members: &[Member]) -> Result<RawRule, Refusal>
    ensures { GivesBy raw_view result (reach_at (members_view members.now)) }
{
    field_seen(alloc, members, "can_reach", place_of)
}

/// The first of the forms without inner rules that the object has, if it has one.
pub(crate) fn leaf_in(alloc: Global, members: &[Member]) -> Result<Option<RawRule>, Refusal>
    ensures { GivesBy (option_map raw_view) result (leaf_in_members (members_view members.now)) }
{
    if has_member(members, "has") {
        return Ok(Some(has_in(alloc, members)?));
    }
    if has_member(members, "has_all") {
        return Ok(Some(has_all_in(alloc, members)?));
    }
    if has_member(members, "has_any") {
        return Ok(Some(has_any_in(alloc, members)?));
    }
    if has_member(members, "count") && has_member(members, "at_least") {
        return Ok(Some(has_count_in(alloc, members)?));
    }
    if has_member(members, "can_reach") {
        return Ok(Some(reach_in(alloc, members)?));
    }
    Ok(None)
}

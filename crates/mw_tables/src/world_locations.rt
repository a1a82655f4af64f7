ghost use Rattle.mw_json.specs.View.{view, members_view};
ghost use Rattle.mw_json.specs.Grammar.{Gives, other_kind};
ghost use Rattle.mw_json.specs.Parts.{id_at, null_or_at};
ghost use Rattle.mw_tables.specs.WorldShape.{kind_at, event_in as event_in_members, location_at};

use crate::parts::long_name_in;
use crate::raw::RawLocation;
use crate::rules::rule_of;
use mw_base::{LocId, Text};
use mw_json::{
    Kind, Member, Refusal, Tree, field_in, field_or, field_seen, location_id_in, null_or,
    object_of, refuse, refuse_other, text_of,
};
use mw_multi::LocKind;
use std::alloc::Global;

/// How a location is filled, by its word.
#[tactic(auto, unfolding(crate::specs::WorldShape::kind_at))]
fn kind_in(alloc: Global, tree: &Tree) -> Result<LocKind, Refusal>
    ensures { Gives result (kind_at (view tree.now)) }
{
    match text_of(alloc, tree)? {
        "default" => Ok(LocKind::Default),
        "priority" => Ok(LocKind::Priority),
        "excluded" => Ok(LocKind::Excluded),
        _ => refuse(alloc, Kind::WrongKind),
    }
}

/// A location's number, null at an event.
fn id_of(alloc: Global, tree: &Tree) -> Result<Option<LocId>, Refusal>
    ensures { Gives result (null_or_at id_at (view tree.now)) }
{
    null_or(alloc, tree, |a, t| location_id_in(a, t))
}

/// There is no event where there is an id.
fn no_event_in(alloc: Global, tree: &Tree) -> Result<Option<Text>, Refusal>
    ensures { Gives result (other_kind (view tree.now)) }
{
    refuse_other(alloc, tree)
}

/// The event's name where there is no id; else there is no such member.
fn event_in(alloc: Global, members: &[Member], id: &Option<LocId>) -> Result<Option<Text>, Refusal>
    ensures { Gives result (event_in_members id.now (members_view members.now)) }
{
    match id {
        None => Ok(Some(field_in(alloc, members, "event", long_name_in)?)),
        Some(_) => field_or(alloc, members, "event", None, no_event_in),
    }
}

/// A location of a world.
#[tactic(auto, unfolding(crate::specs::WorldShape::location_at))]
pub(crate) fn location_of(alloc: Global, tree: &Tree) -> Result<RawLocation, Refusal>
    ensures { Gives result (location_at (view tree.now)) }
{
    let members = object_of(alloc, tree)?;
    let name = field_in(alloc, members, "name", long_name_in)?;
    let id = field_in(alloc, members, "id", id_of)?;
    let region = field_in(alloc, members, "region", long_name_in)?;
    let kind = field_or(alloc, members, "kind", LocKind::Default, kind_in)?;
    let rule = field_seen(alloc, members, "rule", rule_of)?;
    let event = event_in(alloc, members, &id)?;
    Ok(RawLocation {
        name,
        id,
        region,
        kind,
        rule,
        event,
    })
}

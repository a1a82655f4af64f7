ghost use Rattle.std.specs.Prelude.{◌≡◌, IfOk};
ghost use Rattle.mw_model.specs.Texts.{has_text};
ghost use Rattle.mw_protocol.specs.Further.{others};
ghost use Rattle.mw_json.specs.View.{member_view, members_view};
ghost use Rattle.mw_json.specs.Sets.{set_names};
ghost use Rattle.mw_packets_in.specs.Kept.{bounce_names, get_names};
ghost use Rattle.mw_packets_in.specs.Own.{own_names};

use crate::row::Row;
use mw_base::{List, Memory};
use mw_json::{Member, copy_member};
use std::alloc::Global;

fn is_bounce_name(name: &str) -> bool
    ensures { result ≡ has_text bounce_names name.now }
{
    "cmd" == name || "games" == name || "tags" == name || "slots" == name
}

fn is_get_name(name: &str) -> bool
    ensures { result ≡ has_text get_names name.now }
{
    "cmd" == name || "keys" == name
}

fn is_set_name(name: &str) -> bool
    ensures { result ≡ has_text set_names name.now }
{
    "cmd" == name
        || "key" == name
        || "default" == name
        || "want_reply" == name
        || "operations" == name
}

/// Whether a row has a member of this name, or it is the command.
fn is_own(row: Row, name: &str) -> bool
    ensures { result ≡ has_text (own_names row) name.now }
{
    match row {
        Row::Bounce => is_bounce_name(name),
        Row::Get => is_get_name(name),
        Row::Set => is_set_name(name),
    }
}

/// Whether a row has this member.
fn is_own_member(row: Row, member: &Member) -> bool
    ensures { result ≡ has_text (own_names row) (member_view member.now).0 }
{
    is_own(row, member.name.as_str())
}

/// Copies of a packet's further members: those that its row doesn't have.
pub(crate) fn further_of(
    alloc: Global,
    row: Row,
    members: &[Member],
) -> Result<List<Member>, Memory>
    ensures { IfOk result (λ ms. members_view ms
        ≡ others (own_names row) (members_view members.now)) }
{
    let mut found = List::new(alloc);
    for member in members {
        if is_own_member(row, member) {
            continue;
        }
        found.push(copy_member(alloc, member)?)?;
    }
    Ok(found)
}

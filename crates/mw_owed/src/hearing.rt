ghost use Rattle.std.specs.Prelude.{◌≡◌, ◌∷◌, [], OnOk, map, string_bytes};
ghost use Rattle.mw_model.specs.Texts.{has_text as has_text_lem};
ghost use Rattle.mw_protocol.specs.Heard.{hears as hears_lem, heard, heard_by, wants_no_text as wants_no_text_lem};
ghost use Rattle.mw_protocol.specs.Messages.{packet_text as packet_text_lem};
ghost use Rattle.mw_effects.specs.Views.{announced_view, audience_view};
ghost use Rattle.mw_owed.specs.Written.{all_behind};

use crate::telling::Telling;
use mw_base::{Memory, Text, has_text};
use mw_effects::{Audience, Member, is_named};
use mw_multidata::Multidata;
use std::alloc::Global;

/// Whether a member hears no print.
fn wants_no_text(member: &Member) -> bool
    ensures { result ≡ wants_no_text_lem member.now }
{
    has_text(member.tags.as_slice(), "NoText")
}

/// Whether a member watches a key.
fn watches(member: &Member, key: &Text) -> bool
    ensures { result ≡ has_text_lem member.now.keys key.now }
{
    has_text(member.keys.as_slice(), key.as_str())
}

/// Whether a member hears what is for an audience, which sent the packet or not.
pub(crate) fn hears(seed: &Multidata, audience: &Audience, sends: bool, member: &Member) -> bool
    ensures { result ≡ hears_lem seed.now (audience_view audience.now) sends member.now }
{
    match audience {
        Audience::Team(team) => !wants_no_text(member) && member.team == *team,
        Audience::Slots {
            team,
            finder,
            receiver,
        } => {
            !wants_no_text(member)
                && member.team == *team
                && (member.slot == *finder || seed.is_owner(*receiver, member.slot))
        }
        Audience::Sender => !wants_no_text(member) && sends,
        Audience::Watchers { key, replies } => sends && *replies || watches(member, key),
        Audience::Named { team, named } => member.team == *team && is_named(seed, named, member),
    }
}

/// Adds a packet to the text of a member's message, where the member hears it.
fn put_one(
    alloc: Global,
    out: &mut String,
    seed: &Multidata,
    telling: &mut Telling,
    sends: bool,
    member: &Member,
) -> Result<(), Memory>
    ensures same { telling.new ≡ telling.old }
    ensures put { OnOk result (string_bytes out.new ≡ all_behind (string_bytes out.old)
        (map packet_text_lem
        (heard seed.now (announced_view telling.old ∷ []) sends member.now))) }
{
    if hears(seed, telling.audience(), sends, member) {
        telling.put(alloc, out)?;
    }
    Ok(())
}

/// Adds the packets that a member hears.
fn put_for(
    alloc: Global,
    out: &mut String,
    seed: &Multidata,
    tellings: &mut Vec<Telling>,
    sends: bool,
    member: &Member,
) -> Result<(), Memory>
    ensures same { OnOk result (tellings.new.items ≡ tellings.old.items) }
    ensures put { OnOk result (string_bytes out.new ≡ all_behind (string_bytes out.old)
        (map packet_text_lem
        (heard seed.now (map announced_view tellings.old.items) sends member.now))) }
{
    for at in 0..tellings.len() {
        put_one(alloc, out, seed, &mut tellings[at], sends, member)?;
    }
    Ok(())
}

/// Adds the packets that a session hears, which is this member, if it is one. Each is written when
/// the first that hears it is met, whoever hears it later.
pub fn put_heard(
    alloc: Global,
    out: &mut String,
    seed: &Multidata,
    tellings: &mut Vec<Telling>,
    sends: bool,
    member: &Option<Member>,
) -> Result<(), Memory>
    ensures same { OnOk result (tellings.new.items ≡ tellings.old.items) }
    ensures put { OnOk result (string_bytes out.new ≡ all_behind (string_bytes out.old)
        (map packet_text_lem
        (heard_by seed.now (map announced_view tellings.old.items) sends member.now))) }
{
    match member {
        Some(member) => put_for(alloc, out, seed, tellings, sends, member),
        None => Ok(()),
    }
}

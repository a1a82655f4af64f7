ghost use Rattle.std.specs.Prelude.{◌≡◌, ◌∷◌, [], IfOk, map};
ghost use Rattle.std.specs.Option.{option_copied};
ghost use Rattle.mw_protocol.specs.Effects.{stranger_effect};
ghost use Rattle.mw_protocol.specs.Entering.{name_of as name_of_lem, parting as parting_lem, same_texts as same_texts_lem, tags_told as tags_told_lem, to_team as to_team_lem, updating as updating_lem};
ghost use Rattle.mw_protocol.specs.Messages as plain_answer;
ghost use Rattle.mw_protocol.specs.Packets as plain;
ghost use Rattle.mw_protocol.specs.Players.{connected_of};
ghost use Rattle.mw_protocol.specs.Prints as prints;
ghost use Rattle.mw_packets_out.specs.View.{packet_view};
ghost use Rattle.mw_effects.specs.Parts.{IsQuiet, standing_of};
ghost use Rattle.mw_effects.specs.Views.{announced_view, effect_view};

use crate::connect::{connect_errors, member_by};
use crate::people::connected;
use mw_answers::name_of;
use mw_base::{List, Memory, Text};
use mw_chat::{changed_tags, joined, left};
use mw_effects::{
    Announced, Audience, Effect, Member, Standing, announcing, answering, nothing, one_told, quiet,
    updated,
};
use mw_multidata::RoomTables;
use mw_packets_in::{Connect, ConnectUpdate};
use mw_packets_out::ServerPacket;
use std::alloc::Global;

/// A member's team is told that it joined.
fn joined_told(
    alloc: Global,
    tables: &RoomTables,
    member: &Member,
) -> Result<List<Announced>, Memory>
    ensures { IfOk result (λ ps. map announced_view ps ≡ to_team_lem member.now.team
        (prints.joined member.now.team member.now.slot member.now.tags
        (name_of_lem tables.now member.now.team member.now.slot)) ∷ []) }
{
    let name = name_of(tables, member.team, member.slot);
    let tags = member.tags.as_slice();
    let print = joined(alloc, member.team, member.slot, tags, name)?;
    one_told(alloc, Audience::Team(member.team), print)
}

/// The answer to a session that becomes a member.
fn welcome(
    alloc: Global,
    standing: &Standing,
    member: &Member,
) -> Result<List<ServerPacket>, Memory>
    ensures { IfOk result (λ ps. map packet_view ps ≡ plain_answer.connected
        (connected_of standing.now.log.seed (standing_of standing.now) member.now) ∷ []) }
{
    let mut answers = List::new(alloc);
    answers.push(ServerPacket::Connected(connected(alloc, standing, member)?))?;
    Ok(answers)
}

/// The effect of a Connect of a session that plays no slot.
pub fn joining(alloc: Global, standing: &Standing, fields: &Connect) -> Result<Effect, Memory>
    ensures quiet { IfOk result (λ e. IsQuiet e) }
    ensures is { IfOk result (λ e. effect_view e ≡ stranger_effect standing.now.log.seed
        (standing_of standing.now) (plain.connect fields.now)) }
{
    let seed = standing.seed();
    let Some(member) = member_by(alloc, seed, fields)? else {
        let errors = connect_errors(alloc, seed, fields)?;
        return answering(alloc, ServerPacket::ConnectionRefused { errors });
    };
    let prints = joined_told(alloc, standing.log.tables(), &member);
    match (prints, welcome(alloc, standing, &member)) {
        (Ok(prints), Ok(answers)) => Ok(quiet(alloc, answers, true, Some(member), prints)),
        _ => Err(Memory),
    }
}

/// Whether these are the same texts in the same order.
#[tactic(auto, using(crate::proofs::Tags::of_other_length))]
fn same_texts(first: &[Text], second: &[Text]) -> bool
    ensures { result ≡ same_texts_lem first.now second.now }
{
    if first.len() != second.len() {
        return false;
    }
    for (at, text) in first.iter().enumerate() {
        if text.as_str() != second[at].as_str() {
            return false;
        }
    }
    true
}

/// A member's team is told where its tags were others.
fn tags_told(
    alloc: Global,
    tables: &RoomTables,
    before: &[Text],
    member: &Member,
) -> Result<List<Announced>, Memory>
    ensures { IfOk result (λ ps. map announced_view ps
        ≡ tags_told_lem tables.now before.now member.now) }
{
    let tags = member.tags.as_slice();
    if same_texts(before, tags) {
        return Ok(List::new(alloc));
    }
    let name = name_of(tables, member.team, member.slot);
    let print = changed_tags(alloc, member.team, member.slot, tags, name)?;
    one_told(alloc, Audience::Team(member.team), print)
}

/// The effect of a ConnectUpdate.
pub fn updating(
    alloc: Global,
    tables: &RoomTables,
    member: &Member,
    update: &ConnectUpdate,
) -> Result<Effect, Memory>
    ensures quiet { IfOk result (λ e. IsQuiet e) }
    ensures is { IfOk result (λ e. effect_view e
        ≡ updating_lem tables.now member.now update.now) }
{
    let new = updated(alloc, member, update)?;
    let prints = tags_told(alloc, tables, member.tags.as_slice(), &new)?;
    let whole = new.mask != member.mask;
    Ok(quiet(alloc, List::new(alloc), whole, Some(new), prints))
}

/// A member's team is told that it left.
fn left_told(alloc: Global, tables: &RoomTables, member: &Member) -> Result<List<Announced>, Memory>
    ensures { IfOk result (λ ps. map announced_view ps ≡ to_team_lem member.now.team
        (prints.left member.now.team member.now.slot
        (name_of_lem tables.now member.now.team member.now.slot)) ∷ []) }
{
    let name = name_of(tables, member.team, member.slot);
    let print = left(alloc, member.team, member.slot, name)?;
    one_told(alloc, Audience::Team(member.team), print)
}

/// The effect of the end of a session, which was this member, if it was one.
pub fn parting(
    alloc: Global,
    tables: &RoomTables,
    member: Option<&Member>,
) -> Result<Effect, Memory>
    ensures quiet { IfOk result (λ e. IsQuiet e) }
    ensures is { IfOk result (λ e. effect_view e
        ≡ parting_lem tables.now (option_copied member.entry)) }
{
    match member {
        Some(member) => Ok(announcing(alloc, left_told(alloc, tables, member)?)),
        None => Ok(nothing(alloc)),
    }
}

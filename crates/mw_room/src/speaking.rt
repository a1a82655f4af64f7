ghost use Rattle.std.specs.Prelude.{◌≡◌, ◌∷◌, [], None, IfOk, IsTrue, map};
ghost use Rattle.mw_base.specs.Permissions.{permission_number};
ghost use Rattle.mw_model.specs.Statuses.{is_client_status};
ghost use Rattle.std.specs.Option.{option_to_list};
ghost use Rattle.mw_protocol.specs.Commands.{players_text as players_text_lem, where_new};
ghost use Rattle.mw_protocol.specs.Records as plain;
ghost use Rattle.mw_protocol.specs.Sayings as said;
ghost use Rattle.mw_protocol.specs.Sayings.{said_of};
ghost use Rattle.mw_protocol.specs.Standing.{status_in};
ghost use Rattle.mw_protocol.specs.Speaking.{announcing as announcing_lem, chatting as chatting_lem, giving as giving_lem, record_told, records_told as records_told_lem, saying as saying_lem, stating as stating_lem, where_allowed};
ghost use Rattle.mw_answers.specs.Present.{played_by};
ghost use Rattle.mw_chat.specs.View.{said_view};
ghost use Rattle.mw_records.specs.Records.{record_view};
ghost use Rattle.mw_effects.specs.Given.{IsGiven, asking, given_with};
ghost use Rattle.mw_room.specs.Answered.{IsAnswered};
ghost use Rattle.mw_room.specs.Known.{members_of};
ghost use Rattle.mw_effects.specs.Parts.{IsQuiet, standing_of};
ghost use Rattle.mw_effects.specs.Views.{announced_view, effect_view, IsEffect};
ghost use Rattle.mw_room.specs.Views.{session_view};

use crate::hinting::wanting;
use crate::session::Session;
use mw_answers::{
    checked_text, help_text, missing_text, name_of, players_text, points_text, remaining_text,
};
use mw_base::{ClientStatus, List, Memory, Permission, SlotId, TeamId, Text};
use mw_chat::{Said, chatted, collected, parse_say, reached_goal, released};
use mw_effects::{
    Announced, Audience, Effect, Given, Giving, Member, SlotStatus, Standing, Told, announcing,
    at_goal, given_by, is_allowed, nothing, one_told, telling,
};
use mw_hints::{Wanted, cost};
use mw_multidata::RoomTables;
use mw_owed::points_of;
use mw_records::Record;
use std::alloc::Global;

/// What a team is told of a record, if it is told.
fn print_of(alloc: Global, tables: &RoomTables, entry: &Record) -> Result<Option<Announced>, Memory>
    ensures { IfOk result (λ o. map announced_view (option_to_list o)
        ≡ record_told tables.now (record_view entry.now)) }
{
    let (team, print) = match entry {
        Record::Release { team, slot } => {
            (
                *team,
                released(alloc, *team, *slot, name_of(tables, *team, *slot))?,
            )
        }
        Record::Collect { team, slot } => {
            (
                *team,
                collected(alloc, *team, *slot, name_of(tables, *team, *slot))?,
            )
        }
        Record::Status { team, slot, status } if status.get() == 30 => {
            (
                *team,
                reached_goal(alloc, *team, *slot, name_of(tables, *team, *slot))?,
            )
        }
        _ => return Ok(None),
    };
    let audience = Audience::Team(team);
    Ok(Some(Announced {
        audience,
        told: Told::Packet(print),
    }))
}

/// What teams are told of records.
fn records_told(
    alloc: Global,
    tables: &RoomTables,
    records: &[Record],
) -> Result<List<Announced>, Memory>
    ensures { IfOk result (λ ps. map announced_view ps
        ≡ records_told_lem tables.now (map record_view records.now)) }
{
    let mut prints = List::new(alloc);
    for entry in records {
        if let Some(announced) = print_of(alloc, tables, entry)? {
            prints.push(announced)?;
        }
    }
    Ok(prints)
}

/// The effect of records that teams are told of, and that come to these checks and this status.
fn told(
    alloc: Global,
    tables: &RoomTables,
    member: &Member,
    given: Given,
    status: Option<SlotStatus>,
) -> Result<Effect, Memory>
    ensures records { IfOk result (λ e. e.records ≡ given.records) }
    ensures team { IfOk result (λ e. e.team ≡ member.now.team) }
    ensures new { IfOk result (λ e. e.new ≡ given.new) }
    ensures status { IfOk result (λ e. e.status ≡ status) }
    ensures hints { IfOk result (λ e. e.hints ≡ []) }
    ensures payer { IfOk result (λ e. e.payer ≡ None) }
    ensures stored { IfOk result (λ e. e.stored ≡ None) }
    ensures is { IfOk result (λ e. effect_view e
        ≡ announcing_lem tables.now (map record_view given.records)) }
{
    let Given { records, new } = given;
    let prints = records_told(alloc, tables, records.as_slice())?;
    Ok(Effect {
        records,
        team: member.team,
        new,
        status,
        hints: List::new(alloc),
        payer: None,
        stored: None,
        answers: List::new(alloc),
        whole: false,
        member: None,
        announced: prints,
    })
}

/// What is given at the goal, where this is it.
fn given_at(
    alloc: Global,
    standing: &Standing,
    member: &Member,
    status: u8,
) -> Result<Given, Memory>
    ensures given { IfOk result (λ g. IsGiven standing.now member.now.team g) }
    ensures records { IfOk result (λ g. map record_view g.records ≡ given_with status
        standing.now.log.seed (standing_of standing.now) member.now.team member.now.slot) }
{
    if status != 30 {
        return Ok(Given {
            records: List::new(alloc),
            new: List::new(alloc),
        });
    }
    at_goal(alloc, standing, member)
}

/// A record before others.
fn before(alloc: Global, first: Record, others: List<Record>) -> Result<List<Record>, Memory>
    ensures { IfOk result (λ rs. map record_view rs
        ≡ record_view first ∷ map record_view others) }
{
    let mut records = Vec::new(alloc);
    records.push(first)?;
    records.append(&mut others.into_vec())?;
    Ok(List::from_vec(records))
}

/// The effect of a new status of the member's slot.
pub fn stating(
    alloc: Global,
    standing: &Standing,
    member: &Member,
    status: u8,
) -> Result<Effect, Memory>
    requires { IsTrue (is_client_status status) }
    ensures { IfOk result (λ e. IsEffect e standing.now (stating_lem standing.now.log.seed
        (standing_of standing.now) member.now status)) }
{
    let now = standing.status_of(member.team, member.slot);
    if now == 30 || now == status {
        let effect = nothing(alloc);
        return Ok(effect);
    }
    let effect = stated(alloc, standing, member, status)?;
    Ok(effect)
}

/// The effect of another status of the member's slot, which hasn't reached its goal.
fn stated(alloc: Global, standing: &Standing, member: &Member, status: u8) -> Result<Effect, Memory>
    requires { IsTrue (is_client_status status) }
    ensures { IfOk result (λ e. IsEffect e standing.now (announcing_lem standing.now.log.seed
        (plain.status member.now.team member.now.slot status ∷ given_with status
        standing.now.log.seed (standing_of standing.now) member.now.team member.now.slot))) }
{
    let (team, slot) = (member.team, member.slot);
    let status = ClientStatus::new(status).unwrap();
    let Given { records, new } = given_at(alloc, standing, member, status.get())?;
    let entry = Record::Status { team, slot, status };
    let records = before(alloc, entry, records)?;
    let given = Given { records, new };
    let stated = Some(SlotStatus { team, slot, status });
    let effect = told(alloc, standing.log.tables(), member, given, stated)?;
    Ok(effect)
}

/// The effect of a text for all.
fn chatting(
    alloc: Global,
    tables: &RoomTables,
    member: &Member,
    text: &str,
) -> Result<Effect, Memory>
    ensures quiet { IfOk result (λ e. IsQuiet e) }
    ensures is { IfOk result (λ e. effect_view e ≡ chatting_lem tables.now member.now text.now) }
{
    let name = name_of(tables, member.team, member.slot);
    let print = chatted(alloc, member.team, member.slot, name, text)?;
    let prints = one_told(alloc, Audience::Team(member.team), print)?;
    Ok(announcing(alloc, prints))
}

/// The effect of a release or a collect by command.
fn giving(
    alloc: Global,
    standing: &Standing,
    permission: Permission,
    giving: Giving,
    member: &Member,
) -> Result<Effect, Memory>
    ensures { IfOk result (λ e. IsEffect e standing.now (where_allowed
        (permission_number permission)
        (status_in (standing_of standing.now) member.now.team member.now.slot)
        (giving_lem standing.now.log.seed (where_new standing.now.log.seed
        (standing_of standing.now) (asking giving member.now.team member.now.slot))))) }
{
    if !is_allowed(permission, standing.status_of(member.team, member.slot)) {
        let effect = telling(alloc, "not allowed")?;
        return Ok(effect);
    }
    let given = given_by(alloc, standing, giving, member)?;
    if given.records.len() == 0 {
        let effect = telling(alloc, "nothing left")?;
        return Ok(effect);
    }
    let effect = told(alloc, standing.log.tables(), member, given, None)?;
    Ok(effect)
}

/// The effect of a release by command.
fn releasing(alloc: Global, standing: &Standing, member: &Member) -> Result<Effect, Memory>
    ensures { IfOk result (λ e. IsEffect e standing.now (saying_lem standing.now.log.seed
        (standing_of standing.now) [] member.now said.release)) }
{
    let permission = standing.seed().server.release;
    giving(alloc, standing, permission, Giving::Release, member)
}

/// The effect of a collect by command.
fn collecting(alloc: Global, standing: &Standing, member: &Member) -> Result<Effect, Memory>
    ensures { IfOk result (λ e. IsEffect e standing.now (saying_lem standing.now.log.seed
        (standing_of standing.now) [] member.now said.collect)) }
{
    let permission = standing.seed().server.collect;
    giving(alloc, standing, permission, Giving::Collect, member)
}

/// The players of the open sessions, each a team and a slot.
fn players_in(alloc: Global, sessions: &[Session]) -> Result<List<(TeamId, SlotId)>, Memory>
    ensures { IfOk result (λ ps. ps
        ≡ map played_by (members_of (map session_view sessions.now))) }
{
    let mut players = List::new(alloc);
    for session in sessions {
        if let Some(member) = &session.member {
            players.push((member.team, member.slot))?;
        }
    }
    Ok(players)
}

/// Who plays in the member's team.
fn players(
    alloc: Global,
    tables: &RoomTables,
    sessions: &[Session],
    member: &Member,
) -> Result<Text, Memory>
    ensures { IfOk result (λ t. t ≡ players_text_lem tables.now member.now.team
        (members_of (map session_view sessions.now))) }
{
    let present = players_in(alloc, sessions)?;
    let text = players_text(alloc, tables, member.team, present.as_slice())?;
    Ok(text)
}

/// The effect of a command that asks what is left.
fn remaining(alloc: Global, standing: &Standing, member: &Member) -> Result<Effect, Memory>
    ensures quiet { IfOk result (λ e. IsQuiet e) }
    ensures is { IfOk result (λ e. effect_view e ≡ saying_lem standing.now.log.seed
        (standing_of standing.now) [] member.now said.remaining) }
{
    let permission = standing.seed().server.remaining;
    if !is_allowed(permission, standing.status_of(member.team, member.slot)) {
        return telling(alloc, "not allowed");
    }
    let text = remaining_text(alloc, &standing.log, member.team, member.slot)?;
    telling(alloc, text.as_str())
}

/// The effect of a command that asks what a hint costs.
fn priced(alloc: Global, standing: &Standing, member: &Member) -> Result<Effect, Memory>
    ensures quiet { IfOk result (λ e. IsQuiet e) }
    ensures is { IfOk result (λ e. effect_view e ≡ saying_lem standing.now.log.seed
        (standing_of standing.now) [] member.now (said.hint [])) }
{
    let price = cost(member.slot, &standing.log);
    let text = points_text(alloc, points_of(standing, member), price)?;
    telling(alloc, text.as_str())
}

/// The effect of a command that is answered by a text.
fn answered(
    alloc: Global,
    standing: &Standing,
    sessions: &[Session],
    member: &Member,
    said: &Said,
) -> Result<Effect, Memory>
    requires { IsAnswered (said_view said.now) }
    ensures quiet { IfOk result (λ e. IsQuiet e) }
    ensures is { IfOk result (λ e. effect_view e ≡ saying_lem standing.now.log.seed
        (standing_of standing.now) (members_of (map session_view sessions.now)) member.now
        (said_view said.now)) }
{
    let log = &standing.log;
    let tables = log.tables();
    let (team, slot) = (member.team, member.slot);
    match said {
        Said::Chat(text) => chatting(alloc, tables, member, text.as_str()),
        Said::Help => telling(alloc, help_text()),
        Said::Players => telling(alloc, players(alloc, tables, sessions, member)?.as_str()),
        Said::Missing => telling(alloc, missing_text(alloc, log, team, slot)?.as_str()),
        Said::Checked => telling(alloc, checked_text(alloc, log, team, slot)?.as_str()),
        Said::Remaining => remaining(alloc, standing, member),
        Said::Hint(_) => priced(alloc, standing, member),
        _ => telling(alloc, "unknown command"),
    }
}

/// The effect of a chat or a command of a member's, among the open sessions.
#[tactic(auto, using(mw_effects::proofs::Effects::quiet_effect))]
fn meant(
    alloc: Global,
    standing: &Standing,
    sessions: &[Session],
    member: &Member,
    said: &Said,
) -> Result<Effect, Memory>
    ensures { IfOk result (λ e. IsEffect e standing.now (saying_lem standing.now.log.seed
        (standing_of standing.now) (members_of (map session_view sessions.now)) member.now
        (said_view said.now))) }
{
    match said {
        Said::Release => releasing(alloc, standing, member),
        Said::Collect => collecting(alloc, standing, member),
        Said::Hint(name) if !name.as_str().is_empty() => {
            let wanted = Wanted::Item(Text::of(alloc, name.as_str())?);
            wanting(alloc, standing, member, &wanted)
        }
        Said::HintLocation(name) => {
            let wanted = Wanted::Location(Text::of(alloc, name.as_str())?);
            wanting(alloc, standing, member, &wanted)
        }
        _ => {
            let effect = answered(alloc, standing, sessions, member, said)?;
            Ok(effect)
        }
    }
}

/// The effect of what a member says, among the open sessions.
pub fn saying(
    alloc: Global,
    standing: &Standing,
    sessions: &[Session],
    member: &Member,
    text: &Text,
) -> Result<Effect, Memory>
    ensures { IfOk result (λ e. IsEffect e standing.now (saying_lem standing.now.log.seed
        (standing_of standing.now) (members_of (map session_view sessions.now)) member.now
        (said_of text.now))) }
{
    let said = parse_say(alloc, text)?;
    let effect = meant(alloc, standing, sessions, member, &said)?;
    Ok(effect)
}

ghost use Rattle.std.specs.Prelude.{◌≡◌, [], true, None, IfOk, map};
ghost use Rattle.std.specs.Option.{option_copied};
ghost use Rattle.mw_protocol.specs.Effect.{answering as answering_lem};
ghost use Rattle.mw_protocol.specs.Effects.{bad_effect as bad_effect_lem, effect_of as effect_of_lem, member_effect as member_effect_lem, stranger_effect as stranger_effect_lem};
ghost use Rattle.mw_protocol.specs.Messages as plain_answer;
ghost use Rattle.mw_protocol.specs.Packages.{package_json};
ghost use Rattle.mw_protocol.specs.Words.{already_connected as already_connected_lem};
ghost use Rattle.mw_packets_in.specs.View as asked;
ghost use Rattle.mw_room.specs.Known.{members_of};
ghost use Rattle.mw_effects.specs.Parts.{IsQuiet, standing_of};
ghost use Rattle.mw_effects.specs.Views.{effect_view, IsEffect};
ghost use Rattle.mw_room.specs.Views.{session_view};

use crate::entering::{joining, updating};
use crate::hinting::marking;
use crate::scouting::scouting;
use crate::session::Session;
use crate::speaking::{saying, stating};
use mw_base::{List, Memory, Text};
use mw_effects::{
    Effect, Member, Standing, already_connected, answering, bouncing, changing, checking,
    data_package, invalid_packet, nothing, quiet, reading, watching,
};
use mw_multidata::RoomTables;
use mw_packets_in::{Bad, Packet};
use std::alloc::Global;

/// What is no packet is answered.
pub fn bad_effect(alloc: Global, bad: &Bad) -> Result<Effect, Memory>
    ensures quiet { IfOk result (λ e. IsQuiet e) }
    ensures is { IfOk result (λ e. effect_view e ≡ bad_effect_lem (asked.bad_view bad.now)) }
{
    let packet = invalid_packet(alloc, bad)?;
    let effect = answering(alloc, packet)?;
    Ok(effect)
}

/// The effect of a Sync.
fn syncing(alloc: Global) -> Effect
    ensures quiet { IsQuiet result }
    ensures is { effect_view result
        ≡ record { records = []; answers = []; whole = true; member = None; announced = [] } }
{
    quiet(alloc, List::new(alloc), true, None, List::new(alloc))
}

/// The effect of a question for names.
fn packaging(
    alloc: Global,
    tables: &RoomTables,
    games: &Option<List<Text>>,
) -> Result<Effect, Memory>
    ensures quiet { IfOk result (λ e. IsQuiet e) }
    ensures is { IfOk result (λ e. effect_view e
        ≡ answering_lem (plain_answer.data_package (package_json tables.now games.now))) }
{
    let packet = data_package(alloc, tables, games)?;
    let effect = answering(alloc, packet)?;
    Ok(effect)
}

/// The effect of a Connect of a session that plays a slot already.
fn refusing(alloc: Global) -> Result<Effect, Memory>
    ensures quiet { IfOk result (λ e. IsQuiet e) }
    ensures is { IfOk result (λ e. effect_view e
        ≡ answering_lem (plain_answer.invalid_packet already_connected_lem)) }
{
    let packet = already_connected(alloc)?;
    let effect = answering(alloc, packet)?;
    Ok(effect)
}

/// What a stranger's packet does, which records nothing.
fn stranger_effect(alloc: Global, standing: &Standing, packet: &Packet) -> Result<Effect, Memory>
    ensures quiet { IfOk result (λ e. IsQuiet e) }
    ensures is { IfOk result (λ e. effect_view e ≡ stranger_effect_lem standing.now.log.seed
        (standing_of standing.now) (asked.packet_view packet.now)) }
{
    match packet {
        Packet::Connect(fields) => joining(alloc, standing, fields),
        Packet::GetDataPackage { games } => packaging(alloc, standing.log.tables(), games),
        _ => Ok(nothing(alloc)),
    }
}

/// What a member's packet does, among the open sessions.
#[tactic(auto, using(mw_effects::proofs::Effects::quiet_effect))]
fn member_effect(
    alloc: Global,
    standing: &Standing,
    sessions: &[Session],
    member: &Member,
    packet: &Packet,
) -> Result<Effect, Memory>
    ensures { IfOk result (λ e. IsEffect e standing.now (member_effect_lem standing.now.log.seed
        (standing_of standing.now) (members_of (map session_view sessions.now)) member.now
        (asked.packet_view packet.now))) }
{
    let tables = standing.log.tables();
    let effect = match packet {
        Packet::Connect(_) => refusing(alloc)?,
        Packet::ConnectUpdate(update) => updating(alloc, tables, member, update)?,
        Packet::Sync => syncing(alloc),
        Packet::LocationChecks(checks) => {
            return checking(alloc, standing, member, checks.locations.as_slice());
        }
        Packet::LocationScouts(scouts) => return scouting(alloc, standing, member, scouts),
        Packet::UpdateHint(update) => return marking(alloc, standing, member, update),
        Packet::StatusUpdate(update) => return stating(alloc, standing, member, update.status),
        Packet::Say { text } => return saying(alloc, standing, sessions, member, text),
        Packet::GetDataPackage { games } => packaging(alloc, tables, games)?,
        Packet::Bounce(bounce) => bouncing(alloc, member, bounce)?,
        Packet::Get(get) => reading(alloc, standing, get)?,
        Packet::Change(set) => return changing(alloc, standing, member, set),
        Packet::SetNotify { keys } => watching(alloc, member, keys.as_slice())?,
    };
    Ok(effect)
}

/// What a packet of a session does, which is this member, if it is one, among the open sessions.
#[tactic(auto, using(mw_effects::proofs::Effects::quiet_effect))]
pub fn effect_of(
    alloc: Global,
    standing: &Standing,
    sessions: &[Session],
    member: Option<&Member>,
    packet: &Packet,
) -> Result<Effect, Memory>
    ensures { IfOk result (λ e. IsEffect e standing.now (effect_of_lem standing.now.log.seed
        (standing_of standing.now) (members_of (map session_view sessions.now))
        (option_copied member.entry) (asked.packet_view packet.now))) }
{
    match member {
        Some(member) => member_effect(alloc, standing, sessions, member, packet),
        None => {
            let effect = stranger_effect(alloc, standing, packet)?;
            Ok(effect)
        }
    }
}

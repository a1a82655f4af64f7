ghost use Rattle.std.specs.Prelude.{◌≡◌, ◌++◌, ◌∷◌, [], IfOk, OnOk, map};
ghost use Rattle.mw_protocol.specs.Checks.{checks_at};
ghost use Rattle.mw_protocol.specs.Locating.{hints_scouted as hints_scouted_lem, scouting as scouting_lem};
ghost use Rattle.mw_protocol.specs.Locations.{scouted_at};
ghost use Rattle.mw_protocol.specs.Messages.{location_info};
ghost use Rattle.mw_protocol.specs.Records.{hint};
ghost use Rattle.mw_packets_out.specs.View.{packet_view};
ghost use Rattle.mw_room.specs.Hinting.{told_if, told_with, all_told, is_told as is_told_lem};
ghost use Rattle.mw_records.specs.Records.{hint_view};
ghost use Rattle.mw_effects.specs.Parts.{standing_of};
ghost use Rattle.mw_effects.specs.Views.{announced_view, IsEffect};

use crate::hinting::{hint_records, hinted, push_told};
use mw_base::{HintRecord, List, LocId, Memory};
use mw_checks::CheckLog;
use mw_effects::{Announced, Effect, Member, Standing, scouts_of};
use mw_hints::known_locations;
use mw_packets_in::LocationScouts;
use mw_packets_out::ServerPacket;
use std::alloc::Global;

/// Whether a scouting makes a hint of a location of the slot, or there is one that is told again.
fn is_told(standing: &Standing, member: &Member, location: LocId, again: bool) -> bool
    ensures { result ≡ is_told_lem (standing_of standing.now) member.now.team member.now.slot
        again location }
{
    let (team, slot) = (member.team, member.slot);
    match standing.hints.hint_at(team, slot, location) {
        Some(_) => again,
        None => !standing.log.is_checked(team, slot, location),
    }
}

/// The print of the hint of a location, where a scouting tells it.
fn push_where(
    alloc: Global,
    prints: &mut List<Announced>,
    standing: &Standing,
    member: &Member,
    location: LocId,
    again: bool,
) -> Result<(), Memory>
    ensures { OnOk result (map announced_view prints.new ≡ map announced_view prints.old
        ++ told_if standing.now.log.seed (standing_of standing.now) member.now.team
        member.now.slot again location) }
{
    if is_told(standing, member, location, again) {
        return push_told(alloc, prints, standing, member.team, member.slot, location);
    }
    Ok(())
}

/// The prints of the hints that a scouting tells.
fn scouts_told(
    alloc: Global,
    standing: &Standing,
    member: &Member,
    known: &[LocId],
    again: bool,
) -> Result<List<Announced>, Memory>
    ensures { IfOk result (λ ps. map announced_view ps
        ≡ all_told standing.now.log.seed (standing_of standing.now) member.now.team
        member.now.slot again known.now) }
{
    let mut prints = List::new(alloc);
    for location in known {
        push_where(alloc, &mut prints, standing, member, *location, again)?;
    }
    Ok(prints)
}

/// The hints that a scouting makes, where it is asked to.
fn hints_scouted(
    alloc: Global,
    standing: &Standing,
    member: &Member,
    scouts: &LocationScouts,
) -> Result<List<HintRecord>, Memory>
    ensures { IfOk result (λ hs. map hint_view hs ≡ map hint (hints_scouted_lem
        standing.now.log.seed (standing_of standing.now) member.now scouts.now.locations
        scouts.now.create_as_hint)) }
{
    if scouts.create_as_hint == 0 {
        return Ok(List::new(alloc));
    }
    let numbers = scouts.locations.as_slice();
    standing
        .hints
        .scout(member.team, member.slot, numbers, &standing.log)
}

/// The prints of a scouting: with 1 the hints of all locations, with 2 those just made.
fn prints_scouted(
    alloc: Global,
    standing: &Standing,
    member: &Member,
    known: &[LocId],
    as_hint: u8,
) -> Result<List<Announced>, Memory>
    ensures { IfOk result (λ ps. map announced_view ps ≡ told_with as_hint
        standing.now.log.seed (standing_of standing.now) member.now.team member.now.slot
        known.now) }
{
    if as_hint == 0 {
        return Ok(List::new(alloc));
    }
    scouts_told(alloc, standing, member, known, as_hint == 1)
}

/// The answer that tells what stands at a slot's locations.
fn located(
    alloc: Global,
    log: &CheckLog,
    member: &Member,
    known: &[LocId],
) -> Result<List<ServerPacket>, Memory>
    ensures { IfOk result (λ ps. map packet_view ps ≡ location_info (scouted_at log.now.seed
        member.now.slot (checks_at member.now.team member.now.slot known.now)) ∷ []) }
{
    let locations = scouts_of(alloc, log, member, known)?;
    let mut answers = List::new(alloc);
    answers.push(ServerPacket::LocationInfo { locations })?;
    Ok(answers)
}

/// The effect of a question for what stands at locations, which may make hints of them.
pub fn scouting(
    alloc: Global,
    standing: &Standing,
    member: &Member,
    scouts: &LocationScouts,
) -> Result<Effect, Memory>
    ensures { IfOk result (λ e. IsEffect e standing.now (scouting_lem standing.now.log.seed
        (standing_of standing.now) member.now scouts.now.locations scouts.now.create_as_hint)) }
{
    let log = &standing.log;
    let as_hint = scouts.create_as_hint;
    let numbers = scouts.locations.as_slice();
    let known = known_locations(alloc, member.team, member.slot, numbers, log)?;
    let hints = hints_scouted(alloc, standing, member, scouts)?;
    let records = hint_records(alloc, hints.as_slice());
    let prints = prints_scouted(alloc, standing, member, known.as_slice(), as_hint);
    let answers = located(alloc, log, member, known.as_slice());
    match (records, prints, answers) {
        (Ok(records), Ok(prints), Ok(answers)) => {
            Ok(hinted(alloc, member, records, hints, None, answers, prints))
        }
        _ => Err(Memory),
    }
}

ghost use Rattle.std.specs.Prelude.{◌≡◌, ◌++◌, ◌∷◌, [], ℤ, None, Some, false, IfNone, IfOk, IfSome, OnOk, map};
ghost use Rattle.std.specs.Option.{option_to_list};
ghost use Rattle.mw_model.specs.Seed.{held_at};
ghost use Rattle.mw_protocol.specs.Locating.{hint_told, mark_record, marking as marking_lem, slot_number};
ghost use Rattle.mw_protocol.specs.Records.{Hint, hint};
ghost use Rattle.mw_protocol.specs.Speaking.{wanting as wanting_lem};
ghost use Rattle.mw_hints.specs.Answering.{IsAnswer, wanted_view};
ghost use Rattle.mw_multidata.specs.SeedKept.{IsSeed};
ghost use Rattle.mw_packets_out.specs.View.{packet_view};
ghost use Rattle.mw_room.specs.Hinting.{answered_in, told_at};
ghost use Rattle.mw_records.specs.Records.{hint_view, record_view};
ghost use Rattle.mw_effects.specs.Parts.{standing_of};
ghost use Rattle.mw_effects.specs.Views.{announced_view, effect_view, IsEffect};

use mw_answers::{no_such_name, nothing_to_hint, too_dear_text};
use mw_base::{HintRecord, HintStatus, List, LocId, Memory, SlotId, TeamId};
use mw_chat::hint_print;
use mw_effects::{Announced, Audience, Effect, Member, Standing, Told, found_item, kept, telling};
use mw_hints::{HintAnswer, Wanted};
use mw_multidata::{Held, Multidata};
use mw_packets_in::UpdateHint;
use mw_packets_out::ServerPacket;
use mw_records::Record;
use std::alloc::Global;

/// The print of a hint of what is held at a finder's location, for those whom it concerns.
fn told_print(
    alloc: Global,
    standing: &Standing,
    team: TeamId,
    finder: SlotId,
    location: LocId,
    held: &Held,
) -> Result<Announced, Memory>
    ensures { IfOk result (λ a. announced_view a ∷ [] ≡ told_at
        (standing_of standing.now) team finder location (Some held.now)) }
{
    let found = standing.log.is_checked(team, finder, location);
    let print = hint_print(alloc, &found_item(held), held.receiver, found)?;
    let receiver = held.receiver;
    let audience = Audience::Slots {
        team,
        finder,
        receiver,
    };
    Ok(Announced {
        audience,
        told: Told::Packet(print),
    })
}

/// Tells those who find or receive what is at a location that there is a hint of it.
pub(crate) fn push_told(
    alloc: Global,
    prints: &mut List<Announced>,
    standing: &Standing,
    team: TeamId,
    finder: SlotId,
    location: LocId,
) -> Result<(), Memory>
    ensures { OnOk result (map announced_view prints.new ≡ map announced_view prints.old
        ++ told_at (standing_of standing.now) team finder location
        (held_at standing.now.log.seed finder location)) }
{
    if let Some(held) = standing.log.held(finder, location) {
        let announced = told_print(alloc, standing, team, finder, location, held)?;
        prints.push(announced)?;
    }
    Ok(())
}

/// The records of hints.
pub(crate) fn hint_records(alloc: Global, hints: &[HintRecord]) -> Result<List<Record>, Memory>
    ensures { IfOk result (λ rs. map record_view rs ≡ map hint_view hints.now) }
{
    let mut records = List::new(alloc);
    for entry in hints {
        records.push(Record::Hint(*entry))?;
    }
    Ok(records)
}

/// The effect of hints that are recorded, and paid for by a slot, or by none.
pub(crate) fn hinted(
    alloc: Global,
    member: &Member,
    records: List<Record>,
    hints: List<HintRecord>,
    payer: Option<SlotId>,
    answers: List<ServerPacket>,
    prints: List<Announced>,
) -> Effect
    ensures records { result.records ≡ records }
    ensures team { result.team ≡ member.now.team }
    ensures new { result.new ≡ [] }
    ensures status { result.status ≡ None }
    ensures hints { result.hints ≡ hints }
    ensures payer { result.payer ≡ payer }
    ensures stored { result.stored ≡ None }
    ensures is { effect_view result ≡ record {
      records = map record_view records;
      answers = map packet_view answers;
      whole = false;
      member = None;
      announced = map announced_view prints;
    } }
{
    Effect {
        records,
        team: member.team,
        new: List::new(alloc),
        status: None,
        hints,
        payer,
        stored: None,
        answers,
        whole: false,
        member: None,
        announced: prints,
    }
}

/// The slot of a number, if it is one; else nothing stands at a location of it.
fn slot_of_number(seed: &Multidata, number: i128) -> Option<SlotId>
    requires { IsSeed seed.now }
    ensures some { IfSome result (λ s. s ≡ slot_number number) }
    ensures none { IfNone result ((l : ℤ) → held_at seed.now (slot_number number) l ≡ None) }
{
    let _ = &seed.slots;
    if 1 <= number && number <= 1024 {
        SlotId::new(number as u16)
    } else {
        None
    }
}

/// The record of a hint's status, if it gets this one.
fn status_record(
    standing: &Standing,
    member: &Member,
    finder: SlotId,
    location: LocId,
    status: HintStatus,
) -> Option<HintRecord>
    ensures { map hint_view (option_to_list result) ≡ mark_record standing.now.log.seed
        (standing_of standing.now) member.now finder location (Some status) }
{
    let (team, slot) = (member.team, member.slot);
    standing
        .hints
        .set_status(team, slot, finder, location, status, &standing.log)
}

/// The same by numbers, which may be no slot's and no location's.
fn marked_with(
    standing: &Standing,
    member: &Member,
    finder: i128,
    location: i128,
    status: HintStatus,
) -> Option<HintRecord>
    ensures { map hint_view (option_to_list result) ≡ mark_record standing.now.log.seed
        (standing_of standing.now) member.now (slot_number finder) location (Some status) }
{
    let seed = standing.seed();
    kept(seed);
    match (slot_of_number(seed, finder), standing.log.id_of(location)) {
        (Some(finder), Some(location)) => {
            status_record(standing, member, finder, location, status)
        }
        _ => None,
    }
}

/// The record of a hint's new status, if it gets one.
fn marked(standing: &Standing, member: &Member, update: &UpdateHint) -> Option<HintRecord>
    ensures { map hint_view (option_to_list result) ≡ mark_record standing.now.log.seed
        (standing_of standing.now) member.now (slot_number update.now.player)
        update.now.location update.now.status }
{
    match update.status {
        None => None,
        Some(number) => {
            let status = HintStatus::new(number).unwrap();
            marked_with(standing, member, update.player, update.location, status)
        }
    }
}

/// A list of one record, if there is one.
fn listed(alloc: Global, entry: Option<HintRecord>) -> Result<List<HintRecord>, Memory>
    ensures { IfOk result (λ es. es ≡ option_to_list entry) }
{
    let mut entries = List::new(alloc);
    if let Some(entry) = entry {
        entries.push(entry)?;
    }
    Ok(entries)
}

/// The effect of a hint's new status.
pub fn marking(
    alloc: Global,
    standing: &Standing,
    member: &Member,
    update: &UpdateHint,
) -> Result<Effect, Memory>
    ensures { IfOk result (λ e. IsEffect e standing.now (marking_lem standing.now.log.seed
        (standing_of standing.now) member.now update.now)) }
{
    let hints = listed(alloc, marked(standing, member, update))?;
    let records = hint_records(alloc, hints.as_slice())?;
    let (answers, prints) = (List::new(alloc), List::new(alloc));
    Ok(hinted(alloc, member, records, hints, None, answers, prints))
}

/// Tells those whom it concerns of a hint that was bought.
fn bought_told(
    alloc: Global,
    standing: &Standing,
    entry: &HintRecord,
) -> Result<List<Announced>, Memory>
    ensures { IfOk result (λ ps. (h : Hint) → hint_view entry.now ≡ hint h
        → map announced_view ps ≡ hint_told (standing_of standing.now) h
        (held_at standing.now.log.seed h.finder h.location)) }
{
    let mut prints = List::new(alloc);
    if let HintRecord::Made {
        team,
        finder,
        loc,
        ..
    } = *entry
    {
        push_told(alloc, &mut prints, standing, team, finder, loc)?;
    }
    Ok(prints)
}

/// The effect of a hint that is bought, which was wanted.
fn bought(
    alloc: Global,
    standing: &Standing,
    member: &Member,
    wanted: &Wanted,
    entry: HintRecord,
) -> Result<Effect, Memory>
    requires { IsAnswer (HintAnswer.Bought entry) (answered_in standing.now member.now
        (wanted_view wanted.now)) }
    ensures { IfOk result (λ e. IsEffect e standing.now (wanting_lem standing.now.log.seed
        (standing_of standing.now) member.now (wanted_view wanted.now))) }
{
    let _ = wanted;
    let prints = bought_told(alloc, standing, &entry)?;
    let hints = listed(alloc, Some(entry))?;
    let records = hint_records(alloc, hints.as_slice())?;
    Ok(hinted(
        alloc,
        member,
        records,
        hints,
        Some(member.slot),
        List::new(alloc),
        prints,
    ))
}

/// What a member is answered that wants a hint.
fn answer_to(standing: &Standing, member: &Member, wanted: &Wanted) -> Result<HintAnswer, Memory>
    ensures { IfOk result (λ a. IsAnswer a (answered_in standing.now member.now
        (wanted_view wanted.now))) }
{
    let log = &standing.log;
    standing.hints.buy(member.team, member.slot, wanted, log)
}

/// The effect of a wish for a hint.
pub fn wanting(
    alloc: Global,
    standing: &Standing,
    member: &Member,
    wanted: &Wanted,
) -> Result<Effect, Memory>
    ensures { IfOk result (λ e. IsEffect e standing.now (wanting_lem standing.now.log.seed
        (standing_of standing.now) member.now (wanted_view wanted.now))) }
{
    let effect = match answer_to(standing, member, wanted)? {
        HintAnswer::Bought(entry) => return bought(alloc, standing, member, wanted, entry),
        HintAnswer::NoSuchName => telling(alloc, no_such_name())?,
        HintAnswer::Nothing => telling(alloc, nothing_to_hint())?,
        HintAnswer::TooDear { cost, points } => {
            telling(alloc, too_dear_text(alloc, cost, points)?.as_str())?
        }
    };
    Ok(effect)
}

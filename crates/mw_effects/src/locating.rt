ghost use Rattle.std.specs.Prelude.{◌≡◌, ◌++◌, [], ℕ, None, false, IfOk, OnOk, map};
ghost use Rattle.mw_model.specs.Seed.{held_at};
ghost use Rattle.mw_protocol.specs.Locating.{checking as checking_lem, checks_record, sends as sends_lem, sent_at};
ghost use Rattle.mw_protocol.specs.Locations.{location_of, new_checks};
ghost use Rattle.mw_checks.specs.Log.{AreFresh, checks_of};
ghost use Rattle.mw_records.specs.Records.{record_view};
ghost use Rattle.mw_effects.specs.Parts.{standing_of};
ghost use Rattle.mw_effects.specs.Views.{announced_view, effect_view, IsEffect};

use crate::effect::{Announced, Audience, Effect};
use crate::member::Member;
use crate::news::{Pair, found_item};
use crate::standing::Standing;
use crate::told::Told;
use mw_base::{List, LocId, Memory};
use mw_checks::CheckLog;
use mw_records::Record;
use std::alloc::Global;

/// The locations of pairs.
fn locations_in(alloc: Global, new: &[Pair]) -> Result<List<LocId>, Memory>
    ensures { IfOk result (λ ls. (team : ℕ) → ls ≡ map location_of (checks_of team new.now)) }
{
    let mut found = List::new(alloc);
    for pair in new {
        let (_, location) = *pair;
        found.push(location)?;
    }
    Ok(found)
}

/// The record of new checks of a member's slot, where there are some.
fn records_for(alloc: Global, member: &Member, new: &[Pair]) -> Result<List<Record>, Memory>
    ensures { IfOk result (λ rs. map record_view rs
        ≡ checks_record member.now.team member.now.slot (map location_of
        (checks_of member.now.team new.now))) }
{
    let mut records = List::new(alloc);
    let locations = locations_in(alloc, new)?;
    if let Some(record) = Record::of_checks(member.team, member.slot, locations) {
        records.push(record)?;
    }
    Ok(records)
}

/// Tells a team what was found at a location.
fn push_sent(
    prints: &mut List<Announced>,
    log: &CheckLog,
    member: &Member,
    pair: Pair,
) -> Result<(), Memory>
    ensures { OnOk result (map announced_view prints.new ≡ map announced_view prints.old
        ++ sent_at member.now.team (held_at log.now.seed pair.0 pair.1)) }
{
    let (slot, location) = pair;
    if let Some(held) = log.held(slot, location) {
        let item = found_item(held);
        let receiver = held.receiver;
        prints.push(Announced {
            audience: Audience::Team(member.team),
            told: Told::Found { item, receiver },
        })?;
    }
    Ok(())
}

/// Tells a team what was found at each location.
fn sends(
    alloc: Global,
    log: &CheckLog,
    member: &Member,
    new: &[Pair],
) -> Result<List<Announced>, Memory>
    ensures { IfOk result (λ ps. map announced_view ps
        ≡ sends_lem log.now.seed (checks_of member.now.team new.now)) }
{
    let mut prints = List::new(alloc);
    for pair in new {
        push_sent(&mut prints, log, member, *pair)?;
    }
    Ok(prints)
}

/// Those of the numbers that are unchecked locations of the member's slot, each once.
fn fresh_of(log: &CheckLog, member: &Member, numbers: &[i128]) -> Result<List<Pair>, Memory>
    ensures checks { IfOk result (λ ps. checks_of member.now.team ps
        ≡ new_checks log.now.seed log.now.checked member.now.team member.now.slot numbers.now) }
    ensures fresh { IfOk result (λ ps. AreFresh log.now.seed log.now.checked member.now.team ps) }
{
    log.fresh_of(member.team, member.slot, numbers)
}

/// The effect of checks.
pub fn checking(
    alloc: Global,
    standing: &Standing,
    member: &Member,
    numbers: &[i128],
) -> Result<Effect, Memory>
    ensures { IfOk result (λ e. IsEffect e standing.now (checking_lem standing.now.log.seed
        (standing_of standing.now) member.now numbers.now)) }
{
    let log = &standing.log;
    let new = fresh_of(log, member, numbers)?;
    let records = records_for(alloc, member, new.as_slice())?;
    let prints = sends(alloc, log, member, new.as_slice())?;
    Ok(checked(alloc, records, member, new, prints))
}

/// The effect of records that come to these checks.
fn checked(
    alloc: Global,
    records: List<Record>,
    member: &Member,
    new: List<Pair>,
    prints: List<Announced>,
) -> Effect
    ensures records { result.records ≡ records }
    ensures team { result.team ≡ member.now.team }
    ensures new { result.new ≡ new }
    ensures status { result.status ≡ None }
    ensures hints { result.hints ≡ [] }
    ensures payer { result.payer ≡ None }
    ensures stored { result.stored ≡ None }
    ensures is { effect_view result ≡ record {
      records = map record_view records;
      answers = [];
      whole = false;
      member = None;
      announced = map announced_view prints;
    } }
{
    Effect {
        records,
        team: member.team,
        new,
        status: None,
        hints: List::new(alloc),
        payer: None,
        stored: None,
        answers: List::new(alloc),
        whole: false,
        member: None,
        announced: prints,
    }
}

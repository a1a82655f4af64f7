ghost use Rattle.std.specs.Prelude.{◌≡◌, ◌++◌, ◌&&◌, ◌==◌, ◌<◌, ◌+◌, ℕ, IfOk, OnOk, option_to_list, map};
ghost use Rattle.mw_protocol.specs.Owed.{owed, answers_to as answers_to_lem};
ghost use Rattle.mw_protocol.specs.Rooms.{member_after as member_after_lem};
ghost use Rattle.mw_packets_out.specs.View.{packet_view};
ghost use Rattle.mw_room.specs.Fits.{ChangesFit};
ghost use Rattle.mw_effects.specs.Parts.{IsLogged};
ghost use Rattle.mw_effects.specs.Views.{effect_view};
ghost use Rattle.mw_owed.specs.Shared.{IsShared};
ghost use Rattle.mw_room.specs.Views.{session_view, changed, due_after, due_text, made_for, due_by, IsChange};

use crate::session::{Change, Session};
use mw_base::{Growth, Memory, Text};
use mw_effects::{Effect, Member, Standing};
use mw_owed::{Shared, closed, growth_owed, may_owe, put_heard, put_packets, shared_of};
use mw_packets_out::ServerPacket;
use std::alloc::Global;

/// The answers to the sender, where this is the sender.
fn answers_to(effect: &Effect, sends: bool) -> &[ServerPacket]
    ensures { map packet_view result.now ≡ answers_to_lem sends (effect_view effect.now) }
{
    if sends {
        effect.answers.as_slice()
    } else {
        &[]
    }
}

/// The text of what a session is owed, where it is owed something.
#[tactic(auto, using(mw_owed::proofs::Behind::message_is))]
fn owed_text(
    alloc: Global,
    standing: &Standing,
    effect: &Effect,
    shared: &mut Shared,
    sends: bool,
    member: &Option<Member>,
) -> Result<Option<Text>, Memory>
    requires logged { IsLogged standing.now effect.now }
    requires shared { IsShared standing.now.log.seed effect.now shared.old }
    ensures shared { IfOk result (λ _. IsShared standing.now.log.seed effect.now shared.new) }
    ensures text { IfOk result (λ t. t ≡ due_text standing.now effect.now sends member.now) }
{
    let whole = effect.whole & sends;
    let others = growth_owed(alloc, standing, effect, &shared.receivers, whole, member)?;
    let mut out = String::new(alloc);
    put_packets(alloc, &mut out, answers_to(effect, sends))?;
    put_packets(alloc, &mut out, others.as_slice())?;
    put_heard(
        alloc,
        &mut out,
        standing.seed(),
        &mut shared.tellings,
        sends,
        member,
    )?;
    let text = closed(out)?;
    Ok(text)
}

/// The member that a session is after an effect.
fn member_after<'a>(effect: &'a Effect, sends: bool, session: &'a Session) -> &'a Option<Member>
    ensures { result.now ≡ member_after_lem (effect_view effect.now) sends session.now.member }
{
    if sends && effect.member.is_some() {
        &effect.member
    } else {
        &session.member
    }
}

/// The member that the sender becomes, if it becomes one.
fn made_of(alloc: Global, effect: &Effect, sends: bool) -> Result<Option<Member>, Memory>
    ensures { IfOk result (λ m. m ≡ made_for (effect_view effect.now) sends) }
{
    match &effect.member {
        Some(member) if sends => Ok(Some(member.copy(alloc)?)),
        _ => Ok(None),
    }
}

/// The change of a session, if it is one.
fn change_by(
    alloc: Global,
    at: usize,
    made: Option<Member>,
    text: Option<Text>,
    session: &Session,
) -> Result<Option<Change>, Memory>
    ensures { IfOk result (λ o. IsChange o at (due_by made text) session.now) }
{
    if made.is_none() && text.is_none() {
        return Ok(None);
    }
    let growth = Growth::of(alloc, &session.untaken, 1)?;
    Ok(Some(Change {
        at,
        made,
        text,
        growth,
    }))
}

/// The change that an effect of the sender's makes to the session at an index, if it makes one.
fn change_of(
    alloc: Global,
    standing: &Standing,
    effect: &Effect,
    shared: &mut Shared,
    sender: u64,
    at: usize,
    session: &Session,
) -> Result<Option<Change>, Memory>
    requires logged { IsLogged standing.now effect.now }
    requires shared { IsShared standing.now.log.seed effect.now shared.old }
    ensures shared { IfOk result (λ _. IsShared standing.now.log.seed effect.now shared.new) }
    ensures is { IfOk result (λ o. IsChange o at
        (due_after standing.now effect.now sender) session.now) }
{
    let sends = session.number == sender;
    if !(sends | may_owe(standing, effect, shared, &session.member)) {
        return Ok(None);
    }
    let member = member_after(effect, sends, session);
    let text = owed_text(alloc, standing, effect, shared, sends, member)?;
    let made = made_of(alloc, effect, sends)?;
    let change = change_by(alloc, at, made, text, session)?;
    Ok(change)
}

/// Adds a change, if there is one.
fn push_change(changes: &mut Vec<Change>, change: Option<Change>) -> Result<(), Memory>
    ensures { OnOk result (changes.new.items ≡ changes.old.items ++ option_to_list change) }
{
    if let Some(change) = change {
        changes.push(change)?;
    }
    Ok(())
}

/// The changes that an effect of the sender's makes to the sessions.
pub fn changes_for(
    alloc: Global,
    standing: &Standing,
    effect: &Effect,
    sender: u64,
    sessions: &[Session],
) -> Result<Vec<Change>, Memory>
    requires { IsLogged standing.now effect.now }
    ensures changes { IfOk result (λ cs. (length : ℕ)
        → changed length (map session_view sessions.now) cs.items
        ≡ map (due_after standing.now effect.now sender length)
        (map session_view sessions.now)) }
    ensures fit { IfOk result (λ cs. ChangesFit 0 sessions.now cs.items) }
{
    let mut shared = shared_of(alloc, &standing.log, effect)?;
    let mut changes = Vec::new(alloc);
    for (at, session) in sessions.iter().enumerate() {
        let change = change_of(alloc, standing, effect, &mut shared, sender, at, session)?;
        push_change(&mut changes, change)?;
    }
    Ok(changes)
}

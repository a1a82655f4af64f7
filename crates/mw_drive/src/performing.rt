ghost use Rattle.std.specs.Prelude.{◌≡◌, ◌≤◌, IfOk, IfErr, IsFalse, MatchOption, None, Some, is_some, map, string_bytes};
ghost use Rattle.mw_packets_in.specs.View.{inbound_view};
ghost use Rattle.mw_keep.specs.Keeps.{kept_disk};
ghost use Rattle.mw_keep.specs.Views.{call_view, reply_view};
ghost use Rattle.mw_drive.specs.Calls.{IsOutside, Makes, StopsAmong, Performs, StopsIn};
ghost use Rattle.mw_script.specs.Commands.{command_view, opens, sends, takes, loses, commits};
ghost use Rattle.mw_drive.specs.Drive.{call_for as call_for_lem, is_crash, is_overrun as is_overrun_lem, texts_in as texts_in_lem};

use crate::acting::act;
use crate::error::DriveError;
use crate::printing::{gone, messages, overrun};
use mw_base::{List, SessionId, Text};
use mw_disk::Disk;
use mw_keep::{Call, KeptRoom, Reply};
use mw_packets_in::Inbound;
use mw_script::Command;
use std::alloc::Global;

/// Whether a reply is that its session was owed more than it may keep.
fn is_overrun(reply: &Reply) -> bool
    ensures { result ≡ is_overrun_lem (reply_view reply.now) }
{
    match reply {
        Reply::Overrun => true,
        Reply::Opened(_)
        | Reply::Done
        | Reply::Messages(_)
        | Reply::Gone
        | Reply::Stopped(_)
        | Reply::Memory => false,
    }
}

/// The texts of a reply, if it gives messages.
fn texts_in(reply: Reply) -> Option<List<Text>>
    ensures { MatchOption result (texts_in_lem (reply_view reply) ≡ None)
        (λ texts. texts_in_lem (reply_view reply) ≡ Some texts) }
{
    match reply {
        Reply::Messages(texts) => Some(texts),
        Reply::Overrun
        | Reply::Opened(_)
        | Reply::Done
        | Reply::Gone
        | Reply::Stopped(_)
        | Reply::Memory => None,
    }
}

/// The call of an element of a session's message.
fn call_for(session: SessionId, element: Inbound) -> Call
    ensures { call_view result ≡ call_for_lem session (inbound_view element) }
{
    match element {
        Inbound::Good(packet) => Call::Packet { session, packet },
        Inbound::Wrong(bad) => Call::Bad { session, bad },
    }
}

/// Makes a session's calls, one for each element of its message; whether one meets that it was owed
/// more than it may keep.
fn call_all<D: Disk>(
    kept: &mut KeptRoom<D>,
    session: SessionId,
    message: List<Inbound>,
) -> Result<bool, DriveError>
    ensures ok { IfOk result (λ met. Makes D.may_leave kept.old
        (map (call_for_lem session) (map inbound_view message)) met kept.new) }
    ensures err { IfErr result (λ error. StopsAmong D.may_leave D.faults kept.old
        (map (call_for_lem session) (map inbound_view message)) error kept.new) }
    ensures own { IfErr result IsOutside }
    ensures tells { is_some (D.told (kept_disk kept.new)) ≡ is_some (D.told (kept_disk kept.old)) }
    ensures count { D.faults (kept_disk kept.old) ≤ D.faults (kept_disk kept.new) }
{
    let mut met = false;
    for element in message.into_vec() {
        let reply = act(kept, call_for(session, element))?;
        met = met | is_overrun(&reply);
    }
    Ok(met)
}

/// Opens a session.
fn open<D: Disk>(alloc: Global, kept: &mut KeptRoom<D>, time: u64) -> Result<String, DriveError>
    ensures ok { IfOk result (λ text. Performs D.may_leave kept.old
        (opens time) (string_bytes text) kept.new) }
    ensures err { IfErr result (λ error. StopsIn D.may_leave D.faults kept.old
        (opens time) error kept.new) }
    ensures own { IfErr result IsOutside }
    ensures tells { is_some (D.told (kept_disk kept.new)) ≡ is_some (D.told (kept_disk kept.old)) }
    ensures count { D.faults (kept_disk kept.old) ≤ D.faults (kept_disk kept.new) }
{
    act(kept, Call::Open { time })?;
    Ok(String::new(alloc))
}

/// Makes safe what is recorded.
fn commit<D: Disk>(alloc: Global, kept: &mut KeptRoom<D>) -> Result<String, DriveError>
    ensures ok { IfOk result (λ text. Performs D.may_leave kept.old
        commits (string_bytes text) kept.new) }
    ensures err { IfErr result (λ error. StopsIn D.may_leave D.faults kept.old
        commits error kept.new) }
    ensures own { IfErr result IsOutside }
    ensures tells { is_some (D.told (kept_disk kept.new)) ≡ is_some (D.told (kept_disk kept.old)) }
    ensures count { D.faults (kept_disk kept.old) ≤ D.faults (kept_disk kept.new) }
{
    act(kept, Call::Commit)?;
    Ok(String::new(alloc))
}

/// Does a session's message.
fn send<D: Disk>(
    alloc: Global,
    kept: &mut KeptRoom<D>,
    session: SessionId,
    message: List<Inbound>,
) -> Result<String, DriveError>
    ensures ok { IfOk result (λ text. Performs D.may_leave kept.old
        (sends session (map inbound_view message)) (string_bytes text) kept.new) }
    ensures err { IfErr result (λ error. StopsIn D.may_leave D.faults kept.old
        (sends session (map inbound_view message)) error kept.new) }
    ensures own { IfErr result IsOutside }
    ensures tells { is_some (D.told (kept_disk kept.new)) ≡ is_some (D.told (kept_disk kept.old)) }
    ensures count { D.faults (kept_disk kept.old) ≤ D.faults (kept_disk kept.new) }
{
    if !kept.is_open(session) {
        return Ok(gone(alloc, session.get())?);
    }
    if call_all(kept, session, message)? {
        return Ok(overrun(alloc, session.get())?);
    }
    Ok(String::new(alloc))
}

/// Takes a session's messages, and answers them.
fn take<D: Disk>(
    alloc: Global,
    kept: &mut KeptRoom<D>,
    session: SessionId,
) -> Result<String, DriveError>
    ensures ok { IfOk result (λ text. Performs D.may_leave kept.old
        (takes session) (string_bytes text) kept.new) }
    ensures err { IfErr result (λ error. StopsIn D.may_leave D.faults kept.old
        (takes session) error kept.new) }
    ensures own { IfErr result IsOutside }
    ensures tells { is_some (D.told (kept_disk kept.new)) ≡ is_some (D.told (kept_disk kept.old)) }
    ensures count { D.faults (kept_disk kept.old) ≤ D.faults (kept_disk kept.new) }
{
    if !kept.is_open(session) {
        return Ok(gone(alloc, session.get())?);
    }
    let reply = act(kept, Call::Take { session })?;
    match texts_in(reply) {
        Some(texts) => Ok(messages(alloc, session.get(), &texts)?),
        None => Ok(overrun(alloc, session.get())?),
    }
}

/// Ends a session.
fn lose<D: Disk>(
    alloc: Global,
    kept: &mut KeptRoom<D>,
    session: SessionId,
) -> Result<String, DriveError>
    ensures ok { IfOk result (λ text. Performs D.may_leave kept.old
        (loses session) (string_bytes text) kept.new) }
    ensures err { IfErr result (λ error. StopsIn D.may_leave D.faults kept.old
        (loses session) error kept.new) }
    ensures own { IfErr result IsOutside }
    ensures tells { is_some (D.told (kept_disk kept.new)) ≡ is_some (D.told (kept_disk kept.old)) }
    ensures count { D.faults (kept_disk kept.old) ≤ D.faults (kept_disk kept.new) }
{
    if !kept.is_open(session) {
        return Ok(gone(alloc, session.get())?);
    }
    act(kept, Call::Lost { session })?;
    Ok(String::new(alloc))
}

/// Does a command that isn't a crash, and answers what it prints.
pub(crate) fn perform<D: Disk>(
    alloc: Global,
    kept: &mut KeptRoom<D>,
    command: Command,
) -> Result<String, DriveError>
    requires { IsFalse (is_crash (command_view command)) }
    ensures ok { IfOk result (λ text. Performs D.may_leave kept.old
        (command_view command) (string_bytes text) kept.new) }
    ensures err { IfErr result (λ error. StopsIn D.may_leave D.faults kept.old
        (command_view command) error kept.new) }
    ensures own { IfErr result IsOutside }
    ensures tells { is_some (D.told (kept_disk kept.new)) ≡ is_some (D.told (kept_disk kept.old)) }
    ensures count { D.faults (kept_disk kept.old) ≤ D.faults (kept_disk kept.new) }
{
    match command {
        Command::Open { time } => open(alloc, kept, time),
        Command::Send { session, message } => {
            send(alloc, kept, SessionId::new(session).unwrap(), message)
        }
        Command::Take { session } => take(alloc, kept, SessionId::new(session).unwrap()),
        Command::Lose { session } => lose(alloc, kept, SessionId::new(session).unwrap()),
        Command::Commit => commit(alloc, kept),
        Command::Crash => unreachable!(),
    }
}

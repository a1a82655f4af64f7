//! Rooms by scripts: lines `STEP | ANSWER`, of which each is what is done to a room, or asked of it,
//! and what that answers. Its one session is the first.
use crate::cases::check;
use crate::logs::{ann, bob, tables_of, team};
use crate::messages::last_in;
use mw_base::{SessionId, SlotId, TeamId};
use mw_cases::{ROOM_A, part};
use mw_packets_in::Inbound;
use mw_records::Record;
use mw_room::{Event, Room, SessionState};
use std::alloc::Global;
use std::test::Fail;

/// The number of the session.
pub(crate) fn session() -> SessionId {
    SessionId::new(1).unwrap()
}

/// A small number in digits.
fn digits(number: usize) -> &'static str {
    match number {
        0 => "0",
        1 => "1",
        2 => "2",
        3 => "3",
        _ => "more",
    }
}

/// The event of what the session sends.
fn event_of(session: SessionId, sent: Inbound) -> Event {
    match sent {
        Inbound::Good(packet) => Event::Packet { session, packet },
        Inbound::Wrong(bad) => Event::Bad { session, bad },
    }
}

/// An event by its name, or that of a message.
fn event(alloc: Global, step: &str) -> Result<Event, Fail> {
    let session = session();
    match step {
        "open" => Ok(Event::Open { time: 7 }),
        "lost" => Ok(Event::Lost { session }),
        sent => Ok(event_of(session, last_in(alloc, sent)?)),
    }
}

/// Does an event, and answers how many records that makes.
fn act(room: &mut Room, event: &Event) -> Result<&'static str, Fail> {
    let plan = room.plan(event)?;
    let records = plan.records().len();
    room.apply(plan);
    Ok(digits(records))
}

/// How the session stands.
fn state(room: &Room) -> &'static str {
    match room.state(session()) {
        SessionState::Shut => "shut",
        SessionState::Overrun => "overrun",
        SessionState::Ready { shows: 0 } => "shows 0",
        SessionState::Ready { shows: 1 } => "shows 1",
        SessionState::Ready { .. } => "shows more",
    }
}

/// How many messages the session takes, `shut` where it isn't open.
fn taken(room: &mut Room) -> &'static str {
    if room.state(session()) == SessionState::Shut {
        return "shut";
    }
    digits(room.take(session()).len())
}

/// What a room is asked, and answers without an event.
fn asked(room: &mut Room, step: &str) -> Option<&'static str> {
    match step {
        "state" => Some(state(room)),
        "take" => Some(taken(room)),
        "records" => Some(digits(room.length() as usize)),
        "next session" => Some(digits(room.next_session().get() as usize)),
        _ => None,
    }
}

/// The record that a slot of a team released what its world holds.
fn release(step: &str) -> Option<Record> {
    let (team, slot) = match step {
        "Ann releases" => (team(), ann()),
        "Bob releases" => (team(), bob()),
        "a third slot releases" => (team(), SlotId::new(3).unwrap()),
        "another team releases" => (TeamId::new(1).unwrap(), ann()),
        _ => return None,
    };
    Some(Record::Release { team, slot })
}

/// Enters a record, and answers whether the seed has its slot.
fn enter(room: &mut Room, entry: &Record) -> Result<&'static str, Fail> {
    if room.enter(entry)? {
        Ok("entered")
    } else {
        Ok("refused")
    }
}

/// The answer to a step: of an event or a message how many records it makes.
fn answer(alloc: Global, room: &mut Room, step: &str) -> Result<&'static str, Fail> {
    if let Some(word) = asked(room, step) {
        return Ok(word);
    }
    match release(step) {
        Some(entry) => enter(room, &entry),
        None => act(room, &event(alloc, step)?),
    }
}

/// Fails at the first line of a script that a room answers otherwise.
pub(crate) fn try_steps(alloc: Global, room: &mut Room, script: &str) -> Result<(), Fail> {
    for line in script.split('\n') {
        check(line, answer(alloc, room, part(line, 0))?)?;
    }
    Ok(())
}

/// Tries a script on a room that was just made.
fn try_new(alloc: Global, script: &str) -> Result<(), Fail> {
    let mut room = Room::new(alloc, tables_of(alloc, ROOM_A)?)?;
    try_steps(alloc, &mut room, script)
}

/// The first session is still to be opened, and nothing is recorded.
const NEW: &str = "next session | 1
state | shut
records | 0";

#[test]
fn a_new_room_has_no_session(rt: HostRuntime) -> Result<(), Fail> {
    try_new(rt.alloc(), NEW)
}

/// The session takes one message, which shows nothing, and no more.
const OPENED: &str = "open | 0
state | shows 0
take | 1
state | shows 0
take | 0
records | 0";

#[test]
fn an_opened_session_takes_its_message_once(rt: HostRuntime) -> Result<(), Fail> {
    try_new(rt.alloc(), OPENED)
}

/// Locations, of which one is her own, are checked before Ann connects, and twice after it.
const TWICE: &str = r#"open | 0
[{"cmd":"LocationChecks","locations":[101,101,999]}] | 0
Ann | 0
[{"cmd":"LocationChecks","locations":[101,101,999]}] | 1
[{"cmd":"LocationChecks","locations":[101,101,999]}] | 0
Ann | 0
7 | 0
records | 1"#;

#[test]
fn new_checks_make_one_record(rt: HostRuntime) -> Result<(), Fail> {
    try_new(rt.alloc(), TWICE)
}

/// The messages of a session that checks a location show one record, and none once they are taken.
const SHOWN: &str = "open | 0
Ann | 0
first | 1
state | shows 1
take | 3
state | shows 0
take | 0";

#[test]
fn a_session_shows_the_records_of_its_messages(rt: HostRuntime) -> Result<(), Fail> {
    try_new(rt.alloc(), SHOWN)
}

/// A session that ends is shut, and the next one gets another number.
const LOST: &str = "open | 0
lost | 0
state | shut
next session | 2";

#[test]
fn a_lost_session_is_shut(rt: HostRuntime) -> Result<(), Fail> {
    try_new(rt.alloc(), LOST)
}

/// Just the records of those that the seed has are entered.
const RELEASED: &str = "Ann releases | entered
a third slot releases | refused
another team releases | refused
Bob releases | entered
records | 2
next session | 1";

#[test]
fn records_that_the_seed_names_are_entered(rt: HostRuntime) -> Result<(), Fail> {
    try_new(rt.alloc(), RELEASED)
}

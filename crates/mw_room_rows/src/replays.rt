//! Rooms that are made of a journal's records.
ghost use Rattle.std.specs.Prelude.{IfOk, IsTrue, map};
ghost use Rattle.mw_model.specs.Seed.{Seed};
ghost use Rattle.mw_protocol.specs.Named.{are_named};
ghost use Rattle.mw_records.specs.Records.{record_view};

use crate::cases::agree;
use crate::logs::tables_of;
use crate::rooms::{session, try_steps};
use mw_base::{List, Text};
use mw_cases::ROOM_A;
use mw_json::Tree;
use mw_records::{Record, Stored};
use mw_room::{Room, SessionState};
use std::alloc::Global;
use std::test::Fail;

/// A journal that keeps 5 under a key, and so names nothing of a seed.
fn journal(alloc: Global) -> Result<List<Record>, Fail>
    ensures { IfOk result (λ records. (seed : Seed)
        → IsTrue (are_named seed (map record_view records))) }
{
    let stored = Stored::new(alloc, Text::of(alloc, "k")?, Tree::Whole(5))?;
    let mut records = List::new(alloc);
    records.push(Record::Store(stored.ok_or("too long")?))?;
    Ok(records)
}

/// The room of that journal.
fn replayed(alloc: Global) -> Result<Room, Fail> {
    let tables = tables_of(alloc, ROOM_A)?;
    let records = journal(alloc)?;
    Ok(Room::replay(alloc, tables, &records)?)
}

#[test]
fn a_replayed_room_keeps_its_records(rt: HostRuntime) -> Result<(), Fail> {
    let mut room = replayed(rt.alloc())?;
    try_steps(rt.alloc(), &mut room, "records | 1\nnext session | 1")
}

/// The last message that the session takes.
fn last_taken(room: &mut Room) -> Option<Text> {
    if room.state(session()) == SessionState::Shut {
        return None;
    }
    room.take(session()).into_vec().pop()
}

/// Ann asks for the key.
const GETS: &str = r#"open | 0
Ann | 0
[{"cmd":"Get","keys":["k"]}] | 0"#;

#[test]
fn a_replayed_room_tells_what_was_set(rt: HostRuntime) -> Result<(), Fail> {
    let mut room = replayed(rt.alloc())?;
    try_steps(rt.alloc(), &mut room, GETS)?;
    let message = last_taken(&mut room).ok_or("no message")?;
    agree(message.as_str(), r#"[{"cmd":"Retrieved","keys":{"k":5}}]"#)
}

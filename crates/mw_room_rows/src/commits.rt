//! What is committed together, and what a commit that lacks memory leaves.
use crate::calls::try_calls;
use crate::cases::fine;
use crate::disks::{disk_of, room_of, room_on};
use crate::messages::last_in;
use mw_base::{List, SessionId};
use mw_disk::{DiskError, MemDisk};
use mw_journal::create;
use mw_keep::{Call, KeptRoom, Reply};
use mw_multidata::digest;
use mw_packets_in::Inbound;
use std::alloc::Global;
use std::fmt::Write;
use std::test::Fail;

/// What stands before the names of the locations of a seed file of two slots with fifty locations
/// each.
const FRONT: &str =
    r#"{"format":"mw-multidata-1","games":{"G":{"item_name_to_id":{"Coin":8},"location_name_to_id":{"#;

/// What stands behind its locations.
const BACK: &str =
    r#""seed_name":"fifty","server":{"collect":"goal","hint_cost":10,"location_check_points":1,"password":"","release":"goal","remaining":"goal"},"slots":[{"game":"G","names":["Ann"],"start":[]},{"game":"G","names":["Bob"],"start":[]}],"spheres":[],"teams":1}"#;

/// Puts what stands between two elements.
fn put_comma(text: &mut String, first: bool) -> Result<(), Fail> {
    if !first {
        text.push_str(",")?;
    }
    Ok(())
}

/// Puts the locations of both slots: each holds the other slot's coin.
fn put_locations(text: &mut String) -> Result<(), Fail> {
    for slot in 1..3u64 {
        let receiver = 3 - slot;
        for number in 1..51u64 {
            put_comma(text, slot == 1 && number == 1)?;
            write!(text, "[{slot},{number},8,{receiver},0]")?;
        }
    }
    Ok(())
}

/// The seed file.
fn fifty_each(alloc: Global) -> Result<String, Fail> {
    let mut text = String::from_str(alloc, FRONT)?;
    for number in 1..51u64 {
        put_comma(&mut text, number == 1)?;
        write!(&mut text, r#""L{number}":{number}"#)?;
    }
    text.push_str(r#"}}},"locations":["#)?;
    put_locations(&mut text)?;
    text.push_str("],")?;
    text.push_str(BACK)?;
    Ok(text)
}

/// A new room of it.
fn room_of_fifty(alloc: Global) -> Result<KeptRoom<MemDisk>, Fail> {
    let seed = fifty_each(alloc)?;
    let disk = disk_of(alloc, b"", None)?;
    let journal = create(alloc, disk, &digest(seed.as_bytes()))
        .ok()
        .ok_or("no journal")?;
    room_of(alloc, journal.into_disk(), seed.as_bytes())
}

/// A session's call of the last element of a message.
fn call(alloc: Global, session: u64, message: &str) -> Result<Call, Fail> {
    let session = SessionId::new(session).unwrap();
    match last_in(alloc, message)? {
        Inbound::Good(packet) => Ok(Call::Packet { session, packet }),
        Inbound::Wrong(bad) => Ok(Call::Bad { session, bad }),
    }
}

/// Fails unless the call is done.
fn is_done(room: &mut KeptRoom<MemDisk>, call: Call) -> Result<(), Fail> {
    match room.act(call) {
        Reply::Done | Reply::Opened(_) => Ok(()),
        _ => Err(Fail::from("not done")),
    }
}

/// Both players come.
fn come(alloc: Global, room: &mut KeptRoom<MemDisk>) -> Result<(), Fail> {
    is_done(room, Call::Open { time: 0 })?;
    is_done(room, Call::Open { time: 0 })?;
    is_done(room, call(alloc, 1, "Ann")?)?;
    is_done(room, call(alloc, 2, "Bob")?)
}

/// Each checks all fifty locations, one packet a location, and nobody takes.
fn check_all(alloc: Global, room: &mut KeptRoom<MemDisk>) -> Result<(), Fail> {
    for number in 1..51u64 {
        let message = format!(in alloc; r#"[{{"cmd":"LocationChecks","locations":[{number}]}}]"#)?;
        is_done(room, call(alloc, 1, message.as_str())?)?;
        is_done(room, call(alloc, 2, message.as_str())?)?;
    }
    Ok(())
}

/// How many messages a session takes.
fn taken(room: &mut KeptRoom<MemDisk>, session: u64) -> usize {
    let session = SessionId::new(session).unwrap();
    match room.act(Call::Take { session }) {
        Reply::Messages(texts) => texts.len(),
        _ => 0,
    }
}

/// How many calls a room's disk has seen, once the room is dropped: the first take after fifty
/// checks of each of two sessions, and then as many takes more as are wanted.
fn calls_after(alloc: Global, takes: usize) -> Result<usize, Fail> {
    let mut room = room_of_fifty(alloc)?;
    come(alloc, &mut room)?;
    check_all(alloc, &mut room)?;
    for _ in 0..takes {
        let _ = taken(&mut room, 1);
    }
    Ok(room.into_disk().calls().len())
}

#[test]
fn a_take_after_a_hundred_checks_appends_once(rt: HostRuntime) -> Result<(), Fail> {
    let before = calls_after(rt.alloc(), 0)?;
    let once = calls_after(rt.alloc(), 1)?;
    let twice = calls_after(rt.alloc(), 2)?;
    fine(&[
        ("two writes and two syncs", once.saturating_sub(before) == 4),
        ("and no more", twice == once),
    ])
}

/// RoomInfo, Connected, and a message for each check of either player.
#[test]
fn what_is_taken_then_is_all(rt: HostRuntime) -> Result<(), Fail> {
    let mut room = room_of_fifty(rt.alloc())?;
    come(rt.alloc(), &mut room)?;
    check_all(rt.alloc(), &mut room)?;
    fine(&[
        ("all at once", taken(&mut room, 2) == 102),
        ("then none", taken(&mut room, 2) == 0),
    ])
}

/// Ann takes her check, where the disk has no memory for it, and again.
const LACKING: &str = "open | opened
Ann | done
first | done
take | memory
second | done
commit | memory
take | memory";

/// Fails unless an append whose call of this number finds no memory is answered so, and so is each
/// later one; what nobody took stays pending meanwhile.
fn lacks_at(alloc: Global, number: u64) -> Result<(), Fail> {
    let mut plan = List::new(alloc);
    plan.push((number, DiskError::Memory))?;
    let mut room = room_on(alloc, plan)?;
    try_calls(alloc, &mut room, LACKING)
}

/// Opening makes three calls, and an append four.
#[test]
fn a_disk_without_memory_is_answered_so(rt: HostRuntime) -> Result<(), Fail> {
    for number in 3..7u64 {
        lacks_at(rt.alloc(), number)?;
    }
    Ok(())
}

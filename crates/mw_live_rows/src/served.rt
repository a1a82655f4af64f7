//! Rooms that are served over links.
ghost use Rattle.std.specs.Prelude.{IfOk, []};
ghost use Rattle.mw_keep.specs.Standing.{HasLived};

use mw_base::{List, Text};
use mw_cases::ROOM_A;
use mw_disk::{Disk, SteadyDisk};
use mw_journal::create;
use mw_keep::{KeptRoom, recover};
use mw_link::{Heard, Link, SteadyGate, SteadyLink};
use mw_multidata::digest;
use mw_peers::{Coming, WaitingLink};
use mw_session::{Ended, RoomEnd, Served, serve_room};
use std::alloc::Global;
use std::collections::VecDeque;
use std::sync::atomic::AtomicU32;
use std::sync::{Arc, Wait};
use std::test::Fail;
use std::thread::Threads;

/// What Ann's client sends first, and then that she checked her first location.
pub(crate) const ANN: [&str; 2] = [
    r#"[{"cmd":"Connect","game":"G","items_handling":7,"name":"Ann","tags":["NoText"],"version":{"build":0,"major":0,"minor":5}}]"#,
    r#"[{"cmd":"LocationChecks","locations":[101]}]"#,
];

/// A new room of Room A on a disk without bytes.
pub(crate) fn new_room<D: Disk + Drop>(alloc: Global, disk: D) -> Result<KeptRoom<D>, Fail>
    ensures fresh { IfOk result (λ room. HasLived D.may_leave D.told D.faults room []) }
{
    let journal = create(alloc, disk, &digest(ROOM_A.as_bytes())).ok();
    let disk = journal.ok_or("no journal")?.into_disk();
    match recover(alloc, disk, ROOM_A.as_bytes()) {
        Ok(room) => Ok(room),
        Err(_) => Err(Fail::from("no room")),
    }
}

/// The texts that come over a link.
pub(crate) fn coming(alloc: Global, texts: &[&str]) -> Result<VecDeque<Heard>, Fail> {
    let mut list = VecDeque::new(alloc);
    for text in texts {
        list.push_back(Heard::Words(Text::of(alloc, text)?))?;
    }
    Ok(list)
}

/// How many sessions over the links of all workers ended with the link.
fn closed<T>(served: &List<List<Served<T>>>) -> u64 {
    let mut closed = 0u64;
    for list in served.as_slice() {
        for entry in list.as_slice() {
            if matches!(entry.ended, Ended::Closed) {
                closed = closed.saturating_add(1);
            }
        }
    }
    closed
}

/// What comes over a link that then waits for one sign.
fn one_sign(alloc: Global, first: VecDeque<Heard>) -> Coming {
    Coming {
        first,
        wanted: 1,
        then: VecDeque::new(alloc),
    }
}

/// The first link hears nothing until the second one's check is answered. A server that serves one
/// link after the other never comes to the second.
#[test]
fn two_links_wait_for_each_other(rt: HostRuntime) -> Result<(), Fail> {
    let alloc = rt.alloc();
    let signs = Arc::new(alloc, AtomicU32::new(0))?;
    let silent = one_sign(alloc, VecDeque::new(alloc));
    let waiting = WaitingLink::new(alloc, silent, Arc::try_clone(&signs)?, None);
    let ann = one_sign(alloc, coming(alloc, &ANN)?);
    let speaking = WaitingLink::new(alloc, ann, signs, Some("RoomUpdate"));
    let mut links = VecDeque::new(alloc);
    links.push_back(waiting)?;
    links.push_back(speaking)?;
    let room = new_room(alloc, SteadyDisk::new(alloc, List::new(alloc))?)?;
    let end = serve_room(&rt, alloc, SteadyGate::new(links), room, 2, None);
    assert!(rt; closed(&end.served) == 2 && end.accepted == 2);
    Ok(())
}

/// A room that one worker serves over one link.
fn served_alone<R: Threads + Wait + Sync>(
    rt: &R,
    alloc: Global,
    coming: VecDeque<Heard>,
) -> Result<RoomEnd<SteadyDisk, SteadyGate<SteadyLink>>, Fail> {
    let mut links = VecDeque::new(alloc);
    links.push_back(SteadyLink::new(alloc, coming, 0))?;
    let room = new_room(alloc, SteadyDisk::new(alloc, List::new(alloc))?)?;
    Ok(serve_room(rt, alloc, SteadyGate::new(links), room, 1, None))
}

/// How many texts were sent over the first link, and why its session ended.
fn first_of(end: &RoomEnd<SteadyDisk, SteadyGate<SteadyLink>>) -> Result<(usize, Ended), Fail> {
    let list = end.served.get(0).ok_or("no worker")?;
    let entry = list.get(0).ok_or("no link")?;
    Ok((entry.line.sent().len(), entry.ended))
}

#[test]
fn a_session_is_served_to_its_end(rt: HostRuntime) -> Result<(), Fail> {
    let alloc = rt.alloc();
    let end = served_alone(&rt, alloc, coming(alloc, &ANN)?)?;
    let (sent, ended) = first_of(&end)?;
    assert!(rt; sent == 3 && matches!(ended, Ended::Closed));
    assert!(rt; end.accepted == 1 && !end.gate_failed && !end.memory && end.stopped.is_none());
    Ok(())
}

#[test]
fn before_connect(rt: HostRuntime) -> Result<(), Fail> {
    let alloc = rt.alloc();
    let texts = [r#"[{"cmd":"Sync"}]"#, r#"[{"cmd":"Fly"}]"#, "7"];
    let end = served_alone(&rt, alloc, coming(alloc, &texts)?)?;
    let (sent, ended) = first_of(&end)?;
    assert!(rt; sent == 3 && matches!(ended, Ended::Closed));
    Ok(())
}

/// A message that is no text counts as one that is no JSON, and a text of more than 524,288 bytes
/// ends its session.
#[test]
fn overrun_and_too_long(rt: HostRuntime) -> Result<(), Fail> {
    let alloc = rt.alloc();
    let mut long = String::new(alloc);
    for _ in 0..524_289 {
        long.push(' ')?;
    }
    let mut list = VecDeque::new(alloc);
    list.push_back(Heard::Binary)?;
    list.push_back(Heard::Words(Text::from_string(long)))?;
    list.push_back(Heard::Words(Text::of(alloc, "7")?))?;
    let end = served_alone(&rt, alloc, list)?;
    let (sent, ended) = first_of(&end)?;
    assert!(rt; sent == 2 && matches!(ended, Ended::TooLong { bytes: 524_289 }));
    Ok(())
}

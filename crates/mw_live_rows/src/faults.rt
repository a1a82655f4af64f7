//! Links and gates that fail at each of their calls.
ghost use Rattle.std.specs.Prelude.{◌≡◌, IfOk, [], false};

use crate::served::{ANN, coming, new_room};
use mw_base::List;
use mw_disk::SteadyDisk;
use mw_edges::Faults;
use mw_link::{MemoryGate, MemoryLink, SteadyGate, SteadyLink};
use mw_session::{Ended, RoomEnd, Served, serve_room};
use std::alloc::Global;
use std::collections::VecDeque;
use std::sync::Wait;
use std::test::Fail;
use std::thread::Threads;

/// The call of this number fails.
fn failing(alloc: Global, call: u64) -> Result<Faults, Fail>
    ensures { IfOk result (λ f. f.count ≡ 0) }
{
    let mut calls = List::new(alloc);
    calls.push(call)?;
    Ok(Faults::at(calls))
}

/// A link over which Ann connects and checks a location, and whose call of this number fails.
fn link_of_ann(alloc: Global, call: u64) -> Result<MemoryLink, Fail>
    ensures { IfOk result (λ l. (l.line.heard ≡ []) × (l.line.sent ≡ []) × (l.line.faults ≡ 0)
        × (l.plan.count ≡ 0) × (l.line.shut ≡ false)) }
{
    let link = SteadyLink::new(alloc, coming(alloc, &ANN)?, 0);
    Ok(MemoryLink::new(link, failing(alloc, call)?))
}

/// What a room comes to that one worker serves over two such links. A call of the first link fails,
/// and one of the gate.
fn served<R: Threads + Wait + Sync>(
    rt: &R,
    alloc: Global,
    of_link: u64,
    of_gate: u64,
) -> Result<RoomEnd<SteadyDisk, MemoryGate<MemoryLink>>, Fail> {
    let mut links = VecDeque::new(alloc);
    links.push_back(link_of_ann(alloc, of_link)?)?;
    links.push_back(link_of_ann(alloc, u64::MAX)?)?;
    let gate = MemoryGate::new(SteadyGate::new(links), failing(alloc, of_gate)?);
    let room = new_room(alloc, SteadyDisk::new(alloc, List::new(alloc))?)?;
    Ok(serve_room(rt, alloc, gate, room, 1, None))
}

/// Why the session over the link of this number ended.
fn end_of<T>(served: &List<List<Served<T>>>, number: usize) -> Result<Ended, Fail> {
    let list = served.get(0).ok_or("no worker")?;
    let entry = list.get(number).ok_or("no link")?;
    Ok(entry.ended)
}

/// Ann is sent three messages, and her link is asked three times for what comes: six calls.
#[test]
fn a_link_fails_at_each_call(rt: HostRuntime) -> Result<(), Fail> {
    for call in 0..7 {
        let end = served(&rt, rt.alloc(), call, u64::MAX)?;
        let first = end_of(&end.served, 0)?;
        let second = end_of(&end.served, 1)?;
        assert!(rt; matches!(first, Ended::LinkFault) == (call < 6));
        assert!(rt; matches!(second, Ended::Closed));
        assert!(rt; end.accepted == 2 && !end.gate_failed && end.stopped.is_none());
    }
    Ok(())
}

/// The first link is served to its end.
#[test]
fn a_gate_fails_at_its_second_call(rt: HostRuntime) -> Result<(), Fail> {
    let end = served(&rt, rt.alloc(), u64::MAX, 1)?;
    let first = end_of(&end.served, 0)?;
    assert!(rt; matches!(first, Ended::Closed));
    assert!(rt; end.accepted == 1 && end.gate_failed && end.stopped.is_none());
    Ok(())
}

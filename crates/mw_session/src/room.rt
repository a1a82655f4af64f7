//! A room that is served over all links of a gate.
ghost use Rattle.std.specs.Prelude.{List, ◌≡◌, ◌<◌, ◌≤◌, ◌+◌, ℕ, [], All, length, vec_len, vec_capacity, IfSome, MatchOption, Some, None, true, false};
ghost use Rattle.mw_model.specs.Seed.{Seed};
ghost use Rattle.mw_protocol.specs.Records.{Record};
ghost use Rattle.mw_lock.specs.History.{events};
ghost use Rattle.mw_lock.specs.Passes.{IsWhole};
ghost use Rattle.mw_keep.specs.Keeps.{origin_of};
ghost use Rattle.mw_keep.specs.Standing.{Began, HasLived, MayReply};
ghost use Rattle.mw_session.specs.Desks.{IsWithin};
ghost use Rattle.mw_session.specs.Numbers.{all_numbers, NoneTwice};
ghost use Rattle.mw_session.specs.Stops.{lacks_by};
ghost use Rattle.mw_session.specs.Rooms.{base_of, Commits, HasMet, IsDone, IsFull, IsReport, IsServed, count_all};

use crate::desk::{Desk, Limit};
use crate::served::Served;
use crate::session::stop_by;
use crate::worker::{Report, work_all};
use mw_base::List;
use mw_disk::Disk;
use mw_keep::{Call, KeptRoom, Reply, StopCause};
use mw_link::Gate;
use mw_lock::{NotAll, Pass, RoomLock};
use std::alloc::Global;
use std::marker::Brand;
use std::sync::ledger::{Blank, Ledger, Share};
use std::sync::{Mutex, Wait};
use std::thread::Threads;

/// What is left of a room that was served.
#[derive(Drop)]
pub struct RoomEnd<D: Disk, G: Gate> {
    /// The room.
    pub room: KeptRoom<D>,
    /// The gate.
    pub gate: G,
    /// How many links were accepted.
    pub accepted: u64,
    /// For each worker the links that it served, in order.
    pub served: List<List<Served<G::Line>>>,
    /// Whether a call of the gate failed.
    pub gate_failed: bool,
    /// Whether memory ran out for a worker, or for all of them.
    pub memory: bool,
    /// Why the room goes no further, where a call was so answered.
    pub stopped: Option<StopCause>,
}

/// Room that is made before the workers start.
#[derive(Drop)]
struct Rooms<T, D: Disk, L: Ledger> {
    reports: Vec<Report<T, D, L>>,
    done: Vec<Report<T, D, L>>,
    served: Vec<List<Served<T>>>,
}

/// What the workers came back with, once their passes met in the first one.
#[derive(Drop)]
struct Met<T> {
    served: Vec<List<Served<T>>>,
    lacking: bool,
    stopped: Option<StopCause>,
}

/// Room for what the workers begin with, for what they come back with, and for their lists.
fn rooms_for<T: Drop, D: Disk, L: Ledger>(alloc: Global, workers: u32) -> Option<Rooms<T, D, L>>
    ensures { IfSome result (λ x. (x.reports.items ≡ []) × (x.done.items ≡ [])
        × (x.served.items ≡ []) × (workers ≤ vec_capacity x.reports)
        × (workers ≤ vec_capacity x.done) × (workers ≤ vec_capacity x.served)) }
{
    let reports = Vec::with_capacity(alloc, workers as usize).ok()?;
    let done = Vec::with_capacity(alloc, workers as usize).ok()?;
    let served = Vec::with_capacity(alloc, workers as usize).ok()?;
    Some(Rooms {
        reports,
        done,
        served,
    })
}

/// What one worker begins with.
fn split_one<G: Gate, D: Disk, L: Ledger, R: Wait>(
    rt: &R,
    alloc: Global,
    room: &RoomLock<KeptRoom<D>>,
    first: &mut Pass<KeptRoom<D>>,
    all: &mut Share<L>,
) -> Option<Report<G::Line, D, L>>
    requires lock { first.old.lock ≡ room.now }
    requires parts { 1 < all.old.parts }
    requires amount { all.old.amount ≡ 0 }
    ensures first { first.new ≡ first.old }
    ensures amount { all.new.amount ≡ 0 }
    ensures parts { MatchOption result (all.new.parts ≡ all.old.parts)
        (λ r. all.new.parts + 1 ≡ all.old.parts) }
    ensures report { IfSome result (λ r. IsReport G.Line.heard G.Line.sent G.Line.faults
        G.Line.opened G.Line.is_shut room.now
        r.pass r.share.parts r.share.amount r.served.items r.over
        r.stopped) }
{
    let Ok(pass) = room.split(rt, first) else {
        return None;
    };
    let share = all.split_off(1, 0);
    Some(Report {
        pass,
        share,
        served: Vec::new(alloc),
        over: false,
        memory: false,
        stopped: None,
    })
}

/// What each worker begins with: a pass and a part of the ledger.
fn split_all<G: Gate, D: Disk, L: Ledger, R: Wait>(
    rt: &R,
    alloc: Global,
    room: &RoomLock<KeptRoom<D>>,
    first: &mut Pass<KeptRoom<D>>,
    all: &mut Share<L>,
    workers: u32,
    mut reports: Vec<Report<G::Line, D, L>>,
) -> Vec<Report<G::Line, D, L>>
    requires lock { first.old.lock ≡ room.now }
    requires none { reports.items ≡ [] }
    requires space { workers ≤ vec_capacity reports }
    requires parts { workers < all.old.parts }
    requires amount { all.old.amount ≡ 0 }
    ensures first { first.new ≡ first.old }
    ensures reports { All (λ r. IsReport G.Line.heard G.Line.sent G.Line.faults
        G.Line.opened G.Line.is_shut
        room.now r.pass r.share.parts r.share.amount r.served.items r.over r.stopped)
        result.items }
    ensures few { length result.items ≤ workers }
    ensures parts { all.new.parts + length result.items ≡ all.old.parts }
    ensures amount { all.new.amount ≡ 0 }
{
    for _ in 0..workers {
        let Some(report) = split_one::<G, D, L, R>(rt, alloc, room, first, all) else {
            return reports;
        };
        reports.push_reserved(report);
    }
    reports
}

/// Takes in what the workers came back with.
fn meet_all<G: Gate, D: Disk, L: Ledger>(
    room: &RoomLock<KeptRoom<D>>,
    first: &mut Pass<KeptRoom<D>>,
    all: &mut Share<L>,
    mut done: Vec<Report<G::Line, D, L>>,
    served: Vec<List<Served<G::Line>>>,
) -> Met<G::Line>
    requires reports { All (λ r. IsReport G.Line.heard G.Line.sent G.Line.faults
        G.Line.opened G.Line.is_shut
        room.now r.pass r.share.parts r.share.amount r.served.items r.over r.stopped
        × IsDone r.over r.memory r.stopped) done.items }
    requires met { HasMet G.Line.heard G.Line.sent G.Line.faults
        G.Line.opened G.Line.is_shut room.now
        first.old.base first.old all.old.amount served.items false None }
    requires space { vec_len served + length done.items ≤ vec_capacity served }
    ensures met { HasMet G.Line.heard G.Line.sent G.Line.faults
        G.Line.opened G.Line.is_shut room.now
        first.old.base first.new all.new.amount result.served.items result.lacking
        result.stopped }
    ensures parts { all.new.parts ≡ all.old.parts + length done.items }
    ensures many { length result.served.items ≡ vec_len served + length done.items }
{
    let mut met = Met {
        served,
        lacking: false,
        stopped: None,
    };
    while let Some(report) = done.pop() {
        let Report {
            pass,
            share,
            served: list,
            over: _,
            memory,
            stopped,
        } = report;
        room.meet(first, pass);
        all.merge(share);
        met.served.push_reserved(List::from_vec(list));
        met.lacking = met.lacking | memory;
        met.stopped = stopped.or(met.stopped);
    }
    done.destroy_empty();
    met
}

/// Leaves nothing pending, where memory is there and the room hasn't stopped.
fn commit<R: Wait, D: Disk>(
    rt: &R,
    room: &RoomLock<KeptRoom<D>>,
    first: &mut Pass<KeptRoom<D>>,
) -> Reply
    requires lock { first.old.lock ≡ room.now }
    ensures { Commits (MayReply D.may_leave) first.old result first.new }
{
    room.act(rt, first, Call::Commit)
}

/// Whether memory was wanting for a Commit that was answered so.
fn lacks(reply: &Reply) -> bool
    ensures { result ≡ lacks_by reply.now }
{
    !matches!(reply, Reply::Done | Reply::Stopped(_))
}

/// Ends the lock. It tries again where a pass is out, which no schedule leads to.
fn close_all<R: Wait, D: Disk>(
    rt: &R,
    mut lock: RoomLock<KeptRoom<D>>,
    mut first: Pass<KeptRoom<D>>,
) -> KeptRoom<D>
    requires lock { first.lock ≡ lock }
    ensures stands { HasLived D.may_leave D.told D.faults result (events first.seen) }
    ensures base { base_of result ≡ first.base }
    ensures whole { IsWhole first }
{
    for _ in rt.forever() {
        match lock.close(first) {
            Ok(room) => return room,
            Err(left) => {
                let NotAll {
                    lock: again,
                    pass,
                    out: _,
                } = left;
                lock = again;
                first = pass;
            }
        }
    }
    unreachable!()
}

/// Serves the room by as many workers as there are passes, under a ledger with a part for each.
fn serve_all<
    G: Gate + Send,
    D: Disk + Send + Drop,
    L: Ledger + Limit + Send,
    R: Threads + Wait + Sync,
>(
    rt: &R,
    alloc: Global,
    blank: Blank,
    gate: G,
    room: KeptRoom<D>,
    workers: u32,
    accept: Option<u64>,
) -> RoomEnd<D, G>
    requires name { blank.name ≡ L.name }
    requires parts { blank.parts ≡ L.parts }
    requires each { blank.parts ≡ workers + 1 }
    requires limit { accept ≡ L.most }
    requires ready { G.listened gate ≡ L.listened }
    requires workers { 1 ≤ workers }
    requires fresh { HasLived D.may_leave D.told D.faults room [] }
    requires gate { G.given gate ≡ 0 }
    ensures history { IsServed G.Line.heard G.Line.sent G.Line.faults G.Line.opened G.Line.is_shut
        (MayReply D.may_leave) base_of (HasLived D.may_leave D.told D.faults) room result.room
        result.served
        result.memory result.stopped }
    ensures accepted { result.accepted ≡ count_all result.served }
    ensures given { G.given result.gate ≡ result.accepted }
    ensures failed { result.gate_failed ≡ true → 0 < G.faults result.gate }
    ensures ready { G.listened result.gate ≡ G.listened gate }
    ensures within { IsWithin accept result.accepted }
    ensures all { IsFull accept result.gate_failed result.memory result.stopped result.accepted
        (G.left result.gate) (G.ended result.gate) }
{
    let Some(rooms) = rooms_for::<G::Line, D, L>(alloc, workers) else {
        return unserved(alloc, room, gate);
    };
    let (lock, mut first) = match RoomLock::open(alloc, room) {
        Ok(opened) => opened,
        Err(room) => return unserved(alloc, room, gate),
    };
    let (book, mut all) = blank.open::<L>();
    let Rooms {
        reports,
        done,
        served,
    } = rooms;
    let reports = split_all::<G, D, L, R>(rt, alloc, &lock, &mut first, &mut all, workers, reports);
    let fewer = reports.len() < workers as usize;
    let desk = Mutex::new(Desk::new(gate, accept, book));
    let done = work_all(rt, alloc, &desk, &lock, reports, done);
    let met = meet_all::<G, D, L>(&lock, &mut first, &mut all, done, served);
    let Met {
        served,
        lacking,
        stopped,
    } = met;
    let reply = commit(rt, &lock, &mut first);
    let short = lacks(&reply);
    let stopped = stop_by(&reply).or(stopped);
    let room = close_all(rt, lock, first);
    let (gate, accepted, gate_failed) = desk.into_inner().end(all);
    RoomEnd {
        room,
        gate,
        accepted,
        served: List::from_vec(served),
        gate_failed,
        memory: (lacking | fewer) | short,
        stopped,
    }
}

/// A room that could not be served for want of memory.
fn unserved<D: Disk, G: Gate>(alloc: Global, room: KeptRoom<D>, gate: G) -> RoomEnd<D, G>
    ensures { result ≡ record {
      room = room;
      gate = gate;
      accepted = 0;
      served = [];
      gate_failed = false;
      memory = true;
      stopped = None;
    } }
{
    RoomEnd {
        room,
        gate,
        accepted: 0,
        served: List::new(alloc),
        gate_failed: false,
        memory: true,
        stopped: None,
    }
}

/// Serves the room over the links of a gate by so many workers, at least 1, until so many links are
/// accepted; without a number, until the gate gives no more. The room is one that stands for no call
/// yet, as `recover` gives it, and the gate one that listens already and has given no link.
///
/// Each worker serves one link at a time, by one session, and shuts it at the session's end. It
/// stops where no link is left for it, where memory runs out for it, and where one of its calls is
/// answered that the room has stopped. Once all have returned, one Commit is made. The room and the
/// gate come back, whatever came.
///
/// Memory alone may be wanting before a session is opened: the room then comes back as it was.
///
/// It waits for its workers, and they for their turns and as long as the gate and the links do.
pub fn serve_room<G: Gate + Send, D: Disk + Send + Drop, R: Threads + Wait + Sync>(
    rt: &R,
    alloc: Global,
    gate: G,
    room: KeptRoom<D>,
    workers: u32,
    accept: Option<u64>,
) -> RoomEnd<D, G>
    requires workers { 1 ≤ workers }
    requires fresh { HasLived D.may_leave D.told D.faults room [] }
    requires faults { G.faults gate ≡ 0 }
    requires gate { G.given gate ≡ 0 }
    ensures history { IsServed G.Line.heard G.Line.sent G.Line.faults G.Line.opened G.Line.is_shut
        (MayReply D.may_leave) base_of (HasLived D.may_leave D.told D.faults) room result.room
        result.served
        result.memory result.stopped }
    ensures numbers { (digest : List ℕ) (seed : Seed) (journal : List Record) (place : ℕ)
        → Began D.may_leave digest seed journal place (origin_of room)
        → NoneTwice (all_numbers result.served) }
    ensures accepted { result.accepted ≡ count_all result.served }
    ensures given { G.given result.gate ≡ result.accepted }
    ensures failed { result.gate_failed ≡ true → 0 < G.faults result.gate }
    ensures ready { G.listened result.gate ≡ G.listened gate }
    ensures within { IsWithin accept result.accepted }
    ensures all { IsFull accept result.gate_failed result.memory result.stopped result.accepted
        (G.left result.gate) (G.ended result.gate) }
{
    let blank = Blank::new(workers as u64 + 1);
    serve_all::<G, D, Brand, R>(rt, alloc, blank, gate, room, workers, accept)
}

//! One worker, which serves one link after the other, and several workers side by side.
ghost use Rattle.std.specs.Prelude.{◌≡◌, ◌+◌, ◌<◌, ◌≤◌, All, length, vec_capacity, false, true};
ghost use Rattle.std.specs.Thread.{IsSend, IsSync};
ghost use Rattle.mw_link.specs.Tells.{IsNew};
ghost use Rattle.mw_session.specs.Rooms.{IsDone, IsReport, ServesOne};

use crate::desk::{Desk, Limit, Next};
use crate::served::Served;
use crate::session::serve;
use mw_disk::Disk;
use mw_keep::{KeptRoom, StopCause};
use mw_link::{Gate, Link};
use mw_lock::{Pass, RoomLock};
use std::alloc::Global;
use std::sync::ledger::{Ledger, Share};
use std::sync::{Mutex, Wait};
use std::thread::{Threads, join};

/// What a worker has: its pass and share, the links that it served, and why it stops, if it does:
/// no link is left for it, memory ran out, or one of its calls was answered that the room has
/// stopped.
#[derive(Drop)]
pub struct Report<T, D: Disk, L: Ledger> {
    pub pass: Pass<KeptRoom<D>>,
    pub share: Share<L>,
    pub served: Vec<Served<T>>,
    pub over: bool,
    pub memory: bool,
    pub stopped: Option<StopCause>,
}

/// Serves a link and shuts it; also tells why the room has stopped, where a call was so answered.
fn serve_line<R: Wait, T: Link, D: Disk>(
    rt: &R,
    alloc: Global,
    room: &RoomLock<KeptRoom<D>>,
    pass: &mut Pass<KeptRoom<D>>,
    mut line: T,
) -> (Served<T>, Option<StopCause>)
    requires lock { pass.old.lock ≡ room.now }
    requires new { IsNew T.heard T.sent T.faults T.is_shut line }
    ensures { ServesOne T.heard T.sent T.faults T.opened T.is_shut pass.old result.0 result.1
        pass.new }
{
    let time = line.opened();
    let (session, ended, stopped) = serve(rt, alloc, &mut line, room, pass, time);
    line.shut();
    let served = Served {
        line,
        session,
        ended,
    };
    (served, stopped)
}

/// Serves one link more, unless none is left.
fn step<G: Gate, D: Disk, L: Ledger + Limit, R: Wait>(
    rt: &R,
    alloc: Global,
    desk: &Mutex<Desk<G, L>>,
    room: &RoomLock<KeptRoom<D>>,
    report: Report<G::Line, D, L>,
) -> Report<G::Line, D, L>
    requires report { IsReport G.Line.heard G.Line.sent G.Line.faults
        G.Line.opened G.Line.is_shut room.now
        report.pass report.share.parts report.share.amount report.served.items report.over
        report.stopped }
    requires more { report.over ≡ false }
    ensures report { IsReport G.Line.heard G.Line.sent G.Line.faults
        G.Line.opened G.Line.is_shut room.now
        result.pass result.share.parts result.share.amount result.served.items result.over
        result.stopped }
{
    let mut report = report;
    if report.served.reserve(1).is_err() {
        report.memory = true;
        return report;
    }
    // Bound before the match, so that the lock is free while the link is served.
    let next = desk.lock(rt).next(&mut report.share);
    match next {
        Next::Line(line) => {
            let (entry, stopped) = serve_line(rt, alloc, room, &mut report.pass, line);
            report.served.push_reserved(entry);
            report.stopped = report.stopped.or(stopped);
        }
        Next::Over => report.over = true,
        Next::Memory => report.memory = true,
    }
    report
}

/// Serves links until none is left for it.
fn work<G: Gate, D: Disk, L: Ledger + Limit, R: Wait>(
    rt: &R,
    alloc: Global,
    desk: &Mutex<Desk<G, L>>,
    room: &RoomLock<KeptRoom<D>>,
    mut report: Report<G::Line, D, L>,
) -> Report<G::Line, D, L>
    requires report { IsReport G.Line.heard G.Line.sent G.Line.faults
        G.Line.opened G.Line.is_shut room.now
        report.pass report.share.parts report.share.amount report.served.items report.over
        report.stopped }
    ensures report { IsReport G.Line.heard G.Line.sent G.Line.faults
        G.Line.opened G.Line.is_shut room.now
        result.pass result.share.parts result.share.amount result.served.items result.over
        result.stopped }
    ensures done { IsDone result.over result.memory result.stopped }
{
    for _ in rt.forever() {
        if report.over || report.memory || report.stopped.is_some() {
            return report;
        }
        report = step(rt, alloc, desk, room, report);
    }
    unreachable!()
}

/// Runs a worker for each report, and puts what they come back with behind `done`.
pub(crate) fn work_all<
    G: Gate + Send,
    D: Disk + Send + Drop,
    L: Ledger + Limit + Send,
    R: Threads + Wait + Sync,
>(
    rt: &R,
    alloc: Global,
    desk: &Mutex<Desk<G, L>>,
    room: &RoomLock<KeptRoom<D>>,
    mut reports: Vec<Report<G::Line, D, L>>,
    done: Vec<Report<G::Line, D, L>>,
) -> Vec<Report<G::Line, D, L>>
    requires reports { All (λ r. IsReport G.Line.heard G.Line.sent G.Line.faults
        G.Line.opened G.Line.is_shut
        room.now r.pass r.share.parts r.share.amount r.served.items r.over r.stopped)
        reports.items }
    requires done { All (λ r. IsReport G.Line.heard G.Line.sent G.Line.faults
        G.Line.opened G.Line.is_shut
        room.now r.pass r.share.parts r.share.amount r.served.items r.over r.stopped
        × IsDone r.over r.memory r.stopped) done.items }
    requires room { length done.items + length reports.items ≤ vec_capacity done }
    ensures reports { All (λ r. IsReport G.Line.heard G.Line.sent G.Line.faults
        G.Line.opened G.Line.is_shut
        room.now r.pass r.share.parts r.share.amount r.served.items r.over r.stopped
        × IsDone r.over r.memory r.stopped) result.items }
    ensures all { length result.items ≡ length done.items + length reports.items }
    ensures room { vec_capacity result ≡ vec_capacity done }
{
    let Some(report) = reports.pop() else {
        reports.destroy_empty();
        return done;
    };
    let (report, mut done) = join(
        rt,
        || -> Report<G::Line, D, L>
            requires { IsReport G.Line.heard G.Line.sent G.Line.faults
                G.Line.opened G.Line.is_shut room.now
                report.pass report.share.parts report.share.amount report.served.items report.over
                report.stopped }
            ensures report { IsReport G.Line.heard G.Line.sent G.Line.faults
                G.Line.opened G.Line.is_shut
                room.entry.now result.pass result.share.parts result.share.amount
                result.served.items result.over result.stopped }
            ensures done { IsDone result.over result.memory result.stopped }
        { work(rt, alloc, desk, room, report) },
        || -> Vec<Report<G::Line, D, L>>
            requires sent { IsSend G.row × IsSend D.row × IsSend L.row × IsSync R.row }
            requires reports { All (λ r. IsReport G.Line.heard G.Line.sent G.Line.faults
                G.Line.opened G.Line.is_shut room.now
                r.pass r.share.parts r.share.amount r.served.items r.over
                r.stopped) reports.items }
            requires done { All (λ r. IsReport G.Line.heard G.Line.sent G.Line.faults
                G.Line.opened G.Line.is_shut room.now
                r.pass r.share.parts r.share.amount r.served.items r.over
                r.stopped × IsDone r.over r.memory r.stopped) done.items }
            requires room { length done.items + length reports.items ≤ vec_capacity done }
            ensures reports { All (λ r. IsReport G.Line.heard G.Line.sent G.Line.faults
                G.Line.opened G.Line.is_shut room.entry.now
                r.pass r.share.parts r.share.amount r.served.items
                r.over r.stopped × IsDone r.over r.memory r.stopped) result.items }
            ensures all { length result.items ≡ length done.items + length reports.items }
            ensures room { vec_capacity result ≡ vec_capacity done }
        { work_all(rt, alloc, desk, room, reports, done) },
    );
    done.push_reserved(report);
    done
}

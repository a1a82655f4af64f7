ghost use Rattle.std.specs.Prelude.{◌≡◌, All, [], length};

use crate::counter::Counter;
use crate::workers::act_all;
use mw_lock::RoomLock;
use std::alloc::Global;
use std::sync::Wait;
use std::thread::Threads;

/// How many calls so many workers made together, each of them so many. None where memory runs out.
pub(crate) fn race<R: Threads + Wait + Sync>(
    rt: &R,
    alloc: Global,
    workers: u32,
    times: u32,
) -> Option<u64> {
    let (lock, mut first) = RoomLock::open(alloc, Counter { calls: 0 }).ok()?;
    let mut passes = Vec::new(alloc);
    for _ in 0..workers {
        let pass = lock.split(rt, &mut first).ok()?;
        passes.push(pass).ok()?;
    }
    let done = Vec::with_capacity(alloc, passes.len()).ok()?;
    let mut done = act_all(rt, &lock, times, passes, done);
    while let Some(pass) = done.pop() {
        lock.meet(&mut first, pass);
    }
    let counter = lock.close(first).ok()?;
    Some(counter.calls)
}

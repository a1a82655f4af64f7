//! Sixteen workers that share a lock, each in a thread of its own.
ghost use Rattle.std.specs.Prelude.{◌≡◌};
ghost use Rattle.std.specs.Thread.{IsSync};

use crate::lock_sums::{Sum, add};
use mw_lock::{Pass, RoomLock};
use std::sync::Wait;
use std::thread::{Threads, join};

/// Runs so many workers, each of which adds 1 ten thousand times. The passes of the others are split from the given
/// one, and meet in it as they return.
fn add_all<R: Threads + Wait + Sync>(
    rt: &R,
    lock: &RoomLock<Sum>,
    workers: u32,
    mut pass: Pass<Sum>,
) -> Pass<Sum>
    requires { pass.lock ≡ lock.now }
    ensures { result.lock ≡ lock.now }
{
    if workers == 0 {
        return pass;
    }
    let left = workers - 1;
    let Ok(next) = lock.split(rt, &mut pass) else {
        return pass;
    };
    let (mut pass, next) = join(
        rt,
        || -> Pass<Sum>
            requires { pass.lock ≡ lock.now }
            ensures { result.lock ≡ lock.entry.now }
        { add(rt, lock, pass, 1, 10_000) },
        || -> Pass<Sum>
            requires sent { IsSync R.row }
            requires lock { next.lock ≡ lock.now }
            ensures { result.lock ≡ lock.entry.now }
        { add_all(rt, lock, left, next) },
    );
    lock.meet(&mut pass, next);
    pass
}

#[test]
fn sixteen_workers_make_ten_thousand_calls_each(rt: HostRuntime) {
    let Ok((lock, first)) = RoomLock::open(rt.alloc(), Sum::from(7)) else {
        panic!(rt; "no memory")
    };
    let first = add_all(&rt, &lock, 16, first);
    let Ok(sum) = lock.close(first) else {
        panic!(rt; "a pass was out")
    };
    assert!(rt; sum.total == 160_007);
}

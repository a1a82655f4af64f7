//! Two threads that act on one lock: each adds until it has seen what the other did, and then adds some more.
ghost use Rattle.std.specs.Prelude.{◌≡◌};

use crate::lock_sums::{Sum, add};
use mw_lock::{Pass, RoomLock};
use std::sync::Wait;
use std::test::Fail;
use std::thread;
use std::thread::join;
use std::time::{Clock, Duration};

/// One of the two: it adds 1 until the total is more than its own calls, and so has a call of the other, and then adds
/// the number some times. Gives how many calls it made before, 0 where 10,000 turns pass and the other isn't seen.
fn see_and_add<R: Wait + Clock>(
    rt: &R,
    lock: &RoomLock<Sum>,
    mut pass: Pass<Sum>,
    number: u64,
    times: u32,
) -> (u64, Pass<Sum>)
    requires { pass.lock ≡ lock.now }
    ensures { result.1.lock ≡ pass.lock }
{
    for turn in 1..=10_000u64 {
        if lock.act(rt, &mut pass, 1) > turn {
            return (turn, add(rt, lock, pass, number, times));
        }
        thread::sleep(rt, Duration::from_micros(100));
    }
    (0, pass)
}

/// The total in the end. The lock isn't closed while one of its two passes is out, and is once that was met.
fn total_of(lock: RoomLock<Sum>, first: Pass<Sum>, second: Pass<Sum>) -> Result<u64, Fail>
    requires { (first.lock ≡ lock) × (second.lock ≡ lock) }
{
    let Err(left) = lock.close(first) else {
        return Err(Fail::from("a pass was out"));
    };
    if left.out != 1 {
        return Err(Fail::from("another number of passes was out"));
    }
    let mut first = left.pass;
    left.lock.meet(&mut first, second);
    match left.lock.close(first) {
        Ok(sum) => Ok(sum.total),
        Err(_) => Err(Fail::from("no pass was out")),
    }
}

#[test]
fn two_threads_see_each_other_and_add_to_one_sum(rt: HostRuntime) -> Result<(), Fail> {
    let Ok((lock, mut first)) = RoomLock::open(rt.alloc(), Sum::from(0)) else {
        panic!(rt; "no memory")
    };
    let Ok(second) = lock.split(&rt, &mut first) else {
        panic!(rt; "no memory")
    };
    let (near, far) = join(
        &rt,
        || -> (u64, Pass<Sum>)
            requires { first.lock ≡ lock }
            ensures { result.1.lock ≡ first.lock }
        { see_and_add(&rt, &lock, first, 3, 100) },
        || -> (u64, Pass<Sum>)
            requires { second.lock ≡ lock }
            ensures { result.1.lock ≡ second.lock }
        { see_and_add(&rt, &lock, second, 5, 50) },
    );
    let (saw, first) = near;
    let (seen, second) = far;
    let total = total_of(lock, first, second)?;
    assert!(rt; saw > 0 && seen > 0 && total == saw.wrapping_add(seen).wrapping_add(550));
    Ok(())
}

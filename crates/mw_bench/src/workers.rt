ghost use Rattle.std.specs.Prelude.{◌≡◌, ◌+◌, ◌≤◌, All, length, vec_capacity};
ghost use Rattle.std.specs.Thread.{IsSync};

use crate::counter::Counter;
use mw_lock::{Pass, RoomLock};
use std::sync::Wait;
use std::thread::{Threads, join};

// One worker.
fn act_often<R: Wait>(
    rt: &R,
    lock: &RoomLock<Counter>,
    mut pass: Pass<Counter>,
    times: u32,
) -> Pass<Counter>
    requires { pass.lock ≡ lock.now }
    ensures { result.lock ≡ pass.lock }
{
    for _ in 0..times {
        lock.act(rt, &mut pass, ());
    }
    pass
}

/// Runs a worker for each pass, each in a thread of its own, and puts the passes behind `done` as they return.
pub fn act_all<R: Threads + Wait + Sync>(
    rt: &R,
    lock: &RoomLock<Counter>,
    times: u32,
    mut passes: Vec<Pass<Counter>>,
    done: Vec<Pass<Counter>>,
) -> Vec<Pass<Counter>>
    requires locks { All (λ p. p.lock ≡ lock.now) passes.items
        × All (λ p. p.lock ≡ lock.now) done.items }
    requires room { length done.items + length passes.items ≤ vec_capacity done }
    ensures locks { All (λ p. p.lock ≡ lock.now) result.items }
    ensures all { length result.items ≡ length done.items + length passes.items }
    ensures room { vec_capacity result ≡ vec_capacity done }
{
    let Some(pass) = passes.pop() else {
        passes.destroy_empty();
        return done;
    };
    let (pass, mut done) = join(
        rt,
        || -> Pass<Counter>
            requires { pass.lock ≡ lock.now }
            ensures { result.lock ≡ lock.entry.now }
        { act_often(rt, lock, pass, times) },
        || -> Vec<Pass<Counter>>
            requires sent { IsSync R.row }
            requires locks { All (λ p. p.lock ≡ lock.now) passes.items
                × All (λ p. p.lock ≡ lock.now) done.items }
            requires room { length done.items + length passes.items ≤ vec_capacity done }
            ensures locks { All (λ p. p.lock ≡ lock.entry.now) result.items }
            ensures all { length result.items ≡ length done.items + length passes.items }
            ensures room { vec_capacity result ≡ vec_capacity done }
        { act_all(rt, lock, times, passes, done) },
    );
    done.push_reserved(pass);
    done
}

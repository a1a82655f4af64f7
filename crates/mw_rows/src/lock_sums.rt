//! A sum under the lock.
ghost use Rattle.std.specs.Prelude.{◌≡◌, ◌+◌, ◌%◌, ◌^◌, sum_by};

use mw_lock::{Pass, RoomLock, Stands};
use std::sync::Wait;

/// A total that wraps. A call adds a number, and the reply is the total after it.
#[derive(Drop)]
pub(crate) struct Sum {
    pub(crate) start: u64,
    pub(crate) total: u64,
}

impl Sum {
    pub(crate) fn from(start: u64) -> Sum
        ensures { (result.start ≡ start) × (result.total ≡ start) }
    {
        Sum {
            start,
            total: start,
        }
    }
}

impl Stands for Sum {
    type Call = u64;

    type Reply = u64;

    type Base = u64;

    ghost base = { λ s. s.start };

    ghost any_base = { 0 };

    ghost replies = { λ b past call reply. reply ≡ (b + sum_by (λ x. x.0) past + call) % 2 ^ 64 };

    ghost stands = { λ s past. s.total ≡ (s.start + sum_by (λ x. x.0) past) % 2 ^ 64 };

    fn act(&mut self, call: u64) -> u64 {
        self.total = self.total.wrapping_add(call);
        self.total
    }
}

/// One worker: it adds the number some times.
pub(crate) fn add<R: Wait>(
    rt: &R,
    lock: &RoomLock<Sum>,
    mut pass: Pass<Sum>,
    number: u64,
    times: u32,
) -> Pass<Sum>
    requires { pass.lock ≡ lock.now }
    ensures { result.lock ≡ pass.lock }
{
    for _ in 0..times {
        lock.act(rt, &mut pass, number);
    }
    pass
}

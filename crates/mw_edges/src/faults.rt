ghost use Rattle.std.specs.Prelude.{◌≡◌, ◌≤◌, ◌||◌};
ghost use Rattle.mw_edges.specs.FaultPlan.{first_plan, fails, after_call, after_fault};

use mw_base::List;
use mw_disk::Tally;
use std::marker::Model;

/// Counts the calls of an object in memory, and tells which of them are to fail.
#[derive(Drop)]
pub struct Faults {
    call: u64,
    count: Tally,
    failing: List<u64>,
}

impl Model for Faults {
    ghost use Rattle.mw_edges.specs.FaultPlan.{FaultPlan};

    ghost Value = { FaultPlan };

    ghost view = { λ f. record { call = f.call; count = f.count; failing = f.failing } };
}

impl Faults {
    /// The calls of these numbers are to fail. The first call has the number 0, and each call from
    /// 2^64 - 1 on has that number.
    pub fn at(failing: List<u64>) -> Faults
        ensures { result ≡ first_plan failing }
    {
        Faults {
            call: 0,
            count: Tally::new(),
            failing,
        }
    }

    /// Counts a call, and answers whether it fails: where it is to fail, or is broken by itself.
    pub fn count_call(&mut self, broken: bool) -> bool
        ensures failed { result ≡ (broken || fails self.old) }
        ensures plan { self.new ≡ after_call result self.old }
        ensures later { self.old.call ≤ self.new.call }
    {
        let failed = broken || self.failing.as_slice().contains(&self.call);
        if failed {
            self.count.raise();
        }
        self.call = self.call.saturating_add(1);
        failed
    }
    /// Counts a fault that no call had, where there was one.
    pub(crate) fn count_fault(&mut self, failed: bool)
        ensures { self.new ≡ after_fault failed self.old }
    {
        if failed {
            self.count.raise();
        }
    }
}

ghost use Rattle.std.specs.Prelude.{◌<◌, IfOk};

use mw_base::List;
use std::io::{self, ErrorKind};

/// How a call on an object in memory goes.
#[derive(Clone, Copy)]
pub enum CallLuck {
    /// As it should.
    Whole,
    /// A read or a write takes so many bytes at most, and at least one.
    Short(usize),
    /// A signal interrupts it.
    Interrupted,
    /// It fails.
    Failed,
}

/// How the calls on an object in memory go: as listed, and those behind the list as they should.
#[derive(Drop)]
pub struct CallPlan {
    luck: List<CallLuck>,
    call: usize,
}

impl CallPlan {
    /// No call was made yet.
    pub fn new(luck: List<CallLuck>) -> CallPlan {
        CallPlan { luck, call: 0 }
    }

    /// How many bytes the next call takes at most, or how it fails.
    pub fn draw(&mut self) -> io::Result<usize>
        ensures { IfOk result (λ most. 0 < most) }
    {
        let Some(drawn) = self.luck.as_slice().get(self.call) else {
            return Ok(usize::MAX);
        };
        self.call = self.call.saturating_add(1);
        match *drawn {
            CallLuck::Whole => Ok(usize::MAX),
            CallLuck::Short(most) => Ok(most.max(1)),
            CallLuck::Interrupted => Err(io::Error::from(ErrorKind::Interrupted)),
            CallLuck::Failed => Err(io::Error::other("planned to fail")),
        }
    }
}

ghost use Rattle.std.specs.Prelude.{◌≡◌, ◌+◌, ◌-◌, [], None, length};
ghost use Rattle.std.specs.Option.{option_copied};
ghost use Rattle.mw_link.specs.Dials.{exchanges_of};
ghost use Rattle.mw_link.specs.Memory.{AreNew};

use crate::counted::CountedLink;
use crate::dial::Dial;
use crate::link::{Link, LinkError};
use crate::log::Log;
use mw_base::Text;
use mw_edges::{Faults, Tally};
use std::collections::VecDeque;
use std::marker::Model;

/// A dial in memory that gives the links of a list, all of them new, whatever address is dialled,
/// and fails once none is left. Its calls of `dial` fail as planned.
///
/// Contracts see the links to come, the addresses at which it gave one, the lines that it hung up,
/// how many of these had failed, and the plan.
pub struct MemoryDial<L: Link> {
    coming: VecDeque<L>,
    dialled: Log<Text>,
    lines: Log<L>,
    last: Option<L>,
    broken: Tally,
    faults: Faults,
}

impl<L: Link> Model for MemoryDial<L> {
    ghost use Rattle.std.specs.Prelude.{◌≤◌, length};
    ghost use Rattle.mw_link.specs.Dials.{Dialler};
    ghost use Rattle.mw_link.specs.Memory.{AreNew};

    ghost Value = { Dialler L };

    ghost view = { λ d. record {
      coming = d.coming.items;
      dialled = d.dialled;
      lines = d.lines;
      last = d.last;
      broken = d.broken;
      plan = d.faults;
    } };

    ghost invariant = { λ d. AreNew L.heard L.sent L.faults L.is_shut d.coming.items
        × (length d.lines ≤ length d.dialled) };
}

impl<L: Link + Drop> Drop for MemoryDial<L> {
    fn drop(self) {
        let MemoryDial {
            coming: _,
            dialled: _,
            lines: _,
            last: _,
            broken: _,
            faults: _,
        } = self;
    }
}

impl<L: Link> MemoryDial<L> {
    /// A dial that gives these links.
    pub fn new(coming: VecDeque<L>, faults: Faults) -> MemoryDial<L>
        requires { AreNew L.heard L.sent L.faults L.is_shut coming.items }
        ensures { result ≡ record {
          coming = coming.items;
          dialled = [];
          lines = [];
          last = None;
          broken = 0;
          plan = faults;
        } }
    {
        MemoryDial {
            coming,
            dialled: Log::new(),
            lines: Log::new(),
            last: None,
            broken: Tally::new(),
            faults,
        }
    }

    /// The link that was hung up last, which is shut.
    pub fn last(&self) -> Option<&L>
        ensures { option_copied result ≡ self.now.last }
    {
        self.last.as_ref()
    }
}

impl<L: Link + Drop> Dial for MemoryDial<L> {
    type Line = CountedLink<L>;

    ghost dialled = { λ d. d.dialled };

    ghost hung_up = { λ d. exchanges_of L.heard L.sent d.lines };

    ghost out = { λ d. length d.dialled - length d.lines };

    ghost faults = { λ d. d.broken + d.plan.count };

    fn dial(&mut self, at: &Text) -> Result<CountedLink<L>, LinkError> {
        if self.faults.count_call(self.coming.is_empty()) {
            return Err(LinkError::Failed);
        }
        match self.coming.pop_front() {
            Some(line) => {
                self.dialled.note(at);
                Ok(CountedLink::new(line))
            }
            None => unreachable!(),
        }
    }

    fn hang_up(&mut self, line: CountedLink<L>) {
        if line.has_failed() {
            self.broken.raise();
        }
        let mut line = line.into_line();
        self.lines.note(&line);
        line.shut();
        self.last = Some(line);
    }
}

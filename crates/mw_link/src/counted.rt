ghost use Rattle.std.specs.Prelude.{◌≡◌, ◌<◌, ◌↔◌, IsTrue};

use crate::link::{Heard, Link, LinkError};
use mw_base::Text;
use mw_edges::Tally;
use std::marker::Model;

/// A link that was dialled, which counts how often it has failed. Contracts see the link, and the
/// count.
#[derive(Drop)]
pub struct CountedLink<L> {
    line: L,
    failed: Tally,
}

impl<L> Model for CountedLink<L> {
    ghost use Rattle.mw_link.specs.Dials.{CountedLine};

    ghost Value = { CountedLine L };

    ghost view = { λ l. record { line = l.line; faults = l.failed } };
}

impl<L> CountedLink<L> {
    /// This link, which has not failed yet.
    pub(crate) fn new(line: L) -> CountedLink<L>
        ensures { result ≡ record { line = line; faults = 0 } }
    {
        CountedLink {
            line,
            failed: Tally::new(),
        }
    }

    /// Whether it has failed.
    pub(crate) fn has_failed(&self) -> bool
        ensures { IsTrue result ↔ (0 < self.now.faults) }
    {
        self.failed.has_risen()
    }

    /// The link.
    pub(crate) fn into_line(self) -> L
        ensures { result ≡ self.line }
    {
        let CountedLink { line, failed: _ } = self;
        line
    }
}

impl<L: Link> Link for CountedLink<L> {
    ghost heard = { λ l. L.heard l.line };

    ghost sent = { λ l. L.sent l.line };

    ghost faults = { λ l. l.faults };

    ghost opened = { λ _. 0 };

    ghost is_shut = { λ l. L.is_shut l.line };

    fn recv(&mut self) -> Result<Heard, LinkError> {
        let answer = self.line.recv();
        if let Err(LinkError::Failed) = &answer {
            self.failed.raise();
        }
        answer
    }

    fn send(&mut self, text: &Text) -> Result<(), LinkError> {
        let answer = self.line.send(text);
        if let Err(LinkError::Failed) = &answer {
            self.failed.raise();
        }
        answer
    }

    fn opened(&self) -> u64 {
        0
    }

    fn shut(&mut self) {
        self.line.shut();
    }
}

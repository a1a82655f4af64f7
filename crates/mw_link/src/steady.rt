ghost use Rattle.std.specs.Prelude.{◌≡◌, ◌+◌, [], ◌∷◌, ◌++◌, true, false, Some, Ok, Err};
ghost use Rattle.mw_edges.specs.Causes.{HasCause};
ghost use Rattle.mw_link.specs.Memory.{AreNew, Line, new_gateway, new_line, next_of, rest_of};
ghost use Rattle.mw_link.specs.Tells.{Gives, Hears, IfGiven, IsNew, Sends, ended_after, given_after, told};

use crate::gate::Gate;
use crate::link::{Heard, Link, LinkError};
use crate::log::Log;
use mw_base::{List, Text};
use mw_edges::{Failed, Tally};
use std::alloc::Global;
use std::collections::VecDeque;
use std::marker::Model;

/// A link over which a given list comes, and then the end. It keeps what was sent, and never fails
/// but where a text is sent after it was shut.
///
/// Contracts see what is to come, what it heard and sent, how often it has failed, when it was
/// accepted, and whether it was shut.
pub struct SteadyLink {
    alloc: Global,
    coming: VecDeque<Heard>,
    heard: Log<Heard>,
    sent: List<Text>,
    failed: Tally,
    opened: u64,
    shut: bool,
}

/// By hand, so that whoever lets it go calls this, and what it frees is listed once.
impl Drop for SteadyLink {
    fn drop(self) {
        let SteadyLink {
            alloc: _,
            coming: _,
            heard: _,
            sent: _,
            failed: _,
            opened: _,
            shut: _,
        } = self;
    }
}

impl Model for SteadyLink {
    ghost use Rattle.mw_link.specs.Memory.{Line};

    ghost Value = { Line };

    ghost view = { λ l. record {
      coming = l.coming.items;
      heard = l.heard;
      sent = l.sent;
      faults = l.failed;
      opened = l.opened;
      shut = l.shut;
    } };
}

impl SteadyLink {
    /// A link over which this comes, accepted at this second.
    pub fn new(alloc: Global, coming: VecDeque<Heard>, opened: u64) -> SteadyLink
        ensures { result ≡ new_line coming.items opened }
    {
        SteadyLink {
            alloc,
            coming,
            heard: Log::new(),
            sent: List::new(alloc),
            failed: Tally::new(),
            opened,
            shut: false,
        }
    }

    /// The texts that were sent, in order.
    pub fn sent(&self) -> &[Text]
        ensures { result.now ≡ self.now.sent }
    {
        self.sent.as_slice()
    }

    /// Whether it was shut.
    pub fn is_shut(&self) -> bool
        ensures { result ≡ self.now.shut }
    {
        self.shut
    }

    /// Notes and gives what was heard.
    fn hear(&mut self, heard: Heard) -> Heard
        ensures result { result ≡ heard }
        ensures heard { self.new ≡ record self.old { heard = self.old.heard ++ heard ∷ [] } }
    {
        self.heard.note(&heard);
        heard
    }
}

impl Link for SteadyLink {
    ghost heard = { λ l. l.heard };

    ghost sent = { λ l. l.sent };

    ghost faults = { λ l. l.faults };

    ghost opened = { λ l. l.opened };

    ghost is_shut = { λ l. l.shut };

    fn recv(&mut self) -> Result<Heard, LinkError>
        ensures heard { Hears self.old.heard self.new.heard result }
        ensures sent { self.new.sent ≡ self.old.sent }
        ensures opened { self.new.opened ≡ self.old.opened }
        ensures shut { self.new.shut ≡ self.old.shut }
        ensures over { self.old.shut ≡ true → result ≡ Ok Heard.End }
        ensures cause { HasCause self.old.faults self.new.faults LinkError.Failed result }
        ensures next { self.old.shut ≡ false → result ≡ Ok (next_of self.old.coming) }
        ensures rest { self.old.shut ≡ false → self.new.coming ≡ rest_of self.old.coming }
        ensures faults { self.new.faults ≡ self.old.faults }
    {
        if self.shut {
            return Ok(self.hear(Heard::End));
        }
        match self.coming.pop_front() {
            Some(heard) => Ok(self.hear(heard)),
            None => Ok(self.hear(Heard::End)),
        }
    }

    fn send(&mut self, text: &Text) -> Result<(), LinkError>
        ensures heard { self.new.heard ≡ self.old.heard }
        ensures sent { Sends self.old.sent self.new.sent text.now result }
        ensures opened { self.new.opened ≡ self.old.opened }
        ensures shut { self.new.shut ≡ self.old.shut }
        ensures over { self.old.shut ≡ true → result ≡ Err LinkError.Failed }
        ensures cause { HasCause self.old.faults self.new.faults LinkError.Failed result }
        ensures coming { self.new.coming ≡ self.old.coming }
        ensures steady { self.old.shut ≡ false → self.new.faults ≡ self.old.faults }
    {
        if self.shut {
            self.failed.raise();
            return Err(LinkError::Failed);
        }
        let Ok(copy) = Text::of(self.alloc, text.as_str()) else {
            return Err(LinkError::Memory);
        };
        match self.sent.push(copy) {
            Ok(()) => Ok(()),
            Err(_) => Err(LinkError::Memory),
        }
    }

    fn opened(&self) -> u64 {
        self.opened
    }

    fn shut(&mut self) {
        self.shut = true;
    }
}

/// A gate that gives the links of a list, all of them new, and then none. It never fails.
///
/// Contracts see the links that are left, how many it has given, whether it has answered that it
/// gives no more, and the addresses at which it was made ready.
pub struct SteadyGate<T: Link> {
    left: VecDeque<T>,
    given: Tally,
    ended: bool,
    listened: Log<Text>,
}

impl<T: Link> Model for SteadyGate<T> {
    ghost use Rattle.mw_link.specs.Memory.{AreNew, Gateway};

    ghost Value = { Gateway T };

    ghost view = { λ g. record {
      left = g.left.items;
      given = g.given;
      ended = g.ended;
      listened = g.listened;
    } };

    ghost invariant = { λ g. AreNew T.heard T.sent T.faults T.is_shut g.left.items };
}

impl<T: Link + Drop> Drop for SteadyGate<T> {
    fn drop(self) {
        let SteadyGate {
            left: _,
            given: _,
            ended: _,
            listened: _,
        } = self;
    }
}

impl<T: Link> SteadyGate<T> {
    /// A gate that gives these links.
    pub fn new(left: VecDeque<T>) -> SteadyGate<T>
        requires new { AreNew T.heard T.sent T.faults T.is_shut left.items }
        ensures { result ≡ new_gateway left.items }
    {
        SteadyGate {
            left,
            given: Tally::new(),
            ended: false,
            listened: Log::new(),
        }
    }

    /// Makes it ready at an address.
    pub(crate) fn note(&mut self, at: &Text)
        ensures { self.new ≡ record self.old { listened = self.old.listened ++ at.now ∷ [] } }
    {
        self.listened.note(at);
    }

    /// The next link, where one is left.
    pub(crate) fn give(&mut self) -> Option<T>
        ensures given { self.new.given ≡ given_after self.old.given (told result) }
        ensures left { Gives (Some self.old.left) (Some self.new.left) (told result) }
        ensures ended { self.new.ended ≡ ended_after self.old.ended (told result) }
        ensures listened { self.new.listened ≡ self.old.listened }
        ensures new { IfGiven (told result) (IsNew T.heard T.sent T.faults T.is_shut) }
    {
        match self.left.pop_front() {
            Some(line) => {
                self.given.raise();
                Some(line)
            }
            None => {
                self.ended = true;
                None
            }
        }
    }
}

impl<T: Link + Send + Drop> Gate for SteadyGate<T> {
    type Line = T;

    ghost given = { λ g. g.given };

    ghost left = { λ g. Some g.left };

    ghost ended = { λ g. g.ended };

    ghost listened = { λ g. g.listened };

    ghost faults = { λ _. 0 };

    fn listen(&mut self, at: &Text) -> Result<(), Failed> {
        self.note(at);
        Ok(())
    }

    fn accept(&mut self) -> Result<Option<T>, LinkError> {
        Ok(self.give())
    }
}

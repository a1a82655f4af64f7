ghost use Rattle.std.specs.Prelude.{◌≡◌, ◌+◌, ◌↔◌, true, false, Some, Ok, Err, IsErr, IsErrOf, IsTrue, OnOk, not};
ghost use Rattle.mw_edges.specs.Causes.{HasCause, HasFault};
ghost use Rattle.mw_edges.specs.FaultPlan.{after_call, fails};
ghost use Rattle.mw_link.specs.Memory.{next_of, rest_of};
ghost use Rattle.mw_link.specs.Tells.{Gives, Hears, IfGiven, IsNew, Sends, ended_after, given_after};

use crate::gate::Gate;
use crate::link::{Heard, Link, LinkError};
use crate::steady::{SteadyGate, SteadyLink};
use mw_base::Text;
use mw_edges::{Failed, Faults};
use std::marker::Model;

/// A link in memory over which a given list comes, and whose calls of `recv` and `send` fail as
/// planned, up to the call that shuts it. Contracts see what a link that never fails shows, and the
/// plan.
pub struct MemoryLink {
    inner: SteadyLink,
    faults: Faults,
}

/// By hand, so that whoever lets it go calls this, and what it frees is listed once.
impl Drop for MemoryLink {
    fn drop(self) {
        let MemoryLink {
            inner: _,
            faults: _,
        } = self;
    }
}

impl Model for MemoryLink {
    ghost use Rattle.mw_link.specs.Memory.{PlannedLine};

    ghost Value = { PlannedLine };

    ghost view = { λ l. record { line = l.inner; plan = l.faults } };
}

impl MemoryLink {
    /// A link whose calls fail as planned, and which is else like this one.
    pub fn new(inner: SteadyLink, faults: Faults) -> MemoryLink
        ensures { result ≡ record { line = inner; plan = faults } }
    {
        MemoryLink { inner, faults }
    }

    /// The texts that were sent, in order.
    pub fn sent(&self) -> &[Text]
        ensures { result.now ≡ self.now.line.sent }
    {
        self.inner.sent()
    }
}

impl Link for MemoryLink {
    ghost heard = { λ l. l.line.heard };

    ghost sent = { λ l. l.line.sent };

    ghost faults = { λ l. l.line.faults + l.plan.count };

    ghost opened = { λ l. l.line.opened };

    ghost is_shut = { λ l. l.line.shut };

    fn recv(&mut self) -> Result<Heard, LinkError>
        ensures heard { Hears self.old.line.heard self.new.line.heard result }
        ensures sent { self.new.line.sent ≡ self.old.line.sent }
        ensures opened { self.new.line.opened ≡ self.old.line.opened }
        ensures shut { self.new.line.shut ≡ self.old.line.shut }
        ensures over { self.old.line.shut ≡ true → result ≡ Ok Heard.End }
        ensures cause { HasCause (self.old.line.faults + self.old.plan.count)
            (self.new.line.faults + self.new.plan.count) LinkError.Failed result }
        ensures failed { self.old.line.shut ≡ false → fails self.old.plan ≡ true
            → (result ≡ Err LinkError.Failed) × (self.new.line ≡ self.old.line) }
        ensures next { self.old.line.shut ≡ false → fails self.old.plan ≡ false
            → (result ≡ Ok (next_of self.old.line.coming))
            × (self.new.line.coming ≡ rest_of self.old.line.coming) }
        ensures plan { self.old.line.shut ≡ false
            → self.new.plan ≡ after_call (fails self.old.plan) self.old.plan }
    {
        if !self.inner.is_shut() && self.faults.count_call(false) {
            return Err(LinkError::Failed);
        }
        self.inner.recv()
    }

    fn send(&mut self, text: &Text) -> Result<(), LinkError>
        ensures heard { self.new.line.heard ≡ self.old.line.heard }
        ensures sent { Sends self.old.line.sent self.new.line.sent text.now result }
        ensures opened { self.new.line.opened ≡ self.old.line.opened }
        ensures shut { self.new.line.shut ≡ self.old.line.shut }
        ensures over { self.old.line.shut ≡ true → result ≡ Err LinkError.Failed }
        ensures cause { HasCause (self.old.line.faults + self.old.plan.count)
            (self.new.line.faults + self.new.plan.count) LinkError.Failed result }
        ensures failed { self.old.line.shut ≡ false
            → (IsErrOf result LinkError.Failed ↔ IsTrue (fails self.old.plan)) }
        ensures plan { self.old.line.shut ≡ false
            → self.new.plan ≡ after_call (fails self.old.plan) self.old.plan }
        ensures coming { self.new.line.coming ≡ self.old.line.coming }
    {
        if !self.inner.is_shut() && self.faults.count_call(false) {
            return Err(LinkError::Failed);
        }
        self.inner.send(text)
    }

    fn opened(&self) -> u64 {
        self.inner.opened()
    }

    fn shut(&mut self) {
        self.inner.shut();
    }
}

/// A gate in memory that gives the links of a list, all of them new, and then none, and whose calls
/// fail as planned. Contracts see what a gate that never fails shows, and the plan.
pub struct MemoryGate<T: Link> {
    inner: SteadyGate<T>,
    faults: Faults,
}

impl<T: Link> Model for MemoryGate<T> {
    ghost use Rattle.mw_link.specs.Memory.{PlannedGateway};

    ghost Value = { PlannedGateway T };

    ghost view = { λ g. record { gateway = g.inner; plan = g.faults } };
}

impl<T: Link + Drop> Drop for MemoryGate<T> {
    fn drop(self) {
        let MemoryGate {
            inner: _,
            faults: _,
        } = self;
    }
}

impl<T: Link> MemoryGate<T> {
    /// A gate whose calls fail as planned, and which is else like this one.
    pub fn new(inner: SteadyGate<T>, faults: Faults) -> MemoryGate<T>
        ensures { result ≡ record { gateway = inner; plan = faults } }
    {
        MemoryGate { inner, faults }
    }
}

impl<T: Link + Send + Drop> Gate for MemoryGate<T> {
    type Line = T;

    ghost given = { λ g. g.gateway.given };

    ghost left = { λ g. Some g.gateway.left };

    ghost ended = { λ g. g.gateway.ended };

    ghost listened = { λ g. g.gateway.listened };

    ghost faults = { λ g. g.plan.count };

    fn listen(&mut self, at: &Text) -> Result<(), Failed>
        ensures given { self.new.gateway.given ≡ self.old.gateway.given }
        ensures left { Some self.new.gateway.left ≡ Some self.old.gateway.left }
        ensures ended { self.new.gateway.ended ≡ self.old.gateway.ended }
        ensures listened { Sends self.old.gateway.listened self.new.gateway.listened at.now result }
        ensures ok { OnOk result (self.new.plan.count ≡ self.old.plan.count) }
        ensures cause { HasFault self.old.plan.count self.new.plan.count result }
        ensures failed { IsErr result ↔ IsTrue (fails self.old.plan) }
        ensures plan { self.new.plan ≡ after_call (fails self.old.plan) self.old.plan }
    {
        if self.faults.count_call(false) {
            return Err(Failed);
        }
        self.inner.note(at);
        Ok(())
    }

    fn accept(&mut self) -> Result<Option<T>, LinkError>
        ensures given { self.new.gateway.given ≡ given_after self.old.gateway.given result }
        ensures left { Gives (Some self.old.gateway.left) (Some self.new.gateway.left) result }
        ensures ended { self.new.gateway.ended ≡ ended_after self.old.gateway.ended result }
        ensures listened { self.new.gateway.listened ≡ self.old.gateway.listened }
        ensures new { IfGiven result (IsNew T.heard T.sent T.faults T.is_shut) }
        ensures cause { HasCause self.old.plan.count self.new.plan.count LinkError.Failed result }
        ensures failed { IsErr result ↔ IsTrue (fails self.old.plan) }
        ensures plan { self.new.plan ≡ after_call (fails self.old.plan) self.old.plan }
    {
        if self.faults.count_call(false) {
            return Err(LinkError::Failed);
        }
        Ok(self.inner.give())
    }
}

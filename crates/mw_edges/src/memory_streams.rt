ghost use Rattle.std.specs.Prelude.{◌≡◌, ◌+◌, ◌↔◌, [], min, length, Some, IsTrue, IsErr, IsErrOf, OnOk, OnErr, IfOk};
ghost use Rattle.std.specs.Io.{ReadsAtMost};
ghost use Rattle.std.specs.Io.KnownBytes.{Appends, ReadConsumes};
ghost use Rattle.mw_edges.specs.Causes.{HasCause, HasFault, PutsFront};
ghost use Rattle.mw_edges.specs.FaultPlan.{fails, after_call};

use crate::faults::Faults;
use crate::sink::{Sink, SinkError};
use crate::source::{Failed, Source};
use crate::steady::{SteadySink, SteadySource};
use mw_base::Bytes;
use std::alloc::Global;
use std::marker::Model;

/// A source over bytes in memory, whose calls fail as planned. Contracts see the bytes that are
/// left and the plan.
pub struct MemorySource {
    inner: SteadySource,
    faults: Faults,
}

/// By hand, so that whoever lets it go calls this, and what it frees is listed once.
impl Drop for MemorySource {
    fn drop(self) {
        let MemorySource {
            inner: _,
            faults: _,
        } = self;
    }
}

impl Model for MemorySource {
    ghost use Rattle.mw_edges.specs.Memory.{MemoryStream};

    ghost Value = { MemoryStream };

    ghost view = { λ s. record { bytes = s.inner; plan = s.faults } };
}

impl MemorySource {
    /// A source of these bytes.
    pub fn new(bytes: Bytes, faults: Faults) -> MemorySource
        ensures bytes { result.bytes ≡ bytes }
        ensures plan { result.plan ≡ faults }
    {
        MemorySource {
            inner: SteadySource::new(bytes),
            faults,
        }
    }
}

impl Source for MemorySource {
    ghost left = { λ s. Some s.bytes };

    ghost faults = { λ s. s.plan.count };

    fn take(&mut self, into: &mut [u8]) -> Result<usize, Failed>
        ensures bound { ReadsAtMost result into.new }
        ensures bytes { ReadConsumes (Some self.old.bytes) (Some self.new.bytes) result into.new }
        ensures count { IfOk result (λ n. n ≡ min (length into.old) (length self.old.bytes)) }
        ensures failed { IsErr result ↔ IsTrue (fails self.old.plan) }
        ensures plan { self.new.plan ≡ after_call (fails self.old.plan) self.old.plan }
        ensures cause { HasFault self.old.plan.count self.new.plan.count result }
    {
        if self.faults.count_call(false) {
            return Err(Failed);
        }
        Ok(self.inner.give(into))
    }
}

/// A sink that keeps its bytes in memory, and whose calls fail as planned. Contracts see the bytes
/// that were put, how often memory for more was wanting, and the plan.
pub struct MemorySink {
    inner: SteadySink,
    faults: Faults,
}

/// By hand, so that whoever lets it go calls this, and what it frees is listed once.
impl Drop for MemorySink {
    fn drop(self) {
        let MemorySink {
            inner: _,
            faults: _,
        } = self;
    }
}

impl Model for MemorySink {
    ghost use Rattle.mw_edges.specs.Memory.{MemoryBytes};

    ghost Value = { MemoryBytes };

    ghost view = { λ s. record {
      bytes = s.inner.bytes;
      wanting = s.inner.wanting;
      plan = s.faults;
    } };
}

impl MemorySink {
    /// A sink to which nothing was put. It takes no memory yet.
    pub fn new(alloc: Global, faults: Faults) -> MemorySink
        ensures bytes { result.bytes ≡ [] }
        ensures wanting { result.wanting ≡ 0 }
        ensures plan { result.plan ≡ faults }
    {
        MemorySink {
            inner: SteadySink::new(alloc),
            faults,
        }
    }

    /// The bytes that were put.
    pub fn bytes(&self) -> &[u8]
        ensures { result.now ≡ self.now.bytes }
    {
        self.inner.bytes()
    }
}

impl Sink for MemorySink {
    ghost held = { λ s. Some s.bytes };

    ghost faults = { λ s. s.plan.count };

    ghost refusals = { λ s. s.plan.count + s.wanting };

    fn put(&mut self, bytes: &[u8]) -> Result<(), SinkError>
        ensures ok { OnOk result (Appends (Some self.old.bytes) (Some self.new.bytes) bytes.now) }
        ensures err { OnErr result
            (PutsFront (Some self.old.bytes) (Some self.new.bytes) bytes.now) }
        ensures same { OnErr result (self.new.bytes ≡ self.old.bytes) }
        ensures failed { IsErrOf result SinkError.Failed ↔ IsTrue (fails self.old.plan) }
        ensures plan { self.new.plan ≡ after_call (fails self.old.plan) self.old.plan }
        ensures cause { HasCause self.old.plan.count self.new.plan.count SinkError.Failed result }
        ensures refused { HasFault (self.old.plan.count + self.old.wanting)
            (self.new.plan.count + self.new.wanting) result }
    {
        if self.faults.count_call(false) {
            return Err(SinkError::Failed);
        }
        match self.inner.keep(bytes) {
            Ok(()) => Ok(()),
            Err(_) => Err(SinkError::Memory),
        }
    }
}

ghost use Rattle.std.specs.Prelude.{◌≡◌, ◌≤◌, ◌<◌, ◌+◌, ◌^◌, ◌++◌, ◌⊎◌, ℕ, List, length, is_some, OnOk, IfErr, IsErrOf};
ghost use Rattle.mw_disk.specs.Crash.{LeavesOnly};
ghost use Rattle.mw_journal.specs.Settled.{IsSettled};

use crate::commit::{commit, framed};
use crate::error::AppendError;
use crate::state::JournalState;
use mw_base::Bytes;
use mw_disk::{Disk, DiskError};
use std::alloc::Global;

/// The most bytes that a journal's file may have.
pub(crate) const LIMIT: u64 = 1 << 30;

/// A journal on a disk: a text in batches, each behind a gate, of which a crash keeps each batch
/// whole or leaves it out.
///
/// Contracts see its disk, the place of its first gate that isn't open, and its state. It stands
/// for a text where it is whole and each image of its disk does, with 0 at that gate.
#[derive(Drop)]
pub struct Journal<D> {
    alloc: Global,
    disk: D,
    gate: u64,
    state: JournalState,
    ghost below_limit: { gate < 2 ^ 30 },
}

impl<D: Disk> Journal<D> {
    ghost use Rattle.mw_journal.specs.Journal.{disk_of, gate_of, state_of, StandsFor, IsSame, TellsFull, Leaves};

    /// A journal whose gate at a place isn't open.
    pub(crate) fn at_gate(alloc: Global, disk: D, gate: u64) -> Journal<D>
        requires { gate < 2 ^ 30 }
        ensures disk { disk_of result ≡ disk }
        ensures gate { gate_of result ≡ gate }
        ensures state { state_of result ≡ JournalState.Whole }
    {
        Journal {
            alloc,
            disk,
            gate,
            state: JournalState::Whole,
        }
    }

    /// The place of its first gate that isn't open.
    pub fn gate(&self) -> u64
        ensures { result ≡ gate_of self.now }
    {
        self.gate
    }

    /// Whether it takes further batches.
    pub fn state(&self) -> JournalState
        ensures { result ≡ state_of self.now }
    {
        self.state
    }

    /// Its disk.
    pub fn into_disk(self) -> D
        ensures { result ≡ disk_of self }
    {
        let Journal {
            alloc: _,
            disk,
            gate: _,
            state: _,
        } = self;
        disk
    }

    /// Appends a body as one batch: two writes, each made safe by a sync. A disk that tells its bytes
    /// goes on to tell them.
    ///
    /// At each moment of the call a crash leaves the text with the body or without it, and after Ok
    /// with it.
    ///
    /// `JournalFull` comes exactly where the file would pass 1,073,741,824 bytes, and then nothing
    /// is written. `DiskFault` comes only where the disk's count rose in this call, or where an
    /// earlier append was answered so: the journal then stands for nothing until it is opened
    /// again. `Memory` comes before the first write, and then all is as before; or the disk
    /// answered it later, and then every further append does, without a call on the disk.
    pub fn append_batch(&mut self, body: &Bytes) -> Result<(), AppendError>
        requires { 1 ≤ length body.now }
        ensures any_moment { (digest text : List ℕ) → StandsFor D.may_leave digest text self.old
            → LeavesOnly D.moment D.left_since (disk_of self.old) (disk_of self.new)
            (λ c. IsSettled c digest text body.now) }
        ensures ok { OnOk result
            ((digest text : List ℕ) → StandsFor D.may_leave digest text self.old
            → StandsFor D.may_leave digest (text ++ body.now) self.new) }
        ensures gate { OnOk result (gate_of self.new ≡ gate_of self.old + 5 + length body.now) }

        ensures full { IfErr result (TellsFull (state_of self.old)
            (gate_of self.old + 6 + length body.now)) }
        ensures room { OnOk result (gate_of self.old + 6 + length body.now ≤ 2 ^ 30) }
        ensures fault { IsErrOf result AppendError.DiskFault
            → (D.faults (disk_of self.old) < D.faults (disk_of self.new))
            ⊎ (state_of self.old ≡ JournalState.Faulted) }
        ensures tells { is_some (D.told (disk_of self.new)) ≡ is_some (D.told (disk_of self.old)) }
        ensures count { D.faults (disk_of self.old) ≤ D.faults (disk_of self.new) }
        ensures state { Leaves result (IsSame self.old self.new)
            (state_of self.old) (state_of self.new) }
    {
        match self.state {
            JournalState::Whole => {}
            JournalState::Faulted => return Err(AppendError::DiskFault),
            JournalState::OutOfMemory => return Err(AppendError::Memory),
        }
        let body = body.as_slice();
        let size = body.len() as u64;
        let len = self.gate + 6 + size;
        if len > LIMIT {
            return Err(AppendError::JournalFull { len });
        }
        let Ok(bytes) = framed(self.alloc, body) else {
            return Err(AppendError::Memory);
        };
        match commit(&mut self.disk, self.gate, bytes.as_slice(), body) {
            Ok(()) => {
                self.gate += 5 + size;
                Ok(())
            }
            Err(DiskError::Failed) => {
                self.state = JournalState::Faulted;
                Err(AppendError::DiskFault)
            }
            Err(DiskError::Memory) => {
                self.state = JournalState::OutOfMemory;
                Err(AppendError::Memory)
            }
        }
    }
}

ghost use Rattle.std.specs.Prelude.{◌≡◌, ◌<◌, ◌↔◌, ◌+◌, IfOk, IsTrue, [], false};
ghost use Rattle.mw_disk.specs.Causes.{HasCause};
ghost use Rattle.mw_disk.specs.FileLogs.{state_of};

use crate::disk::{Disk, DiskError};
use crate::file_calls::FileCalls;
use crate::file_runs::{cut_full, read_full, sync_full, write_full};
use crate::tally::Tally;
use std::io::{self, ErrorKind};

/// A file of the system as a disk. What it holds, and what a crash may leave of it, is what the
/// record of its calls comes to; it tells this where each answer is that of an honest file.
///
/// A sync is the system's own. Where the file was made, its first sync is also one of its folder.
/// Once a sync has failed, every later write, cut and sync fails: the system may have dropped what
/// it didn't write, and then a further sync would promise too much.
#[derive(Drop)]
pub struct FileDisk<C: FileCalls + Drop> {
    calls: C,
    lost: bool,
    faults: Tally,
    ghost sound: { lost ≡ false → (state_of (C.FileCalls.log calls)).lost ≡ false },
}

/// The answer of a disk for one of the system, whose failure is counted.
fn counted<T: Drop>(faults: &mut Tally, done: io::Result<T>) -> Result<T, DiskError>
    ensures ok { IfOk result (λ value. done ≡ Ok value) }
    ensures cause { HasCause faults.old faults.new result }
{
    match done {
        Ok(value) => Ok(value),
        Err(error) if error.kind() == ErrorKind::OutOfMemory => Err(DiskError::Memory),
        Err(_) => {
            faults.raise();
            Err(DiskError::Failed)
        }
    }
}

impl<C: FileCalls + Drop> FileDisk<C> {
    ghost use Rattle.mw_disk.specs.System.{file_faults, calls_of};

    /// A disk over a file of which nothing was asked yet. It has not failed yet.
    pub fn new(calls: C) -> FileDisk<C>
        requires { (C.FileCalls.log calls).events ≡ [] }
        ensures calls { calls_of result ≡ calls }
        ensures faults { file_faults result ≡ 0 }
    {
        FileDisk {
            calls,
            lost: false,
            faults: Tally::new(),
        }
    }

    /// The open file.
    pub fn calls(&self) -> &C
        ensures { result.now ≡ calls_of self.now }
    {
        &self.calls
    }

    /// The open file.
    pub fn into_calls(self) -> C
        ensures { result ≡ calls_of self }
    {
        let FileDisk {
            calls,
            lost: _,
            faults: _,
        } = self;
        calls
    }

    /// Whether it has failed.
    pub fn has_failed(&self) -> bool
        ensures { IsTrue result ↔ (0 < file_faults self.now) }
    {
        self.faults.has_risen()
    }
}

impl<C: FileCalls + Drop> Disk for FileDisk<C> {
    ghost use Rattle.mw_disk.specs.FileRuns.{told_if, LeavesIf, LeftIf, moment_if};
    ghost use Rattle.mw_disk.specs.FileLaws.{file_told, file_counts, file_only};

    ghost told = { λ d. told_if (C.FileCalls.is_honest d.calls) (C.FileCalls.log d.calls) };

    ghost may_leave = { λ d. LeavesIf (C.FileCalls.is_honest d.calls) (C.FileCalls.log d.calls) };

    ghost moment = { λ d. moment_if (C.FileCalls.is_honest d.calls) (C.FileCalls.log d.calls) };

    ghost left_since = { λ d. LeftIf (C.FileCalls.is_honest d.calls) (C.FileCalls.log d.calls) };

    ghost faults = { λ d. d.faults };

    ghost told_may_stay = { λ d c is.
        file_told (C.FileCalls.is_honest d.calls) (C.FileCalls.log d.calls) c is };

    ghost counts_now = { λ d t c le now.
        file_counts (C.FileCalls.is_honest d.calls) (C.FileCalls.log d.calls) t c le now };

    ghost only_now = { λ d c left.
        file_only (C.FileCalls.is_honest d.calls) (C.FileCalls.log d.calls) c left };

    fn read(&mut self, at: u64, into: &mut [u8]) -> Result<usize, DiskError> {
        let done = read_full(&mut self.calls, at, into);
        counted(&mut self.faults, done)
    }

    fn write_at(&mut self, at: u64, bytes: &[u8]) -> Result<(), DiskError> {
        if self.lost {
            self.faults.raise();
            return Err(DiskError::Failed);
        }
        let done = write_full(&mut self.calls, at, bytes);
        counted(&mut self.faults, done)
    }

    fn cut(&mut self, len: u64) -> Result<(), DiskError> {
        if self.lost {
            self.faults.raise();
            return Err(DiskError::Failed);
        }
        let done = cut_full(&mut self.calls, len);
        counted(&mut self.faults, done)
    }

    fn sync(&mut self) -> Result<(), DiskError> {
        if self.lost {
            self.faults.raise();
            return Err(DiskError::Failed);
        }
        let done = sync_full(&mut self.calls);
        self.lost = done.is_err();
        counted(&mut self.faults, done)
    }
}

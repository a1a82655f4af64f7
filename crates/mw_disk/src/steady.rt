ghost use Rattle.std.specs.Prelude.{◌≡◌, [], IfOk};
ghost use Rattle.mw_disk.specs.Calls.{bytes_of};

use crate::disk::{Disk, DiskError};
use crate::memory::MemDisk;
use mw_base::{Bytes, List, Memory};
use std::alloc::Global;
use std::marker::Model;

/// A disk in memory that never fails. Contracts see it as a disk in memory whose plan is empty.
#[derive(Drop)]
pub struct SteadyDisk {
    inner: MemDisk,
}

impl Model for SteadyDisk {
    ghost use Rattle.std.specs.Prelude.{◌≡◌, []};
    ghost use Rattle.mw_disk.specs.Calls.{DiskHistory};

    ghost Value = { DiskHistory };

    ghost view = { λ d. d.inner };

    ghost invariant = { λ d. d.inner.failing ≡ [] };
}

impl SteadyDisk {
    /// A disk with these bytes, all of them safe from a crash.
    pub fn new(alloc: Global, start: Bytes) -> Result<SteadyDisk, Memory>
        ensures { IfOk result (λ d. d ≡ record { start = start; calls = []; failing = [] }) }
    {
        Ok(SteadyDisk {
            inner: MemDisk::new(alloc, start, List::new(alloc))?,
        })
    }

    /// The bytes that a read gives.
    pub fn bytes(&self) -> &[u8]
        ensures { result.now ≡ bytes_of self.now.start self.now.calls }
    {
        self.inner.bytes()
    }

    /// The same disk, as one whose calls may be planned to fail.
    pub fn into_inner(self) -> MemDisk
        ensures { result ≡ self }
    {
        let SteadyDisk { inner } = self;
        inner
    }
}

impl Disk for SteadyDisk {
    ghost use Rattle.std.specs.Prelude.{◌≡◌, length, Some};
    ghost use Rattle.mw_disk.specs.Calls.{IsImage, IsImageSince, bytes_of};
    ghost use Rattle.mw_disk.specs.Laws.{bytes_are_image, counts_now, only_now};

    ghost told = { λ d. Some (bytes_of d.start d.calls) };

    ghost may_leave = { λ d. IsImage d.start d.calls };

    ghost moment = { λ d. length d.calls };

    ghost left_since = { λ d. IsImageSince d.start d.calls };

    ghost faults = { λ _. 0 };

    ghost told_may_stay = { λ d c is. bytes_are_image d.start d.calls c is };

    ghost counts_now = { λ d t c le now. counts_now d.start d.calls t c le now };

    ghost only_now = { λ d c left. only_now d.start d.calls c left };

    fn read(&mut self, at: u64, into: &mut [u8]) -> Result<usize, DiskError> {
        self.inner.read(at, into)
    }

    fn write_at(&mut self, at: u64, bytes: &[u8]) -> Result<(), DiskError> {
        self.inner.write_at(at, bytes)
    }

    fn cut(&mut self, len: u64) -> Result<(), DiskError> {
        self.inner.cut(len)
    }

    fn sync(&mut self) -> Result<(), DiskError> {
        self.inner.sync()
    }
}

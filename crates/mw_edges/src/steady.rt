ghost use Rattle.std.specs.Prelude.{◌≡◌, ◌≢◌, ◌↔◌, ◌++◌, ℕ, List, [], min, length, take, drop, Some, None, Ok, Err, OnOk, OnErr, IfOk, unwrap_or, IsErrOf, IsTrue, false, true};
ghost use Rattle.std.specs.Option.{option_copied};
ghost use Rattle.std.specs.Io.{ReadsAtMost};
ghost use Rattle.std.specs.Io.KnownBytes.{Appends, ReadConsumes};
ghost use Rattle.mw_disk.specs.Calls.{IsImage, bytes_of};
ghost use Rattle.mw_disk.specs.Crash.{Stays};
ghost use Rattle.mw_edges.specs.Causes.{CountsErr, HasCause, HasFault, PassesOn, PutsFront};
ghost use Rattle.mw_edges.specs.Disks.{closed_of, is_open_in, shown_file, steady_file, IsFileImage};
ghost use Rattle.mw_edges.specs.Files.{open_file, with_entry};
ghost use Rattle.mw_edges.specs.Folders.{GivesFile, IsWritten, MayBeUnread};
ghost use Rattle.mw_edges.specs.Folders.{opened_bytes, MayBeUnopened, StaysOrIsMade, SameImages};

use crate::disks::{
    KeptDisk, copy_bytes, find_bytes, find_closed, forget_closed, is_open, keep_closed, open_kept,
};
use crate::files::{read_bytes, write_bytes};
use crate::folder::{FileRead, Folder, FolderError};
use crate::sink::{Sink, SinkError};
use crate::source::{Failed, Source};
use mw_base::{Bytes, List, Memory, Text};
use mw_disk::{MemDisk, SteadyDisk, Tally};
use std::alloc::Global;
use std::marker::Model;

/// A source over bytes in memory, which never fails. Contracts see the bytes that are left.
#[derive(Drop)]
pub struct SteadySource {
    bytes: Bytes,
    at: usize,
}

impl Model for SteadySource {
    ghost use Rattle.std.specs.Prelude.{ℕ, ◌≤◌, List, length, drop};

    ghost Value = { List ℕ };

    ghost view = { λ s. drop s.at s.bytes };

    ghost invariant = { λ s. s.at ≤ length s.bytes };
}

impl SteadySource {
    /// A source of these bytes.
    pub fn new(bytes: Bytes) -> SteadySource
        ensures { result ≡ bytes }
    {
        SteadySource { bytes, at: 0 }
    }

    /// Takes bytes from the front of what is left, and gives their number.
    pub(crate) fn give(&mut self, into: &mut [u8]) -> usize
        ensures count { result ≡ min (length into.old) (length self.old) }
        ensures given { take result into.new ≡ take result self.old }
        ensures left { self.new ≡ drop result self.old }
    {
        let left = &self.bytes.as_slice()[self.at..];
        let count = into.len().min(left.len());
        into[..count].copy_from_slice(&left[..count]);
        self.at += count;
        count
    }
}

impl Source for SteadySource {
    ghost left = { λ s. Some s };

    ghost faults = { λ _. 0 };

    fn take(&mut self, into: &mut [u8]) -> Result<usize, Failed>
        ensures bound { ReadsAtMost result into.new }
        ensures bytes { ReadConsumes (Some self.old) (Some self.new) result into.new }
        ensures count { result ≡ Ok (min (length into.old) (length self.old)) }
        ensures cause { HasFault 0 0 result }
    {
        Ok(self.give(into))
    }
}

/// A sink that keeps its bytes in memory, and never fails. Contracts see the bytes that were put,
/// and how often memory for more was wanting.
#[derive(Drop)]
pub struct SteadySink {
    held: Vec<u8>,
    wanting: Tally,
}

impl Model for SteadySink {
    ghost use Rattle.mw_edges.specs.Memory.{SteadyBytes};

    ghost Value = { SteadyBytes };

    ghost view = { λ s. record { bytes = s.held.items; wanting = s.wanting } };
}

impl SteadySink {
    /// A sink to which nothing was put. It takes no memory yet.
    pub fn new(alloc: Global) -> SteadySink
        ensures bytes { result.bytes ≡ [] }
        ensures wanting { result.wanting ≡ 0 }
    {
        SteadySink {
            held: Vec::new(alloc),
            wanting: Tally::new(),
        }
    }

    /// The bytes that were put.
    pub fn bytes(&self) -> &[u8]
        ensures { result.now ≡ self.now.bytes }
    {
        self.held.as_slice()
    }

    /// Puts the bytes, or none of them.
    pub(crate) fn keep(&mut self, bytes: &[u8]) -> Result<(), Memory>
        ensures ok { OnOk result (self.new.bytes ≡ self.old.bytes ++ bytes.now) }
        ensures err { OnErr result (self.new.bytes ≡ self.old.bytes) }
        ensures counted { CountsErr self.old.wanting self.new.wanting result }
    {
        match self.held.extend_from_slice(bytes) {
            Ok(()) => Ok(()),
            Err(_) => {
                self.wanting.raise();
                Err(Memory)
            }
        }
    }
}

impl Sink for SteadySink {
    ghost held = { λ s. Some s.bytes };

    ghost faults = { λ _. 0 };

    ghost refusals = { λ s. s.wanting };

    fn put(&mut self, bytes: &[u8]) -> Result<(), SinkError>
        ensures ok { OnOk result (Appends (Some self.old.bytes) (Some self.new.bytes) bytes.now) }
        ensures err { OnErr result
            (PutsFront (Some self.old.bytes) (Some self.new.bytes) bytes.now) }
        ensures same { OnErr result (self.new.bytes ≡ self.old.bytes) }
        ensures steady { result ≢ Err SinkError.Failed }
        ensures cause { HasCause 0 0 SinkError.Failed result }
        ensures counted { CountsErr self.old.wanting self.new.wanting result }
        ensures refused { HasFault self.old.wanting self.new.wanting result }
    {
        match self.keep(bytes) {
            Ok(()) => Ok(()),
            Err(_) => Err(SinkError::Memory),
        }
    }
}

/// A folder of files in memory, which never fails but where a disk is opened of a file whose disk
/// is open. A file that was not given is there, and empty.
///
/// Contracts see the files, each a name and its bytes; what is kept of the files that were opened
/// as disks; how often a disk was asked for that was open; and how often a write was refused. Of
/// two files with one name the first counts. Crashes are as in a folder whose calls fail as
/// planned.
#[derive(Drop)]
pub struct SteadyFolder {
    files: Vec<(Text, Bytes)>,
    disks: Vec<(Text, KeptDisk)>,
    failed: Tally,
    refused: Tally,
}

impl Model for SteadyFolder {
    ghost use Rattle.mw_edges.specs.Memory.{SteadyFiles};

    ghost Value = { SteadyFiles };

    ghost view = { λ s. record {
      files = s.files.items;
      disks = s.disks.items;
      failed = s.failed;
      refused = s.refused;
    } };
}

impl SteadyFolder {
    /// A folder of these files, none of which was opened as a disk.
    pub fn new(files: List<(Text, Bytes)>) -> SteadyFolder
        ensures files { result.files ≡ files }
        ensures disks { result.disks ≡ [] }
        ensures failed { result.failed ≡ 0 }
        ensures refused { result.refused ≡ 0 }
    {
        let files = files.into_vec();
        let alloc = *files.allocator();
        SteadyFolder {
            files,
            disks: Vec::new(alloc),
            failed: Tally::new(),
            refused: Tally::new(),
        }
    }

    /// The disk of a name that was closed last, where its file was not written since.
    pub fn closed_disk(&self, name: &str) -> Option<&MemDisk>
        ensures { option_copied result ≡ closed_of self.now.disks name.now }
    {
        find_closed(self.disks.as_slice(), name)
    }

    /// A disk with the bytes of a name.
    fn disk_over(&self, alloc: Global, name: &str) -> Result<SteadyDisk, Memory>
        ensures disk { IfOk result (λ disk. disk ≡ record {
          start = unwrap_or (shown_file self.now.files self.now.disks name.now) [];
          calls = [];
          failing = [];
        }) }
        ensures image { IfOk result
            (λ disk. IsFileImage self.now.files self.now.disks name.now disk.start) }
    {
        let start = copy_bytes(alloc, self.files.as_slice(), self.disks.as_slice(), name)?;
        SteadyDisk::new(alloc, start)
    }
}

impl Folder for SteadyFolder {
    ghost use Rattle.mw_edges.specs.Disks.{steady_file, IsFileImage, is_open_in};
    ghost use Rattle.mw_edges.specs.Laws.{steady_is_image};

    type Drive = SteadyDisk;

    ghost holds = { λ s name. steady_file s.files s.disks name };

    ghost images = { λ s name. IsFileImage s.files s.disks name };

    ghost is_open = { λ s name. is_open_in s.disks name };

    ghost faults = { λ s. s.failed };

    ghost may_fail = { λ _. false };

    ghost refusals = { λ s. s.refused };

    fn read_file(&mut self, alloc: Global, name: &Text, limit: u64) -> Result<FileRead, FolderError>
        ensures read { IfOk result
            (GivesFile (steady_file self.old.files self.old.disks name.now) limit) }
        ensures same { (n : List ℕ) → steady_file self.new.files self.new.disks n
            ≡ steady_file self.old.files self.old.disks n }
        ensures files { self.new.files ≡ self.old.files }
        ensures steady { result ≢ Err FolderError.Failed }
        ensures cause { HasCause self.old.failed self.new.failed FolderError.Failed result }
        ensures place { IsErrOf result FolderError.Failed
            → MayBeUnread (steady_file self.old.files self.old.disks name.now) false }
        ensures sound { IsTrue false → IsTrue false }
        ensures unrefused { self.new.refused ≡ self.old.refused }
        ensures unfailed { self.new.failed ≡ self.old.failed }
        ensures crash { (n : List ℕ) → SameImages (IsFileImage self.old.files self.old.disks n)
            (IsFileImage self.new.files self.new.disks n) }
        ensures same_open { (n : List ℕ)
            → is_open_in self.new.disks n ≡ is_open_in self.old.disks n }
        ensures disks { self.new.disks ≡ self.old.disks }
    {
        let found = find_bytes(self.files.as_slice(), self.disks.as_slice(), name.as_str());
        let Some(bytes) = found else {
            return Ok(FileRead::Whole(Bytes::new(alloc)));
        };
        match read_bytes(alloc, bytes, limit) {
            Ok(read) => Ok(read),
            Err(_) => Err(FolderError::Memory),
        }
    }

    #[tactic(auto, using(crate::proofs::Replaced::entry_there, crate::proofs::Replaced::others_there))]
    fn write_file(&mut self, alloc: Global, name: &Text, bytes: &[u8]) -> Result<(), FolderError>
        ensures written { OnOk result
            (IsWritten (steady_file self.old.files self.old.disks name.now)
            (steady_file self.new.files self.new.disks name.now) bytes.now) }
        ensures untold { steady_file self.old.files self.old.disks name.now ≡ None
            → steady_file self.new.files self.new.disks name.now ≡ None }
        ensures others { (n : List ℕ) → n ≢ name.now
            → steady_file self.new.files self.new.disks n
            ≡ steady_file self.old.files self.old.disks n }
        ensures files { OnOk result
            (self.new.files ≡ with_entry self.old.files name.now bytes.now) }
        ensures same { OnErr result (self.new.files ≡ self.old.files) }
        ensures steady { result ≢ Err FolderError.Failed }
        ensures cause { HasCause self.old.failed self.new.failed FolderError.Failed result }
        ensures sound { IsTrue false → IsTrue false }
        ensures counted { CountsErr self.old.refused self.new.refused result }
        ensures refused { HasFault self.old.refused self.new.refused result }
        ensures unfailed { self.new.failed ≡ self.old.failed }
        ensures crash { (n : List ℕ) → n ≢ name.now
            → SameImages (IsFileImage self.old.files self.old.disks n)
            (IsFileImage self.new.files self.new.disks n) }
        ensures same_open { (n : List ℕ)
            → is_open_in self.new.disks n ≡ is_open_in self.old.disks n }
        ensures safe { OnOk result (closed_of self.new.disks name.now ≡ None) }
    {
        match write_bytes(alloc, &mut self.files, name.as_str(), bytes) {
            Ok(()) => {
                forget_closed(&mut self.disks, name.as_str());
                Ok(())
            }
            Err(_) => {
                self.refused.raise();
                Err(FolderError::Memory)
            }
        }
    }

    fn open_disk(&mut self, alloc: Global, name: &Text) -> Result<SteadyDisk, FolderError>
        ensures told { IfOk result (λ disk. Some (bytes_of disk.start disk.calls)
            ≡ opened_bytes (steady_file self.old.files self.old.disks name.now)) }
        ensures fresh { IfOk result (λ _. ◌≡◌ {A = ℕ} 0 0) }
        ensures left { IfOk result (λ disk.
            Stays (IsFileImage self.old.files self.old.disks name.now)
            (IsImage disk.start disk.calls)) }
        ensures made { OnOk result (steady_file self.new.files self.new.disks name.now
            ≡ open_file (opened_bytes (steady_file self.old.files self.old.disks name.now))) }
        ensures kept { OnErr result
            (StaysOrIsMade (steady_file self.old.files self.old.disks name.now)
            (steady_file self.new.files self.new.disks name.now)) }
        ensures others { (n : List ℕ) → n ≢ name.now
            → steady_file self.new.files self.new.disks n
            ≡ steady_file self.old.files self.old.disks n }
        ensures crash { (n : List ℕ) → SameImages (IsFileImage self.old.files self.old.disks n)
            (IsFileImage self.new.files self.new.disks n) }

        ensures one { OnOk result (is_open_in self.old.disks name.now ≡ false) }
        ensures opened { OnOk result (is_open_in self.new.disks name.now ≡ true) }
        ensures unopened { OnErr result
            (is_open_in self.new.disks name.now ≡ is_open_in self.old.disks name.now) }
        ensures others_open { (n : List ℕ) → n ≢ name.now
            → is_open_in self.new.disks n ≡ is_open_in self.old.disks n }

        ensures failed { IsErrOf result FolderError.Failed
            ↔ IsTrue (is_open_in self.old.disks name.now) }
        ensures disk { IfOk result (λ disk. disk ≡ record {
          start = unwrap_or (shown_file self.old.files self.old.disks name.now) [];
          calls = [];
          failing = [];
        }) }
        ensures cause { HasCause self.old.failed self.new.failed FolderError.Failed result }
        ensures place { IsErrOf result FolderError.Failed
            → MayBeUnopened (is_open_in self.old.disks name.now) false }
        ensures sound { IsTrue false → IsTrue false }
        ensures unrefused { self.new.refused ≡ self.old.refused }
    {
        if is_open(self.disks.as_slice(), name.as_str()) {
            self.failed.raise();
            return Err(FolderError::Failed);
        }
        let Ok(disk) = self.disk_over(alloc, name.as_str()) else {
            return Err(FolderError::Memory);
        };
        match open_kept(alloc, &mut self.files, &mut self.disks, name.as_str()) {
            Ok(()) => Ok(disk),
            Err(_) => Err(FolderError::Memory),
        }
    }

    fn close_disk(&mut self, name: &Text, disk: SteadyDisk)
        requires { is_open_in self.old.disks name.now ≡ true }
        ensures told { steady_file self.new.files self.new.disks name.now
            ≡ open_file (Some (bytes_of disk.start disk.calls)) }
        ensures left { SameImages (IsImage disk.start disk.calls)
            (IsFileImage self.new.files self.new.disks name.now) }
        ensures others { (n : List ℕ) → n ≢ name.now
            → steady_file self.new.files self.new.disks n
            ≡ steady_file self.old.files self.old.disks n }
        ensures crash { (n : List ℕ) → n ≢ name.now
            → SameImages (IsFileImage self.old.files self.old.disks n)
            (IsFileImage self.new.files self.new.disks n) }
        ensures closed { is_open_in self.new.disks name.now ≡ false }
        ensures others_open { (n : List ℕ) → n ≢ name.now
            → is_open_in self.new.disks n ≡ is_open_in self.old.disks n }
        ensures count { PassesOn 0 self.old.failed self.new.failed }
        ensures disk { closed_of self.new.disks name.now ≡ Some disk }
        ensures files { self.new.files ≡ self.old.files }
        ensures sound { IsTrue false → IsTrue false }
        ensures unrefused { self.new.refused ≡ self.old.refused }
    {
        keep_closed(&mut self.disks, name.as_str(), disk.into_inner());
    }

    ghost told_may_stay = { λ s name c is. steady_is_image s.files s.disks name c is };
}

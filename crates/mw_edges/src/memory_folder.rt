ghost use Rattle.std.specs.Prelude.{◌≡◌, ◌≢◌, ◌||◌, ◌↔◌, ℕ, List, [], Some, None, IsTrue, IsErrOf, OnOk, OnErr, IfOk, is_none, true, false, unwrap_or, nat_lt};
ghost use Rattle.mw_disk.specs.Calls.{IsImage, bytes_of, fault_count};
ghost use Rattle.mw_disk.specs.Crash.{Stays};
ghost use Rattle.std.specs.Option.{option_copied};
ghost use Rattle.mw_edges.specs.Causes.{CountsErr, HasCause, HasFault, PassesOn};
ghost use Rattle.mw_edges.specs.Disks.{closed_of, is_open_in, shown_file, told_file, IsFileImage};
ghost use Rattle.mw_edges.specs.FaultPlan.{fails, may_fail, after_call, after_fault};
ghost use Rattle.mw_edges.specs.Files.{entry_of, open_file, with_entry, HasPut};
ghost use Rattle.mw_edges.specs.Folders.{GivesFile, IsWritten, MayBeUnread};
ghost use Rattle.mw_edges.specs.Folders.{opened_bytes, MayBeUnopened, StaysOrIsMade, SameImages};

use crate::disks::{
    KeptDisk, copy_bytes, find_bytes, find_closed, forget_closed, is_open, keep_closed, open_kept,
};
use crate::faults::Faults;
use crate::files::{find_entry, put_entry, read_bytes, write_bytes};
use crate::folder::{FileRead, Folder, FolderError};
use mw_base::{Bytes, List, Memory, Text};
use mw_disk::{DiskError, MemDisk, Tally};
use std::alloc::Global;
use std::marker::Model;

/// A folder of files in memory, whose calls of `read_file`, `write_file` and `open_disk` fail as
/// planned. Contracts see the files, each a name and its bytes; what is kept of the files that were
/// opened as disks; the plans of disks by name; how often a write was refused; and the plan. Of two
/// files with one name the first counts.
///
/// A file in memory is safe from a crash. A disk keeps its record once it is closed, until the file
/// is written: a crash may leave of the file what it may leave of that disk. A disk that is opened
/// again begins a record of its own, with the bytes of the file.
pub struct MemoryFolder {
    files: Vec<(Text, Bytes)>,
    disks: Vec<(Text, KeptDisk)>,
    disk_plans: Vec<(Text, List<(u64, DiskError)>)>,
    refused: Tally,
    faults: Faults,
}

/// By hand, so that whoever lets it go calls this, and what it frees is listed once.
impl Drop for MemoryFolder {
    fn drop(self) {
        let MemoryFolder {
            files: _,
            disks: _,
            disk_plans: _,
            refused: _,
            faults: _,
        } = self;
    }
}

impl Model for MemoryFolder {
    ghost use Rattle.mw_edges.specs.Memory.{MemoryFiles};

    ghost Value = { MemoryFiles };

    ghost view = { λ s. record {
      files = s.files.items;
      disks = s.disks.items;
      disk_plans = s.disk_plans.items;
      refused = s.refused;
      plan = s.faults;
    } };
}

impl MemoryFolder {
    /// A folder of these files, none of which was opened as a disk.
    pub fn new(files: List<(Text, Bytes)>, faults: Faults) -> MemoryFolder
        ensures files { result.files ≡ files }
        ensures disks { result.disks ≡ [] }
        ensures disk_plans { result.disk_plans ≡ [] }
        ensures refused { result.refused ≡ 0 }
        ensures plan { result.plan ≡ faults }
    {
        let files = files.into_vec();
        let alloc = *files.allocator();
        MemoryFolder {
            files,
            disks: Vec::new(alloc),
            disk_plans: Vec::new(alloc),
            refused: Tally::new(),
            faults,
        }
    }

    /// The same folder, where each disk that is opened of a name fails as planned: the calls of the
    /// listed numbers with these errors.
    #[tactic(auto, using(crate::proofs::Replaced::put))]
    pub fn with_failing_disk(
        self,
        name: Text,
        failing: List<(u64, DiskError)>,
    ) -> Result<MemoryFolder, Memory>
        ensures disk_plans { IfOk result
            (λ folder. HasPut self.disk_plans folder.disk_plans name (Some failing)) }
        ensures same { IfOk result
            (λ folder. folder ≡ record self { disk_plans = folder.disk_plans }) }
    {
        let mut folder = self;
        put_entry(&mut folder.disk_plans, name, failing)?;
        Ok(folder)
    }

    /// The disk of a name that was closed last, where its file was not written since.
    pub fn closed_disk(&self, name: &str) -> Option<&MemDisk>
        ensures { option_copied result ≡ closed_of self.now.disks name.now }
    {
        find_closed(self.disks.as_slice(), name)
    }

    /// The plan for the disks of a name.
    fn plan_of(&self, alloc: Global, name: &str) -> Result<List<(u64, DiskError)>, Memory>
        ensures { IfOk result
            (λ plan. plan ≡ unwrap_or (entry_of self.now.disk_plans name.now) []) }
    {
        match find_entry(self.disk_plans.as_slice(), name) {
            Some(plan) => Ok(List::from_vec(Vec::from_slice(alloc, plan.as_slice())?)),
            None => Ok(List::new(alloc)),
        }
    }

    /// A disk with the bytes of a name, whose calls fail as planned for that name.
    fn disk_over(&self, alloc: Global, name: &str) -> Result<MemDisk, Memory>
        ensures disk { IfOk result (λ disk. disk ≡ record {
          start = unwrap_or (shown_file self.now.files self.now.disks name.now) [];
          calls = [];
          failing = unwrap_or (entry_of self.now.disk_plans name.now) [];
        }) }
        ensures image { IfOk result
            (λ disk. IsFileImage self.now.files self.now.disks name.now disk.start) }
    {
        let start = copy_bytes(alloc, self.files.as_slice(), self.disks.as_slice(), name)?;
        MemDisk::new(alloc, start, self.plan_of(alloc, name)?)
    }
}

impl Folder for MemoryFolder {
    ghost use Rattle.mw_edges.specs.Disks.{told_file, IsFileImage, is_open_in};
    ghost use Rattle.mw_edges.specs.Laws.{told_is_image};

    type Drive = MemDisk;

    ghost holds = { λ s name. told_file s.files s.disks name };

    ghost images = { λ s name. IsFileImage s.files s.disks name };

    ghost is_open = { λ s name. is_open_in s.disks name };

    ghost faults = { λ s. s.plan.count };

    ghost may_fail = { λ s. may_fail s.plan };

    ghost refusals = { λ s. s.refused };

    #[tactic(auto, using(crate::proofs::Failing::may_fail_now, crate::proofs::Failing::may_fail_before))]
    fn read_file(&mut self, alloc: Global, name: &Text, limit: u64) -> Result<FileRead, FolderError>
        ensures read { IfOk result
            (GivesFile (told_file self.old.files self.old.disks name.now) limit) }
        ensures same { (n : List ℕ) → told_file self.new.files self.new.disks n
            ≡ told_file self.old.files self.old.disks n }
        ensures files { self.new.files ≡ self.old.files }
        ensures failed { IsErrOf result FolderError.Failed
            ↔ IsTrue (is_none (shown_file self.old.files self.old.disks name.now)
            || fails self.old.plan) }
        ensures plan { self.new.plan
            ≡ after_call
            (is_none (shown_file self.old.files self.old.disks name.now) || fails self.old.plan)
            self.old.plan }
        ensures cause { HasCause self.old.plan.count self.new.plan.count FolderError.Failed result }
        ensures place { IsErrOf result FolderError.Failed
            → MayBeUnread (told_file self.old.files self.old.disks name.now)
            (may_fail self.old.plan) }
        ensures sound { IsTrue (may_fail self.new.plan) → IsTrue (may_fail self.old.plan) }
        ensures unrefused { self.new.refused ≡ self.old.refused }
        ensures crash { (n : List ℕ) → SameImages (IsFileImage self.old.files self.old.disks n)
            (IsFileImage self.new.files self.new.disks n) }
        ensures same_open { (n : List ℕ)
            → is_open_in self.new.disks n ≡ is_open_in self.old.disks n }
        ensures disks { self.new.disks ≡ self.old.disks }
        ensures disk_plans { self.new.disk_plans ≡ self.old.disk_plans }
    {
        let found = find_bytes(self.files.as_slice(), self.disks.as_slice(), name.as_str());
        if self.faults.count_call(found.is_none()) {
            return Err(FolderError::Failed);
        }
        match found {
            None => Err(FolderError::Failed),
            Some(bytes) => match read_bytes(alloc, bytes, limit) {
                Ok(read) => Ok(read),
                Err(_) => Err(FolderError::Memory),
            },
        }
    }

    #[tactic(auto, using(crate::proofs::Replaced::entry_there, crate::proofs::Replaced::others_there, crate::proofs::Failing::may_fail_before))]
    fn write_file(&mut self, alloc: Global, name: &Text, bytes: &[u8]) -> Result<(), FolderError>
        ensures written { OnOk result
            (IsWritten (told_file self.old.files self.old.disks name.now)
            (told_file self.new.files self.new.disks name.now) bytes.now) }
        ensures untold { told_file self.old.files self.old.disks name.now ≡ None
            → told_file self.new.files self.new.disks name.now ≡ None }
        ensures others { (n : List ℕ) → n ≢ name.now
            → told_file self.new.files self.new.disks n
            ≡ told_file self.old.files self.old.disks n }
        ensures files { OnOk result
            (self.new.files ≡ with_entry self.old.files name.now bytes.now) }
        ensures same { OnErr result (self.new.files ≡ self.old.files) }
        ensures failed { IsErrOf result FolderError.Failed ↔ IsTrue (fails self.old.plan) }
        ensures plan { self.new.plan ≡ after_call (fails self.old.plan) self.old.plan }
        ensures cause { HasCause self.old.plan.count self.new.plan.count FolderError.Failed result }
        ensures sound { IsTrue (may_fail self.new.plan) → IsTrue (may_fail self.old.plan) }
        ensures counted { CountsErr self.old.refused self.new.refused result }
        ensures refused { HasFault self.old.refused self.new.refused result }
        ensures crash { (n : List ℕ) → n ≢ name.now
            → SameImages (IsFileImage self.old.files self.old.disks n)
            (IsFileImage self.new.files self.new.disks n) }
        ensures same_open { (n : List ℕ)
            → is_open_in self.new.disks n ≡ is_open_in self.old.disks n }
        ensures safe { OnOk result (closed_of self.new.disks name.now ≡ None) }
        ensures disk_plans { self.new.disk_plans ≡ self.old.disk_plans }
    {
        if self.faults.count_call(false) {
            self.refused.raise();
            return Err(FolderError::Failed);
        }
        match write_bytes(alloc, &mut self.files, name.as_str(), bytes) {
            Ok(()) => {
                forget_closed(&mut self.disks, name.as_str());
                Ok(())
            }
            Err(_) => {
                self.refused.raise();
                Err(FolderError::Memory)
            }
        }
    }

    #[tactic(auto, using(crate::proofs::Failing::may_fail_now, crate::proofs::Failing::may_fail_before))]
    fn open_disk(&mut self, alloc: Global, name: &Text) -> Result<MemDisk, FolderError>
        ensures told { IfOk result (λ disk. Some (bytes_of disk.start disk.calls)
            ≡ opened_bytes (told_file self.old.files self.old.disks name.now)) }
        ensures fresh { IfOk result (λ disk. fault_count disk.calls ≡ 0) }
        ensures left { IfOk result (λ disk.
            Stays (IsFileImage self.old.files self.old.disks name.now)
            (IsImage disk.start disk.calls)) }
        ensures made { OnOk result (told_file self.new.files self.new.disks name.now
            ≡ open_file (opened_bytes (told_file self.old.files self.old.disks name.now))) }
        ensures kept { OnErr result
            (StaysOrIsMade (told_file self.old.files self.old.disks name.now)
            (told_file self.new.files self.new.disks name.now)) }
        ensures others { (n : List ℕ) → n ≢ name.now → told_file self.new.files self.new.disks n
            ≡ told_file self.old.files self.old.disks n }
        ensures crash { (n : List ℕ) → SameImages (IsFileImage self.old.files self.old.disks n)
            (IsFileImage self.new.files self.new.disks n) }

        ensures one { OnOk result (is_open_in self.old.disks name.now ≡ false) }
        ensures opened { OnOk result (is_open_in self.new.disks name.now ≡ true) }
        ensures unopened { OnErr result
            (is_open_in self.new.disks name.now ≡ is_open_in self.old.disks name.now) }
        ensures others_open { (n : List ℕ) → n ≢ name.now
            → is_open_in self.new.disks n ≡ is_open_in self.old.disks n }

        ensures failed { IsErrOf result FolderError.Failed
            ↔ IsTrue (is_open_in self.old.disks name.now || fails self.old.plan) }
        ensures plan { self.new.plan
            ≡ after_call (is_open_in self.old.disks name.now || fails self.old.plan)
            self.old.plan }
        ensures disk { IfOk result (λ disk. disk ≡ record {
          start = unwrap_or (shown_file self.old.files self.old.disks name.now) [];
          calls = [];
          failing = unwrap_or (entry_of self.old.disk_plans name.now) [];
        }) }
        ensures disk_plans { self.new.disk_plans ≡ self.old.disk_plans }
        ensures cause { HasCause self.old.plan.count self.new.plan.count FolderError.Failed result }
        ensures place { IsErrOf result FolderError.Failed
            → MayBeUnopened (is_open_in self.old.disks name.now) (may_fail self.old.plan) }
        ensures sound { IsTrue (may_fail self.new.plan) → IsTrue (may_fail self.old.plan) }
        ensures unrefused { self.new.refused ≡ self.old.refused }
    {
        let open = is_open(self.disks.as_slice(), name.as_str());
        if self.faults.count_call(open) {
            return Err(FolderError::Failed);
        }
        let Ok(disk) = self.disk_over(alloc, name.as_str()) else {
            return Err(FolderError::Memory);
        };
        match open_kept(alloc, &mut self.files, &mut self.disks, name.as_str()) {
            Ok(()) => Ok(disk),
            Err(_) => Err(FolderError::Memory),
        }
    }

    fn close_disk(&mut self, name: &Text, disk: MemDisk)
        requires { is_open_in self.old.disks name.now ≡ true }
        ensures told { told_file self.new.files self.new.disks name.now
            ≡ open_file (Some (bytes_of disk.start disk.calls)) }
        ensures left { SameImages (IsImage disk.start disk.calls)
            (IsFileImage self.new.files self.new.disks name.now) }
        ensures others { (n : List ℕ) → n ≢ name.now → told_file self.new.files self.new.disks n
            ≡ told_file self.old.files self.old.disks n }
        ensures crash { (n : List ℕ) → n ≢ name.now
            → SameImages (IsFileImage self.old.files self.old.disks n)
            (IsFileImage self.new.files self.new.disks n) }
        ensures closed { is_open_in self.new.disks name.now ≡ false }
        ensures others_open { (n : List ℕ) → n ≢ name.now
            → is_open_in self.new.disks n ≡ is_open_in self.old.disks n }
        ensures count { PassesOn (fault_count disk.calls) self.old.plan.count self.new.plan.count }
        ensures disk { closed_of self.new.disks name.now ≡ Some disk }
        ensures files { self.new.files ≡ self.old.files }
        ensures disk_plans { self.new.disk_plans ≡ self.old.disk_plans }
        ensures plan { self.new.plan
            ≡ after_fault (nat_lt 0 (fault_count disk.calls)) self.old.plan }
        ensures sound { IsTrue (may_fail self.new.plan) → IsTrue (may_fail self.old.plan) }
        ensures unrefused { self.new.refused ≡ self.old.refused }
    {
        self.faults.count_fault(disk.has_failed());
        keep_closed(&mut self.disks, name.as_str(), disk);
    }

    ghost told_may_stay = { λ s name c is. told_is_image s.files s.disks name c is };
}

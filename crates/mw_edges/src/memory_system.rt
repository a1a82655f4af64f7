ghost use Rattle.std.specs.Prelude.{◌≡◌, [], ◌∷◌, false, IfOk, OnOk, OnErr};
ghost use Rattle.std.specs.Option.{option_map};
ghost use Rattle.mw_disk.specs.FileLogs.{opened_log, state_of};
ghost use Rattle.mw_edges.specs.Files.{entry_of, with_entry};
ghost use Rattle.mw_edges.specs.LeftFiles.{HoldsFiles, bytes_left};

use crate::calls::System;
use crate::files::{find_entry, put_entry};
use crate::planned::Planned;
use mw_base::{Bytes, List, Memory, Text};
use mw_disk::{CallLuck, EventLog, History, MemoryFile, Seen};
use std::alloc::Global;
use std::io::{self, Cursor, ErrorKind};

/// The files of a system in memory. It tells of each file what it holds, and each of its answers is
/// an honest one, so it shows that there is such a system. The calls on whatever it opens go as
/// planned: they take fewer bytes, are interrupted, or fail.
///
/// A file holds what its last writer took, or what its last disk left, once that is closed; and a
/// crash may leave of it what it may leave of that disk. Where memory to keep a file is wanting,
/// nothing is opened any more.
#[derive(Drop)]
pub struct MemorySystem {
    alloc: Global,
    luck: List<CallLuck>,
    entries: Vec<(Text, Bytes)>,
    /// Whether memory to keep a file was wanting.
    is_lost: bool,
    /// What was left by name, for contracts alone.
    left: History<(Seen, EventLog)>,
    ghost kept: { is_lost ≡ false → HoldsFiles entries.items left },
}

/// An error of want of memory.
fn no_memory() -> io::Error {
    io::Error::from(ErrorKind::OutOfMemory)
}

/// Puts a file in place of the one of its name, or beside the others. After `Memory` the files are
/// as before.
fn keep_bytes(
    alloc: Global,
    entries: &mut Vec<(Text, Bytes)>,
    name: &str,
    bytes: Vec<u8>,
) -> Result<(), Memory>
    ensures ok { OnOk result
        (entries.new.items ≡ with_entry entries.old.items name.now bytes.items) }
    ensures err { OnErr result (entries.new.items ≡ entries.old.items) }
{
    let name = Text::of(alloc, name)?;
    put_entry(entries, name, Bytes::from_vec(bytes))
}

/// Notes what is left of a file.
fn note_left(left: &mut History<(Seen, EventLog)>, name: &str, log: EventLog)
    ensures { left.new ≡ (name.now, log) ∷ left.old }
{
    left.note(&(Seen::of(name.as_bytes()), log));
}

impl MemorySystem {
    ghost use Rattle.mw_edges.specs.MemorySystem.{files_left};

    /// A system without files. The calls on each file that it opens go as listed, and those behind
    /// the list as they should.
    pub fn new(alloc: Global, luck: List<CallLuck>) -> MemorySystem
        ensures { files_left result ≡ [] }
    {
        MemorySystem {
            alloc,
            luck,
            entries: Vec::new(alloc),
            is_lost: false,
            left: History::new(),
        }
    }

    /// A copy of the list by which the calls on a file go.
    fn plan(&self) -> io::Result<List<CallLuck>> {
        match Vec::from_slice(self.alloc, self.luck.as_slice()) {
            Ok(luck) => Ok(List::from_vec(luck)),
            Err(_) => Err(no_memory()),
        }
    }

    /// A copy of the bytes of a file, or nothing where none has the name.
    fn copy_of(&self, name: &str) -> io::Result<Option<Vec<u8>>>
        ensures { IfOk result (λ found. option_map (λ bytes. bytes.items) found
            ≡ bytes_left (entry_of (files_left self.now) name.now)) }
    {
        if self.is_lost {
            return Err(no_memory());
        }
        let Some(bytes) = find_entry(self.entries.as_slice(), name) else {
            return Ok(None);
        };
        match Vec::from_slice(self.alloc, bytes.as_slice()) {
            Ok(copy) => Ok(Some(copy)),
            Err(_) => Err(no_memory()),
        }
    }

    /// Makes a file, empty.
    #[tactic(auto, using(crate::proofs::MemorySystems::holds_more))]
    fn make(&mut self, name: &str) -> io::Result<()>
        ensures ok { OnOk result
            (files_left self.new ≡ (name.now, opened_log [] false) ∷ files_left self.old) }
        ensures err { OnErr result (files_left self.new ≡ files_left self.old) }
    {
        if keep_bytes(self.alloc, &mut self.entries, name, Vec::new(self.alloc)).is_err() {
            return Err(no_memory());
        }
        note_left(&mut self.left, name, EventLog::of(b"", false));
        Ok(())
    }

    /// Keeps what is left of a file.
    #[tactic(auto, using(crate::proofs::MemorySystems::holds_more))]
    fn keep(&mut self, name: &str, bytes: Vec<u8>, log: EventLog)
        requires { bytes.items ≡ (state_of log).bytes }
        ensures { files_left self.new ≡ (name.now, log) ∷ files_left self.old }
    {
        if keep_bytes(self.alloc, &mut self.entries, name, bytes).is_err() {
            self.is_lost = true;
        }
        note_left(&mut self.left, name, log);
    }
}

impl System for MemorySystem {
    ghost use Rattle.mw_edges.specs.LeftFiles.{left_file, MayBeLeft};
    ghost use Rattle.mw_edges.specs.MemoryLaws.{left_may_stay};

    type Reader = Planned<Cursor<Vec<u8>>>;

    type Writer = Planned<Vec<u8>>;

    type File = MemoryFile;

    ghost holds = { λ s name. left_file s.left name };

    ghost images = { λ s name. MayBeLeft s.left name };

    fn open_read(&mut self, name: &str) -> io::Result<Planned<Cursor<Vec<u8>>>> {
        let Some(bytes) = self.copy_of(name)? else {
            return Err(io::Error::from(ErrorKind::NotFound));
        };
        Ok(Planned::new(Cursor::new(bytes), self.plan()?))
    }

    fn begin_write(&mut self, name: &str) -> io::Result<Planned<Vec<u8>>> {
        let _ = name;
        Ok(Planned::new(Vec::new(self.alloc), self.plan()?))
    }

    fn end_write(&mut self, name: &str, writer: Planned<Vec<u8>>) {
        let bytes = writer.into_inner();
        let log = EventLog::of(bytes.as_slice(), false);
        self.keep(name, bytes, log);
    }

    fn open_place(&mut self, name: &str) -> io::Result<MemoryFile> {
        let plan = self.plan()?;
        match self.copy_of(name)? {
            Some(bytes) => Ok(MemoryFile::open(bytes, plan)),
            None => {
                self.make(name)?;
                Ok(MemoryFile::make(self.alloc, plan))
            }
        }
    }

    fn close_place(&mut self, name: &str, file: MemoryFile) {
        let (bytes, log) = file.into_parts();
        self.keep(name, bytes, log);
    }

    ghost told_may_stay = { λ s name c is. left_may_stay s.left name c is };
}

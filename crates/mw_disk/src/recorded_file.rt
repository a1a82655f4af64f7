ghost use Rattle.std.specs.Prelude.{◌≡◌, ◌++◌, ◌∷◌, [], true, false, Some, None, Ok, Err, IfOk, IfSome, OnOk, OnErr, ◌&&◌, reverse};
ghost use Rattle.mw_disk.specs.FileLogs.{FileState, after, is_read, judged_log, laid, state_of};
ghost use Rattle.mw_disk.specs.declared.file_event.FileEvent.TheVariants.{Read, Write};

use crate::file_calls::FileCalls;
use crate::file_event::FileEvent;
use crate::memory::{lengthen, put_range};
use mw_base::{Bytes, Memory};
use std::alloc::Global;
use std::io;

/// A file of the system whose calls are kept with their answers, as long as there is memory.
#[derive(Drop)]
pub struct RecordedFile<C: FileCalls + Drop> {
    alloc: Global,
    calls: C,
    events: Vec<FileEvent<Bytes>>,
    whole: bool,
    ghost kept: { whole ≡ true → (C.FileCalls.log calls).events ≡ reverse events.items },
}

/// A copy of bytes.
fn copy_of(alloc: Global, bytes: &[u8]) -> Result<Bytes, Memory>
    ensures { IfOk result (λ copy. copy ≡ bytes.now) }
{
    Ok(Bytes::from_vec(Vec::from_slice(alloc, bytes)?))
}

/// A read that gave so many bytes.
fn read_of(alloc: Global, at: u64, room: usize, got: &[u8]) -> Result<FileEvent<Bytes>, Memory>
    ensures { IfOk result (λ event. event ≡ Read at room (Some got.now)) }
{
    Ok(FileEvent::Read {
        at,
        room,
        answer: Some(copy_of(alloc, got)?),
    })
}

/// A write with its answer.
fn write_of(
    alloc: Global,
    at: u64,
    bytes: &[u8],
    answer: Option<usize>,
) -> Result<FileEvent<Bytes>, Memory>
    ensures { IfOk result (λ event. event ≡ Write at bytes.now answer) }
{
    Ok(FileEvent::Write {
        at,
        bytes: copy_of(alloc, bytes)?,
        answer,
    })
}

/// Puts a call behind a record, where there is memory, and tells whether the record is whole.
fn keep(
    events: &mut Vec<FileEvent<Bytes>>,
    whole: bool,
    event: Result<FileEvent<Bytes>, Memory>,
) -> bool
    ensures kept { result ≡ true → (whole ≡ true)
        × IfOk event (λ made. events.new.items ≡ events.old.items ++ made ∷ []) }
    ensures made { result ≡ true → OnErr event ⊥ }
{
    match event {
        Ok(event) => whole && events.push(event).is_ok(),
        Err(_) => false,
    }
}

/// Whether bytes that were read stand at their place.
fn stands(bytes: &[u8], at: u64, room: usize, got: &[u8]) -> bool
    ensures { result ≡ is_read bytes.now at room got.now }
{
    let from = at.min(bytes.len() as u64) as usize;
    let rest = &bytes[from..];
    let front = &rest[..got.len().min(rest.len())];
    got == front && (!got.is_empty() || room == 0 || bytes.len() as u64 <= at)
}

/// Does a write that took bytes.
fn lay(bytes: &mut Vec<u8>, at: u64, put: &[u8]) -> Result<(), Memory>
    ensures { OnOk result (bytes.new.items ≡ laid at put.now bytes.old.items) }
{
    if put.is_empty() {
        return Ok(());
    }
    put_range(bytes, at as usize, put)
}

/// Does a call on a file with these bytes, and tells whether its answer is an honest one.
fn judge(bytes: &mut Vec<u8>, event: &FileEvent<Bytes>) -> Result<bool, Memory>
    ensures { IfOk result (λ fine. (s : FileState) → s.bytes ≡ bytes.old.items
        → ((after event.now s).bytes ≡ bytes.new.items)
        × ((after event.now s).honest ≡ (s.honest && fine))) }
{
    match event {
        FileEvent::Length { answer: Some(len) } => Ok(*len == bytes.len() as u64),
        FileEvent::Read {
            at,
            room,
            answer: Some(got),
        } => { Ok(stands(bytes.as_slice(), *at, *room, got.as_slice())) }
        FileEvent::Write {
            at,
            bytes: put,
            answer: Some(count),
        } => {
            let taken = put.len().min(*count);
            lay(bytes, *at, &put.as_slice()[..taken])?;
            Ok(true)
        }
        FileEvent::Resize { len, done: true } => {
            lengthen(bytes, *len as usize)?;
            Ok(true)
        }
        _ => Ok(true),
    }
}

/// Whether an honest file may have held these bytes when it was opened, and was made then or not.
fn is_fine_start(found: &[u8], fresh: bool) -> bool
    ensures { result ≡ (state_of (judged_log found.now fresh [])).honest }
{
    if fresh {
        return found.is_empty();
    }
    true
}

/// Whether a record of calls, the first one first, is that of an honest file that held these bytes
/// when it was opened, and was made then or not.
pub fn is_honest_record(
    alloc: Global,
    found: &[u8],
    fresh: bool,
    events: &[FileEvent<Bytes>],
) -> Result<bool, Memory>
    ensures { IfOk result
        (λ honest. honest ≡ (state_of (judged_log found.now fresh events.now)).honest) }
{
    let mut bytes = Vec::from_slice(alloc, found)?;
    let mut honest = is_fine_start(found, fresh);
    for event in events {
        let fine = judge(&mut bytes, event)?;
        honest &= fine;
    }
    Ok(honest)
}

impl<C: FileCalls + Drop> RecordedFile<C> {
    ghost use Rattle.mw_disk.specs.RecordedFiles.{recorded_of};

    /// Keeps the calls of a file of which none was made yet.
    pub fn new(alloc: Global, calls: C) -> RecordedFile<C>
        requires { (C.FileCalls.log calls).events ≡ [] }
        ensures { recorded_of result ≡ calls }
    {
        RecordedFile {
            alloc,
            calls,
            events: Vec::new(alloc),
            whole: true,
        }
    }

    /// The calls with their answers, the first one first, or nothing where memory for one was
    /// wanting.
    pub fn events(&self) -> Option<&[FileEvent<Bytes>]>
        ensures { IfSome result (λ events.
            (C.FileCalls.log (recorded_of self.now)).events ≡ reverse events.now) }
    {
        if self.whole {
            return Some(self.events.as_slice());
        }
        None
    }
}

impl<C: FileCalls + Drop> FileCalls for RecordedFile<C> {
    ghost log = { λ f. C.FileCalls.log f.calls };

    ghost is_honest = { λ f. C.FileCalls.is_honest f.calls };

    fn length(&mut self) -> io::Result<u64> {
        let answer = self.calls.length();
        let told = match answer {
            Ok(len) => Some(len),
            Err(_) => None,
        };
        self.whole = keep(
            &mut self.events,
            self.whole,
            Ok(FileEvent::Length { answer: told }),
        );
        answer
    }

    fn read_at(&mut self, at: u64, into: &mut [u8]) -> io::Result<usize> {
        let room = into.len();
        let answer = self.calls.read_at(at, into);
        let event = match answer {
            Ok(count) => read_of(self.alloc, at, room, &into[..count]),
            Err(_) => Ok(FileEvent::Read {
                at,
                room,
                answer: None,
            }),
        };
        self.whole = keep(&mut self.events, self.whole, event);
        answer
    }

    fn write_at(&mut self, at: u64, bytes: &[u8]) -> io::Result<usize> {
        let answer = self.calls.write_at(at, bytes);
        let told = match answer {
            Ok(count) => Some(count),
            Err(_) => None,
        };
        let event = write_of(self.alloc, at, bytes, told);
        self.whole = keep(&mut self.events, self.whole, event);
        answer
    }

    fn set_length(&mut self, len: u64) -> io::Result<()> {
        let answer = self.calls.set_length(len);
        let done = answer.is_ok();
        self.whole = keep(
            &mut self.events,
            self.whole,
            Ok(FileEvent::Resize { len, done }),
        );
        answer
    }

    fn sync(&mut self) -> io::Result<()> {
        let answer = self.calls.sync();
        let done = answer.is_ok();
        self.whole = keep(&mut self.events, self.whole, Ok(FileEvent::Sync { done }));
        answer
    }

    fn sync_folder(&mut self) -> io::Result<()> {
        let answer = self.calls.sync_folder();
        let done = answer.is_ok();
        self.whole = keep(
            &mut self.events,
            self.whole,
            Ok(FileEvent::SyncFolder { done }),
        );
        answer
    }

    ghost answers_honestly = { λ f is. C.FileCalls.answers_honestly f.calls is };
}

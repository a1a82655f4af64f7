ghost use Rattle.std.specs.Prelude.{◌≡◌, ◌<◌, ◌≤◌, IfOk, IsTrue, [], true, length, take, false};
ghost use Rattle.mw_disk.specs.FileLogs.{state_of, is_read};

use crate::call_plan::{CallLuck, CallPlan};
use crate::event_log::EventLog;
use crate::file_calls::FileCalls;
use crate::file_event::FileEvent;
use crate::memory::{get_range, lengthen, put_range};
use crate::seen::Seen;
use mw_base::List;
use std::alloc::Global;
use std::io::{self, ErrorKind};

/// A file in memory, whose calls go as planned. Its answers are those of an honest file.
#[derive(Drop)]
pub struct MemoryFile {
    bytes: Vec<u8>,
    plan: CallPlan,
    log: EventLog,
    ghost held: { bytes.items ≡ (state_of log).bytes },
    ghost honest: { IsTrue (state_of log).honest },
}

/// Reads so many bytes at most from a place on.
fn give(bytes: &[u8], at: u64, into: &mut [u8], most: usize) -> usize
    requires { 0 < most }
    ensures bound { result ≤ length into.old }
    ensures read { IsTrue (is_read bytes.now at (length into.old) (take result into.new)) }
{
    let some = into.len().min(most);
    get_range(bytes, at, &mut into[..some])
}

impl MemoryFile {
    ghost use Rattle.mw_disk.specs.FileLogs.{opened_log};
    ghost use Rattle.mw_disk.specs.MemoryFiles.{log_of};

    /// A file that was made now. Its calls go as listed, and those behind the list as they should.
    pub fn make(alloc: Global, luck: List<CallLuck>) -> MemoryFile
        ensures { log_of result ≡ opened_log [] true }
    {
        MemoryFile {
            bytes: Vec::new(alloc),
            plan: CallPlan::new(luck),
            log: EventLog::of(b"", true),
        }
    }

    /// A file that holds these bytes, all of them safe from a crash.
    pub fn open(bytes: Vec<u8>, luck: List<CallLuck>) -> MemoryFile
        ensures { log_of result ≡ opened_log bytes.items false }
    {
        let log = EventLog::of(bytes.as_slice(), false);
        MemoryFile {
            bytes,
            plan: CallPlan::new(luck),
            log,
        }
    }

    /// The bytes that it holds, and the record of its calls.
    pub fn into_parts(self) -> (Vec<u8>, EventLog)
        ensures bytes { result.0.items ≡ (state_of (log_of self)).bytes }
        ensures log { result.1 ≡ log_of self }
    {
        let MemoryFile {
            bytes,
            plan: _,
            log,
        } = self;
        (bytes, log)
    }
}

impl FileCalls for MemoryFile {
    ghost log = { λ f. f.log };

    ghost is_honest = { λ _. true };

    fn length(&mut self) -> io::Result<u64> {
        if let Err(error) = self.plan.draw() {
            self.log.note(FileEvent::Length { answer: None });
            return Err(error);
        }
        let len = self.bytes.len() as u64;
        self.log.note(FileEvent::Length { answer: Some(len) });
        Ok(len)
    }

    fn read_at(&mut self, at: u64, into: &mut [u8]) -> io::Result<usize> {
        let room = into.len();
        let most = match self.plan.draw() {
            Ok(most) => most,
            Err(error) => {
                self.log.note(FileEvent::Read {
                    at,
                    room,
                    answer: None,
                });
                return Err(error);
            }
        };
        let count = give(self.bytes.as_slice(), at, into, most);
        let answer = Some(Seen::of(&into[..count]));
        self.log.note(FileEvent::Read { at, room, answer });
        Ok(count)
    }

    fn write_at(&mut self, at: u64, bytes: &[u8]) -> io::Result<usize> {
        let seen = Seen::of(bytes);
        let most = match self.plan.draw() {
            Ok(most) => most,
            Err(error) => {
                self.log.note(FileEvent::Write {
                    at,
                    bytes: seen,
                    answer: None,
                });
                return Err(error);
            }
        };
        let count = bytes.len().min(most);
        if count > 0 && put_range(&mut self.bytes, at as usize, &bytes[..count]).is_err() {
            self.log.note(FileEvent::Write {
                at,
                bytes: seen,
                answer: None,
            });
            return Err(io::Error::from(ErrorKind::OutOfMemory));
        }
        self.log.note(FileEvent::Write {
            at,
            bytes: seen,
            answer: Some(count),
        });
        Ok(count)
    }

    fn set_length(&mut self, len: u64) -> io::Result<()> {
        if let Err(error) = self.plan.draw() {
            self.log.note(FileEvent::Resize { len, done: false });
            return Err(error);
        }
        if lengthen(&mut self.bytes, len as usize).is_err() {
            self.log.note(FileEvent::Resize { len, done: false });
            return Err(io::Error::from(ErrorKind::OutOfMemory));
        }
        self.log.note(FileEvent::Resize { len, done: true });
        Ok(())
    }

    fn sync(&mut self) -> io::Result<()> {
        let answer = self.plan.draw();
        self.log.note(FileEvent::Sync {
            done: answer.is_ok(),
        });
        answer?;
        Ok(())
    }

    fn sync_folder(&mut self) -> io::Result<()> {
        let answer = self.plan.draw();
        self.log.note(FileEvent::SyncFolder {
            done: answer.is_ok(),
        });
        answer?;
        Ok(())
    }

    ghost answers_honestly = { λ f is. f.honest };
}

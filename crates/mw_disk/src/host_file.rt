ghost use Rattle.std.specs.Prelude.{◌≡◌, [], length, Some, None, IfOk, is_ok};
ghost use Rattle.mw_disk.specs.HostFiles.{host_log};
ghost use Rattle.mw_disk.specs.System.{file_faults};

use crate::disk::DiskError;
use crate::event_log::EventLog;
use crate::file::FileDisk;
use crate::file_calls::FileCalls;
use crate::file_event::FileEvent;
use crate::seen::Seen;
use std::fs::{File, OpenOptions};
use std::io::ErrorKind;
use std::os::unix::fs::FileExt;
use std::path::Path;
use std::rt::Files;
use std::{fs, io};

/// An open file of the system, whose lock it has (`flock`) until it is dropped. Each method makes
/// the call of its name and notes it with its answer; nothing is claimed of what the system answers.
#[derive(Drop)]
pub struct HostFile {
    file: File,
    /// The folder in which the file was made, until it is synced.
    folder: Option<File>,
    log: EventLog,
}

/// Opens the folder in which a file is.
fn open_folder<R: Files>(rt: &R, name: &str) -> io::Result<R::File> {
    match Path::new(name).parent() {
        Some(folder) if !folder.as_str().is_empty() => fs::open(rt, folder.as_str()),
        _ => fs::open(rt, "."),
    }
}

/// Opens a file to read and write, or makes it, and then its folder is to be synced.
fn open_or_make<R: Files>(rt: &R, name: &str) -> io::Result<(R::File, Option<R::File>)> {
    let mut how = OpenOptions::new();
    how.read(true).write(true);
    let mut fresh = OpenOptions::new();
    fresh.read(true).write(true).create_new(true);
    match fresh.open(rt, name) {
        Ok(file) => Ok((file, Some(open_folder(rt, name)?))),
        Err(error) if error.kind() == ErrorKind::AlreadyExists => Ok((how.open(rt, name)?, None)),
        Err(error) => Err(error),
    }
}

/// Takes the lock of the whole file for this opening of it, and waits for nobody. Where the file
/// system has no locks it takes none.
fn lock_whole(file: &File) -> io::Result<()> {
    let Err(refusal) = file.try_lock() else {
        return Ok(());
    };
    let error = io::Error::from(refusal);
    if error.kind() == ErrorKind::Unsupported {
        return Ok(());
    }
    Err(error)
}

/// Opens the file of a name to read and write, or makes it, and takes its lock. Nothing was asked of
/// it yet, and no clause says what it holds.
pub fn open_host_file<R: Files<File = File>>(rt: &R, name: &str) -> io::Result<HostFile>
    ensures { IfOk result (λ file. (host_log file).events ≡ []) }
{
    let (file, folder) = open_or_make(rt, name)?;
    lock_whole(&file)?;
    let log = EventLog::unknown(folder.is_some());
    Ok(HostFile { file, folder, log })
}

/// The length of an open file.
fn length_of(file: &File) -> io::Result<u64> {
    Ok(file.metadata()?.len())
}

impl FileCalls for HostFile {
    ghost use Rattle.std.specs.Prelude.{false};
    ghost use Rattle.mw_disk.specs.Untold.{never_true};

    ghost log = { λ f. f.log };

    ghost is_honest = { λ _. false };

    fn length(&mut self) -> io::Result<u64> {
        let answer = length_of(&self.file);
        let told = match answer {
            Ok(len) => Some(len),
            Err(_) => None,
        };
        self.log.note(FileEvent::Length { answer: told });
        answer
    }

    fn read_at(&mut self, at: u64, into: &mut [u8]) -> io::Result<usize> {
        let room = into.len();
        let answer = self.file.read_at(into, at);
        let told = match answer {
            Ok(count) => Some(Seen::of(&into[..count])),
            Err(_) => None,
        };
        self.log.note(FileEvent::Read {
            at,
            room,
            answer: told,
        });
        answer
    }

    fn write_at(&mut self, at: u64, bytes: &[u8]) -> io::Result<usize> {
        let answer = self.file.write_at(bytes, at);
        let told = match answer {
            Ok(count) => Some(count),
            Err(_) => None,
        };
        let bytes = Seen::of(bytes);
        self.log.note(FileEvent::Write {
            at,
            bytes,
            answer: told,
        });
        answer
    }

    fn set_length(&mut self, len: u64) -> io::Result<()> {
        let answer = self.file.set_len(len);
        let done = answer.is_ok();
        self.log.note(FileEvent::Resize { len, done });
        answer
    }

    fn sync(&mut self) -> io::Result<()> {
        let answer = self.file.sync_all();
        let done = answer.is_ok();
        self.log.note(FileEvent::Sync { done });
        answer
    }

    fn sync_folder(&mut self) -> io::Result<()> {
        let answer = match &self.folder {
            Some(folder) => folder.sync_all(),
            None => Ok(()),
        };
        let done = answer.is_ok();
        if done {
            self.folder = None;
        }
        self.log.note(FileEvent::SyncFolder { done });
        answer
    }

    ghost answers_honestly = { λ f is. never_true is };
}

/// The error of a disk for one of the system.
fn disk_error(error: &io::Error) -> DiskError {
    if error.kind() == ErrorKind::OutOfMemory {
        DiskError::Memory
    } else {
        DiskError::Failed
    }
}

/// Opens the file of a name, or makes it, empty. The disk has not failed yet. What the file held is
/// unknown: no clause says it.
///
/// `Failed` also where another disk has the file open, of this program or another one. After an
/// error a file that wasn't there may be there, empty.
pub fn open_file_disk<R: Files<File = File>>(
    rt: &R,
    name: &str,
) -> Result<FileDisk<HostFile>, DiskError>
    ensures { IfOk result (λ d. file_faults d ≡ 0) }
{
    match open_host_file(rt, name) {
        Ok(calls) => Ok(FileDisk::new(calls)),
        Err(error) => Err(disk_error(&error)),
    }
}

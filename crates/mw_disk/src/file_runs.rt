ghost use Rattle.std.specs.Prelude.{◌≡◌, ◌≤◌, Some, [], ◌↔◌, IfOk, OnOk, IsTrue, length, take};
ghost use Rattle.std.specs.Io.{ReadsAtMost, WritesAtMost};
ghost use Rattle.std.specs.IoError.{error_kind};
ghost use Rattle.mw_disk.specs.Crash.{Torn, CutShort};
ghost use Rattle.mw_disk.specs.FileLogs.{state_of, is_read, laid};
ghost use Rattle.mw_disk.specs.FileRuns.{Runs, Reads, Settles, Safe};
ghost use Rattle.mw_disk.specs.Range.{GivesRange, written};

use crate::file_calls::FileCalls;
use std::io::{self, ErrorKind};

/// Whether a signal interrupted the call, which is then made again.
fn is_interrupted(error: &io::Error) -> bool
    ensures { IsTrue result ↔ (error_kind error.now ≡ ErrorKind.Interrupted) }
{
    error.kind() == ErrorKind::Interrupted
}

/// Reads once, and again where a signal interrupts it.
fn read_some<C: FileCalls>(calls: &mut C, at: u64, into: &mut [u8]) -> io::Result<usize>
    ensures bound { ReadsAtMost result into.new }
    ensures honest { C.is_honest calls.new ≡ C.is_honest calls.old }
    ensures reads { Reads (C.log calls.old) (C.log calls.new) }
    ensures given { IfOk result (λ count. IsTrue (state_of (C.log calls.new)).honest
        → IsTrue (is_read (state_of (C.log calls.old)).bytes at (length into.old)
        (take count into.new))) }
{
    for _ in 0..u64::MAX {
        match calls.read_at(at, into) {
            Ok(count) => return Ok(count),
            Err(error) if is_interrupted(&error) => {}
            Err(error) => return Err(error),
        }
    }
    Err(io::Error::from(ErrorKind::Interrupted))
}

/// Reads until the end or until the slice is full.
pub(crate) fn read_full<C: FileCalls>(calls: &mut C, at: u64, into: &mut [u8]) -> io::Result<usize>
    ensures bound { IfOk result (λ count. count ≤ length into.old) }
    ensures honest { C.is_honest calls.new ≡ C.is_honest calls.old }
    ensures reads { Reads (C.log calls.old) (C.log calls.new) }
    ensures given { IfOk result (λ count. IsTrue (state_of (C.log calls.new)).honest
        → GivesRange (Some (state_of (C.log calls.old)).bytes) at count into.new) }
{
    let mut done = 0;
    for _ in 0..u64::MAX {
        if done == into.len() {
            return Ok(done);
        }
        let Some(from) = at.checked_add(done as u64) else {
            return Err(io::Error::from(ErrorKind::InvalidInput));
        };
        let count = read_some(calls, from, &mut into[done..])?;
        if count == 0 {
            return Ok(done);
        }
        done += count;
    }
    Err(io::Error::from(ErrorKind::Interrupted))
}

/// Writes once, and again where a signal interrupts it.
fn write_some<C: FileCalls>(calls: &mut C, at: u64, bytes: &[u8]) -> io::Result<usize>
    ensures bound { WritesAtMost result bytes.now }
    ensures honest { C.is_honest calls.new ≡ C.is_honest calls.old }
    ensures runs { Runs (Torn at (length bytes.now)) (C.log calls.old) (C.log calls.new) }
    ensures bytes { IfOk result (λ count. (state_of (C.log calls.new)).bytes
        ≡ laid at (take count bytes.now) (state_of (C.log calls.old)).bytes) }
{
    for _ in 0..u64::MAX {
        match calls.write_at(at, bytes) {
            Ok(count) => return Ok(count),
            Err(error) if is_interrupted(&error) => {}
            Err(error) => return Err(error),
        }
    }
    Err(io::Error::from(ErrorKind::Interrupted))
}

/// Writes all the bytes, and gives up where a write takes none.
fn write_all<C: FileCalls>(calls: &mut C, at: u64, bytes: &[u8]) -> io::Result<()>
    ensures honest { C.is_honest calls.new ≡ C.is_honest calls.old }
    ensures runs { Runs (Torn at (length bytes.now)) (C.log calls.old) (C.log calls.new) }
    ensures bytes { OnOk result ((state_of (C.log calls.new)).bytes
        ≡ laid at bytes.now (state_of (C.log calls.old)).bytes) }
{
    let mut done = 0;
    for _ in 0..u64::MAX {
        if done == bytes.len() {
            return Ok(());
        }
        let Some(from) = at.checked_add(done as u64) else {
            return Err(io::Error::from(ErrorKind::InvalidInput));
        };
        let count = write_some(calls, from, &bytes[done..])?;
        if count == 0 {
            return Err(io::Error::from(ErrorKind::WriteZero));
        }
        done += count;
    }
    Err(io::Error::from(ErrorKind::Interrupted))
}

/// Lengthens a file that doesn't reach a place.
fn reach<C: FileCalls>(calls: &mut C, at: u64) -> io::Result<()>
    ensures honest { C.is_honest calls.new ≡ C.is_honest calls.old }
    ensures lost { (state_of (C.log calls.new)).lost ≡ (state_of (C.log calls.old)).lost }
    ensures runs { IsTrue (state_of (C.log calls.new)).honest
        → Runs (Torn at 0) (C.log calls.old) (C.log calls.new) }
    ensures bytes { OnOk result (IsTrue (state_of (C.log calls.new)).honest
        → (state_of (C.log calls.new)).bytes ≡ written at [] (state_of (C.log calls.old)).bytes) }
{
    if calls.length()? < at {
        calls.set_length(at)?;
    }
    Ok(())
}

/// Writes all the bytes; where there are none, the file reaches their place.
pub(crate) fn write_full<C: FileCalls>(calls: &mut C, at: u64, bytes: &[u8]) -> io::Result<()>
    ensures honest { C.is_honest calls.new ≡ C.is_honest calls.old }
    ensures lost { (state_of (C.log calls.new)).lost ≡ (state_of (C.log calls.old)).lost }
    ensures runs { IsTrue (state_of (C.log calls.new)).honest
        → Runs (Torn at (length bytes.now)) (C.log calls.old) (C.log calls.new) }
    ensures bytes { OnOk result (IsTrue (state_of (C.log calls.new)).honest
        → (state_of (C.log calls.new)).bytes
        ≡ written at bytes.now (state_of (C.log calls.old)).bytes) }
{
    if bytes.is_empty() {
        return reach(calls, at);
    }
    write_all(calls, at, bytes)
}

/// Cuts a file that is longer.
pub(crate) fn cut_full<C: FileCalls>(calls: &mut C, len: u64) -> io::Result<()>
    ensures honest { C.is_honest calls.new ≡ C.is_honest calls.old }
    ensures lost { (state_of (C.log calls.new)).lost ≡ (state_of (C.log calls.old)).lost }
    ensures runs { IsTrue (state_of (C.log calls.new)).honest
        → Runs (CutShort len) (C.log calls.old) (C.log calls.new) }
    ensures bytes { OnOk result (IsTrue (state_of (C.log calls.new)).honest
        → (state_of (C.log calls.new)).bytes ≡ take len (state_of (C.log calls.old)).bytes) }
{
    if calls.length()? > len {
        calls.set_length(len)?;
    }
    Ok(())
}

/// Makes a file safe, and its name.
pub(crate) fn sync_full<C: FileCalls>(calls: &mut C) -> io::Result<()>
    ensures honest { C.is_honest calls.new ≡ C.is_honest calls.old }
    ensures settles { Settles (C.log calls.old) (C.log calls.new) }
    ensures safe { OnOk result (Safe (C.log calls.old) (C.log calls.new)) }
{
    calls.sync()?;
    calls.sync_folder()
}

ghost use Rattle.std.specs.Prelude.{◌≤◌};

use crate::cases::each;
use mw_base::{Bytes, List, Memory, Text};
use mw_cases::part;
use mw_edges::{
    Faults, FileRead, Folder, FolderError, MemoryFolder, MemorySink, MemorySource, ReaderSource,
    Sink, SinkError, Source, SteadyFolder, SteadySink, SteadySource, SystemFolder, WriterSink,
};
use std::alloc::Global;
use std::io::{ErrorKind, Read, Write};
use std::rt::Files;
use std::test::Fail;
use std::{fs, io};

/// Which of three takes fails, and what they give.
const TAKES: &str = "0 | !,a,b
1 | a,!,b
2 | a,b,!";

/// Which of three puts fails, and what is put.
const PUTS: &str = "0 | !ab,ab,ab
1 | ab,!ab,ab
2 | ab,ab,!ab";

/// Three reads of a folder of one file, of which the first fails.
const FIRST_READ_FAILS: &str = "read | five | 5 | failed
read | five | 5 | bytes
read | five | 5 | bytes";

/// The same where the second fails.
const SECOND_READ_FAILS: &str = "read | five | 5 | bytes
read | five | 5 | failed
read | five | 5 | bytes";

/// The same where the third fails.
const THIRD_READ_FAILS: &str = "read | five | 5 | bytes
read | five | 5 | bytes
read | five | 5 | failed";

/// Three writes, of which the second fails; the file is the third then.
const SECOND_WRITE_FAILS: &str = "write | new | first | done
write | new | second | failed
write | new | third one | done
read | new | 9 | third one";

/// A folder has the file that was written last.
const LAST_IS_KEPT: &str = "write | five | three | done
write | five | to | done
read | five | 9 | to";

/// A folder of one file of five bytes is read within limits, and a file that isn't there is empty.
const FIVE_ARE_READ: &str = "read | five | 5 | bytes
read | five | 4 | longer
read | none | 0";

/// Files of the system, one of them of five bytes, are read within limits. The last never ends, so a read stops
/// past the limit.
const SYSTEM_IS_READ: &str = "read | five_bytes | 5 | bytes
read | five_bytes | 6 | bytes
read | five_bytes | 4 | longer
read | five_bytes | 0 | longer
read | no_such_file | 5 | failed
read | /dev/zero | 5 | longer";

/// A file is written.
const IS_WRITTEN: &str = "write | written_bytes | longer | done";

/// It is written over, and none is in a folder that isn't there.
const IS_WRITTEN_OVER: &str = "write | written_bytes | short | done
write | no_such_folder/file |  | failed";

fn bytes_of(alloc: Global, bytes: &[u8]) -> Result<Bytes, Memory> {
    Ok(Bytes::from_vec(Vec::from_slice(alloc, bytes)?))
}

/// A plan by which the call of a case's number fails.
fn failing_at(alloc: Global, case: &str) -> Result<Faults, Fail> {
    let call = part(case, 0).parse::<u64>()?;
    Ok(Faults::at(List::from_vec(vec![in alloc; call]?)))
}

fn one_file(alloc: Global) -> Result<List<(Text, Bytes)>, Memory> {
    let file = (Text::of(alloc, "five")?, bytes_of(alloc, b"bytes")?);
    Ok(List::from_vec(vec![in alloc; file]?))
}

/// Whether takes of at most so many bytes give these, one after the other, and fail at each `!`. A source can be sent
/// to other threads.
fn gives<S: Source + Drop + Send>(mut source: S, room: usize, wanted: &str) -> bool
    requires { room ≤ 4 }
{
    for bytes in wanted.split(',') {
        let mut into = [0u8; 4];
        let found = match source.take(&mut into[..room]) {
            Ok(count) => &into[..count],
            Err(_) => b"!".as_slice(),
        };
        if found != bytes.as_bytes() {
            return false;
        }
    }
    true
}

/// Whether these are put, one after the other, and just those fail that a `!` stands before.
pub(crate) fn puts<S: Sink>(sink: &mut S, pieces: &str) -> bool {
    for piece in pieces.split(',') {
        let (bytes, wanted) = match piece.strip_prefix('!') {
            Some(bytes) => (bytes, Err(SinkError::Failed)),
            None => (piece, Ok(())),
        };
        if sink.put(bytes.as_bytes()) != wanted {
            return false;
        }
    }
    true
}

/// Whether a source of three bytes is so, whose call of a case's number fails.
fn is_take_case(alloc: Global, case: &str) -> Result<bool, Fail> {
    let bytes = bytes_of(alloc, b"abc")?;
    let faults = failing_at(alloc, case)?;
    Ok(gives(MemorySource::new(bytes, faults), 1, part(case, 1)))
}

#[test]
fn planned_takes_fail(rt: HostRuntime) -> Result<(), Fail> {
    each(rt.alloc(), TAKES, is_take_case)
}

fn is_send<T: Send>(_value: &T) -> bool {
    true
}

/// Whether a sink is so, whose call of a case's number fails, and has what the others put.
fn is_put_case(alloc: Global, case: &str) -> Result<bool, Fail> {
    let mut sink = MemorySink::new(alloc, failing_at(alloc, case)?);
    let is_so = puts(&mut sink, part(case, 1));
    Ok(is_so && sink.bytes() == b"abab".as_slice() && is_send(&sink))
}

#[test]
fn planned_puts_fail(rt: HostRuntime) -> Result<(), Fail> {
    each(rt.alloc(), PUTS, is_put_case)
}

/// Whether a file is read as is wanted: its bytes, `longer` or an error.
fn is_read(read: Result<FileRead, FolderError>, wanted: &str) -> bool {
    let found = match &read {
        Ok(FileRead::Whole(bytes)) => bytes.as_slice(),
        Ok(FileRead::Longer) => b"longer".as_slice(),
        Err(FolderError::Failed) => b"failed".as_slice(),
        Err(FolderError::Memory) => b"memory".as_slice(),
    };
    found == wanted.as_bytes()
}

/// Whether a write is answered as is wanted: `done` or an error.
fn is_written(written: Result<(), FolderError>, wanted: &str) -> bool {
    let found = match written {
        Ok(()) => "done",
        Err(FolderError::Failed) => "failed",
        Err(FolderError::Memory) => "memory",
    };
    found == wanted
}

/// Whether a folder answers a case so: `read | NAME | LIMIT | ANSWER` or `write | NAME | BYTES | ANSWER`.
fn is_answered<F: Folder>(alloc: Global, folder: &mut F, case: &str) -> Result<bool, Memory> {
    let name = Text::of(alloc, part(case, 1))?;
    let (given, wanted) = (part(case, 2), part(case, 3));
    let is_so = match (part(case, 0), given.parse::<u64>()) {
        ("write", _) => is_written(folder.write_file(alloc, &name, given.as_bytes()), wanted),
        ("read", Ok(limit)) => is_read(folder.read_file(alloc, &name, limit), wanted),
        _ => false,
    };
    Ok(is_so)
}

/// Fails at the first of the cases that a folder doesn't answer so.
pub(crate) fn answers<F: Folder>(alloc: Global, folder: &mut F, cases: &str) -> Result<(), Fail> {
    for case in cases.split('\n') {
        if !is_answered(alloc, folder, case)? {
            return Err(Fail::new(case));
        }
    }
    Ok(())
}

/// Fails where a folder of one file, whose call of this number fails, doesn't answer so.
fn answers_but(alloc: Global, planned: &str, cases: &str) -> Result<(), Fail> {
    let files = one_file(alloc)?;
    let mut folder = MemoryFolder::new(files, failing_at(alloc, planned)?);
    is_send(&folder);
    answers(alloc, &mut folder, cases)
}

#[test]
fn planned_reads_fail(rt: HostRuntime) -> Result<(), Fail> {
    answers_but(rt.alloc(), "0", FIRST_READ_FAILS)?;
    answers_but(rt.alloc(), "1", SECOND_READ_FAILS)?;
    answers_but(rt.alloc(), "2", THIRD_READ_FAILS)
}

#[test]
fn planned_writes_fail(rt: HostRuntime) -> Result<(), Fail> {
    answers_but(rt.alloc(), "1", SECOND_WRITE_FAILS)
}

/// Fails where a steady folder of one file doesn't answer so.
fn steady_answers(alloc: Global, cases: &str) -> Result<(), Fail> {
    answers(alloc, &mut SteadyFolder::new(one_file(alloc)?), cases)
}

#[test]
fn steady_folders_are_written(rt: HostRuntime) -> Result<(), Fail> {
    steady_answers(rt.alloc(), LAST_IS_KEPT)
}

/// Whether a steady sink has what is put.
fn is_sunk(alloc: Global) -> bool {
    let mut sink = SteadySink::new(alloc);
    puts(&mut sink, "ab,c") && sink.bytes() == b"abc".as_slice()
}

#[test]
fn steady_objects_work(rt: HostRuntime) -> Result<(), Fail> {
    let source = SteadySource::new(bytes_of(rt.alloc(), b"abc")?);
    assert!(rt; gives(source, 2, "ab,c,") && is_sunk(rt.alloc()));
    steady_answers(rt.alloc(), FIVE_ARE_READ)
}

/// A reader and writer that is interrupted first, then moves a byte a call, and breaks at its fourth.
#[derive(Drop)]
struct Flaky {
    calls: u64,
}

impl Flaky {
    fn next(&mut self) -> io::Result<usize> {
        self.calls = self.calls.saturating_add(1);
        match self.calls {
            1 => Err(io::Error::from(ErrorKind::Interrupted)),
            2 | 3 => Ok(1),
            _ => Err(io::Error::from(ErrorKind::BrokenPipe)),
        }
    }
}

impl Read for Flaky {
    fn read(&mut self, buf: &mut [u8]) -> io::Result<usize> {
        let moved = self.next()?;
        Ok(moved.min(buf.len()))
    }
}

impl Write for Flaky {
    fn write(&mut self, buf: &[u8]) -> io::Result<usize> {
        let moved = self.next()?;
        Ok(moved.min(buf.len()))
    }

    fn flush(&mut self) -> io::Result<()> {
        Ok(())
    }
}

/// Whether these are put so into such a stream.
fn puts_flaky(pieces: &str) -> bool {
    puts(&mut WriterSink::new(Flaky { calls: 0 }), pieces)
}

#[test]
fn interrupted_streams_go_on(rt: HostRuntime) {
    assert!(rt;
        gives(ReaderSource::new(Flaky { calls: 0 }), 4, "\0,\0,!")
            && puts_flaky("ab")
            && puts_flaky("!abc")
    );
}

/// Whether a sink puts bytes into a stream.
fn is_passed(alloc: Global) -> bool {
    let mut sink = WriterSink::new(Vec::new(alloc));
    let is_so = puts(&mut sink, "ab,c");
    let inner = sink.into_inner();
    is_so && inner.as_slice() == b"abc".as_slice()
}

#[test]
fn streams_pass_bytes_on(rt: HostRuntime) {
    assert!(rt; gives(ReaderSource::new(b"abc".as_slice()), 4, "abc") && is_passed(rt.alloc()));
}

#[test]
fn system_files_are_read(rt: HostRuntime) -> Result<(), Fail> {
    fs::write(&rt, "five_bytes", "bytes")?;
    answers(
        rt.alloc(),
        &mut SystemFolder::new(&rt, rt.alloc()),
        SYSTEM_IS_READ,
    )?;
    fs::remove_file(&rt, "five_bytes")?;
    Ok(())
}

/// Fails where a folder doesn't answer so, or the file that is written hasn't this text then.
fn puts_file<R: Files + AllocGlobal, F: Folder>(
    rt: &R,
    folder: &mut F,
    cases: &str,
    text: &str,
) -> Result<(), Fail> {
    answers(rt.alloc(), folder, cases)?;
    if fs::read_to_string(rt, "written_bytes")?.as_str() == text {
        return Ok(());
    }
    Err(Fail::new(cases))
}

#[test]
fn system_files_are_written(rt: HostRuntime) -> Result<(), Fail> {
    let mut folder = SystemFolder::new(&rt, rt.alloc());
    puts_file(&rt, &mut folder, IS_WRITTEN, "longer")?;
    puts_file(&rt, &mut folder, IS_WRITTEN_OVER, "short")?;
    fs::remove_file(&rt, "written_bytes")?;
    Ok(())
}

/// Whether a file that a folder has open as a disk is refused to another folder until its disk is closed.
fn is_held<F: Folder>(
    alloc: Global,
    name: &Text,
    first: &mut F,
    second: &mut F,
) -> Result<bool, FolderError> {
    let disk = first.open_disk(alloc, name)?;
    let is_refused = match second.open_disk(alloc, name) {
        Err(error) => error == FolderError::Failed,
        Ok(disk) => {
            second.close_disk(name, disk);
            false
        }
    };
    first.close_disk(name, disk);
    let disk = second.open_disk(alloc, name)?;
    second.close_disk(name, disk);
    Ok(is_refused)
}

#[test]
fn a_file_is_one_disk_at_a_time(rt: HostRuntime) -> Result<(), Fail> {
    let name = Text::of(rt.alloc(), "held_bytes")?;
    let mut first = SystemFolder::new(&rt, rt.alloc());
    let mut second = SystemFolder::new(&rt, rt.alloc());
    assert!(rt; is_held(rt.alloc(), &name, &mut first, &mut second)?);
    fs::remove_file(&rt, "held_bytes")?;
    Ok(())
}

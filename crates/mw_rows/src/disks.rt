use mw_base::{Bytes, List, Memory};
use mw_cases::part;
use mw_disk::{
    CallLuck, Disk, DiskError, FileDisk, MemDisk, MemoryFile, RecordedFile, Tear, is_honest_record,
    open_file_disk, open_host_file,
};
use std::alloc::Global;
use std::fs;
use std::test::Fail;

/// A disk of `abde` is read within its bytes, past their end and behind it. A case of a call on a disk is `CALL | AT |
/// GIVEN | ANSWER`; a read is given the number of bytes that it gives, and its answer is the buffer then.
const READS: &str = "read | 1 | 2 | bd
read | 3 | 1 | e\0
read | 4 | 0 | \0\0";

/// A disk of `abc` is written past its end, and behind it.
const WRITES: &str = "write | 2 | de | done
write | 6 | f | done";

/// A disk isn't cut to more bytes than it has.
const CUT_TO_MORE: &str = "cut | 9 |  | done";

/// It is cut to fewer.
const CUT_TO_FEWER: &str = "cut | 9 |  | done
cut | 2 |  | done
sync | 0 |  | done";

/// A disk of `abc` is written, synced, written and cut.
const WORN: &str = "write | 2 | de | done
sync | 0 |  | done
write | 0 | x | done
cut | 2 |  | done";

/// What a crash of such a disk leaves: after how many calls, how it tears, and the bytes.
const CRASHES: &str = "0 | done | abc
1 | lost | abc
1 | done | abde
1 | filled | ab!!
2 | lost | abde
3 | lost | abde
4 | filled | !bde
9 | done | xb";

/// An empty disk whose first and third calls fail.
const PLANNED: &str = "write | 0 | a | failed
write | 0 | b | done
sync | 0 |  | memory
sync | 0 |  | done";

/// An empty disk that is written, synced and cut has what is left.
const KEPT: &str = "write | 1 | bc | done
sync | 0 |  | done
cut | 2 |  | done
read | 0 | 2 | \0b\0\0";

/// A disk over a file of `abc` is written past its end and behind it, and read.
const LAID: &str = "write | 2 | de | done
write | 6 | f | done
read | 1 | 3 | bde
read | 4 | 3 | \0\0f\0
write | 9 |  | done
read | 7 | 2 | \0\0\0";

/// A disk of these bytes whose calls fail as planned.
pub(crate) fn disk_of(
    alloc: Global,
    bytes: &[u8],
    failing: &[(u64, DiskError)],
) -> Result<MemDisk, Memory> {
    let start = Bytes::from_vec(Vec::from_slice(alloc, bytes)?);
    let failing = List::from_vec(Vec::from_slice(alloc, failing)?);
    MemDisk::new(alloc, start, failing)
}

/// Whether a read gives so many bytes, and leaves the buffer so, which has room for at most four.
fn is_read<D: Disk>(disk: &mut D, at: u64, count: &str, wanted: &[u8]) -> bool {
    let mut into = [0u8; 4];
    let room = wanted.len().min(4);
    let Ok(count) = count.parse::<usize>() else {
        return false;
    };
    disk.read(at, &mut into[..room]) == Ok(count) && &into[..room] == wanted
}

/// What a call is answered.
fn told(answer: Result<(), DiskError>) -> &'static str {
    match answer {
        Ok(()) => "done",
        Err(DiskError::Failed) => "failed",
        Err(DiskError::Memory) => "memory",
    }
}

/// Whether the call of a case is answered so.
fn is_answered<D: Disk>(disk: &mut D, case: &str) -> bool {
    let Ok(at) = part(case, 1).parse::<u64>() else {
        return false;
    };
    let (given, wanted) = (part(case, 2), part(case, 3));
    let answer = match part(case, 0) {
        "read" => return is_read(disk, at, given, wanted.as_bytes()),
        "write" => disk.write_at(at, given.as_bytes()),
        "cut" => disk.cut(at),
        "sync" => disk.sync(),
        _ => return false,
    };
    told(answer) == wanted
}

/// Fails at the first of the calls that a disk doesn't answer so.
fn answers<D: Disk>(disk: &mut D, cases: &str) -> Result<(), Fail> {
    for case in cases.split('\n') {
        if !is_answered(disk, case) {
            return Err(Fail::new(case));
        }
    }
    Ok(())
}

/// Fails where a disk of these bytes, whose calls fail as planned, doesn't answer so, has other bytes then, or keeps a
/// record of another number of calls.
fn leaves(
    alloc: Global,
    start: &[u8],
    failing: &[(u64, DiskError)],
    cases: &str,
    left: &[u8],
    calls: usize,
) -> Result<(), Fail> {
    let mut disk = disk_of(alloc, start, failing)?;
    answers(&mut disk, cases)?;
    if disk.bytes() == left && disk.calls().len() == calls {
        return Ok(());
    }
    Err(Fail::new(cases))
}

#[test]
fn disks_are_read(rt: HostRuntime) -> Result<(), Fail> {
    leaves(rt.alloc(), b"abde", &[], READS, b"abde", 3)
}

#[test]
fn disks_are_written(rt: HostRuntime) -> Result<(), Fail> {
    leaves(rt.alloc(), b"abc", &[], WRITES, b"abde\0\0f", 2)
}

#[test]
fn disks_are_cut(rt: HostRuntime) -> Result<(), Fail> {
    leaves(rt.alloc(), b"abc", &[], CUT_TO_MORE, b"abc", 1)?;
    leaves(rt.alloc(), b"abc", &[], CUT_TO_FEWER, b"ab", 3)
}

/// Whether a crash leaves what a case says.
fn is_left(disk: &MemDisk, case: &str) -> bool {
    let tear = match part(case, 1) {
        "done" => Tear::Done,
        "lost" => Tear::Lost,
        "filled" => Tear::Filled(b'!'),
        _ => return false,
    };
    let Ok(moment) = part(case, 0).parse::<usize>() else {
        return false;
    };
    match disk.image_at(moment, tear) {
        Ok(image) => image.as_slice() == part(case, 2).as_bytes(),
        Err(_) => false,
    }
}

/// Fails at the first of the crashes that doesn't leave what it should.
fn are_left(mut disk: MemDisk) -> Result<(), Fail> {
    answers(&mut disk, WORN)?;
    for case in CRASHES.split('\n') {
        if !is_left(&disk, case) {
            return Err(Fail::new(case));
        }
    }
    Ok(())
}

#[test]
fn crashes_leave_what_is_safe(rt: HostRuntime) -> Result<(), Fail> {
    are_left(disk_of(rt.alloc(), b"abc", &[])?)
}

#[test]
fn planned_calls_of_a_disk_fail(rt: HostRuntime) -> Result<(), Fail> {
    let failing = [(0, DiskError::Failed), (2, DiskError::Memory)];
    leaves(rt.alloc(), b"", &failing, PLANNED, b"b", 4)
}

#[test]
fn files_are_disks(rt: HostRuntime) -> Result<(), Fail> {
    answers(&mut open_file_disk(&rt, "disk_bytes")?, KEPT)?;
    fs::remove_file(&rt, "disk_bytes")?;
    Ok(())
}

/// Luck by which each of ten reads and writes takes one byte, after a signal interrupted it.
pub(crate) fn one_by_one(alloc: Global) -> Result<List<CallLuck>, Memory> {
    let mut luck = List::new(alloc);
    for _ in 0..10 {
        luck.push(CallLuck::Interrupted)?;
        luck.push(CallLuck::Short(1))?;
    }
    Ok(luck)
}

/// A disk over a file in memory with these bytes, whose calls go so.
fn file_disk_of(
    alloc: Global,
    bytes: &[u8],
    luck: List<CallLuck>,
) -> Result<FileDisk<MemoryFile>, Memory> {
    let bytes = Vec::from_slice(alloc, bytes)?;
    Ok(FileDisk::new(MemoryFile::open(bytes, luck)))
}

#[test]
fn files_in_memory_are_disks(rt: HostRuntime) -> Result<(), Fail> {
    let alloc = rt.alloc();
    let made = MemoryFile::make(alloc, List::new(alloc));
    answers(&mut FileDisk::new(made), KEPT)?;
    answers(
        &mut file_disk_of(alloc, b"abde", one_by_one(alloc)?)?,
        READS,
    )?;
    answers(&mut file_disk_of(alloc, b"abc", one_by_one(alloc)?)?, LAID)?;
    let luck = List::from_vec(Vec::from_slice(alloc, &[CallLuck::Whole, CallLuck::Failed])?);
    let mut disk = file_disk_of(alloc, b"abc", luck)?;
    answers(
        &mut disk,
        "write | 1 | x | done\nsync | 0 |  | failed\nwrite | 0 | y | failed",
    )?;
    Ok(())
}

#[test]
fn a_real_run_is_honest(rt: HostRuntime) -> Result<(), Fail> {
    let alloc = rt.alloc();
    let file = open_host_file(&rt, "disk_calls")?;
    let mut disk = FileDisk::new(RecordedFile::new(alloc, file));
    answers(&mut disk, KEPT)?;
    fs::remove_file(&rt, "disk_calls")?;
    let Some(events) = disk.calls().events() else {
        return Err(Fail::new("no memory"));
    };
    assert!(rt; is_honest_record(alloc, b"", true, events)?);
    assert!(rt; !is_honest_record(alloc, b"xyz", false, events)?);
    Ok(())
}

//! The files of a system in memory, and a writer that notes what was taken.
use crate::disks::one_by_one;
use crate::edges::{answers, puts};
use mw_base::{List, Memory, Text};
use mw_disk::{CallLuck, Disk, DiskError};
use mw_edges::{Folder, FolderError, MemorySystem, NotedWriter, SystemFolder, WriterSink};
use std::alloc::Global;
use std::test::Fail;

/// Files are written, written over and read, by a byte a call.
const SHORT_CALLS: &str = "read | five_bytes | 5 | failed
write | five_bytes | other bytes | done
write | five_bytes | bytes | done
write | none |  | done
read | five_bytes | 5 | bytes
read | five_bytes | 6 | bytes
read | five_bytes | 4 | longer
read | five_bytes | 0 | longer
read | none | 0 | 
read | no_such_file | 5 | failed";

/// What a file holds once a disk of it is closed.
const LEFT_BY_A_DISK: &str = "read | five_bytes | 9 | by a disk
write | five_bytes | bytes | done
read | five_bytes | 5 | bytes
read | new | 9 | by a disk";

/// A file is opened as a disk, which writes, syncs and is closed.
fn leaves<F: Folder>(alloc: Global, folder: &mut F, name: &str) -> Result<(), FolderError> {
    let name = Text::of(alloc, name).or(Err(FolderError::Memory))?;
    let mut disk = folder.open_disk(alloc, &name)?;
    let done = write_whole(&mut disk);
    folder.close_disk(&name, disk);
    done.or(Err(FolderError::Failed))
}

/// A disk holds these bytes alone, all of them safe.
fn write_whole<D: Disk>(disk: &mut D) -> Result<(), DiskError> {
    disk.cut(0)?;
    disk.write_at(0, b"by a disk")?;
    disk.sync()
}

/// The files of a system in memory whose calls go so.
fn folder_over(alloc: Global, luck: List<CallLuck>) -> SystemFolder<MemorySystem> {
    SystemFolder::over(MemorySystem::new(alloc, luck), alloc)
}

/// Luck by which the first calls go so.
fn luck_of(alloc: Global, first: &[CallLuck]) -> Result<List<CallLuck>, Memory> {
    Ok(List::from_vec(Vec::from_slice(alloc, first)?))
}

#[test]
fn a_system_in_memory_has_files(rt: HostRuntime) -> Result<(), Fail> {
    let alloc = rt.alloc();
    answers(
        alloc,
        &mut folder_over(alloc, one_by_one(alloc)?),
        SHORT_CALLS,
    )
}

#[test]
fn a_system_in_memory_has_disks(rt: HostRuntime) -> Result<(), Fail> {
    let alloc = rt.alloc();
    let luck = luck_of(alloc, [CallLuck::Short(1); 12].as_slice())?;
    let mut folder = folder_over(alloc, luck);
    answers(alloc, &mut folder, "write | five_bytes | bytes | done")?;
    leaves(alloc, &mut folder, "five_bytes").or(Err("no disk"))?;
    leaves(alloc, &mut folder, "new").or(Err("no new disk"))?;
    answers(alloc, &mut folder, LEFT_BY_A_DISK)
}

#[test]
fn a_system_in_memory_fails(rt: HostRuntime) -> Result<(), Fail> {
    let alloc = rt.alloc();
    let mut folder = folder_over(alloc, luck_of(alloc, &[CallLuck::Failed])?);
    answers(alloc, &mut folder, "write | five_bytes | bytes | failed")
}

/// Whether a writer that notes what was taken has it too.
fn is_noted(alloc: Global) -> bool {
    let mut sink = WriterSink::new(NotedWriter::new(Vec::new(alloc)));
    let is_so = puts(&mut sink, "ab,c");
    is_so && sink.into_inner().into_inner().as_slice() == b"abc".as_slice()
}

#[test]
fn noted_writers_pass_bytes_on(rt: HostRuntime) {
    assert!(rt; is_noted(rt.alloc()));
}

//! A room over the files of a system in memory, whose calls take a few bytes each.
use crate::harness::{fits, told};
use crate::kept_room_tests::RUNS;
use mw_base::{List, Memory, Text};
use mw_cases::ROOM_A;
use mw_disk::CallLuck;
use mw_edges::{Folder, FolderError, MemorySystem, SystemFolder};
use std::alloc::Global;
use std::sync::Wait;
use std::test::Fail;
use std::thread::Threads;

/// Luck by which each of a thousand reads and writes takes three bytes.
fn few_bytes(alloc: Global) -> Result<List<CallLuck>, Memory> {
    Ok(List::from_vec(vec![in alloc; CallLuck::Short(3); 1_000]?))
}

/// The files of such a system, of which the seed file of Room A is the first.
fn folder_of_few(alloc: Global) -> Result<SystemFolder<MemorySystem>, FolderError> {
    let luck = few_bytes(alloc).or(Err(FolderError::Memory))?;
    let mut folder = SystemFolder::over(MemorySystem::new(alloc, luck), alloc);
    let name = Text::of(alloc, "A").or(Err(FolderError::Memory))?;
    folder.write_file(alloc, &name, ROOM_A.as_bytes())?;
    Ok(folder)
}

/// Fails, with its words, at the first run of the room that tells otherwise.
fn runs_over<F: Folder, R: Threads + Wait + Sync>(
    rt: &R,
    alloc: Global,
    folder: &mut F,
) -> Result<(), Fail>
where
    F::Drive: Drop,
{
    for (line, script, wanted) in RUNS.iter() {
        let found = told(rt, alloc, folder, line, script, "")?;
        if !fits(found.as_str(), wanted) {
            return Err(Fail::new(line));
        }
    }
    Ok(())
}

#[test]
fn a_room_over_short_calls(rt: HostRuntime) -> Result<(), Fail> {
    let mut folder = folder_of_few(rt.alloc()).or(Err("no files"))?;
    runs_over(&rt, rt.alloc(), &mut folder)
}

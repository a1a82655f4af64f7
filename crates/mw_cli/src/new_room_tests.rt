use crate::harness::{File, Run, cases_tell, folder_of, holds, runs_tell};
use crate::tests::FOLDER_A;
use mw_cases::ROOM_A;
use mw_edges::MemoryFolder;
use std::alloc::Global;
use std::sync::Wait;
use std::test::Fail;
use std::thread::Threads;

/// An empty journal for room A: the magic, the digest, and a gate that isn't open.
pub(crate) const EMPTY: [u8; 41] = [
    0x4d, 0x57, 0x4a, 0x52, 0x4e, 0x4c, 0x31, 0x0a, 0x44, 0x91, 0xd0, 0xbd, 0x0f, 0x1e, 0xb2, 0xd9,
    0x90, 0x5e, 0xf7, 0xa0, 0x63, 0xf4, 0x3e, 0xbe, 0x51, 0xfd, 0x1d, 0x5b, 0xad, 0x85, 0xd1, 0x28,
    0x70, 0x53, 0xf9, 0x3b, 0xa8, 0x9f, 0x53, 0x01, 0x00,
];

/// Fails where `new-room A J` tells another line, or leaves no empty journal for room A.
fn leaves_a_room<R: Threads + Wait + Sync>(
    rt: &R,
    alloc: Global,
    folder: &mut MemoryFolder,
    wanted: &str,
) -> Result<(), Fail> {
    runs_tell(rt, alloc, folder, "", &[("new-room A J", "", wanted)], "")?;
    holds(alloc, folder, "J", &EMPTY, wanted)
}

#[test]
fn new_room(rt: HostRuntime) -> Result<(), Fail> {
    let mut folder = folder_of(rt.alloc(), &FOLDER_A, "", "")?;
    leaves_a_room(&rt, rt.alloc(), &mut folder, "0 room made\n")?;
    leaves_a_room(
        &rt,
        rt.alloc(),
        &mut folder,
        "7 journal refused: NotEmpty\n",
    )
}

/// A seed file, and one that is none.
const SEEDS: [File<'static>; 2] = [("A", ROOM_A), ("seven", "7")];

/// A room is refused, and no journal is made.
const REFUSED: [Run<'static>; 2] = [("$0", "", "$1\n"), ("file J", "", "no file")];

/// A line of words, and what is told.
const REFUSALS: &str = "new-room seven J | 7 multidata refused: WrongKind /
new-room A A | 7 journal refused: NotEmpty
new-room B J | 5 device failed";

#[test]
fn refused_room_makes_no_journal(rt: HostRuntime) -> Result<(), Fail> {
    cases_tell(&rt, rt.alloc(), &SEEDS, "", &REFUSED, REFUSALS)
}

const FAILED: [Run<'static>; 1] = [("new-room A J", "", "5 device failed\n")];

#[test]
fn new_room_on_devices_that_fail(rt: HostRuntime) -> Result<(), Fail> {
    let calls = "0 - - -\n1 - - -\n- - 0 -";
    cases_tell(&rt, rt.alloc(), &FOLDER_A, "$0", &FAILED, calls)
}

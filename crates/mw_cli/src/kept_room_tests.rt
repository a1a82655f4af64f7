//! Rooms that a journal keeps, over crashes and runs.
use crate::harness::{Run, add_file, case_tells, faults, fits, holds, runs_tell, told};
use crate::new_room_tests::EMPTY;
use crate::session_harness::room_with;
use crate::tests::FOLDER_A;
use mw_base::{List, Text};
use mw_cases::ROOM_A;
use mw_disk::DiskError;
use mw_edges::MemoryFolder;
use std::alloc::Global;
use std::sync::Wait;
use std::test::Fail;
use std::thread::Threads;

/// Bob connects, and takes what that owes him.
const BOB_CONNECTS: &str = "open\nconnect 1 Bob 7\ntake 1\n";

/// How that is told where Ann has checked 101.
const BOB_HAS_SWORD: &str =
    r#"0 1 [..,"team":0},{"cmd":"ReceivedItems","index":0,"items":[{"class":"NetworkItem","flags":1,"item":7,"location":101,"player":1}]}]
"#;

/// How it is told where she hasn't.
const BOB_HAS_NOTHING: &str = r#"0 1 [..},"team":0}]
"#;

/// The bytes of a journal of Room A, which these ones end.
fn journal_of(alloc: Global, rest: &[u8]) -> Result<Vec<u8>, Fail> {
    let mut bytes = Vec::from_slice(alloc, &EMPTY[..40])?;
    bytes.extend_from_slice(rest)?;
    Ok(bytes)
}

/// A folder that has this seed file as `A`, and as `J` a journal of Room A, which these bytes end.
fn folder_with(alloc: Global, seed: &str, rest: &[u8]) -> Result<MemoryFolder, Fail> {
    let journal = journal_of(alloc, rest)?;
    let mut files = List::new(alloc);
    add_file(alloc, &mut files, "A", seed.as_bytes())?;
    add_file(alloc, &mut files, "J", &journal)?;
    Ok(MemoryFolder::new(files, faults(alloc, "", 0)?))
}

/// Fails where runs on Room A and its empty journal tell otherwise.
fn room_tells<R: Threads + Wait + Sync>(
    rt: &R,
    alloc: Global,
    runs: &[Run<'_>],
    case: &str,
) -> Result<(), Fail> {
    let mut folder = folder_with(alloc, ROOM_A, &[0])?;
    runs_tell(rt, alloc, &mut folder, "", runs, case)
}

/// Ann checks 101, and after a crash Bob connects.
const CRASH: &str =
    "open\nconnect 1 Ann 7\nchecks 1 [101]\n$1\ncrash\nopen\nconnect 1 Bob 7\ntake 1\n";

/// Bob is told of it, or isn't.
const CRASH_KEEPS: [Run<'static>; 1] = [("$0", CRASH, BOB_HAS_SWORD)];

const CRASH_LOSES: [Run<'static>; 1] = [("$0", CRASH, BOB_HAS_NOTHING)];

#[test]
fn crash_before_commit(rt: HostRuntime) -> Result<(), Fail> {
    for case in ["drive A | #", "drive A J | #", "drive A J | lost 1"] {
        room_tells(&rt, rt.alloc(), &CRASH_LOSES, case)?;
    }
    for case in ["drive A | commit", "drive A J | commit"] {
        room_tells(&rt, rt.alloc(), &CRASH_KEEPS, case)?;
    }
    Ok(())
}

/// Ann's session after a crash.
const ENDED: [Run<'static>; 1] = [(
    "drive A J",
    "open\nconnect 1 Ann 7\nchecks 1 [101]\ncrash\ntake 1\nlost 1\nsync 1\n",
    "0 1 gone\n1 gone\n1 gone\n",
)];

#[test]
fn crash_ends_sessions(rt: HostRuntime) -> Result<(), Fail> {
    room_tells(&rt, rt.alloc(), &ENDED, "")
}

/// A room is made, and Ann checks 101 in one run of it, which ends uncommitted: that is lost. She
/// checks it again in another one, which commits. Bob is told of that in the next one, and not
/// without the journal.
pub(crate) const RUNS: [Run<'static>; 7] = [
    ("new-room A J", "", "0 room made\n"),
    ("drive A J", BOB_CONNECTS, BOB_HAS_NOTHING),
    ("drive A J", "open\nconnect 1 Ann 7\nchecks 1 [101]\n", "0 "),
    ("drive A J", BOB_CONNECTS, BOB_HAS_NOTHING),
    (
        "drive A J",
        "open\nconnect 1 Ann 7\nchecks 1 [101]\ncommit\n",
        "0 ",
    ),
    ("drive A J", BOB_CONNECTS, BOB_HAS_SWORD),
    ("drive A", BOB_CONNECTS, BOB_HAS_NOTHING),
];

#[test]
fn room_goes_on_over_runs(rt: HostRuntime) -> Result<(), Fail> {
    case_tells(&rt, rt.alloc(), &FOLDER_A, "", &RUNS, "")
}

/// Fails where runs on this seed file and a journal tell otherwise, or leave another end of the
/// journal.
fn leaves<R: Threads + Wait + Sync>(
    rt: &R,
    alloc: Global,
    seed: &str,
    rest: &[u8],
    runs: &[Run<'_>],
    left: &[u8],
    case: &str,
) -> Result<(), Fail> {
    let left = journal_of(alloc, left)?;
    let mut folder = folder_with(alloc, seed, rest)?;
    runs_tell(rt, alloc, &mut folder, "", runs, case)?;
    holds(alloc, &mut folder, "J", &left, case)
}

/// A gate that isn't open, and behind it Ann's check of 101 as a body, with its length and the next
/// gate.
const SHUT: [u8; 22] = [
    7, 0, 0, 0, 16, 1, 0, 0, 1, 0, 0, 0, 1, 0, 0, 0, 0, 0, 0, 0, 101, 0,
];

/// What a run that opens it leaves of that.
const SHUT_AGAIN: [u8; 22] = [
    0, 0, 0, 0, 16, 1, 0, 0, 1, 0, 0, 0, 1, 0, 0, 0, 0, 0, 0, 0, 101, 0,
];

/// The same behind an open gate.
const OPEN: [u8; 22] = [
    1, 0, 0, 0, 16, 1, 0, 0, 1, 0, 0, 0, 1, 0, 0, 0, 0, 0, 0, 0, 101, 0,
];

const NOTHING: [Run<'static>; 1] = [("drive A J", BOB_CONNECTS, BOB_HAS_NOTHING)];

const SWORD: [Run<'static>; 1] = [("drive A J", BOB_CONNECTS, BOB_HAS_SWORD)];

#[test]
fn closed_and_open_gate(rt: HostRuntime) -> Result<(), Fail> {
    leaves(
        &rt,
        rt.alloc(),
        ROOM_A,
        &SHUT,
        &NOTHING,
        &SHUT_AGAIN,
        "shut",
    )?;
    leaves(&rt, rt.alloc(), ROOM_A, &OPEN, &SWORD, &OPEN, "open")
}

/// An open gate before a check of 101 by slot 3, which Room A hasn't, as a batch.
const STRANGER: [u8; 22] = [
    1, 0, 0, 0, 16, 1, 0, 0, 3, 0, 0, 0, 1, 0, 0, 0, 0, 0, 0, 0, 101, 0,
];

/// Fails where a seed's run doesn't refuse a journal with this line, before it reads its script, or
/// doesn't leave its bytes.
fn refuses<R: Threads + Wait + Sync>(
    rt: &R,
    alloc: Global,
    seed: &str,
    rest: &[u8],
    line: &str,
) -> Result<(), Fail> {
    let run = ("drive A J", "no line\n", line);
    leaves(rt, alloc, seed, rest, &[run], rest, line)
}

#[test]
fn refused_journals(rt: HostRuntime) -> Result<(), Fail> {
    let line = "7 journal refused: NotJournal\n";
    refuses(&rt, rt.alloc(), ROOM_A, &[], line)?;
    let line = "7 journal refused: BadRecord\n";
    refuses(&rt, rt.alloc(), ROOM_A, &STRANGER, line)
}

#[test]
fn journal_of_another_seed(rt: HostRuntime) -> Result<(), Fail> {
    let other = room_with(rt.alloc(), r#""seed_name":"A""#, r#""seed_name":"B""#)?;
    let line = "7 journal refused: OtherSeed\n";
    refuses(&rt, rt.alloc(), other.as_str(), &[0], line)
}

/// A folder of Room A and its empty journal, on a disk whose calls of these numbers fail.
pub(crate) fn folder_on(alloc: Global, plan: List<(u64, DiskError)>) -> Result<MemoryFolder, Fail> {
    let name = Text::of(alloc, "J")?;
    let folder = folder_with(alloc, ROOM_A, &[0])?;
    Ok(folder.with_failing_disk(name, plan)?)
}

/// The call of this number fails.
pub(crate) fn plan_of(alloc: Global, failing: u64) -> Result<List<(u64, DiskError)>, Fail> {
    let mut plan = List::new(alloc);
    plan.push((failing, DiskError::Failed))?;
    Ok(plan)
}

/// The same folder, with a disk that doesn't fail.
fn mended(alloc: Global, folder: MemoryFolder) -> Result<MemoryFolder, Fail> {
    let name = Text::of(alloc, "J")?;
    Ok(folder.with_failing_disk(name, List::new(alloc))?)
}

/// Whether a run on a disk whose call of this number fails ends with 5, or with 0 where it shows
/// Ann her check, which the next run then finds.
fn is_kept(told: &str, failing: u64, next: &str) -> bool {
    // Opening syncs and reads, and a commit writes, syncs, writes and syncs: six calls at least.
    if told.contains("\"checked_locations\":[101]") {
        told.starts_with("0 ") && failing >= 6 && fits(next, BOB_HAS_SWORD)
    } else {
        told.starts_with("5 ")
    }
}

/// Ann checks 101, and takes what that owes her.
const ANN_TAKES: &str = "open\nconnect 1 Ann 7\nchecks 1 [101]\ntake 1\n";

/// Whether that is so.
fn keeps_what_it_shows<R: Threads + Wait + Sync>(
    rt: &R,
    alloc: Global,
    failing: u64,
) -> Result<bool, Fail> {
    let mut folder = folder_on(alloc, plan_of(alloc, failing)?)?;
    let shown = told(rt, alloc, &mut folder, "drive A J", ANN_TAKES, "")?;
    let mut folder = mended(alloc, folder)?;
    let next = told(rt, alloc, &mut folder, "drive A J", BOB_CONNECTS, "")?;
    Ok(is_kept(shown.as_str(), failing, next.as_str()))
}

#[test]
fn disk_fails_at_each_call(rt: HostRuntime) -> Result<(), Fail> {
    for failing in 0..12 {
        if !keeps_what_it_shows(&rt, rt.alloc(), failing)? {
            return Err(Fail::new(failing));
        }
    }
    Ok(())
}

/// Over a gate without links a room is served to its end at once. A seed file or a journal that is
/// refused is told.
const SERVED: [Run<'static>; 4] = [
    ("serve A J --bind 127.0.0.1:38281", "", "0 sessions 0\n"),
    (
        "serve A J --bind 127.0.0.1:38281 --workers 2 --accept 3",
        "",
        "0 sessions 0\n",
    ),
    ("serve B J --bind 127.0.0.1:38281", "", "5 device failed\n"),
    (
        "serve A A --bind 127.0.0.1:38281",
        "",
        "7 journal refused: NotJournal\n",
    ),
];

#[test]
fn served_without_links(rt: HostRuntime) -> Result<(), Fail> {
    room_tells(&rt, rt.alloc(), &SERVED, "")
}

ghost use Rattle.std.specs.Prelude.{None};

use crate::harness::{File, Run, agree, case_tells, cases_tell, ended, folder_of, told_of};
use crate::session_harness::marks;
use mw_cases::ROOM_A;
use mw_edges::{Sink, SinkError, Tally};
use std::alloc::Global;
use std::sync::Wait;
use std::test::Fail;
use std::thread::Threads;

/// The folder that has Room A as `A`.
pub(crate) const FOLDER_A: [File<'static>; 1] = [("A", ROOM_A)];

/// Ann connects, and then comes a case's first part. Its second part is what her session is owed
/// for that.
pub(crate) const FIRST_RUN: [Run<'static>; 1] = [(
    "drive A",
    "open\nconnect 1 Ann 7\n$0take 1\n",
    r#"0 1 $info
1 [{"checked_locations":[],"cmd":"Connected","hint_points":0,"missing_locations":[101,102],"players":[{"alias":"Ann","class":"NetworkPlayer","name":"Ann","slot":1,"team":0},{"alias":"Bob","class":"NetworkPlayer","name":"Bob","slot":2,"team":0}],"slot":1,"slot_data":{},"slot_info":{"1":{"class":"NetworkSlot","game":"G","group_members":[],"name":"Ann","type":1},"2":{"class":"NetworkSlot","game":"G","group_members":[],"name":"Bob","type":1}},"team":0},{"cmd":"ReceivedItems","index":0,"items":[{"class":"NetworkItem","flags":0,"item":5,"location":-2,"player":0}]}]
$1"#,
)];

#[test]
fn first_check(rt: HostRuntime) -> Result<(), Fail> {
    let case = r#"checks 1 [101]
 | 1 [{"checked_locations":[101],"cmd":"RoomUpdate","hint_points":1}]
"#;
    case_tells(&rt, rt.alloc(), &FOLDER_A, "", &FIRST_RUN, case)
}

const EMPTY_SCRIPT: [Run<'static>; 1] = [("drive A", "", "0 ")];

#[test]
fn empty_script(rt: HostRuntime) -> Result<(), Fail> {
    case_tells(&rt, rt.alloc(), &FOLDER_A, "", &EMPTY_SCRIPT, "")
}

#[test]
fn item_reaches_the_other(rt: HostRuntime) -> Result<(), Fail> {
    let lines = r#"open
open
connect 1 Bob 7
connect 2 Ann 7
take 1
take 2
mark
checks 2 [101]
take 1
"#;
    let expected =
        r#"1 [{"cmd":"ReceivedItems","index":0,"items":[{"class":"NetworkItem","flags":1,"item":7,"location":101,"player":1}]}]
"#;
    marks(&rt, rt.alloc(), ROOM_A, lines, expected)
}

#[test]
fn repeated_checks(rt: HostRuntime) -> Result<(), Fail> {
    let lines = r#"open
open
connect 1 Ann 7
connect 2 Bob 7
take 1
take 2
mark
checks 1 [101,101,999,101]
checks 1 [101]
take 1
take 1
"#;
    let expected = r#"1 [{"checked_locations":[101],"cmd":"RoomUpdate","hint_points":1}]
"#;
    marks(&rt, rt.alloc(), ROOM_A, lines, expected)
}

#[test]
fn two_sessions_of_a_slot(rt: HostRuntime) -> Result<(), Fail> {
    let lines = r#"open
open
connect 1 Ann 7
connect 2 Ann 7
take 1
take 2
mark
checks 1 [102]
checks 2 [102]
take 1
take 2
"#;
    let expected =
        r#"1 [{"checked_locations":[102],"cmd":"RoomUpdate","hint_points":1},{"cmd":"ReceivedItems","index":1,"items":[{"class":"NetworkItem","flags":0,"item":8,"location":102,"player":1}]}]
2 [{"checked_locations":[102],"cmd":"RoomUpdate","hint_points":1},{"cmd":"ReceivedItems","index":1,"items":[{"class":"NetworkItem","flags":0,"item":8,"location":102,"player":1}]}]
"#;
    marks(&rt, rt.alloc(), ROOM_A, lines, expected)
}

#[test]
fn sync_before_and_after(rt: HostRuntime) -> Result<(), Fail> {
    let lines = r#"open
open
connect 1 Bob 7
connect 2 Ann 7
take 1
take 2
mark
sync 1
take 1
checks 2 [101]
take 1
sync 1
take 1
"#;
    let expected =
        r#"1 [{"cmd":"ReceivedItems","index":0,"items":[{"class":"NetworkItem","flags":1,"item":7,"location":101,"player":1}]}]
1 [{"cmd":"ReceivedItems","index":0,"items":[{"class":"NetworkItem","flags":1,"item":7,"location":101,"player":1}]}]
"#;
    marks(&rt, rt.alloc(), ROOM_A, lines, expected)
}

#[test]
fn the_whole_first_run(rt: HostRuntime) -> Result<(), Fail> {
    let case = r#"checks 1 [101]
sync 1
 | 1 [{"checked_locations":[101],"cmd":"RoomUpdate","hint_points":1}]
1 [{"cmd":"ReceivedItems","index":0,"items":[{"class":"NetworkItem","flags":0,"item":5,"location":-2,"player":0}]}]
"#;
    case_tells(&rt, rt.alloc(), &FOLDER_A, "", &FIRST_RUN, case)
}

/// Seed files: Room A, and two that are none.
const SEEDS: [File<'static>; 3] = [("A", ROOM_A), ("seven", "7"), ("empty", "{}")];

const RUNS: [Run<'static>; 10] = [
    ("drive A", "", "0 "),
    ("drive A", "#\n\ntake 07\n", "0 7 gone\n"),
    ("drive A", "open\ntake 2", "0 2 gone\n"),
    ("drive B", "open\n", "5 device failed\n"),
    (
        "drive seven",
        "open\n",
        "7 multidata refused: WrongKind /\n",
    ),
    (
        "drive empty",
        "open\n",
        "7 multidata refused: MissingField /format\n",
    ),
    ("drive A", "open\nopen \n", "7 script refused: line 2\n"),
    (
        "drive A",
        "open\nlost 1\nopen x\n",
        "7 script refused: line 3\n",
    ),
    ("drive A", "open\ncommit\ncrash\n", "0 "),
    (
        "drive A",
        "open\ncommit\ncrash \n",
        "7 script refused: line 3\n",
    ),
];

#[test]
fn each_status_has_its_line(rt: HostRuntime) -> Result<(), Fail> {
    case_tells(&rt, rt.alloc(), &SEEDS, "", &RUNS, "")
}

/// Calls that fail.
const FAULTS: &str = "0 - - -\n- 0 - -\n- - 1 -";

/// What is told of them. The second call of the out sink is for the first line that prints.
const FAILED: [Run<'static>; 1] = [("drive A", "open\ntake 1\ntake 1\n", "5 device failed\n")];

/// What is told where the error sink fails too.
const FAILED_UNTOLD: [Run<'static>; 1] = [("drive A", "open\ntake 1\ntake 1\n", "5 ")];

#[test]
fn drive_tells_of_faults(rt: HostRuntime) -> Result<(), Fail> {
    cases_tell(&rt, rt.alloc(), &FOLDER_A, "$0", &FAILED, FAULTS)?;
    case_tells(&rt, rt.alloc(), &FOLDER_A, "0 - - 0", &FAILED_UNTOLD, "")
}

const BAD_WORDS: [Run<'static>; 1] = [("$0", "", "2 bad words\n")];

#[test]
fn bad_words(rt: HostRuntime) -> Result<(), Fail> {
    cases_tell(
        &rt,
        rt.alloc(),
        &FOLDER_A,
        "",
        &BAD_WORDS,
        "fly\ndrive A B C",
    )
}

/// A take and a Sync of sessions that aren't open.
const GONE: [Run<'static>; 1] = [("drive A", "take 007\nsync 1\n", "0 7 gone\n1 gone\n")];

#[test]
fn gone_where_no_session_is_open(rt: HostRuntime) -> Result<(), Fail> {
    case_tells(&rt, rt.alloc(), &FOLDER_A, "", &GONE, "")
}

const CUT_FILE: [File<'static>; 1] = [("A", "$0")];

const CUT: [Run<'static>; 1] = [("drive A", "", "7 multidata refused: NoJson /\n")];

/// Fails where the front of a seed file isn't refused.
fn is_refused<R: Threads + Wait + Sync>(rt: &R, alloc: Global, front: &[u8]) -> Result<(), Fail> {
    let front = std::str::from_utf8(front).or(Err("no text"))?;
    case_tells(rt, alloc, &CUT_FILE, "", &CUT, front)
}

#[test]
fn cut_seed_file(rt: HostRuntime) -> Result<(), Fail> {
    let whole = ROOM_A.as_bytes();
    for length in 0..whole.len() {
        is_refused(&rt, rt.alloc(), &whole[..length])?;
    }
    Ok(())
}

/// A sink without memory. It tells no content.
#[derive(Drop)]
struct FullSink {
    refused: Tally,
}

impl Sink for FullSink {
    ghost held = { λ _. None };

    ghost faults = { λ _. 0 };

    ghost refusals = { λ s. s.refused };

    fn put(&mut self, _bytes: &[u8]) -> Result<(), SinkError> {
        self.refused.raise();
        Err(SinkError::Memory)
    }
}

/// What is told of `drive A` with a sink that has no memory.
fn without_memory<R: Threads + Wait + Sync>(rt: &R, alloc: Global) -> Result<String, Fail> {
    let mut folder = folder_of(alloc, &FOLDER_A, "", "")?;
    let mut out = FullSink {
        refused: Tally::new(),
    };
    let (status, err) = ended(rt, alloc, &mut folder, "drive A", "open\n", &mut out, "")?;
    told_of(alloc, status, b"", err.bytes())
}

#[test]
fn no_memory(rt: HostRuntime) -> Result<(), Fail> {
    let told = without_memory(&rt, rt.alloc())?;
    agree(rt.alloc(), told.as_str(), "6 no memory\n", "")
}

//! Pair rooms, and their checkpoints.
ghost use Rattle.std.specs.Prelude.{◌≡◌, IfOk};

use crate::harness::{Run, add_file, case_tells, faults, folder_of, runs_tell, told};
use crate::kept_room_tests::plan_of;
use crate::new_room_tests::EMPTY;
use crate::serve_harness::{put, served};
use crate::tests::FOLDER_A;
use mw_base::{Bytes, List, Text};
use mw_cases::ROOM_A;
use mw_disk::DiskError;
use mw_edges::MemoryFolder;
use mw_link::SteadyGate;
use mw_peers::{Coming, WaitingLink};
use mw_session::Served;
use std::alloc::Global;
use std::collections::VecDeque;
use std::sync::atomic::AtomicU32;
use std::sync::{Arc, Wait};
use std::test::Fail;
use std::thread::Threads;

/// A pair room of A is made; Ann checks 101, and stores three values under one key.
const STORED_THREE_TIMES: [Run<'static>; 2] = [
    ("new-room A C --pair", "", "0 room made\n"),
    (
        "drive A C --pair",
        r#"open
connect 1 Ann 7
checks 1 [101]
text 1 [{"cmd":"Set","key":"k","default":0,"want_reply":false,"operations":[{"operation":"replace","value":1}]}]
text 1 [{"cmd":"Set","key":"k","default":0,"want_reply":false,"operations":[{"operation":"replace","value":2}]}]
text 1 [{"cmd":"Set","key":"k","default":0,"want_reply":false,"operations":[{"operation":"replace","value":3}]}]
commit
"#,
        "0 ",
    ),
];

/// Two of the four records count.
const THINNED: [Run<'static>; 1] = [("thin A C", "", "0 kept 2 of 4 records\n")];

/// The last value is got, and Bob has what Ann found for him.
const LAST_VALUES: [Run<'static>; 2] = [
    (
        "drive A C --pair",
        r#"open
connect 1 Ann 7
take 1
mark
text 1 [{"cmd":"Get","keys":["k"]}]
take 1
"#,
        "mark\n1 [{\"cmd\":\"Retrieved\",\"keys\":{\"k\":3}}]\n",
    ),
    (
        "drive A C --pair",
        "open\nconnect 1 Bob 7\ntake 1\n",
        r#"0 1 [..,"team":0},{"cmd":"ReceivedItems","index":0,"items":[{"class":"NetworkItem","flags":1,"item":7,"location":101,"player":1}]}]
"#,
    ),
];

/// The folder of a pair room in which that was stored.
fn stored<R: Threads + Wait + Sync>(rt: &R, alloc: Global) -> Result<MemoryFolder, Fail> {
    let mut folder = folder_of(alloc, &FOLDER_A, "", "")?;
    runs_tell(rt, alloc, &mut folder, "", &STORED_THREE_TIMES, "")?;
    Ok(folder)
}

#[test]
fn last_values_count(rt: HostRuntime) -> Result<(), Fail> {
    let alloc = rt.alloc();
    let mut folder = stored(&rt, alloc)?;
    runs_tell(&rt, alloc, &mut folder, "", &THINNED, "")?;
    runs_tell(&rt, alloc, &mut folder, "", &LAST_VALUES, "")
}

/// The folder with a disk of this file whose calls of these numbers fail.
fn failing(
    alloc: Global,
    folder: MemoryFolder,
    name: &str,
    plan: List<(u64, DiskError)>,
) -> Result<MemoryFolder, Fail> {
    let name = Text::of(alloc, name)?;
    Ok(folder.with_failing_disk(name, plan)?)
}

/// A checkpoint in which the call of this number fails of a file's disk, or none does. The room
/// answers as before.
fn is_kept<R: Threads + Wait + Sync>(
    rt: &R,
    alloc: Global,
    name: &str,
    number: u64,
) -> Result<(), Fail> {
    let folder = stored(rt, alloc)?;
    let mut folder = failing(alloc, folder, name, plan_of(alloc, number)?)?;
    let told = told(rt, alloc, &mut folder, "thin A C", "", "")?;
    if !told.starts_with("5 ") && told.as_str() != "0 kept 2 of 4 records\n" {
        return Err(Fail::new(told));
    }
    let mut folder = failing(alloc, folder, name, List::new(alloc))?;
    runs_tell(rt, alloc, &mut folder, "", &LAST_VALUES, name)
}

/// The same for each call of a file's disk.
fn each_call_is_kept<R: Threads + Wait + Sync>(
    rt: &R,
    alloc: Global,
    name: &str,
    count: u64,
) -> Result<(), Fail> {
    for number in 0..count {
        is_kept(rt, alloc, name, number)?;
    }
    Ok(())
}

#[test]
fn thin_fails_at_choice(rt: HostRuntime) -> Result<(), Fail> {
    each_call_is_kept(&rt, rt.alloc(), "C", 14)
}

#[test]
fn thin_fails_at_named_journal(rt: HostRuntime) -> Result<(), Fail> {
    each_call_is_kept(&rt, rt.alloc(), "C.0", 12)
}

#[test]
fn thin_fails_at_other_journal(rt: HostRuntime) -> Result<(), Fail> {
    each_call_is_kept(&rt, rt.alloc(), "C.1", 12)
}

/// A checkpoint twice: the second finds what the first left.
const THINNED_TWICE: [Run<'static>; 2] = [
    ("thin A C", "", "0 kept 2 of 4 records\n"),
    ("thin A C", "", "0 kept 2 of 2 records\n"),
];

#[test]
fn thinned_again(rt: HostRuntime) -> Result<(), Fail> {
    let alloc = rt.alloc();
    let mut folder = stored(&rt, alloc)?;
    runs_tell(&rt, alloc, &mut folder, "", &THINNED_TWICE, "")?;
    runs_tell(&rt, alloc, &mut folder, "", &LAST_VALUES, "")
}

/// What Ann's client sends: she connects, and then gets the stored value and checks 102.
const ANN: [&str; 2] = [
    r#"[{"cmd":"Connect","game":"G","items_handling":7,"name":"Ann","tags":["NoText"],"version":{"build":0,"major":0,"minor":5}}]"#,
    r#"[{"cmd":"Get","keys":["k"]},{"cmd":"LocationChecks","locations":[102]}]"#,
];

/// A gate that gives one link, over which that comes.
fn gate_of_ann(alloc: Global) -> Result<SteadyGate<WaitingLink>, Fail>
    ensures { IfOk result (λ gate. gate.given ≡ 0) }
{
    let mut first = VecDeque::new(alloc);
    for text in ANN.iter() {
        put(alloc, &mut first, text)?;
    }
    let coming = Coming {
        first,
        wanted: 0,
        then: VecDeque::new(alloc),
    };
    let signs = Arc::new(alloc, AtomicU32::new(0))?;
    let mut links = VecDeque::new(alloc);
    links.push_back(WaitingLink::new(alloc, coming, signs, None))?;
    Ok(SteadyGate::new(links))
}

/// What was sent last over the one link that was served.
fn last_sent(served: &List<List<Served<WaitingLink>>>) -> Result<&str, Fail> {
    let worker = served.get(0).ok_or("no worker")?;
    let entry = worker.get(0).ok_or("no link")?;
    let last = entry.line.sent().last().ok_or("nothing sent")?;
    Ok(last.as_str())
}

/// What Ann's check is answered.
const CHECKED: &str =
    r#"[{"checked_locations":[102],"cmd":"RoomUpdate","hint_points":2},{"cmd":"ReceivedItems","index":1,"items":[{"class":"NetworkItem","flags":0,"item":8,"location":102,"player":1}]}]"#;

/// What Ann has by the journal that counts, which a checkpoint leaves whole.
const AFTER_SERVE: [Run<'static>; 3] = [
    (
        "drive A C --pair",
        "open\nconnect 1 Ann 3\ntake 1\nmark\nsync 1\ntake 1\n",
        r#"mark
1 [{"cmd":"ReceivedItems","index":0,"items":[{"class":"NetworkItem","flags":0,"item":8,"location":102,"player":1}]}]
"#,
    ),
    ("thin A C", "", "0 kept 3 of 3 records\n"),
    (
        "serve A C --pair --bind 127.0.0.1:38281",
        "",
        "0 sessions 0\n",
    ),
];

/// The room goes on from the checkpoint, and what it sent is kept.
#[test]
fn a_pair_room_is_served(rt: HostRuntime) -> Result<(), Fail> {
    let alloc = rt.alloc();
    let mut folder = stored(&rt, alloc)?;
    runs_tell(&rt, alloc, &mut folder, "", &THINNED, "")?;
    let line = "serve A C --pair --bind 127.0.0.1:38281 --workers 1";
    let gate = gate_of_ann(alloc)?;
    let served = served(&rt, alloc, &mut folder, gate, line, "sessions 1\n")?;
    assert!(rt; last_sent(&served)? == CHECKED);
    runs_tell(&rt, alloc, &mut folder, "", &AFTER_SERVE, "")
}

/// What a pair room is refused for.
const REFUSED: [Run<'static>; 3] = [
    ("$0", "", "7 journal refused: $1\n"),
    ("thin A $2", "", "7 journal refused: $3\n"),
    ("drive A $2 --pair", "", "7 journal refused: $3\n"),
];

#[test]
fn refused_pairs(rt: HostRuntime) -> Result<(), Fail> {
    let alloc = rt.alloc();
    case_tells(
        &rt,
        alloc,
        &FOLDER_A,
        "",
        &REFUSED,
        "new-room A A --pair | NotEmpty | A | NotJournal",
    )
}

/// Adds a journal of Room A, which these bytes end behind its header.
fn add_journal(
    alloc: Global,
    files: &mut List<(Text, Bytes)>,
    name: &str,
    rest: &[u8],
) -> Result<(), Fail> {
    let mut bytes = Vec::from_slice(alloc, &EMPTY)?;
    bytes.truncate(40);
    bytes.extend_from_slice(rest)?;
    add_file(alloc, files, name, &bytes)
}

/// A folder of Room A and a pair room of it, whose files these bytes end behind their headers.
fn pair_of(alloc: Global, choice: &[u8], zero: &[u8]) -> Result<MemoryFolder, Fail> {
    let mut files = List::new(alloc);
    add_file(alloc, &mut files, "A", ROOM_A.as_bytes())?;
    add_journal(alloc, &mut files, "C", choice)?;
    add_journal(alloc, &mut files, "C.0", zero)?;
    add_journal(alloc, &mut files, "C.1", &[0])?;
    Ok(MemoryFolder::new(files, faults(alloc, "", 0)?))
}

/// What `thin` and `drive --pair` say of a pair room.
const BOTH: [Run<'static>; 2] = [("thin A C", "", "$0\n"), ("drive A C --pair", "", "$1\n")];

#[test]
fn refused_bytes_of_pairs(rt: HostRuntime) -> Result<(), Fail> {
    let alloc = rt.alloc();
    let bad_choice = "7 journal refused: BadChoice | 7 journal refused: BadChoice";
    let mut folder = pair_of(alloc, &[1, 0, 0, 0, 1, 2, 0], &[0])?;
    runs_tell(&rt, alloc, &mut folder, "", &BOTH, bad_choice)?;
    let bad_record = "7 journal refused: BadRecord | 7 journal refused: BadRecord";
    let mut folder = pair_of(alloc, &[0], &[1, 0, 0, 0, 1, 9, 0])?;
    runs_tell(&rt, alloc, &mut folder, "", &BOTH, bad_record)?;
    // A status of a slot that the seed hasn't is a whole record.
    let no_slot = "0 kept 1 of 1 records | 7 journal refused: BadRecord";
    let mut folder = pair_of(alloc, &[0], &[1, 0, 0, 0, 5, 4, 0, 0, 9, 5, 0])?;
    runs_tell(&rt, alloc, &mut folder, "", &BOTH, no_slot)
}

use crate::harness::{Run, case_tells};
use crate::session_harness::room_with;
use crate::tests::FIRST_RUN;
use mw_cases::ROOM_A;
use std::alloc::Global;
use std::sync::Wait;
use std::test::Fail;
use std::thread::Threads;

/// What Ann's session is owed for a Sync, on a line.
const SYNCED: &str =
    r#"1 [{"cmd":"ReceivedItems","index":0,"items":[{"class":"NetworkItem","flags":0,"item":5,"location":-2,"player":0}]}]
"#;

/// Fails where runs tell otherwise whose case has so many Syncs of Ann's session, and this part.
fn syncs_tell<R: Threads + Wait + Sync>(
    rt: &R,
    alloc: Global,
    room: &str,
    count: usize,
    part: &str,
    runs: &[Run<'_>],
) -> Result<(), Fail> {
    let syncs = "sync 1\n".repeat(alloc, count)?;
    let case = format!(in alloc; "{} | {part}", syncs.as_str())?;
    case_tells(rt, alloc, &[("A", room)], "", runs, case.as_str())
}

/// Ann connects, which owes two messages, and sends more Syncs than there is room for.
const OVERRUN: [Run<'static>; 1] = [(
    "drive A",
    "open\nconnect 1 Ann 7\n$0take 1\n",
    "0 1 overrun\n",
)];

#[test]
fn overrun_of_4096_messages(rt: HostRuntime) -> Result<(), Fail> {
    let owed = SYNCED.repeat(rt.alloc(), 4_094)?;
    syncs_tell(&rt, rt.alloc(), ROOM_A, 4_094, owed.as_str(), &FIRST_RUN)?;
    syncs_tell(&rt, rt.alloc(), ROOM_A, 4_095, "", &OVERRUN)
}

/// Ann takes, and sends one more Sync.
const TAKEN: [Run<'static>; 1] = [(
    "drive A",
    "open\nconnect 1 Ann 7\n$0take 1\nmark\nsync 1\ntake 1\n",
    r#"mark
1 [{"cmd":"ReceivedItems","index":0,"items":[{"class":"NetworkItem","flags":0,"item":5,"location":-2,"player":0}]}]
"#,
)];

#[test]
fn taken_messages_do_not_count(rt: HostRuntime) -> Result<(), Fail> {
    syncs_tell(&rt, rt.alloc(), ROOM_A, 4_094, "", &TAKEN)
}

/// The second of three Syncs in one text is owed too many, while another session of the slot goes
/// on.
const ONCE_OVERRUN: [Run<'static>; 1] = [(
    "drive A",
    r#"open
connect 1 Ann 7
$0open
connect 2 Ann 7
take 2
mark
text 1 [{"cmd":"Sync"},{"cmd":"Sync"},{"cmd":"Sync"}]
text 1 []
text 1 7
text 1 [7,7]
checks 1 [101]
take 1
checks 2 [102]
take 1
lost 1
take 1
take 2
"#,
    r#"mark
1 overrun
1 overrun
1 overrun
1 overrun
1 overrun
1 overrun
1 gone
2 [{"checked_locations":[102],"cmd":"RoomUpdate","hint_points":1},{"cmd":"ReceivedItems","index":1,"items":[{"class":"NetworkItem","flags":0,"item":8,"location":102,"player":1}]}]
"#,
)];

#[test]
fn lines_of_an_overrun_session(rt: HostRuntime) -> Result<(), Fail> {
    syncs_tell(&rt, rt.alloc(), ROOM_A, 4_093, "", &ONCE_OVERRUN)
}

/// Ann's session is owed the answers to Syncs, to an unknown cmd of letters, and to what is no
/// list, and all is told from RoomInfo to the last.
const ALL_TOLD: [Run<'static>; 1] = [(
    "drive A",
    r#"open
connect 1 Ann 7
$0text 1 [{"cmd":"$1"}]
text 1 7
take 1
"#,
    r#"0 1 [{"cmd":"RoomInfo".."original_cmd":null,"text":"no JSON list","type":"cmd"}]
"#,
)];

/// The same, where that is too much.
const TOO_MUCH: [Run<'static>; 1] = [(
    "drive A",
    r#"open
connect 1 Ann 7
$0text 1 [{"cmd":"$1"}]
text 1 7
take 1
"#,
    "0 1 overrun\n",
)];

/// Fails where runs in the room where Ann starts with Boots 256 times tell otherwise. RoomInfo and
/// Connected have 384 and 17,903 bytes, each answer to a Sync 17,453, and that to an unknown cmd of
/// so many letters 77 more.
fn letters_tell<R: Threads + Wait + Sync>(
    rt: &R,
    alloc: Global,
    letters: usize,
    runs: &[Run<'_>],
) -> Result<(), Fail> {
    let boots = "[5,0],".repeat(alloc, 256)?;
    let boots = boots.as_str().strip_suffix(",").unwrap_or("");
    let room = room_with(alloc, "[5,0]", boots)?;
    let word = "x".repeat(alloc, letters)?;
    syncs_tell(rt, alloc, room.as_str(), 960, word.as_str(), runs)
}

#[test]
fn overrun_of_16777216_bytes(rt: HostRuntime) -> Result<(), Fail> {
    letters_tell(&rt, rt.alloc(), 3_971, &ALL_TOLD)?;
    letters_tell(&rt, rt.alloc(), 3_972, &TOO_MUCH)
}

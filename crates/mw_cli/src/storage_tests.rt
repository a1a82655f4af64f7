use crate::harness::{Run, add_file, cases_tell, faults, folder_of, holds, runs_tell};
use crate::new_room_tests::EMPTY;
use crate::session_harness::marks;
use crate::tests::FOLDER_A;
use mw_base::List;
use mw_cases::ROOM_A;
use mw_edges::MemoryFolder;
use std::alloc::Global;
use std::sync::Wait;
use std::test::Fail;
use std::thread::Threads;

/// Ann connects, sends a message, and takes.
const SENDS: &str = "open\nconnect 1 Ann 7\ntake 1\nmark\ntext 1 $0\ntake 1\n";

/// Fails where another text is printed once Ann, with session 1, sends the messages that these
/// lines are, one after another, and takes after each.
fn are_answered<R: Threads + Wait + Sync>(
    rt: &R,
    alloc: Global,
    messages: &str,
    wanted: &str,
) -> Result<(), Fail> {
    let sent = messages.replace(alloc, "\n", "\ntake 1\ntext 1 ")?;
    let lines = SENDS.replace(alloc, "$0", sent.as_str())?;
    marks(rt, alloc, ROOM_A, lines.as_str(), wanted)
}

#[test]
fn storage_out_of_range(rt: HostRuntime) -> Result<(), Fail> {
    let messages =
        r#"[{"cmd":"Set","default":9223372036854775807,"key":"k","operations":[{"operation":"add","value":1}]}]
[{"cmd":"Get","keys":["k"]}]
[{"cmd":"Set","key":"k","operations":[{"operation":"replace","value":1.5}]}]"#;
    let expected =
        r#"1 [{"cmd":"InvalidPacket","original_cmd":"Set","text":"operation 0: out of range","type":"arguments"}]
1 [{"cmd":"Retrieved","keys":{"k":null}}]
"#;
    are_answered(&rt, rt.alloc(), messages, expected)
}

#[test]
fn a_change_is_answered(rt: HostRuntime) -> Result<(), Fail> {
    let messages =
        r#"[{"cmd":"Set","default":[3,4,3],"key":"q","n":4,"operations":[{"operation":"remove","value":3},{"operation":"pop","value":0},{"operation":"add","value":[5]}],"want_reply":true}]
[{"cmd":"Get","keys":["q","z","q"],"n":4}]
[{"cmd":"Set","default":-7,"key":"r","operations":[{"operation":"mod","value":3},{"operation":"left_shift","value":2},{"operation":"right_shift","value":1}],"want_reply":true}]
[{"cmd":"Set","default":[3,4],"key":"s","operations":[{"operation":"update","value":[4,5]}],"slot":9,"value":8,"want_reply":true}]"#;
    let expected =
        r#"1 [{"cmd":"SetReply","key":"q","n":4,"original_value":[3,4,3],"slot":1,"value":[3,5]}]
1 [{"cmd":"Retrieved","keys":{"q":[3,5],"z":null},"n":4}]
1 [{"cmd":"SetReply","key":"r","original_value":-7,"slot":1,"value":4}]
1 [{"cmd":"SetReply","key":"s","original_value":[3,4],"slot":1,"value":[3,4,5]}]
"#;
    are_answered(&rt, rt.alloc(), messages, expected)
}

#[test]
fn a_refused_change_keeps_nothing(rt: HostRuntime) -> Result<(), Fail> {
    let messages =
        r#"[{"cmd":"Set","default":1,"key":"k","operations":[{"operation":"add","value":1}]},{"cmd":"Set","key":"k","operations":[{"operation":"add","value":1},{"operation":"mod","value":0}],"want_reply":true}]
[{"cmd":"Set","key":"_read_x","operations":[]},{"cmd":"Set","key":"k","operations":[{"operation":"mod","value":0}]}]
[{"cmd":"Get","keys":["k","_read_x"]}]"#;
    let expected =
        r#"1 [{"cmd":"InvalidPacket","original_cmd":"Set","text":"operation 1: bad operation","type":"arguments"}]
1 [{"cmd":"InvalidPacket","original_cmd":"Set","text":"private key","type":"arguments"}]
1 [{"cmd":"InvalidPacket","original_cmd":"Set","text":"operation 0: bad operation","type":"arguments"}]
1 [{"cmd":"Retrieved","keys":{"_read_x":null,"k":2}}]
"#;
    are_answered(&rt, rt.alloc(), messages, expected)
}

#[test]
fn who_watches_a_key_is_told(rt: HostRuntime) -> Result<(), Fail> {
    let lines = r#"open
connect 1 Ann 7
open
connect 2 Bob 7
take 1
take 2
mark
text 1 [{"cmd":"SetNotify","keys":["k","k","_read_hints_0_1"]}]
text 2 [{"cmd":"SetNotify","keys":["other"]}]
text 2 [{"cmd":"Set","key":"k","operations":[{"operation":"replace","value":{"b":null,"a":true}}]}]
take 1
take 2
text 1 [{"cmd":"Set","key":"k","operations":[],"want_reply":true}]
take 1
take 2
text 2 [{"cmd":"Set","key":"other","operations":[],"want_reply":false}]
take 1
take 2
"#;
    let expected =
        r#"1 [{"cmd":"SetReply","key":"k","original_value":0,"slot":2,"value":{"a":true,"b":null}}]
1 [{"cmd":"SetReply","key":"k","original_value":{"a":true,"b":null},"slot":1,"value":{"a":true,"b":null}}]
2 [{"cmd":"SetReply","key":"other","original_value":0,"slot":2,"value":0}]
"#;
    marks(&rt, rt.alloc(), ROOM_A, lines, expected)
}

#[test]
fn hints_and_statuses_are_read(rt: HostRuntime) -> Result<(), Fail> {
    let messages = r#"[{"cmd":"LocationScouts","create_as_hint":1,"locations":[201,101,101]}]
[{"cmd":"Get","keys":["_read_hints_0_1"],"n":4}]
[{"cmd":"StatusUpdate","status":20},{"cmd":"Get","keys":["_read_client_status_0_1","_read_client_status_0_2","_read_client_status_0_3","_read_client_status_00_1","_read_hints_1_1","_read_hints_0","_read_slot_data_1"]}]"#;
    let expected =
        r#"1 [{"cmd":"LocationInfo","locations":[{"class":"NetworkItem","flags":1,"item":7,"location":101,"player":2}]}]
1 [{"cmd":"Retrieved","keys":{"_read_hints_0_1":[{"class":"Hint","entrance":"","finding_player":1,"found":false,"item":7,"item_flags":1,"location":101,"receiving_player":2,"status":0}]},"n":4}]
1 [{"cmd":"Retrieved","keys":{"_read_client_status_00_1":null,"_read_client_status_0_1":20,"_read_client_status_0_2":0,"_read_client_status_0_3":null,"_read_hints_0":null,"_read_hints_1_1":null,"_read_slot_data_1":null}}]
"#;
    are_answered(&rt, rt.alloc(), messages, expected)
}

/// Ann connects with a death link, and Bob without.
const LINKED: &str = r#"open
open
connect 2 Bob 7
text 1 [{"cmd":"Connect","game":"G","items_handling":7,"name":"Ann","password":null,"slot_data":true,"tags":["NoText","DeathLink"],"uuid":"u1","version":{"build":0,"class":"Version","major":0,"minor":6}}]
take 1
take 2
mark
$0"#;

/// Fails where another text is printed after that.
fn are_linked<R: Threads + Wait + Sync>(
    rt: &R,
    alloc: Global,
    lines: &str,
    wanted: &str,
) -> Result<(), Fail> {
    let lines = LINKED.replace(alloc, "$0", lines)?;
    marks(rt, alloc, ROOM_A, lines.as_str(), wanted)
}

#[test]
fn a_death_link_comes_back(rt: HostRuntime) -> Result<(), Fail> {
    let lines =
        r#"text 1 [{"cmd":"Bounce","data":{"cause":"","source":"Ann","time":1712345678},"tags":["DeathLink"]}]
take 1
take 2
"#;
    let expected =
        r#"1 [{"cmd":"Bounced","data":{"cause":"","source":"Ann","time":1712345678},"tags":["DeathLink"]}]
"#;
    are_linked(&rt, rt.alloc(), lines, expected)
}

#[test]
fn messages_reach_games_and_slots(rt: HostRuntime) -> Result<(), Fail> {
    let lines = r#"text 1 [{"cmd":"Bounce","slots":[2,7]}]
take 1
take 2
text 2 [{"cmd":"Bounce","games":["G"],"tags":[]}]
take 1
take 2
text 2 [{"cmd":"Bounce"}]
take 1
take 2
"#;
    let expected = r#"2 [{"cmd":"Bounced","slots":[2,7]}]
1 [{"cmd":"Bounced","games":["G"],"tags":[]}]
2 [{"cmd":"Bounced","games":["G"],"tags":[]}]
"#;
    are_linked(&rt, rt.alloc(), lines, expected)
}

/// Ann and Bob connect with a death link.
const BOTH_LINKED: &str = r#"open
open
text 1 [{"cmd":"Connect","game":"G","items_handling":7,"name":"Ann","tags":["NoText","DeathLink"],"version":{"build":0,"major":0,"minor":6}}]
text 2 [{"cmd":"Connect","game":"G","items_handling":7,"name":"Bob","tags":["NoText","DeathLink"],"version":{"build":0,"major":0,"minor":6}}]
take 1
take 2
mark
text 1 [{"cmd":"Bounce","data":{"source":"Ann","time":1712345678.250},"tags":["DeathLink"]}]
take 1
take 2
"#;

#[test]
fn a_death_link_keeps_its_time(rt: HostRuntime) -> Result<(), Fail> {
    let expected =
        r#"1 [{"cmd":"Bounced","data":{"source":"Ann","time":1712345678.250},"tags":["DeathLink"]}]
2 [{"cmd":"Bounced","data":{"source":"Ann","time":1712345678.250},"tags":["DeathLink"]}]
"#;
    marks(&rt, rt.alloc(), ROOM_A, BOTH_LINKED, expected)
}

#[test]
fn a_numeral_is_a_value_and_no_number(rt: HostRuntime) -> Result<(), Fail> {
    let messages = r#"[{"cmd":"Set","key":"k","operations":[{"operation":"replace","value":1.50}]}]
[{"cmd":"Get","keys":["k"]}]
[{"cmd":"Set","key":"k","operations":[{"operation":"add","value":1}]}]
[{"cmd":"Sync",1.5:0}]
[{"cmd":"ConnectUpdate","items_handling":7.0}]
[{"cmd":"Connect","game":"G","items_handling":7.0,"name":"Ann","tags":[],"version":{"build":0,"major":0,"minor":5}}]"#;
    let expected = r#"1 [{"cmd":"Retrieved","keys":{"k":1.50}}]
1 [{"cmd":"InvalidPacket","original_cmd":"Set","text":"operation 0: bad operation","type":"arguments"}]
1 [{"cmd":"InvalidPacket","original_cmd":null,"text":"no JSON list","type":"cmd"}]
1 [{"cmd":"InvalidPacket","original_cmd":"ConnectUpdate","text":"arguments: items_handling","type":"arguments"}]
1 [{"cmd":"InvalidPacket","original_cmd":"Connect","text":"arguments: items_handling","type":"arguments"}]
"#;
    are_answered(&rt, rt.alloc(), messages, expected)
}

/// A value comes back from a Set, a Bounce and a Get, from the same after a crash behind a commit,
/// and in another run.
const VALUE_PASSES: [Run<'static>; 3] = [
    ("new-room A J", "", "0 room made\n"),
    (
        "drive A J",
        r#"open
connect 1 Ann 7
take 1
mark
text 1 [{"cmd":"Set","key":"k","operations":[{"operation":"replace","value":$0}],"want_reply":true}]
take 1
text 1 [{"cmd":"Bounce","data":{"n":$0},"slots":[1]}]
take 1
text 1 [{"cmd":"Get","keys":["k"],"n":[$0]}]
take 1
commit
crash
open
connect 1 Ann 7
text 1 [{"cmd":"Get","keys":["k"]}]
take 1
"#,
        r#"mark
1 [{"cmd":"SetReply","key":"k","original_value":0,"slot":1,"value":$0}]
1 [{"cmd":"Bounced","data":{"n":$0},"slots":[1]}]
1 [{"cmd":"Retrieved","keys":{"k":$0},"n":[$0]}]
1 [..1 [{"cmd":"Retrieved","keys":{"k":$0}}]
"#,
    ),
    (
        "drive A J",
        "open\nconnect 1 Bob 7\ntext 1 [{\"cmd\":\"Get\",\"keys\":[\"k\"]}]\ntake 1\n",
        r#"0 1 [..1 [{"cmd":"Retrieved","keys":{"k":$0}}]
"#,
    ),
];

/// Numerals of each shape, and what looks like one.
const NUMERALS: &str = r#"1.50
1712345678.250
-0
-0.0
1e400
1E+02
12.5e-30
18446744073709551615
18446744073709551616
-9223372036854775808
-9223372036854775809
100000000000000000000000000000000000000000.000
"n1.5"
[1.0,{"n1.5":1.50,"s":-0}]"#;

#[test]
fn numerals_come_back(rt: HostRuntime) -> Result<(), Fail> {
    cases_tell(&rt, rt.alloc(), &FOLDER_A, "", &VALUE_PASSES, NUMERALS)
}

/// The bytes of a journal of Room A, which these ones end.
fn journal_of(alloc: Global, rest: &[u8]) -> Result<Vec<u8>, Fail> {
    let mut bytes = Vec::from_slice(alloc, &EMPTY[..40])?;
    bytes.extend_from_slice(rest)?;
    Ok(bytes)
}

/// The end of a journal that keeps a value without numerals, as it was written when no journal held
/// one.
const PLAIN: [u8; 44] = [
    1, 0, 0, 0, 38, 7, 0, 0, 0, 1, 107, 0, 0, 0, 28, 123, 34, 97, 34, 58, 91, 53, 44, 110, 117,
    108, 108, 44, 34, 110, 49, 46, 53, 34, 93, 44, 34, 98, 34, 58, 45, 55, 125, 0,
];

/// Ann sets the value.
const SETS_PLAIN: [Run<'static>; 2] = [
    ("new-room A J", "", "0 room made\n"),
    (
        "drive A J",
        r#"open
connect 1 Ann 7
text 1 [{"cmd":"Set","key":"k","operations":[{"operation":"replace","value":{"b":-7,"a":[5,null,"n1.5"]}}]}]
commit
"#,
        "0 ",
    ),
];

/// Bob gets it.
const GETS_PLAIN: [Run<'static>; 1] = [(
    "drive A J",
    "open\nconnect 1 Bob 7\ntext 1 [{\"cmd\":\"Get\",\"keys\":[\"k\"]}]\ntake 1\ncommit\n",
    r#"0 1 [..1 [{"cmd":"Retrieved","keys":{"k":{"a":[5,null,"n1.5"],"b":-7}}}]
"#,
)];

/// A folder that has Room A, and these bytes as its journal.
fn folder_with(alloc: Global, journal: &[u8]) -> Result<MemoryFolder, Fail> {
    let mut files = List::new(alloc);
    add_file(alloc, &mut files, "A", ROOM_A.as_bytes())?;
    add_file(alloc, &mut files, "J", journal)?;
    Ok(MemoryFolder::new(files, faults(alloc, "", 0)?))
}

/// Fails where runs on a folder tell otherwise, or don't leave the journal with these bytes.
fn leaves<R: Threads + Wait + Sync>(
    rt: &R,
    alloc: Global,
    folder: &mut MemoryFolder,
    runs: &[Run<'_>],
    journal: &[u8],
) -> Result<(), Fail> {
    runs_tell(rt, alloc, folder, "", runs, "")?;
    holds(alloc, folder, "J", journal, "journal")
}

#[test]
fn a_journal_without_numerals_stays(rt: HostRuntime) -> Result<(), Fail> {
    let alloc = rt.alloc();
    let journal = journal_of(alloc, &PLAIN)?;
    let mut written = folder_of(alloc, &FOLDER_A, "", "")?;
    leaves(&rt, alloc, &mut written, &SETS_PLAIN, &journal)?;
    let mut recovered = folder_with(alloc, &journal)?;
    leaves(&rt, alloc, &mut recovered, &GETS_PLAIN, &journal)
}

//! A group of two players, each of whom gets the group's item, and one of as many as there may be.
use crate::harness::{Run, folder_of, runs_tell};
use crate::large_tests::numbered;
use crate::session_harness::marks;
use crate::team_tests::ROOM as ROOM_OF_TEAMS;
use mw_cases::ROOM_OF_DUO;
use std::alloc::Global;
use std::sync::Wait;
use std::test::Fail;
use std::thread::Threads;

/// The room as it is.
const UNCHANGED: (&str, &str) = ("Duo", "Duo");

/// Fails where `drive` prints another text of a script of short lines after its first mark, over
/// this room, where one text stands in the place of another.
fn duo_marks<R: Threads + Wait + Sync>(
    rt: &R,
    alloc: Global,
    change: (&str, &str),
    lines: &str,
    wanted: &str,
) -> Result<(), Fail> {
    let room = ROOM_OF_DUO.replace(alloc, change.0, change.1)?;
    marks(rt, alloc, room.as_str(), lines, wanted)
}

#[test]
fn a_shared_item_reaches_each_member(rt: HostRuntime) -> Result<(), Fail> {
    let lines = r#"open
connect 1 Ann 7
open
connect 2 Bob 7
take 1
take 2
mark
checks 1 [102]
take 1
take 2
checks 1 [102]
take 1
take 2
sync 2
take 2
"#;
    let expected =
        r#"1 [{"checked_locations":[102],"cmd":"RoomUpdate","hint_points":1},{"cmd":"ReceivedItems","index":1,"items":[{"class":"NetworkItem","flags":0,"item":8,"location":102,"player":1}]}]
2 [{"cmd":"ReceivedItems","index":0,"items":[{"class":"NetworkItem","flags":0,"item":8,"location":102,"player":1}]}]
2 [{"cmd":"ReceivedItems","index":0,"items":[{"class":"NetworkItem","flags":0,"item":8,"location":102,"player":1}]}]
"#;
    duo_marks(&rt, rt.alloc(), UNCHANGED, lines, expected)
}

#[test]
fn a_shared_item_is_its_finders_own(rt: HostRuntime) -> Result<(), Fail> {
    let lines = r#"open
connect 1 Ann 1
take 1
mark
checks 1 [102]
take 1
"#;
    let expected = r#"1 [{"checked_locations":[102],"cmd":"RoomUpdate","hint_points":1}]
"#;
    duo_marks(&rt, rt.alloc(), UNCHANGED, lines, expected)
}

#[test]
fn a_shared_item_is_collected(rt: HostRuntime) -> Result<(), Fail> {
    let lines = r#"open
connect 1 Ann 7
open
connect 2 Bob 7
take 1
take 2
mark
text 2 [{"cmd":"Say","text":"!collect"}]
take 1
take 2
commit
crash
open
connect 1 Bob 7
take 1
"#;
    let expected =
        r#"1 [{"checked_locations":[101,102],"cmd":"RoomUpdate","hint_points":2},{"cmd":"ReceivedItems","index":1,"items":[{"class":"NetworkItem","flags":0,"item":8,"location":102,"player":1}]}]
2 [{"cmd":"ReceivedItems","index":0,"items":[{"class":"NetworkItem","flags":1,"item":7,"location":101,"player":1},{"class":"NetworkItem","flags":0,"item":8,"location":102,"player":1}]}]
1 [{"cmd":"RoomInfo","datapackage_checksums":{"G":"3140df20051ca1c7a5dd4f886f8945c613c6fbba"},"games":["G"],"generator_version":{"build":0,"class":"Version","major":0,"minor":5},"hint_cost":10,"location_check_points":1,"password":false,"permissions":{"collect":1,"release":2,"remaining":2},"seed_name":"A","tags":[],"time":0,"version":{"build":0,"class":"Version","major":0,"minor":5}}]
1 [{"checked_locations":[],"cmd":"Connected","hint_points":0,"missing_locations":[201],"players":[{"alias":"Ann","class":"NetworkPlayer","name":"Ann","slot":1,"team":0},{"alias":"Bob","class":"NetworkPlayer","name":"Bob","slot":2,"team":0}],"slot":2,"slot_data":{},"slot_info":{"1":{"class":"NetworkSlot","game":"G","group_members":[],"name":"Ann","type":1},"2":{"class":"NetworkSlot","game":"G","group_members":[],"name":"Bob","type":1},"3":{"class":"NetworkSlot","game":"G","group_members":[1,2],"name":"Duo","type":2}},"team":0},{"cmd":"ReceivedItems","index":0,"items":[{"class":"NetworkItem","flags":1,"item":7,"location":101,"player":1},{"class":"NetworkItem","flags":0,"item":8,"location":102,"player":1}]}]
"#;
    let change = (r#""collect":"goal""#, r#""collect":"enabled""#);
    duo_marks(&rt, rt.alloc(), change, lines, expected)
}

/// The room's journal over several runs: Ann finds the shared item, and Bob has it in the next one.
const KEPT: [Run<'static>; 4] = [
    ("new-room A J", "", "0 room made\n"),
    (
        "drive A J",
        "open\nconnect 1 Ann 7\nchecks 1 [102]\ncommit\n",
        "0 ",
    ),
    (
        "drive A J",
        "open\nconnect 1 Bob 7\ntake 1\nmark\nsync 1\ntake 1\n",
        r#"mark
1 [{"cmd":"ReceivedItems","index":0,"items":[{"class":"NetworkItem","flags":0,"item":8,"location":102,"player":1}]}]
"#,
    ),
    ("serve A J --bind 127.0.0.1:38281", "", "0 sessions 0\n"),
];

#[test]
fn a_shared_item_is_kept(rt: HostRuntime) -> Result<(), Fail> {
    let alloc = rt.alloc();
    let mut folder = folder_of(alloc, &[("A", ROOM_OF_DUO)], "", "")?;
    runs_tell(&rt, alloc, &mut folder, "", &KEPT, "")
}

#[test]
fn a_shared_item_is_released(rt: HostRuntime) -> Result<(), Fail> {
    let lines = r#"open
connect 1 Ann 7
open
connect 2 Bob 3
take 1
take 2
mark
text 1 [{"cmd":"Say","text":"!release"}]
take 1
take 2
"#;
    let expected =
        r#"1 [{"checked_locations":[101,102],"cmd":"RoomUpdate","hint_points":2},{"cmd":"ReceivedItems","index":1,"items":[{"class":"NetworkItem","flags":0,"item":8,"location":102,"player":1}]}]
2 [{"cmd":"ReceivedItems","index":0,"items":[{"class":"NetworkItem","flags":1,"item":7,"location":101,"player":1},{"class":"NetworkItem","flags":0,"item":8,"location":102,"player":1}]}]
"#;
    let change = (r#""release":"goal""#, r#""release":"enabled""#);
    duo_marks(&rt, rt.alloc(), change, lines, expected)
}

#[test]
fn a_group_is_no_player(rt: HostRuntime) -> Result<(), Fail> {
    let lines = r#"open
take 1
mark
connect 1 Duo 7
take 1
connect 1 Bob 7
take 1
text 1 [{"cmd":"Get","keys":["_read_hints_0_3","_read_client_status_0_3"]}]
take 1
"#;
    let expected = r#"1 [{"cmd":"ConnectionRefused","errors":["InvalidSlot"]}]
1 [{"checked_locations":[],"cmd":"Connected","hint_points":0,"missing_locations":[201],"players":[{"alias":"Ann","class":"NetworkPlayer","name":"Ann","slot":1,"team":0},{"alias":"Bob","class":"NetworkPlayer","name":"Bob","slot":2,"team":0}],"slot":2,"slot_data":{},"slot_info":{"1":{"class":"NetworkSlot","game":"G","group_members":[],"name":"Ann","type":1},"2":{"class":"NetworkSlot","game":"G","group_members":[],"name":"Bob","type":1},"3":{"class":"NetworkSlot","game":"G","group_members":[1,2],"name":"Duo","type":2}},"team":0}]
1 [{"cmd":"Retrieved","keys":{"_read_client_status_0_3":null,"_read_hints_0_3":null}}]
"#;
    duo_marks(&rt, rt.alloc(), UNCHANGED, lines, expected)
}

/// Ann and Bob hear texts of the room, and Bob has found his location.
const HEARING: &str = r#"open
text 1 [{"cmd":"Connect","game":"G","items_handling":7,"name":"Ann","tags":[],"version":{"build":0,"major":0,"minor":5}}]
open
text 2 [{"cmd":"Connect","game":"G","items_handling":7,"name":"Bob","tags":[],"version":{"build":0,"major":0,"minor":5}}]
checks 2 [201]
take 1
take 2
mark
$0"#;

/// What each hears after that.
fn hearing_tells<R: Threads + Wait + Sync>(
    rt: &R,
    alloc: Global,
    lines: &str,
    wanted: &str,
) -> Result<(), Fail> {
    let script = HEARING.replace(alloc, "$0", lines)?;
    duo_marks(rt, alloc, UNCHANGED, script.as_str(), wanted)
}

#[test]
fn a_shared_item_is_sent(rt: HostRuntime) -> Result<(), Fail> {
    let lines = r#"checks 1 [102]
take 2
"#;
    let expected =
        r#"2 [{"cmd":"ReceivedItems","index":0,"items":[{"class":"NetworkItem","flags":0,"item":8,"location":102,"player":1}]},{"cmd":"PrintJSON","data":[{"text":"1","type":"player_id"},{"text":" sent "},{"flags":0,"player":3,"text":"8","type":"item_id"},{"text":" to "},{"text":"3","type":"player_id"},{"text":" ("},{"player":1,"text":"102","type":"location_id"},{"text":")"}],"item":{"class":"NetworkItem","flags":0,"item":8,"location":102,"player":1},"receiving":3,"type":"ItemSend"}]
"#;
    hearing_tells(&rt, rt.alloc(), lines, expected)
}

#[test]
fn a_member_buys_a_hint(rt: HostRuntime) -> Result<(), Fail> {
    let lines = r#"text 2 [{"cmd":"Say","text":"!hint Coin"}]
take 1
take 2
text 2 [{"cmd":"UpdateHint","location":102,"player":1,"status":10},{"cmd":"Get","keys":["_read_hints_0_1","_read_hints_0_2"]}]
take 2
"#;
    let expected =
        r#"1 [{"cmd":"PrintJSON","data":[{"text":"[Hint]: "},{"text":"3","type":"player_id"},{"text":"'s "},{"flags":0,"player":3,"text":"8","type":"item_id"},{"text":" is at "},{"player":1,"text":"102","type":"location_id"},{"text":" in "},{"text":"1","type":"player_id"},{"text":"'s world"}],"found":false,"item":{"class":"NetworkItem","flags":0,"item":8,"location":102,"player":1},"receiving":3,"type":"Hint"}]
2 [{"checked_locations":[],"cmd":"RoomUpdate","hint_points":0},{"cmd":"PrintJSON","data":[{"text":"[Hint]: "},{"text":"3","type":"player_id"},{"text":"'s "},{"flags":0,"player":3,"text":"8","type":"item_id"},{"text":" is at "},{"player":1,"text":"102","type":"location_id"},{"text":" in "},{"text":"1","type":"player_id"},{"text":"'s world"}],"found":false,"item":{"class":"NetworkItem","flags":0,"item":8,"location":102,"player":1},"receiving":3,"type":"Hint"}]
2 [{"cmd":"Retrieved","keys":{"_read_hints_0_1":[{"class":"Hint","entrance":"","finding_player":1,"found":false,"item":8,"item_flags":0,"location":102,"receiving_player":3,"status":10}],"_read_hints_0_2":[{"class":"Hint","entrance":"","finding_player":1,"found":false,"item":8,"item_flags":0,"location":102,"receiving_player":3,"status":10}]}}]
"#;
    hearing_tells(&rt, rt.alloc(), lines, expected)
}

#[test]
fn a_finder_scouts_a_shared_item(rt: HostRuntime) -> Result<(), Fail> {
    let lines = r#"text 1 [{"cmd":"LocationScouts","create_as_hint":1,"locations":[102]}]
take 1
take 2
"#;
    let expected =
        r#"1 [{"cmd":"LocationInfo","locations":[{"class":"NetworkItem","flags":0,"item":8,"location":102,"player":3}]},{"cmd":"PrintJSON","data":[{"text":"[Hint]: "},{"text":"3","type":"player_id"},{"text":"'s "},{"flags":0,"player":3,"text":"8","type":"item_id"},{"text":" is at "},{"player":1,"text":"102","type":"location_id"},{"text":" in "},{"text":"1","type":"player_id"},{"text":"'s world"}],"found":false,"item":{"class":"NetworkItem","flags":0,"item":8,"location":102,"player":1},"receiving":3,"type":"Hint"}]
2 [{"cmd":"PrintJSON","data":[{"text":"[Hint]: "},{"text":"3","type":"player_id"},{"text":"'s "},{"flags":0,"player":3,"text":"8","type":"item_id"},{"text":" is at "},{"player":1,"text":"102","type":"location_id"},{"text":" in "},{"text":"1","type":"player_id"},{"text":"'s world"}],"found":false,"item":{"class":"NetworkItem","flags":0,"item":8,"location":102,"player":1},"receiving":3,"type":"Hint"}]
"#;
    hearing_tells(&rt, rt.alloc(), lines, expected)
}

#[test]
fn a_shared_item_remains(rt: HostRuntime) -> Result<(), Fail> {
    let lines = r#"text 2 [{"cmd":"StatusUpdate","status":30}]
take 2
text 2 [{"cmd":"Say","text":"!remaining"}]
take 2
"#;
    let expected =
        r#"2 [{"cmd":"PrintJSON","data":[{"text":"Bob reached the goal"}],"slot":2,"team":0,"type":"Goal"}]
2 [{"cmd":"PrintJSON","data":[{"text":"2 remaining: Sword, Coin"}],"type":"CommandResult"}]
"#;
    hearing_tells(&rt, rt.alloc(), lines, expected)
}

#[test]
fn each_team_has_its_shared_item(rt: HostRuntime) -> Result<(), Fail> {
    let second = ROOM_OF_TEAMS.replace(rt.alloc(), "mw-multidata-1", "mw-multidata-2")?;
    let grouped = second.replace(
        rt.alloc(),
        r#""locations":[["#,
        r#""groups":[{"game":"G","members":[1,2],"name":"Duo"}],"locations":[["#,
    )?;
    let room = grouped.replace(rt.alloc(), "[1,102,8,1,0]", "[1,102,8,3,0]")?;
    let lines = r#"open
connect 1 A5 7
open
connect 2 B5 7
open
connect 3 A4 7
open
connect 4 B4 7
take 1
take 2
take 3
take 4
mark
checks 1 [102]
take 1
take 2
take 3
take 4
checks 3 [102]
take 1
take 4
"#;
    let expected =
        r#"1 [{"checked_locations":[102],"cmd":"RoomUpdate","hint_points":1},{"cmd":"ReceivedItems","index":1,"items":[{"class":"NetworkItem","flags":0,"item":8,"location":102,"player":1}]}]
2 [{"cmd":"ReceivedItems","index":0,"items":[{"class":"NetworkItem","flags":0,"item":8,"location":102,"player":1}]}]
4 [{"cmd":"ReceivedItems","index":0,"items":[{"class":"NetworkItem","flags":0,"item":8,"location":102,"player":1}]}]
"#;
    marks(&rt, rt.alloc(), room.as_str(), lines, expected)
}

/// The seed file of a room of 1,023 players, `p1` and on, who share what the first one finds. `$0`
/// stands for the members behind the first, `$1` for their slots.
const ROOM_OF_ALL: &str =
    r#"{"format":"mw-multidata-2","games":{"G":{"item_name_to_id":{"Star":1},"location_name_to_id":{"First":1}}},"groups":[{"game":"G","members":[1$0],"name":"All"}],"locations":[[1,1,1,1024,1]],"seed_name":"A","server":{"collect":"goal","hint_cost":10,"location_check_points":1,"password":"","release":"goal","remaining":"goal"},"slots":[{"game":"G","names":["p1"],"start":[]}$1],"spheres":[],"teams":1}"#;

/// A slot of that room.
const SLOT_OF_ALL: &str = r##",{"game":"G","names":["p#"],"start":[]}"##;

#[test]
fn all_players_share(rt: HostRuntime) -> Result<(), Fail> {
    let members = numbered(rt.alloc(), &(",#", 2), 1024)?;
    let slots = numbered(rt.alloc(), &(SLOT_OF_ALL, 2), 1024)?;
    let room = ROOM_OF_ALL.replace(rt.alloc(), "$0", members.as_str())?;
    let room = room.replace(rt.alloc(), "$1", slots.as_str())?;
    let lines = r#"open
connect 1 p1 7
open
connect 2 p512 7
open
connect 3 p1023 7
take 1
take 2
take 3
mark
checks 1 [1]
take 1
take 2
take 3
"#;
    let expected =
        r#"1 [{"checked_locations":[1],"cmd":"RoomUpdate","hint_points":1},{"cmd":"ReceivedItems","index":0,"items":[{"class":"NetworkItem","flags":1,"item":1,"location":1,"player":1}]}]
2 [{"cmd":"ReceivedItems","index":0,"items":[{"class":"NetworkItem","flags":1,"item":1,"location":1,"player":1}]}]
3 [{"cmd":"ReceivedItems","index":0,"items":[{"class":"NetworkItem","flags":1,"item":1,"location":1,"player":1}]}]
"#;
    marks(&rt, rt.alloc(), room.as_str(), lines, expected)
}

//! What players say, and what they are told of one another.
use crate::harness::{Run, case_tells, cases_tell};
use crate::session_harness::marks;
use crate::team_tests::ROOM as ROOM_OF_TEAMS;
use crate::tests::FOLDER_A;
use mw_cases::ROOM_A;
use std::test::Fail;

#[test]
fn item_send(rt: HostRuntime) -> Result<(), Fail> {
    let lines = r#"open
text 1 [{"cmd":"Connect","game":"G","items_handling":7,"name":"Ann","tags":[],"version":{"build":0,"major":0,"minor":5}}]
take 1
mark
checks 1 [101]
take 1
"#;
    let expected =
        r#"1 [{"checked_locations":[101],"cmd":"RoomUpdate","hint_points":1},{"cmd":"PrintJSON","data":[{"text":"1","type":"player_id"},{"text":" sent "},{"flags":1,"player":2,"text":"7","type":"item_id"},{"text":" to "},{"text":"2","type":"player_id"},{"text":" ("},{"player":1,"text":"101","type":"location_id"},{"text":")"}],"item":{"class":"NetworkItem","flags":1,"item":7,"location":101,"player":1},"receiving":2,"type":"ItemSend"}]
"#;
    marks(&rt, rt.alloc(), ROOM_A, lines, expected)
}

#[test]
fn goal_release_collect(rt: HostRuntime) -> Result<(), Fail> {
    let lines = r#"open
connect 1 Ann 7
open
connect 2 Bob 7
take 1
take 2
mark
checks 1 [102]
take 1
text 1 [{"cmd":"StatusUpdate","status":30}]
take 1
text 1 [{"cmd":"Say","text":"!release"}]
take 1
take 2
text 1 [{"cmd":"Say","text":"!collect"}]
take 2
take 1
"#;
    let expected =
        r#"1 [{"checked_locations":[102],"cmd":"RoomUpdate","hint_points":1},{"cmd":"ReceivedItems","index":1,"items":[{"class":"NetworkItem","flags":0,"item":8,"location":102,"player":1}]}]
1 [{"checked_locations":[101],"cmd":"RoomUpdate","hint_points":2}]
2 [{"cmd":"ReceivedItems","index":0,"items":[{"class":"NetworkItem","flags":1,"item":7,"location":101,"player":1}]}]
2 [{"checked_locations":[201],"cmd":"RoomUpdate","hint_points":1}]
1 [{"cmd":"ReceivedItems","index":2,"items":[{"class":"NetworkItem","flags":2,"item":9,"location":201,"player":2}]}]
"#;
    marks(&rt, rt.alloc(), ROOM_A, lines, expected)
}

#[test]
fn a_hint_costs_a_point(rt: HostRuntime) -> Result<(), Fail> {
    let lines = r#"open
connect 1 Ann 7
take 1
checks 1 [101,102]
take 1
mark
text 1 [{"cmd":"Say","text":"!hint Map"}]
take 1
text 1 [{"cmd":"Say","text":"!hint Map"}]
take 1
text 1 [{"cmd":"LocationScouts","create_as_hint":1,"locations":[201,101,101]}]
take 1
"#;
    let expected = r#"1 [{"checked_locations":[],"cmd":"RoomUpdate","hint_points":1}]
1 [{"cmd":"LocationInfo","locations":[{"class":"NetworkItem","flags":1,"item":7,"location":101,"player":2}]}]
"#;
    marks(&rt, rt.alloc(), ROOM_A, lines, expected)
}

#[test]
fn who_comes_and_goes(rt: HostRuntime) -> Result<(), Fail> {
    let lines = r#"both
text 2 [{"cmd":"Say","text":"hi \"all\""}]
take 1
text 2 [{"cmd":"ConnectUpdate","tags":["Tracker"]}]
take 1
lost 2
take 1
"#;
    let expected =
        r#"1 [{"cmd":"PrintJSON","data":[{"text":"Bob: hi \"all\""}],"message":"hi \"all\"","slot":2,"team":0,"type":"Chat"}]
1 [{"cmd":"PrintJSON","data":[{"text":"Bob changed tags"}],"slot":2,"tags":["Tracker"],"team":0,"type":"TagsChanged"}]
1 [{"cmd":"PrintJSON","data":[{"text":"Bob left"}],"slot":2,"team":0,"type":"Part"}]
"#;
    marks(&rt, rt.alloc(), ROOM_A, lines, expected)
}

/// Ann says a command, and each of both takes.
const ANSWERED: [Run<'static>; 1] = [(
    "drive A",
    r#"both
text 1 [{"cmd":"Say","text":"$0"}]
take 1
take 2
"#,
    r#"mark
1 [{"cmd":"PrintJSON","data":[{"text":"$1"}],"type":"CommandResult"}]
"#,
)];

/// Commands of Ann, and what each is answered.
const ANSWERS: &str =
    "!help | !help !players !missing !checked !remaining !release !collect !hint !hint_location
!players now | Connected: Ann, Bob
!missing | 2 missing: A1, A2
!checked | 0 checked:\u{20}
!remaining | not allowed
!release | not allowed
!collect | not allowed
!hint | 0 points, a hint costs 1
!hint  | 0 points, a hint costs 1
!hint Hat | no such name
!hint Boots | nothing to hint
!hint Map | 1 points needed, 0 there
!hint_location B1 | no such name
!hint_location A1 | 1 points needed, 0 there
!fly | unknown command";

#[test]
fn each_command_has_its_answer(rt: HostRuntime) -> Result<(), Fail> {
    cases_tell(&rt, rt.alloc(), &FOLDER_A, "", &ANSWERED, ANSWERS)
}

#[test]
fn the_goal_is_told(rt: HostRuntime) -> Result<(), Fail> {
    let lines = r#"both
text 1 [{"cmd":"StatusUpdate","status":30}]
take 2
text 1 [{"cmd":"StatusUpdate","status":10}]
text 1 [{"cmd":"Say","text":"!remaining"}]
take 2
"#;
    let expected =
        r#"2 [{"cmd":"PrintJSON","data":[{"text":"Ann reached the goal"}],"slot":1,"team":0,"type":"Goal"}]
"#;
    marks(&rt, rt.alloc(), ROOM_A, lines, expected)
}

/// Both players of the teams 0 and 1, who hear texts of the room from the mark on.
const TWO_TEAMS: &str = r#"open
text 1 [{"cmd":"Connect","game":"G","items_handling":7,"name":"A0","tags":[],"version":{"build":0,"major":0,"minor":5}}]
open
text 2 [{"cmd":"Connect","game":"G","items_handling":7,"name":"B0","tags":[],"version":{"build":0,"major":0,"minor":5}}]
open
text 3 [{"cmd":"Connect","game":"G","items_handling":7,"name":"A1","tags":[],"version":{"build":0,"major":0,"minor":5}}]
open
text 4 [{"cmd":"Connect","game":"G","items_handling":7,"name":"B1","tags":[],"version":{"build":0,"major":0,"minor":5}}]
take 1
take 2
take 3
take 4
mark
text 1 [{"cmd":"Say","text":"hi"}]
text 4 [{"cmd":"Say","text":"ho"}]
take 1
take 2
take 3
take 4
"#;

#[test]
fn teams_do_not_hear_each_other(rt: HostRuntime) -> Result<(), Fail> {
    let expected =
        r#"1 [{"cmd":"PrintJSON","data":[{"text":"A0: hi"}],"message":"hi","slot":1,"team":0,"type":"Chat"}]
2 [{"cmd":"PrintJSON","data":[{"text":"A0: hi"}],"message":"hi","slot":1,"team":0,"type":"Chat"}]
3 [{"cmd":"PrintJSON","data":[{"text":"B1: ho"}],"message":"ho","slot":2,"team":1,"type":"Chat"}]
4 [{"cmd":"PrintJSON","data":[{"text":"B1: ho"}],"message":"ho","slot":2,"team":1,"type":"Chat"}]
"#;
    marks(&rt, rt.alloc(), ROOM_OF_TEAMS, TWO_TEAMS, expected)
}

/// Ann says something, and Bob takes. A case has its spelling in JSON, and the one with which it is
/// printed.
const HEARD: [Run<'static>; 1] = [(
    "drive A",
    r#"both
text 1 [{"cmd":"Say","text":"$0"}]
take 2
"#,
    r#"mark
2 [{"cmd":"PrintJSON","data":[{"text":"Ann: $1"}],"message":"$1","slot":1,"team":0,"type":"Chat"}]
"#,
)];

/// Spellings of quotes and of control characters.
const ESCAPES: &str = r#"\u0022\"\u005C\\ | \"\"\\\\
\u0008\u0009\u000A\u000C\u000D | \b\t\n\f\r
\b\t\n\f\r | \b\t\n\f\r
\u0000\u0001\u000B\u001F | \u0000\u0001\u000b\u001f"#;

/// Spellings of characters that are printed as they are.
const PLAIN: &str = "\\u007F\\/\\u002F | \u{7f}//\n\\u00E4\\uD83D\\uDE00 | \u{e4}\u{1f600}";

#[test]
fn quotes_and_control_characters_are_said(rt: HostRuntime) -> Result<(), Fail> {
    cases_tell(&rt, rt.alloc(), &FOLDER_A, "", &HEARD, ESCAPES)?;
    cases_tell(&rt, rt.alloc(), &FOLDER_A, "", &HEARD, PLAIN)
}

#[test]
fn ten_thousand_characters_are_said(rt: HostRuntime) -> Result<(), Fail> {
    let said = r#"\"\u0001\u00e4\n\\"#.repeat(rt.alloc(), 2_000)?;
    let told = "\\\"\\u0001\u{e4}\\n\\\\".repeat(rt.alloc(), 2_000)?;
    let case = format!(in rt.alloc(); "{} | {}", said.as_str(), told.as_str())?;
    case_tells(&rt, rt.alloc(), &FOLDER_A, "", &HEARD, case.as_str())
}

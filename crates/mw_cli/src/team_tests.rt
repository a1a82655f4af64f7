use crate::harness::{Run, case_tells};
use crate::session_harness::marks;
use std::test::Fail;

/// A room of eight teams, in each of which slot 1 finds the Sword of slot 2.
pub(crate) const ROOM: &str =
    r#"{"format":"mw-multidata-1","games":{"G":{"item_name_to_id":{"Boots":5,"Coin":8,"Map":9,"Sword":7},"location_name_to_id":{"A1":101,"A2":102,"B1":201}}},"locations":[[1,101,7,2,1],[1,102,8,1,0],[2,201,9,1,2]],"seed_name":"A","server":{"collect":"goal","hint_cost":10,"location_check_points":1,"password":"","release":"goal","remaining":"goal"},"slots":[{"game":"G","names":["A0","A1","A2","A3","A4","A5","A6","A7"],"start":[[5,0]]},{"game":"G","names":["B0","B1","B2","B3","B4","B5","B6","B7"],"start":[]}],"spheres":[],"teams":8}"#;

/// Both players of each team connect and all take, and then the first player of each team, one team
/// after the other, checks 101, and all take. In each round just the two players of that team hear
/// of it.
const ROUNDS: [Run<'static>; 1] = [(
    "drive A",
    "open
connect 1 A0 7
open
connect 2 B0 7
open
connect 3 A1 7
open
connect 4 B1 7
open
connect 5 A2 7
open
connect 6 B2 7
open
connect 7 A3 7
open
connect 8 B3 7
open
connect 9 A4 7
open
connect 10 B4 7
open
connect 11 A5 7
open
connect 12 B5 7
open
connect 13 A6 7
open
connect 14 B6 7
open
connect 15 A7 7
open
connect 16 B7 7
$0mark
checks 1 [101]
$0checks 3 [101]
$0checks 5 [101]
$0checks 7 [101]
$0checks 9 [101]
$0checks 11 [101]
$0checks 13 [101]
$0checks 15 [101]
$0",
    "mark
1 $1
2 $2
3 $1
4 $2
5 $1
6 $2
7 $1
8 $2
9 $1
10 $2
11 $1
12 $2
13 $1
14 $2
15 $1
16 $2
",
)];

/// Takes of all, and what the one who checks and the other player of the team hear.
const PARTS: &str = r#"take 1
take 2
take 3
take 4
take 5
take 6
take 7
take 8
take 9
take 10
take 11
take 12
take 13
take 14
take 15
take 16
 | [{"checked_locations":[101],"cmd":"RoomUpdate","hint_points":1}] | [{"cmd":"ReceivedItems","index":0,"items":[{"class":"NetworkItem","flags":1,"item":7,"location":101,"player":1}]}]"#;

#[test]
fn a_team_hears_of_no_other(rt: HostRuntime) -> Result<(), Fail> {
    case_tells(&rt, rt.alloc(), &[("A", ROOM)], "", &ROUNDS, PARTS)
}

/// What the first player of team 5 is owed for a Connect, once the first one of team 4 has checked
/// 101 and the first one of team 5 has checked 102.
const CONNECTED_OF_FIVE: &str =
    r#"3 [{"checked_locations":[102],"cmd":"Connected","hint_points":1,"missing_locations":[101],"players":[{"alias":"A0","class":"NetworkPlayer","name":"A0","slot":1,"team":0},{"alias":"B0","class":"NetworkPlayer","name":"B0","slot":2,"team":0},{"alias":"A1","class":"NetworkPlayer","name":"A1","slot":1,"team":1},{"alias":"B1","class":"NetworkPlayer","name":"B1","slot":2,"team":1},{"alias":"A2","class":"NetworkPlayer","name":"A2","slot":1,"team":2},{"alias":"B2","class":"NetworkPlayer","name":"B2","slot":2,"team":2},{"alias":"A3","class":"NetworkPlayer","name":"A3","slot":1,"team":3},{"alias":"B3","class":"NetworkPlayer","name":"B3","slot":2,"team":3},{"alias":"A4","class":"NetworkPlayer","name":"A4","slot":1,"team":4},{"alias":"B4","class":"NetworkPlayer","name":"B4","slot":2,"team":4},{"alias":"A5","class":"NetworkPlayer","name":"A5","slot":1,"team":5},{"alias":"B5","class":"NetworkPlayer","name":"B5","slot":2,"team":5},{"alias":"A6","class":"NetworkPlayer","name":"A6","slot":1,"team":6},{"alias":"B6","class":"NetworkPlayer","name":"B6","slot":2,"team":6},{"alias":"A7","class":"NetworkPlayer","name":"A7","slot":1,"team":7},{"alias":"B7","class":"NetworkPlayer","name":"B7","slot":2,"team":7}],"slot":1,"slot_data":{},"slot_info":{"1":{"class":"NetworkSlot","game":"G","group_members":[],"name":"A5","type":1},"2":{"class":"NetworkSlot","game":"G","group_members":[],"name":"B5","type":1}},"team":5},{"cmd":"ReceivedItems","index":0,"items":[{"class":"NetworkItem","flags":0,"item":5,"location":-2,"player":0},{"class":"NetworkItem","flags":0,"item":8,"location":102,"player":1}]}]
"#;

#[test]
fn a_player_of_another_team_connects(rt: HostRuntime) -> Result<(), Fail> {
    let lines = r#"open
connect 1 A4 7
checks 1 [101]
open
connect 2 A5 7
checks 2 [102]
open
take 3
mark
connect 3 A5 7
take 3
"#;
    marks(&rt, rt.alloc(), ROOM, lines, CONNECTED_OF_FIVE)
}

#[test]
fn messages_stay_in_their_team(rt: HostRuntime) -> Result<(), Fail> {
    let lines = r#"open
connect 1 A0 7
open
connect 2 B0 7
open
connect 3 A1 7
take 1
take 2
take 3
mark
text 1 [{"cmd":"Bounce","slots":[1,2]},{"cmd":"Set","key":"k","operations":[{"operation":"replace","value":5}]}]
text 3 [{"cmd":"Get","keys":["k"]}]
take 1
take 2
take 3
"#;
    let expected = r#"1 [{"cmd":"Bounced","slots":[1,2]}]
2 [{"cmd":"Bounced","slots":[1,2]}]
3 [{"cmd":"Retrieved","keys":{"k":5}}]
"#;
    marks(&rt, rt.alloc(), ROOM, lines, expected)
}

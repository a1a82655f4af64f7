use crate::session_harness::marks;
use mw_cases::ROOM_A;
use std::test::Fail;

#[test]
fn mask_without_own_items(rt: HostRuntime) -> Result<(), Fail> {
    let lines = r#"open
connect 1 Ann 1
open
connect 2 Bob 7
take 1
take 2
mark
checks 1 [102]
take 1
checks 2 [201]
take 1
"#;
    let expected = r#"1 [{"checked_locations":[102],"cmd":"RoomUpdate","hint_points":1}]
1 [{"cmd":"ReceivedItems","index":0,"items":[{"class":"NetworkItem","flags":2,"item":9,"location":201,"player":2}]}]
"#;
    marks(&rt, rt.alloc(), ROOM_A, lines, expected)
}

#[test]
fn lost_and_reconnect(rt: HostRuntime) -> Result<(), Fail> {
    let lines = r#"open
connect 1 Bob 7
open
connect 2 Ann 7
take 1
take 2
checks 2 [101]
mark
lost 1
take 1
open
connect 3 Bob 7
take 3
"#;
    let expected = r#"1 gone
3 $info
3 [{"checked_locations":[],"cmd":"Connected","hint_points":0,"missing_locations":[201],"players":[{"alias":"Ann","class":"NetworkPlayer","name":"Ann","slot":1,"team":0},{"alias":"Bob","class":"NetworkPlayer","name":"Bob","slot":2,"team":0}],"slot":2,"slot_data":{},"slot_info":{"1":{"class":"NetworkSlot","game":"G","group_members":[],"name":"Ann","type":1},"2":{"class":"NetworkSlot","game":"G","group_members":[],"name":"Bob","type":1}},"team":0},{"cmd":"ReceivedItems","index":0,"items":[{"class":"NetworkItem","flags":1,"item":7,"location":101,"player":1}]}]
"#;
    marks(&rt, rt.alloc(), ROOM_A, lines, expected)
}

#[test]
fn bad_packet_then_sync(rt: HostRuntime) -> Result<(), Fail> {
    let lines = r#"open
connect 1 Ann 7
take 1
mark
text 1 [{"cmd":"LocationChecks","locations":["x"]},{"cmd":"Sync"}]
take 1
"#;
    let expected =
        r#"1 [{"cmd":"InvalidPacket","original_cmd":"LocationChecks","text":"arguments: locations","type":"arguments"}]
1 [{"cmd":"ReceivedItems","index":0,"items":[{"class":"NetworkItem","flags":0,"item":5,"location":-2,"player":0}]}]
"#;
    marks(&rt, rt.alloc(), ROOM_A, lines, expected)
}

#[test]
fn before_connect(rt: HostRuntime) -> Result<(), Fail> {
    let lines = r#"open
take 1
mark
sync 1
take 1
text 1 [{"cmd":"Fly"}]
text 1 7
take 1
checks 1 [101]
text 1 [{"cmd":"ConnectUpdate","items_handling":7},{"cmd":"LocationScouts","locations":[101]}]
take 1
"#;
    let expected =
        r#"1 [{"cmd":"InvalidPacket","original_cmd":"Fly","text":"unknown cmd","type":"cmd"}]
1 [{"cmd":"InvalidPacket","original_cmd":null,"text":"no JSON list","type":"cmd"}]
"#;
    marks(&rt, rt.alloc(), ROOM_A, lines, expected)
}

#[test]
fn each_mask_keeps_its_part(rt: HostRuntime) -> Result<(), Fail> {
    let lines = r#"open
connect 1 Ann 7
checks 1 [102]
open
connect 2 Bob 7
checks 2 [201]
open
connect 3 Ann 0
take 3
open
connect 4 Ann 1
take 4
open
connect 5 Ann 3
take 5
open
connect 6 Ann 5
take 6
open
connect 7 Ann 7
take 7
mark
sync 3
take 3
sync 4
take 4
sync 5
take 5
sync 6
take 6
sync 7
take 7
"#;
    let expected =
        r#"4 [{"cmd":"ReceivedItems","index":0,"items":[{"class":"NetworkItem","flags":2,"item":9,"location":201,"player":2}]}]
5 [{"cmd":"ReceivedItems","index":0,"items":[{"class":"NetworkItem","flags":0,"item":8,"location":102,"player":1},{"class":"NetworkItem","flags":2,"item":9,"location":201,"player":2}]}]
6 [{"cmd":"ReceivedItems","index":0,"items":[{"class":"NetworkItem","flags":0,"item":5,"location":-2,"player":0},{"class":"NetworkItem","flags":2,"item":9,"location":201,"player":2}]}]
7 [{"cmd":"ReceivedItems","index":0,"items":[{"class":"NetworkItem","flags":0,"item":5,"location":-2,"player":0},{"class":"NetworkItem","flags":0,"item":8,"location":102,"player":1},{"class":"NetworkItem","flags":2,"item":9,"location":201,"player":2}]}]
"#;
    marks(&rt, rt.alloc(), ROOM_A, lines, expected)
}

#[test]
fn each_mask_has_its_own_index(rt: HostRuntime) -> Result<(), Fail> {
    let lines = r#"open
connect 1 Bob 7
open
connect 2 Ann 0
take 2
open
connect 3 Ann 1
take 3
open
connect 4 Ann 3
take 4
open
connect 5 Ann 5
take 5
open
connect 6 Ann 7
take 6
mark
checks 3 [102]
take 2
take 3
take 4
take 5
take 6
checks 1 [201]
take 2
take 3
take 4
take 5
take 6
"#;
    let expected = r#"2 [{"checked_locations":[102],"cmd":"RoomUpdate","hint_points":1}]
3 [{"checked_locations":[102],"cmd":"RoomUpdate","hint_points":1}]
4 [{"checked_locations":[102],"cmd":"RoomUpdate","hint_points":1},{"cmd":"ReceivedItems","index":0,"items":[{"class":"NetworkItem","flags":0,"item":8,"location":102,"player":1}]}]
5 [{"checked_locations":[102],"cmd":"RoomUpdate","hint_points":1}]
6 [{"checked_locations":[102],"cmd":"RoomUpdate","hint_points":1},{"cmd":"ReceivedItems","index":1,"items":[{"class":"NetworkItem","flags":0,"item":8,"location":102,"player":1}]}]
3 [{"cmd":"ReceivedItems","index":0,"items":[{"class":"NetworkItem","flags":2,"item":9,"location":201,"player":2}]}]
4 [{"cmd":"ReceivedItems","index":1,"items":[{"class":"NetworkItem","flags":2,"item":9,"location":201,"player":2}]}]
5 [{"cmd":"ReceivedItems","index":1,"items":[{"class":"NetworkItem","flags":2,"item":9,"location":201,"player":2}]}]
6 [{"cmd":"ReceivedItems","index":2,"items":[{"class":"NetworkItem","flags":2,"item":9,"location":201,"player":2}]}]
"#;
    marks(&rt, rt.alloc(), ROOM_A, lines, expected)
}

#[test]
fn a_new_mask_owes_from_the_start(rt: HostRuntime) -> Result<(), Fail> {
    let lines = r#"open
connect 1 Ann 1
open
connect 2 Bob 7
checks 1 [102]
take 1
mark
text 1 [{"cmd":"ConnectUpdate","items_handling":7}]
take 1
text 1 [{"cmd":"ConnectUpdate","items_handling":7}]
text 1 [{"cmd":"ConnectUpdate"},{"cmd":"ConnectUpdate","tags":["NoText","Tracker"]}]
take 1
checks 2 [201]
take 1
text 1 [{"cmd":"ConnectUpdate","items_handling":5}]
take 1
text 1 [{"cmd":"ConnectUpdate","items_handling":0}]
take 1
"#;
    let expected =
        r#"1 [{"cmd":"ReceivedItems","index":0,"items":[{"class":"NetworkItem","flags":0,"item":5,"location":-2,"player":0},{"class":"NetworkItem","flags":0,"item":8,"location":102,"player":1}]}]
1 [{"cmd":"ReceivedItems","index":2,"items":[{"class":"NetworkItem","flags":2,"item":9,"location":201,"player":2}]}]
1 [{"cmd":"ReceivedItems","index":0,"items":[{"class":"NetworkItem","flags":0,"item":5,"location":-2,"player":0},{"class":"NetworkItem","flags":2,"item":9,"location":201,"player":2}]}]
"#;
    marks(&rt, rt.alloc(), ROOM_A, lines, expected)
}

#[test]
fn one_text_of_many_packets(rt: HostRuntime) -> Result<(), Fail> {
    let lines = r#"open
take 1
mark
text 1 [{"cmd":"Connect","game":"G","items_handling":3,"name":"Ann","tags":["NoText"],"version":{"build":0,"major":0,"minor":4}},{"cmd":"Sync"},{"cmd":"LocationChecks","locations":[102]},7,{"cmd":"ConnectUpdate","items_handling":1},{"cmd":"Fly"}]
take 1
"#;
    let expected =
        r#"1 [{"checked_locations":[],"cmd":"Connected","hint_points":0,"missing_locations":[101,102],"players":[{"alias":"Ann","class":"NetworkPlayer","name":"Ann","slot":1,"team":0},{"alias":"Bob","class":"NetworkPlayer","name":"Bob","slot":2,"team":0}],"slot":1,"slot_data":{},"slot_info":{"1":{"class":"NetworkSlot","game":"G","group_members":[],"name":"Ann","type":1},"2":{"class":"NetworkSlot","game":"G","group_members":[],"name":"Bob","type":1}},"team":0}]
1 [{"checked_locations":[102],"cmd":"RoomUpdate","hint_points":1},{"cmd":"ReceivedItems","index":0,"items":[{"class":"NetworkItem","flags":0,"item":8,"location":102,"player":1}]}]
1 [{"cmd":"InvalidPacket","original_cmd":null,"text":"no cmd","type":"cmd"}]
1 [{"cmd":"InvalidPacket","original_cmd":"Fly","text":"unknown cmd","type":"cmd"}]
"#;
    marks(&rt, rt.alloc(), ROOM_A, lines, expected)
}

#[test]
fn scouts_and_names(rt: HostRuntime) -> Result<(), Fail> {
    let lines = r#"open
text 1 [{"cmd":"GetDataPackage","games":["H"]}]
connect 1 Ann 7
take 1
mark
text 1 [{"cmd":"LocationScouts","locations":[201,101,101,102,7,-1]},{"cmd":"LocationScouts","locations":[201]}]
text 1 [{"cmd":"GetDataPackage","games":["H","G","G"]},{"cmd":"GetDataPackage","games":[]}]
take 1
"#;
    let expected =
        r#"1 [{"cmd":"LocationInfo","locations":[{"class":"NetworkItem","flags":1,"item":7,"location":101,"player":2},{"class":"NetworkItem","flags":0,"item":8,"location":102,"player":1}]}]
1 [{"cmd":"LocationInfo","locations":[]}]
1 [{"cmd":"DataPackage","data":{"games":{"G":{"checksum":"3140df20051ca1c7a5dd4f886f8945c613c6fbba","item_name_to_id":{"Boots":5,"Coin":8,"Map":9,"Sword":7},"location_name_to_id":{"A1":101,"A2":102,"B1":201}}}}}]
1 [{"cmd":"DataPackage","data":{"games":{}}}]
"#;
    marks(&rt, rt.alloc(), ROOM_A, lines, expected)
}

#[test]
fn lines_on_lost_sessions(rt: HostRuntime) -> Result<(), Fail> {
    let lines = r#"open
mark
lost 1
sync 1
text 1 []
text 1 7
take 1
lost 1
take 2
lost 007
open
take 2
"#;
    let expected = r#"1 gone
1 gone
1 gone
1 gone
1 gone
2 gone
7 gone
2 $info
"#;
    marks(&rt, rt.alloc(), ROOM_A, lines, expected)
}

#[test]
fn an_empty_list_makes_no_call(rt: HostRuntime) -> Result<(), Fail> {
    let lines = r#"open
connect 1 Ann 7
take 1
mark
text 1 []
take 1
text 2 []
"#;
    marks(&rt, rt.alloc(), ROOM_A, lines, "2 gone\n")
}

#[test]
fn a_lost_session_is_owed_nothing(rt: HostRuntime) -> Result<(), Fail> {
    let lines = r#"open
connect 1 Bob 7
open
connect 2 Bob 7
open
connect 3 Ann 7
take 1
take 2
take 3
mark
lost 1
checks 3 [101]
take 1
take 2
take 3
"#;
    let expected = r#"1 gone
2 [{"cmd":"ReceivedItems","index":0,"items":[{"class":"NetworkItem","flags":1,"item":7,"location":101,"player":1}]}]
3 [{"checked_locations":[101],"cmd":"RoomUpdate","hint_points":1}]
"#;
    marks(&rt, rt.alloc(), ROOM_A, lines, expected)
}

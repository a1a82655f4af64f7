use crate::session_harness::{marks, room_with};
use mw_cases::ROOM_A;
use std::test::Fail;

#[test]
fn refused_connect(rt: HostRuntime) -> Result<(), Fail> {
    let lines = r#"mark
open 7
take 1
text 1 [{"cmd":"Connect","game":"G","items_handling":2,"name":"Cat","password":"no","tags":["NoText"],"version":{"build":0,"major":0,"minor":5}}]
take 1
"#;
    let seed = room_with(rt.alloc(), r#""password":"""#, r#""password":"pw""#)?;
    let expected =
        r#"1 [{"cmd":"RoomInfo","datapackage_checksums":{"G":"3140df20051ca1c7a5dd4f886f8945c613c6fbba"},"games":["G"],"generator_version":{"build":0,"class":"Version","major":0,"minor":5},"hint_cost":10,"location_check_points":1,"password":true,"permissions":{"collect":2,"release":2,"remaining":2},"seed_name":"A","tags":[],"time":7,"version":{"build":0,"class":"Version","major":0,"minor":5}}]
1 [{"cmd":"ConnectionRefused","errors":["InvalidPassword","InvalidSlot","InvalidItemsHandling"]}]
"#;
    marks(&rt, rt.alloc(), seed.as_str(), lines, expected)
}

#[test]
fn each_refusal_alone(rt: HostRuntime) -> Result<(), Fail> {
    let lines = r#"open
take 1
mark
text 1 [{"cmd":"Connect","game":"G","items_handling":7,"name":"Ann","tags":["NoText"],"version":{"build":0,"major":0,"minor":5}}]
text 1 [{"cmd":"Connect","game":"G","items_handling":7,"name":"Ann","password":null,"tags":["NoText"],"version":{"build":0,"major":0,"minor":5}}]
text 1 [{"cmd":"Connect","game":"G","items_handling":7,"name":"Ann","password":"PW","tags":["NoText"],"version":{"build":0,"major":0,"minor":5}}]
text 1 [{"cmd":"Connect","game":"G","items_handling":7,"name":"ann","password":"pw","tags":["NoText"],"version":{"build":0,"major":0,"minor":5}}]
text 1 [{"cmd":"Connect","game":"H","items_handling":7,"name":"Ann","password":"pw","tags":["NoText"],"version":{"build":0,"major":0,"minor":5}}]
text 1 [{"cmd":"Connect","items_handling":7,"name":"Ann","password":"pw","tags":["NoText"],"version":{"build":0,"major":0,"minor":5}}]
text 1 [{"cmd":"Connect","game":"G","items_handling":7,"name":"Ann","password":"pw","tags":["NoText"],"version":{"build":9,"major":0,"minor":3}}]
text 1 [{"cmd":"Connect","game":"G","items_handling":7,"name":"Ann","password":"pw","tags":["NoText"],"version":{"build":9,"major":-1,"minor":9}}]
text 1 [{"cmd":"Connect","game":"G","items_handling":2,"name":"Ann","password":"pw","tags":["NoText"],"version":{"build":0,"major":0,"minor":5}}]
text 1 [{"cmd":"Connect","game":"G","items_handling":4,"name":"Ann","password":"pw","tags":["NoText"],"version":{"build":0,"major":0,"minor":5}}]
text 1 [{"cmd":"Connect","game":"G","items_handling":6,"name":"Ann","password":"pw","tags":["NoText"],"version":{"build":0,"major":0,"minor":5}}]
text 1 [{"cmd":"Connect","game":"G","items_handling":8,"name":"Ann","password":"pw","tags":["NoText"],"version":{"build":0,"major":0,"minor":5}}]
text 1 [{"cmd":"Connect","game":"G","items_handling":-1,"name":"Ann","password":"pw","tags":["NoText"],"version":{"build":0,"major":0,"minor":5}}]
text 1 [{"cmd":"Connect","game":"H","items_handling":6,"name":"Ann","password":"no","tags":["NoText"],"version":{"build":0,"major":0,"minor":0}}]
take 1
"#;
    let seed = room_with(rt.alloc(), r#""password":"""#, r#""password":"pw""#)?;
    let expected = r#"1 [{"cmd":"ConnectionRefused","errors":["InvalidPassword"]}]
1 [{"cmd":"ConnectionRefused","errors":["InvalidPassword"]}]
1 [{"cmd":"ConnectionRefused","errors":["InvalidPassword"]}]
1 [{"cmd":"ConnectionRefused","errors":["InvalidSlot"]}]
1 [{"cmd":"ConnectionRefused","errors":["InvalidGame"]}]
1 [{"cmd":"ConnectionRefused","errors":["InvalidGame"]}]
1 [{"cmd":"ConnectionRefused","errors":["IncompatibleVersion"]}]
1 [{"cmd":"ConnectionRefused","errors":["IncompatibleVersion"]}]
1 [{"cmd":"ConnectionRefused","errors":["InvalidItemsHandling"]}]
1 [{"cmd":"ConnectionRefused","errors":["InvalidItemsHandling"]}]
1 [{"cmd":"ConnectionRefused","errors":["InvalidItemsHandling"]}]
1 [{"cmd":"ConnectionRefused","errors":["InvalidItemsHandling"]}]
1 [{"cmd":"ConnectionRefused","errors":["InvalidItemsHandling"]}]
1 [{"cmd":"ConnectionRefused","errors":["InvalidPassword","InvalidGame","IncompatibleVersion","InvalidItemsHandling"]}]
"#;
    marks(&rt, rt.alloc(), seed.as_str(), lines, expected)
}

#[test]
fn accepted_after_a_refusal(rt: HostRuntime) -> Result<(), Fail> {
    let lines = r#"open
connect 1 Cat 7
take 1
mark
text 1 [{"cmd":"Connect","game":"G","items_handling":null,"name":"Bob","password":"anything","tags":["NoText"],"version":{"build":0,"major":0,"minor":4}}]
take 1
"#;
    let expected =
        r#"1 [{"checked_locations":[],"cmd":"Connected","hint_points":0,"missing_locations":[201],"players":[{"alias":"Ann","class":"NetworkPlayer","name":"Ann","slot":1,"team":0},{"alias":"Bob","class":"NetworkPlayer","name":"Bob","slot":2,"team":0}],"slot":2,"slot_data":{},"slot_info":{"1":{"class":"NetworkSlot","game":"G","group_members":[],"name":"Ann","type":1},"2":{"class":"NetworkSlot","game":"G","group_members":[],"name":"Bob","type":1}},"team":0}]
"#;
    marks(&rt, rt.alloc(), ROOM_A, lines, expected)
}

#[test]
fn looking_on_needs_no_game(rt: HostRuntime) -> Result<(), Fail> {
    let lines = r#"open
take 1
mark
text 1 [{"cmd":"Connect","game":null,"name":"Ann","tags":["NoText"],"version":{"build":0,"major":0,"minor":5}}]
take 1
text 1 [{"cmd":"Connect","game":"","name":"Ann","tags":["NoText","TextOnly"],"version":{"build":0,"major":1,"minor":0}}]
take 1
open
take 2
text 2 [{"cmd":"Connect","items_handling":1,"name":"Bob","tags":["Tracker","NoText"],"version":{"build":0,"major":0,"minor":5}}]
take 2
"#;
    let expected = r#"1 [{"cmd":"ConnectionRefused","errors":["InvalidGame"]}]
1 [{"checked_locations":[],"cmd":"Connected","hint_points":0,"missing_locations":[101,102],"players":[{"alias":"Ann","class":"NetworkPlayer","name":"Ann","slot":1,"team":0},{"alias":"Bob","class":"NetworkPlayer","name":"Bob","slot":2,"team":0}],"slot":1,"slot_data":{},"slot_info":{"1":{"class":"NetworkSlot","game":"G","group_members":[],"name":"Ann","type":1},"2":{"class":"NetworkSlot","game":"G","group_members":[],"name":"Bob","type":1}},"team":0}]
2 $info
2 [{"checked_locations":[],"cmd":"Connected","hint_points":0,"missing_locations":[201],"players":[{"alias":"Ann","class":"NetworkPlayer","name":"Ann","slot":1,"team":0},{"alias":"Bob","class":"NetworkPlayer","name":"Bob","slot":2,"team":0}],"slot":2,"slot_data":{},"slot_info":{"1":{"class":"NetworkSlot","game":"G","group_members":[],"name":"Ann","type":1},"2":{"class":"NetworkSlot","game":"G","group_members":[],"name":"Bob","type":1}},"team":0}]
"#;
    marks(&rt, rt.alloc(), ROOM_A, lines, expected)
}

#[test]
fn connect_on_a_connected_session(rt: HostRuntime) -> Result<(), Fail> {
    let lines = r#"open
connect 1 Ann 7
take 1
mark
connect 1 Bob 1
connect 1 Cat 2
sync 1
take 1
"#;
    let expected =
        r#"1 [{"cmd":"InvalidPacket","original_cmd":"Connect","text":"already connected","type":"arguments"}]
1 [{"cmd":"InvalidPacket","original_cmd":"Connect","text":"already connected","type":"arguments"}]
1 [{"cmd":"ReceivedItems","index":0,"items":[{"class":"NetworkItem","flags":0,"item":5,"location":-2,"player":0}]}]
"#;
    marks(&rt, rt.alloc(), ROOM_A, lines, expected)
}

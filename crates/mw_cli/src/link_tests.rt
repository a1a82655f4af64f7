//! Links and accessibility: `generate`, `check` and `reach` with them, and the room of a linked seed.
use crate::harness::{File, Run, case_tells, cases_tell};
use crate::reach_tests::ONE_SWORD;
use std::sync::Wait;
use std::test::Fail;
use std::thread::Threads;

/// Ann, by what she wants of her world, whose one location has a case's rule and whose pool is one
/// Sword; she has won from the start. Of the same world, Ann who wants all of it.
const ALONE: [File<'static>; 3] = [
    (
        "p.json",
        r#"{"format":"mw-players-2","players":[{"names":["Ann"],"world":"w.json","options":{"accessibility":"$0"}}]}"#,
    ),
    (
        "w.json",
        r#"{"format":"mw-world-1","game":"G","regions":["Menu"],"items":[{"name":"Sword","id":1,"class":"progression"},{"name":"Coin","id":2,"class":"filler"}],"entrances":[],"locations":[{"name":"Second","id":2,"region":"Menu","rule":$1}],"pool":[{"item":"Sword","count":1}],"filler":"Coin","goal":true}"#,
    ),
    (
        "q.json",
        r#"{"format":"mw-players-2","players":[{"names":["Ann"],"world":"w.json","options":{"accessibility":"full"}}]}"#,
    ),
];

/// It is generated.
const GENERATE: [Run<'static>; 1] = [("generate p.json o --seed 0 --tries 3", "", "$2\n")];

/// What Ann wants, the rule, and what is told.
const WANTED: &str = r#"items | {"has":"Sword"} | 4 exhausted after 3 tries
full | {"has":"Sword"} | 4 exhausted after 3 tries
full | false | 3 not full: slot 1 location 0
minimal | {"has":"Sword"} | 0 seed 0 try 0 spheres 0
minimal | false | 0 seed 0 try 0 spheres 0"#;

#[test]
fn what_a_player_wants_decides_whether_there_is_a_seed(rt: HostRuntime) -> Result<(), Fail> {
    cases_tell(&rt, rt.alloc(), &ALONE, "", &GENERATE, WANTED)
}

/// The seed file of a Sword that nobody can reach, and what `check` finds in it for Ann who wants no
/// more than her goal, and for Ann who wants all of her world.
const MISSED: [Run<'static>; 4] = [
    (
        "generate p.json o --seed 0 --tries 3",
        "",
        "0 seed 0 try 0 spheres 0\n",
    ),
    (
        "file o",
        "",
        r#"{"format":"mw-multidata-1","games":{"G":{"item_name_to_id":{"Coin":2,"Sword":1},"location_name_to_id":{"Second":2}}},"locations":[[1,2,1,1,1]],"seed_name":"0","server":{"collect":"auto","hint_cost":10,"location_check_points":1,"password":"","release":"auto","remaining":"goal"},"slots":[{"game":"G","names":["Ann"],"start":[]}],"spheres":[],"teams":1}"#,
    ),
    ("check p.json o", "", "0 ok spheres 0\n"),
    (
        "check q.json o",
        "",
        "1 check failed: location 0 of slot 1\n",
    ),
];

#[test]
fn a_location_that_is_missed(rt: HostRuntime) -> Result<(), Fail> {
    let case = r#"minimal | {"has":"Sword"}"#;
    case_tells(&rt, rt.alloc(), &ALONE, "", &MISSED, case)
}

/// Ann and Bob, who share their Swords; the same without a link, with another link, and with a link
/// that a case spells. Nobody releases or collects.
const LINKED: [File<'static>; 5] = [
    (
        "p.json",
        r#"{"format":"mw-players-2","room":{"release":"disabled","collect":"disabled"},"players":[{"names":["Ann"],"world":"w.json"},{"names":["Bob"],"world":"w.json"}],"links":[{"name":"Duo","members":[1,2],"items":["Sword","Sword"]}]}"#,
    ),
    ("w.json", ONE_SWORD),
    (
        "q.json",
        r#"{"format":"mw-players-1","players":[{"names":["Ann"],"world":"w.json"},{"names":["Bob"],"world":"w.json"}]}"#,
    ),
    (
        "r.json",
        r#"{"format":"mw-players-2","players":[{"names":["Ann"],"world":"w.json"},{"names":["Bob"],"world":"w.json"},{"names":["Cy"],"world":"v.json"}],"links":[$0]}"#,
    ),
    (
        "v.json",
        r#"{"format":"mw-world-1","game":"H","regions":["Menu"],"items":[{"name":"Won","id":null,"class":"progression"},{"name":"Coin","id":2,"class":"filler"}],"entrances":[],"locations":[{"name":"First","id":1,"region":"Menu","rule":true},{"name":"End","id":null,"region":"Menu","rule":true,"event":"Won"}],"pool":[],"filler":"Coin","goal":true}"#,
    ),
];

/// Their one Sword is for Duo, and each of them has it once Ann finds it.
const SHARED: [Run<'static>; 6] = [
    (
        "reach p.json",
        "",
        "0 1 Ann start 1 of 2 all 2 of 2\n2 Bob start 1 of 2 all 2 of 2\n",
    ),
    (
        "generate p.json o --seed 0",
        "",
        "0 seed 0 try 0 spheres 1\n1 Ann: First -> Duo: Sword\n",
    ),
    (
        "file o",
        "",
        r#"{"format":"mw-multidata-2","games":{"G":{"item_name_to_id":{"Coin":2,"Sword":1},"location_name_to_id":{"First":1,"Second":2}}},"groups":[{"game":"G","members":[1,2],"name":"Duo"}],"locations":[[1,1,1,3,1],[1,2,2,1,0],[2,1,2,2,0],[2,2,2,2,0]],"seed_name":"0","server":{"collect":"disabled","hint_cost":10,"location_check_points":1,"password":"","release":"disabled","remaining":"goal"},"slots":[{"game":"G","names":["Ann"],"start":[]},{"game":"G","names":["Bob"],"start":[]}],"spheres":[[[1,0]]],"teams":1}"#,
    ),
    (
        "check p.json o",
        "",
        "0 ok spheres 1\n1 Ann: First -> Duo: Sword\n",
    ),
    ("check q.json o", "", "1 check failed: other links\n"),
    (
        "drive o",
        r#"open
connect 1 Ann 7
open
connect 2 Bob 7
take 1
take 2
mark
checks 1 [1]
take 1
take 2
text 1 [{"cmd":"StatusUpdate","status":30}]
text 2 [{"cmd":"StatusUpdate","status":30},{"cmd":"Get","keys":["_read_client_status_0_1","_read_client_status_0_2"]}]
take 2
"#,
        r#"mark
1 [{"checked_locations":[1],"cmd":"RoomUpdate","hint_points":1},{"cmd":"ReceivedItems","index":0,"items":[{"class":"NetworkItem","flags":1,"item":1,"location":1,"player":1}]}]
2 [{"cmd":"ReceivedItems","index":0,"items":[{"class":"NetworkItem","flags":1,"item":1,"location":1,"player":1}]}]
2 [{"cmd":"Retrieved","keys":{"_read_client_status_0_1":30,"_read_client_status_0_2":30}}]
"#,
    ),
];

#[test]
fn a_shared_sword(rt: HostRuntime) -> Result<(), Fail> {
    case_tells(&rt, rt.alloc(), &LINKED, "", &SHARED, "")
}

/// What `reach` tells of a link that a case spells.
const REACH: [Run<'static>; 1] = [("reach r.json", "", "3 refused: $1\n")];

/// Links that don't fit the worlds: the first of those whose members play several games comes before
/// any name.
const MISFITS: &str = r#"{"name":"Duo","members":[1,2],"items":["Shield"]} | LinkName 0 0
{"name":"Duo","members":[1,2],"items":["Sword","Shield"]} | LinkName 0 1
{"name":"Duo","members":[1,3],"items":[]} | LinkGame 0
{"name":"Duo","members":[1,2],"items":["Shield"]},{"name":"Trio","members":[1,2,3],"items":["Coin"]} | LinkGame 1
{"name":"Duo","members":[1,2],"items":["Sword"]},{"name":"Two","members":[1,2],"items":["Won"]} | LinkName 1 0"#;

#[test]
fn links_that_do_not_fit(rt: HostRuntime) -> Result<(), Fail> {
    cases_tell(&rt, rt.alloc(), &LINKED, "", &REACH, MISFITS)
}

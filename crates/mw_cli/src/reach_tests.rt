use crate::harness::{File, Run, case_tells, cases_tell};
use std::alloc::Global;
use std::sync::Wait;
use std::test::Fail;
use std::thread::Threads;

/// One player, Ann, whose world is `w.json`.
pub(crate) const ANN: &str =
    r#"{"format":"mw-players-1","players":[{"names":["Ann"],"world":"w.json"}]}"#;

/// Two players whose worlds are one file.
const BOTH: &str =
    r#"{"format":"mw-players-1","players":[{"names":["Ann"],"world":"w.json"},{"names":["Bob"],"world":"w.json","options":{"start_inventory":{"Sword":1}}}]}"#;

/// Two players whose worlds are two files.
const APART: &str =
    r#"{"format":"mw-players-1","players":[{"names":["Ann"],"world":"w.json"},{"names":["Bob"],"world":"v.json"}]}"#;

/// An option that names no item.
const SHIELD: &str =
    r#"{"format":"mw-players-1","players":[{"names":["Ann"],"world":"w.json","options":{"local_items":["Sword","Shield"]}}]}"#;

/// First is free, Second wants the Sword.
pub(crate) const ONE_SWORD: &str =
    r#"{"format":"mw-world-1","game":"G","regions":["Menu"],"items":[{"name":"Sword","id":1,"class":"progression"},{"name":"Coin","id":2,"class":"filler"}],"entrances":[],"locations":[{"name":"First","id":1,"region":"Menu","rule":true},{"name":"Second","id":2,"region":"Menu","rule":{"has":"Sword"}}],"pool":[{"item":"Sword","count":1}],"filler":"Coin","goal":{"has":"Sword"}}"#;

/// Second wants what is no progression item.
const COIN_RULE: &str =
    r#"{"format":"mw-world-1","game":"G","regions":["Menu"],"items":[{"name":"Sword","id":1,"class":"progression"},{"name":"Coin","id":2,"class":"filler"}],"entrances":[],"locations":[{"name":"First","id":1,"region":"Menu","rule":true},{"name":"Second","id":2,"region":"Menu","rule":{"has":"Coin"}}],"pool":[{"item":"Sword","count":1}],"filler":"Coin","goal":{"has":"Sword"}}"#;

/// The ways into A and B each want the other.
const CYCLE: &str =
    r#"{"format":"mw-world-1","game":"G","regions":["Menu","A","B"],"items":[{"name":"Coin","id":2,"class":"filler"}],"entrances":[{"name":"To A","from":"Menu","to":"A","rule":{"can_reach":{"region":"B"}}},{"name":"To B","from":"Menu","to":"B","rule":{"can_reach":{"region":"A"}}}],"locations":[{"name":"In A","id":1,"region":"A","rule":true},{"name":"In B","id":2,"region":"B","rule":true}],"pool":[],"filler":"Coin","goal":true}"#;

/// The ways are listed from the last to the first.
const LATE: &str =
    r#"{"format":"mw-world-1","game":"G","regions":["Menu","R1","R2","R3"],"items":[{"name":"Coin","id":2,"class":"filler"}],"entrances":[{"name":"Third","from":"R2","to":"R3","rule":true},{"name":"Second","from":"R1","to":"R2","rule":true},{"name":"First","from":"Menu","to":"R1","rule":true}],"locations":[{"name":"There","id":1,"region":"R3","rule":true}],"pool":[],"filler":"Coin","goal":true}"#;

/// An event lies behind the Sword, and opens another location.
const EVENT: &str =
    r#"{"format":"mw-world-1","game":"G","regions":["Menu"],"items":[{"name":"Sword","id":1,"class":"progression"},{"name":"Won","id":null,"class":"progression"},{"name":"Coin","id":2,"class":"filler"}],"entrances":[],"locations":[{"name":"First","id":1,"region":"Menu","rule":{"has":"Won"}},{"name":"Fight","id":null,"region":"Menu","rule":{"has":"Sword"},"event":"Won"}],"pool":[{"item":"Sword","count":1}],"filler":"Coin","goal":{"has":"Won"}}"#;

/// Fails where `reach p.json` of this players file and the world `w.json` tells another text.
fn reach_tells<'a, R: Threads + Wait + Sync>(
    rt: &R,
    alloc: Global,
    players: &'a str,
    world: &'a str,
    wanted: &str,
) -> Result<(), Fail> {
    let files = [
        ("p.json", players),
        ("w.json", world),
        ("v.json", ONE_SWORD),
    ];
    case_tells(
        rt,
        alloc,
        &files,
        "",
        &[("reach p.json", "", wanted)],
        wanted,
    )
}

/// The players file, the world file, and what is told.
const REACHED: [(&str, &str, &str); 9] = [
    // one_sword
    (ANN, ONE_SWORD, "0 1 Ann start 1 of 2 all 2 of 2\n"),
    // unreachable_cycle
    (ANN, CYCLE, "0 1 Ann start 0 of 2 all 0 of 2\n"),
    // late_listed_entrances
    (ANN, LATE, "0 1 Ann start 1 of 1 all 1 of 1\n"),
    (ANN, EVENT, "0 1 Ann start 0 of 2 all 2 of 2\n"),
    (
        BOTH,
        ONE_SWORD,
        "0 1 Ann start 1 of 2 all 2 of 2\n2 Bob start 2 of 2 all 2 of 2\n",
    ),
    // table_refusals
    (
        ANN,
        COIN_RULE,
        "3 refused: w.json RuleItemNotProgression /locations/1/rule/has\n",
    ),
    ("{}", ONE_SWORD, "3 refused: p.json MissingField /format\n"),
    (APART, ONE_SWORD, "3 refused: GameTwice 1\n"),
    (
        SHIELD,
        ONE_SWORD,
        "3 refused: UnknownName 1 local_items 1\n",
    ),
];

#[test]
fn what_reach_says(rt: HostRuntime) -> Result<(), Fail> {
    for (players, world, wanted) in &REACHED {
        reach_tells(&rt, rt.alloc(), players, world, wanted)?;
    }
    Ok(())
}

const FILES: [File<'static>; 3] = [
    ("p.json", ANN),
    ("w.json", ONE_SWORD),
    ("v.json", ONE_SWORD),
];

const FAILED: [Run<'static>; 1] = [("reach p.json", "", "5 device failed\n")];

/// What is told where the error sink fails too.
const FAILED_UNTOLD: [Run<'static>; 1] = [("reach p.json", "", "5 ")];

#[test]
fn reach_tells_of_faults(rt: HostRuntime) -> Result<(), Fail> {
    cases_tell(
        &rt,
        rt.alloc(),
        &FILES,
        "$0",
        &FAILED,
        "0 - - -\n1 - - -\n- - 0 -",
    )?;
    case_tells(&rt, rt.alloc(), &FILES, "- - 0 0", &FAILED_UNTOLD, "")
}

#[test]
fn a_world_file_over_its_limit(rt: HostRuntime) -> Result<(), Fail> {
    let world = " ".repeat(rt.alloc(), 16_777_217)?;
    let wanted = "3 refused: w.json TooLong /\n";
    reach_tells(&rt, rt.alloc(), ANN, world.as_str(), wanted)
}

//! Small random worlds, on which the fill is held against a plain one that makes each list anew.
use crate::joints::{joint_of, players_in, world_in};
use crate::plain_fill::{plain_seed, plain_try};
use mw_base::List;
use mw_cases::part;
use mw_fill::{FillError, GenerateError, Seed, Words, fill_try, generate};
use mw_multi::{Joint, Placement, Players, World};
use std::alloc::Global;
use std::test::Fail;

/// Names, and the alternatives that may stand for each between two `~`.
const GRAMMAR: &str = r#"players | ~ann~ | ~ann~,~bob~ | ~ann~,~bob~,~cy~
ann | {"names":["Ann"],"world":"1","options":{~options~}}
bob | {"names":["Bob"],"world":"2","options":{~options~}}
cy | {"names":["Cy"],"world":"3","options":{~options~}}
linked | "players":[~first one~,~second one~],"links":[~duo~] | "players":[~first one~,~second one~,~cy~],"links":[~duo~,~pair~] | "players":[~first one~,~second one~,~third one~],"links":[~trio~,~duo~]
first one | {"names":["Ann"],"world":"1","options":{~access~,~options~}}
second one | {"names":["Bob"],"world":"1","options":{~access~,~options~}}
third one | {"names":["Cy"],"world":"1","options":{~access~,~options~}}
access | "accessibility":"full" | "accessibility":"items" | "accessibility":"minimal" | "accessibility":"minimal"
duo | {"name":"Duo","members":[1,2],"items":[~shared~]}
pair | {"name":"Pair","members":[1,2],"items":[~shared~]}
trio | {"name":"Trio","members":[1,2,3],"items":[~shared~]}
shared |  | ~item~ | ~item~,~key~ | ~key~,~key~,~key~
options | ~items~,"exclude_locations":[~two~],"priority_locations":[~two~],"start_inventory":{~start~}
items | "local_items":[],"non_local_items":[] | "local_items":[~item~],"non_local_items":[] | "local_items":[~item~],"non_local_items":[~item~]
two |  | "L~low~" | "L~low~","L~high~"
start |  |  | ~item~:1
low | 0 | 1 | 2 | 3
high | 4 | 5 | 6 | 7
key | "Key 1" | "Key 2" | "Key 3" | "Key 4"
keys | ~key~ | "Key 1","Key 3" | "Key 2","Event 1" | "Key 1","Key 2","Key 4"
item | ~key~ | ~key~ | "Gem" | "Bomb"
region | "Menu" | "A" | "B" | "C" | "D"
tables | ~pool~,"locations":[~first~,~second~~third~,~events~],"entrances":[~ways~~more ways~],"goal":~rule~
pool | "pool":[~key pool~,{"item":"Gem","count":~gems~},{"item":"Bomb","count":1}] | "pool":[{"item":"Gem","count":1},{"item":"Bomb","count":1},~key pool~]
key pool | {"item":"Key 1","count":~count~},{"item":"Key 2","count":1},{"item":"Key 3","count":~count~} | {"item":"Key 4","count":1},{"item":"Key 2","count":~count~},{"item":"Key 1","count":1},{"item":"Key 3","count":1}
count | 1 | 1 | 2
gems | 1 | 2 | 4
first | {"name":"L0","id":1,~at~,{"name":"L1","id":2,~at~,{"name":"L2","id":3,~at~,{"name":"L3","id":4,~at~
second | {"name":"L4","id":5,~at~,{"name":"L5","id":6,~at~,{"name":"L6","id":7,~at~,{"name":"L7","id":8,~at~
third |  | ,{"name":"L8","id":9,~at~ | ,{"name":"L8","id":9,~at~,{"name":"L9","id":10,~at~,{"name":"L10","id":11,~at~
events | {"name":"End","id":null,"event":"Event 1",~in~ | {"name":"End","id":null,"event":"Event 1",~in~,{"name":"Dawn","id":null,"event":"Event 2",~in~
at | ~kind~~in~
in | "region":~region~,"rule":~rule~}
kind |  |  |  | "kind":"default", | "kind":"priority", | "kind":"excluded",
ways | {"name":"1","from":"Menu","to":"A","rule":~rule~},{"name":"2","from":~early~,"to":"B","rule":~rule~},{"name":"3","from":~early~,"to":"C","rule":~rule~},{"name":"4","from":"B","to":"D","rule":~rule~}
more ways |  | ,{"name":"5","from":~region~,"to":~region~,"rule":~rule~}
early | "Menu" | "A"
rule | true | true | true | ~simple~ | ~simple~ | {"~both~":[~simple~,~simple~]} | {"~both~":[{"or":[~simple~,~simple~]},~simple~]} | {"~both~":[]}
both | and | or
simple | true | {"has":~key~} | {"has":~key~,"count":~count~} | {"has":"Event 1"} | {"has_all":[~keys~]} | {"has_any":[~keys~]} | {"count":[~keys~],"at_least":~count~} | {"can_reach":{"region":~region~}} | {"can_reach":{"location":"L~low~"}}"#;

/// A world file but for its game, which the file's name stands for.
const WORLD: &str =
    r#"{"format":"mw-world-1","game":"Game #","regions":["Menu","A","B","C","D"],"items":[{"name":"Key 1","id":1,"class":"progression"},{"name":"Key 2","id":2,"class":"progression"},{"name":"Key 3","id":3,"class":"progression"},{"name":"Key 4","id":4,"class":"progression"},{"name":"Gem","id":5,"class":"useful"},{"name":"Coin","id":6,"class":"filler"},{"name":"Bomb","id":7,"class":"trap"},{"name":"Event 1","id":null,"class":"progression"},{"name":"Event 2","id":null,"class":"progression"}],"filler":"Coin",~tables~}"#;

/// A players file without links.
const PLAYERS: &str = r#"{"format":"mw-players-1","players":[~players~]}"#;

/// A players file with links and with what its players want of their worlds.
const LINKED: &str = r#"{"format":"mw-players-2",~linked~}"#;

/// Whether a line's first part is this name.
fn names(line: &str, name: &str) -> bool {
    match line.strip_prefix(name) {
        Some(rest) => rest.starts_with(" | "),
        None => false,
    }
}

/// One of a name's alternatives, by the next word.
fn chosen(words: &mut Words, name: &str) -> &'static str {
    for line in GRAMMAR.split('\n') {
        if names(line, name) {
            let count = line.split(" | ").count().saturating_sub(1).max(1);
            return part(line, words.next() as usize % count + 1);
        }
    }
    ""
}

/// A text with alternatives in place of its names.
fn spelled_once(alloc: Global, words: &mut Words, text: &str) -> Result<String, Fail> {
    let mut spelled = String::new(alloc);
    for (index, piece) in text.split('~').enumerate() {
        let piece = if index % 2 == 0 {
            piece
        } else {
            chosen(words, piece)
        };
        spelled.push_str(piece)?;
    }
    Ok(spelled)
}

/// A text in which no name is left.
fn spelled(alloc: Global, words: &mut Words, text: &str) -> Result<String, Fail> {
    let mut spelled = String::from_str(alloc, text)?;
    for _ in 0..10 {
        spelled = spelled_once(alloc, words, spelled.as_str())?;
    }
    Ok(spelled)
}

/// A random world of this file's name.
fn world_of(alloc: Global, words: &mut Words, file: &str) -> Result<World, Fail> {
    let text = WORLD.replace(alloc, "#", file)?;
    let text = spelled(alloc, words, text.as_str())?;
    world_in(alloc, text.as_str())
}

/// Random players of a file's text.
fn players_of(alloc: Global, words: &mut Words, file: &str) -> Result<Players, Fail> {
    let text = spelled(alloc, words, file)?;
    players_in(alloc, text.as_str())
}

/// Random worlds of the players' files.
fn worlds_of(alloc: Global, words: &mut Words, players: &Players) -> Result<List<World>, Fail> {
    let files = players.world_files(alloc)?;
    let mut worlds = List::new(alloc);
    for file in files.as_slice() {
        worlds.push(world_of(alloc, words, file.as_str())?)?;
    }
    Ok(worlds)
}

/// Whether two answers of the whole fill are the same.
fn is_same_seed(found: &Result<Seed, GenerateError>, plain: &Result<Seed, GenerateError>) -> bool {
    match (found, plain) {
        (Ok(found), Ok(plain)) => {
            found.stream == plain.stream && found.placement.as_slice() == plain.placement.as_slice()
        }
        (Err(found), Err(plain)) => found == plain,
        _ => false,
    }
}

/// Whether two answers of a try are the same.
fn is_same_try(found: &Result<Placement, FillError>, plain: &Result<Placement, FillError>) -> bool {
    match (found, plain) {
        (Ok(found), Ok(plain)) => found.as_slice() == plain.as_slice(),
        (Err(found), Err(plain)) => found == plain,
        _ => false,
    }
}

/// Whether the fill gives a seed; None where the plain one gives another, or another at its first try.
fn told(alloc: Global, joint: &Joint, seed: u64) -> Option<bool> {
    let found = generate(alloc, joint, seed, 5);
    let plain = plain_seed(alloc, joint, seed, 5);
    let found_first = fill_try(alloc, joint, seed, 0);
    let plain_first = plain_try(alloc, joint, seed, 0);
    if is_same_seed(&found, &plain) && is_same_try(&found_first, &plain_first) {
        Some(found.is_ok())
    } else {
        None
    }
}

/// The same for the worlds of a number, with players of a file's text.
fn told_of(alloc: Global, file: &str, number: u64) -> Result<Option<bool>, Fail> {
    let mut words = Words::new(number, 1);
    let players = players_of(alloc, &mut words, file)?;
    let worlds = worlds_of(alloc, &mut words, &players)?;
    let joint = joint_of(alloc, &worlds, &players)?;
    Ok(told(alloc, &joint, number))
}

/// How many of a hundred random worlds give a seed; the number of the first one on which the two differ.
fn seeds_of(alloc: Global, file: &str) -> Result<u64, Fail> {
    let mut seeds = 0u64;
    for number in 0..100 {
        match told_of(alloc, file, number)? {
            Some(true) => seeds = seeds.saturating_add(1),
            Some(false) => {}
            None => return Err(Fail::new(number)),
        }
    }
    Ok(seeds)
}

#[test]
fn random_worlds_are_filled_as_by_a_plain_fill(rt: HostRuntime) -> Result<(), Fail> {
    assert!(rt; seeds_of(rt.alloc(), PLAYERS)? > 30);
    Ok(())
}

#[test]
fn random_worlds_with_links_are_filled_as_by_a_plain_fill(rt: HostRuntime) -> Result<(), Fail> {
    assert!(rt; seeds_of(rt.alloc(), LINKED)? > 10);
    Ok(())
}

use crate::harness::{Run, add_file, faults, filled, runs_tell};
use mw_base::{Bytes, List, Text};
use mw_edges::MemoryFolder;
use std::alloc::Global;
use std::sync::Wait;
use std::test::Fail;
use std::thread::Threads;

/// How worlds are written that differ by their games and by how long two lists are.
pub(crate) struct Form<'a> {
    /// The text of a world, where `$0` stands for its game, `$1` and `$2` for the lists, and `$3`
    /// for what stands before the digits of names.
    pub(crate) text: &'a str,
    /// The lists' elements, where `#` stands for a number, and the first number.
    pub(crate) lists: [(&'a str, u64); 2],
    /// What stands before the digits of names.
    pub(crate) pad: &'a str,
}

/// A world: its file's name, its game, and the numbers that follow the last ones of its lists.
pub(crate) type World<'a> = (&'a str, &'a str, u64, u64);

/// The elements of a list, whose text has `#` for a number, from its first number on up to the one
/// before this.
pub(crate) fn numbered(alloc: Global, list: &(&str, u64), end: u64) -> Result<String, Fail> {
    let mut text = String::new(alloc);
    for number in list.1..end {
        let digits = format!(in alloc; "{number}")?;
        text.push_str(list.0.replace(alloc, "#", digits.as_str())?.as_str())?;
    }
    Ok(text)
}

/// Adds the file of a world.
fn add_world(
    alloc: Global,
    files: &mut List<(Text, Bytes)>,
    form: &Form<'_>,
    world: &World<'_>,
) -> Result<(), Fail> {
    let first = numbered(alloc, &form.lists[0], world.2)?;
    let second = numbered(alloc, &form.lists[1], world.3)?;
    let (game, first, second, pad) = (world.1, first.as_str(), second.as_str(), form.pad);
    let case = format!(in alloc; "{game} | {first} | {second} | {pad}")?;
    let text = filled(alloc, form.text, " | ", case.as_str())?;
    add_file(alloc, files, world.0, text.as_bytes())
}

/// A folder with a players file, `p`, and these worlds.
pub(crate) fn folder_with(
    alloc: Global,
    players: &str,
    form: &Form<'_>,
    worlds: &[World<'_>],
) -> Result<MemoryFolder, Fail> {
    let mut files = List::new(alloc);
    add_file(alloc, &mut files, "p", players.as_bytes())?;
    for world in worlds {
        add_world(alloc, &mut files, form, world)?;
    }
    Ok(MemoryFolder::new(files, faults(alloc, "", 0)?))
}

/// Fails where runs on a players file and these worlds tell otherwise.
fn worlds_tell<R: Threads + Wait + Sync>(
    rt: &R,
    alloc: Global,
    players: &str,
    form: &Form<'_>,
    worlds: &[World<'_>],
    runs: &[Run<'_>],
) -> Result<(), Fail> {
    let mut folder = folder_with(alloc, players, form, worlds)?;
    runs_tell(rt, alloc, &mut folder, "", runs, "")
}

/// A world with Menu, a list of further regions, a free location, and a list of further ones.
const WIDE: &str =
    r#"{"format":"mw-world-1","game":"$0","regions":["Menu"$1],"items":[{"name":"Coin","id":1,"class":"filler"}],"entrances":[],"locations":[{"name":"$310000000","id":10000000,"region":"Menu","rule":true}$2],"pool":[],"filler":"Coin","goal":true}"#;

const REGION: &str = r#","$3#""#;

const LOCATION: &str = r#",{"name":"$3#","id":#,"region":"Menu","rule":true}"#;

/// Thirteen players of the world `a`, and one of the world `b`.
const FOURTEEN: &str =
    r#"{"format":"mw-players-1","players":[{"names":["P0"],"world":"a"},{"names":["P1"],"world":"a"},{"names":["P2"],"world":"a"},{"names":["P3"],"world":"a"},{"names":["P4"],"world":"a"},{"names":["P5"],"world":"a"},{"names":["P6"],"world":"a"},{"names":["P7"],"world":"a"},{"names":["P8"],"world":"a"},{"names":["P9"],"world":"a"},{"names":["P10"],"world":"a"},{"names":["P11"],"world":"a"},{"names":["P12"],"world":"a"},{"names":["P13"],"world":"b"}]}"#;

/// Names of eight digits.
const SHORT: Form<'static> = Form {
    text: WIDE,
    lists: [(REGION, 10_000_000), (LOCATION, 10_000_001)],
    pad: "",
};

/// The world `a` with 15,000 places, and `b` with as many as there may be beside those.
const MOST_PLACES: [World<'static>; 2] = [
    ("a", "a", 10_004_999, 10_010_000),
    ("b", "b", 10_000_000, 10_004_999),
];

/// The same, where `b` has one location more.
const MORE_PLACES: [World<'static>; 2] = [
    ("a", "a", 10_004_999, 10_010_000),
    ("b", "b", 10_000_000, 10_005_000),
];

/// How it begins that is told where all is read.
const READ: [Run<'static>; 1] = [("reach p", "", "0 1 P0 start 10000 of 10000 all..")];

const TOO_MANY: [Run<'static>; 1] = [("reach p", "", "3 refused: TooManyPlaces 200001\n")];

#[test]
fn places_over_all_are_limited(rt: HostRuntime) -> Result<(), Fail> {
    worlds_tell(&rt, rt.alloc(), FOURTEEN, &SHORT, &MOST_PLACES, &READ)?;
    worlds_tell(&rt, rt.alloc(), FOURTEEN, &SHORT, &MORE_PLACES, &TOO_MANY)
}

/// Seven players, each of a world of its own, and one of the world `h`.
const EIGHT: &str =
    r#"{"format":"mw-players-1","players":[{"names":["P0"],"world":"0"},{"names":["P1"],"world":"1"},{"names":["P2"],"world":"2"},{"names":["P3"],"world":"3"},{"names":["P4"],"world":"4"},{"names":["P5"],"world":"5"},{"names":["P6"],"world":"6"},{"names":["P7"],"world":"h"}]}"#;

/// Names of 128 characters.
const LONG: Form<'static> = Form {
    text: WIDE,
    lists: [(REGION, 10_000_000), (LOCATION, 10_000_001)],
    pad: "xxxxxxxxxxxxxxxxxxxxxxxxxxxxxxxxxxxxxxxxxxxxxxxxxxxxxxxxxxxxxxxxxxxxxxxxxxxxxxxxxxxxxxxxxxxxxxxxxxxxxxxxxxxxxxxxxxxxxxxx",
};

/// Seven worlds with 14,999 such names, and the world `h` with 5,379, whose game's name has 25
/// characters.
const MOST_TEXT: [World<'static>; 8] = [
    ("0", "0", 10_004_999, 10_010_000),
    ("1", "1", 10_004_999, 10_010_000),
    ("2", "2", 10_004_999, 10_010_000),
    ("3", "3", 10_004_999, 10_010_000),
    ("4", "4", 10_004_999, 10_010_000),
    ("5", "5", 10_004_999, 10_010_000),
    ("6", "6", 10_004_999, 10_010_000),
    ("h", "xxxxxxxxxxxxxxxxxxxxxxxxx", 10_000_000, 10_005_379),
];

/// The same, where that name has one character more.
const MORE_TEXT: [World<'static>; 8] = [
    ("0", "0", 10_004_999, 10_010_000),
    ("1", "1", 10_004_999, 10_010_000),
    ("2", "2", 10_004_999, 10_010_000),
    ("3", "3", 10_004_999, 10_010_000),
    ("4", "4", 10_004_999, 10_010_000),
    ("5", "5", 10_004_999, 10_010_000),
    ("6", "6", 10_004_999, 10_010_000),
    ("h", "xxxxxxxxxxxxxxxxxxxxxxxxxx", 10_000_000, 10_005_379),
];

const TOO_MUCH: [Run<'static>; 1] = [("reach p", "", "3 refused: TooMuchText 16777217\n")];

/// The names of a world's game, Menu and Coin count too: 24 for each, and their bytes.
#[test]
fn names_over_all_are_limited(rt: HostRuntime) -> Result<(), Fail> {
    worlds_tell(&rt, rt.alloc(), EIGHT, &LONG, &MOST_TEXT, &READ)?;
    worlds_tell(&rt, rt.alloc(), EIGHT, &LONG, &MORE_TEXT, &TOO_MUCH)
}

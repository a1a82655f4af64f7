use crate::cases::{Theme, each};
use crate::logs::tables_of;
use mw_base::{Memory, Text};
use mw_cases::part;
use mw_datapack::{checksum, game_data};
use mw_json::compact_text;
use mw_multidata::RoomTables;
use std::alloc::Global;
use std::test::Fail;

const SEED: &str =
    r#"{"format":"mw-multidata-1","games":{"F":{"item_name_to_id":{},"location_name_to_id":{}},"G":{"item_name_to_id":{"Boots":5,"Coin":8,"Map":9,"Sword":7},"location_name_to_id":{"A1":101,"A2":102,"B1":201}}},"locations":[[1,101,7,2,1],[1,102,8,1,0],[2,201,9,1,2]],"seed_name":"A","server":{"collect":"goal","hint_cost":10,"location_check_points":1,"password":"","release":"goal","remaining":"goal"},"slots":[{"game":"G","names":["Ann"],"start":[[5,0]]},{"game":"G","names":["Bob"],"start":[]}],"spheres":[],"teams":1}"#;

/// The seed's games.
struct Games;

impl Theme for Games {
    /// What a case `KIND | GAME | TEXT` asks for: a game's checksum, or what it is told with.
    fn answer(alloc: Global, case: &str) -> Result<Text, Fail> {
        let tables = tables_of(alloc, SEED)?;
        let game = Text::of(alloc, part(case, 1))?;
        Ok(told(alloc, part(case, 0), &tables, &game)?)
    }
}

/// The checksum of a game, or what it is told with; nothing where it isn't played.
fn told(alloc: Global, kind: &str, tables: &RoomTables, game: &Text) -> Result<Text, Memory> {
    if kind == "checksum" {
        let found = checksum(alloc, tables, game)?;
        return or_nothing(alloc, found);
    }
    match game_data(alloc, tables, game)? {
        Some(data) => compact_text(alloc, &data),
        None => or_nothing(alloc, None),
    }
}

/// A text, if there is one.
fn or_nothing(alloc: Global, text: Option<Text>) -> Result<Text, Memory> {
    match text {
        Some(text) => Ok(text),
        None => Text::of(alloc, "nothing"),
    }
}

#[test]
fn a_played_game_has_a_checksum(rt: HostRuntime) -> Result<(), Fail> {
    each::<Games>(
        rt.alloc(),
        "checksum | G | 3140df20051ca1c7a5dd4f886f8945c613c6fbba",
    )
}

/// What the game is told with.
const NAMES: &str =
    r#"data | G | {"checksum":"3140df20051ca1c7a5dd4f886f8945c613c6fbba","item_name_to_id":{"Boots":5,"Coin":8,"Map":9,"Sword":7},"location_name_to_id":{"A1":101,"A2":102,"B1":201}}"#;

#[test]
fn a_played_game_has_its_names(rt: HostRuntime) -> Result<(), Fail> {
    each::<Games>(rt.alloc(), NAMES)
}

/// A game that isn't played, another spelling of the one that is, and no name have nothing.
const OTHERS: &str = "checksum | F | nothing
checksum | g | nothing
checksum |  | nothing
data | F | nothing
data | g | nothing
data |  | nothing";

#[test]
fn other_games_have_nothing(rt: HostRuntime) -> Result<(), Fail> {
    each::<Games>(rt.alloc(), OTHERS)
}

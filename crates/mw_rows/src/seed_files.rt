use crate::cases::{changed, each, is_answer};
use mw_cases::{ROOM_A, ROOM_OF_DUO};
use mw_multidata::{RoomTables, read, write};
use std::alloc::Global;
use std::test::Fail;

/// Changes of the room, and what the file is answered then.
const CASES: &str = r#""teams":1} => "teams":1 => NoJson /
"format":"mw-multidata-1" => "format":"mw-multidata-2" => MissingField /groups
"format":"mw-multidata-1" => "format":"mw-multidata-3" => OtherFormat /format
"format": => "formal": => MissingField /format
"teams":1} => "teams":1.0} => NotWhole /teams
"spheres":[] => "spheres":[[]] => WrongKind /spheres/0
"Map":9 => "Map":9,"Zed":9007199254740991 => accepted
"Map":9 => "Map":8 => DuplicateId /games/G/item_name_to_id/Map
"Bob" => "Ann" => DuplicateName /slots/1/names/0
"Bob" => "Bob45678901234567" => NameTooLong /slots/1/names/0
[2,201,9,1,2] => [2,201,6,3,2] => UnknownName /locations/2/3
[2,201,9,1,2] => [1,102,9,1,2] => WrongOrder /locations/2"#;

/// Changes of the room with a group, and of a game that nobody plays.
const GROUP_CASES: &str = r#""members":[1,2] => "members":[2,1] => WrongOrder /groups/0/members/1
"members":[1,2] => "members":[1,1] => WrongOrder /groups/0/members/1
"members":[1,2] => "members":[1,3] => UnknownName /groups/0/members/1
"members":[1,2] => "members":[3,1] => UnknownName /groups/0/members/0
"members":[1,2] => "members":[2,1024] => UnknownName /groups/0/members/1
"members":[1,2] => "members":[1] => WrongKind /groups/0/members
"members":[1,2] => "members":[] => WrongKind /groups/0/members
"members":[1,2] => "members":[0,2] => WrongKind /groups/0/members/0
"members":[1,2] => "members":[1,1025] => WrongKind /groups/0/members/1
"members":[1,2] => "members":[1,2.0] => NotWhole /groups/0/members/1
"members":[1,2], =>  => MissingField /groups/0/members
{"game":"G","names":["Bob"] => {"game":"H","names":["Bob"] => UnknownName /groups/0/members/1
"game":"G","members" => "game":"H","members" => UnknownName /groups/0/members/0
"game":"G","members" => "game":"I","members" => UnknownName /groups/0/game
"name":"Duo" => "name":"Bob" => DuplicateName /groups/0/name
"name":"Duo" => "name":"Duo4567890123456" => accepted
"name":"Duo" => "name":"Duo45678901234567" => NameTooLong /groups/0/name
"name":"Duo" => "name":"" => WrongKind /groups/0/name
"name":"Duo"}] => "name":"Duo"},{"game":"G","members":[1,2],"name":"Two"}] => accepted
"name":"Duo"}] => "name":"Duo"},{"game":"G","members":[1,2],"name":"Duo"}] => DuplicateName /groups/1/name
"groups":[ => "group":[ => MissingField /groups
[1,102,8,3,0] => [1,102,8,4,0] => UnknownName /locations/1/3
[1,102,8,3,0] => [1,102,6,3,0] => UnknownName /locations/1/2
"format":"mw-multidata-2" => "format":"mw-multidata-1" => UnknownName /locations/1/3
"format":"mw-multidata-2" => "format":"mw-multidata-3" => OtherFormat /format"#;

/// Groups to the limit of 1,024 with the slots, and one more.
const GROUP_LIMIT_CASES: &str =
    r#"{"game":"G","members":[1,2],"name":"Duo"} =>  | {"game":"G","members":[1,2],"name":"Duo"}, | 1021 |  | {"game":"G","members":[1,2],"name":"Duo"} => DuplicateName /groups/1/name
{"game":"G","members":[1,2],"name":"Duo"} =>  | {"game":"G","members":[1,2],"name":"Duo"}, | 1022 |  | {"game":"G","members":[1,2],"name":"Duo"} => TooMany /groups"#;

/// Changes that repeat a unit, at the edge of a limit.
const LIMIT_CASES: &str = r#"[5,0] =>  | [5,0], | 255 |  | [5,0] => accepted
[5,0] =>  | [5,0], | 256 |  | [5,0] => TooMany /slots/0/start"#;

/// Whether a case of the room is so.
fn is_case(alloc: Global, line: &str) -> Result<bool, Fail> {
    let text = changed(alloc, ROOM_A, line)?;
    Ok(is_answer(alloc, read(alloc, text.as_bytes()).err(), line)?)
}

/// Whether a case of the room with a group is so.
fn is_group_case(alloc: Global, line: &str) -> Result<bool, Fail> {
    let room = ROOM_OF_DUO.replace(
        alloc,
        r#"}}},"groups":"#,
        r#"}},"H":{"item_name_to_id":{},"location_name_to_id":{}}},"groups":"#,
    )?;
    let text = changed(alloc, room.as_str(), line)?;
    Ok(is_answer(alloc, read(alloc, text.as_bytes()).err(), line)?)
}

/// Whether a seed file is read, and written as this text.
fn is_written_as(alloc: Global, file: &str, text: &str) -> Result<bool, Fail> {
    let Ok(seed) = read(alloc, file.as_bytes()) else {
        return Ok(false);
    };
    let tables = RoomTables::of(alloc, seed)?;
    Ok(write(alloc, tables.multidata())?.as_slice() == text.as_bytes())
}

#[test]
fn a_room_is_read_and_written(rt: HostRuntime) -> Result<(), Fail> {
    assert!(rt; is_written_as(rt.alloc(), ROOM_A, ROOM_A)?);
    assert!(rt; is_written_as(rt.alloc(), ROOM_OF_DUO, ROOM_OF_DUO)?);
    Ok(())
}

/// What is written of a file with no group says so by its form.
#[test]
fn no_groups_are_written_in_the_first_form(rt: HostRuntime) -> Result<(), Fail> {
    let empty = ROOM_A.replace(rt.alloc(), "mw-multidata-1", "mw-multidata-2")?;
    let empty = empty.replace(
        rt.alloc(),
        r#""locations":[["#,
        r#""groups":[],"locations":[["#,
    )?;
    assert!(rt; is_written_as(rt.alloc(), empty.as_str(), ROOM_A)?);
    let ignored = empty.replace(rt.alloc(), "mw-multidata-2", "mw-multidata-1")?;
    let ignored = ignored.replace(rt.alloc(), r#""groups":[]"#, r#""groups":7"#)?;
    assert!(rt; is_written_as(rt.alloc(), ignored.as_str(), ROOM_A)?);
    Ok(())
}

#[test]
fn each_refusal_of_a_group_has_its_place(rt: HostRuntime) -> Result<(), Fail> {
    each(rt.alloc(), GROUP_CASES, is_group_case)?;
    each(rt.alloc(), GROUP_LIMIT_CASES, is_group_case)
}

#[test]
fn each_refusal_has_its_place(rt: HostRuntime) -> Result<(), Fail> {
    each(rt.alloc(), CASES, is_case)
}

#[test]
fn limits_hold_at_their_edge(rt: HostRuntime) -> Result<(), Fail> {
    each(rt.alloc(), LIMIT_CASES, is_case)
}

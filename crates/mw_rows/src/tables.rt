use crate::cases::{changed, each, is_answer};
use mw_base::{List, LocId, Permission, RoomOptions, Text};
use mw_multi::{Access, ItemLink, LocKind, Location, Options, Player, Players, World};
use mw_rules::Rule;
use mw_tables::{read_players, read_world};
use std::alloc::Global;
use std::test::Fail;

const WORLD: &str =
    r#"{"format":"mw-world-1","game":"G","regions":["Menu","Cave"],"items":[{"name":"Sword","id":1,"class":"progression"},{"name":"Coin","id":2,"class":"filler"},{"name":"Win","id":null,"class":"progression"}],"entrances":[{"name":"Down","from":"Menu","to":"Cave","rule":{"has":"Sword","count":2}}],"locations":[{"name":"First","id":1,"region":"Menu","rule":true},{"name":"Second","id":2,"region":"Cave","kind":"priority","rule":{"has":"Sword"}},{"name":"End","id":null,"region":"Cave","rule":{"and":[{"can_reach":{"location":"First"}},{"count":["Sword","Win"],"at_least":2}]},"event":"Win"}],"pool":[{"item":"Sword","count":3}],"filler":"Coin","goal":{"has_any":["Win"]}}"#;

const PLAYERS: &str =
    r#"{"format":"mw-players-1","teams":2,"room":{"password":"pw","hint_cost":5,"location_check_points":2,"release":"goal","collect":"enabled","remaining":"disabled"},"players":[{"names":["Ann","Ada"],"world":"w.json","options":{"local_items":["Sword","Sword"],"start_inventory":{"Coin":2,"Sword":1}}},{"names":["Bob","Bea"],"world":"v.json"}]}"#;

/// Two players of a game with a link, one of whom wants to reach all of its world.
const LINKED: &str =
    r#"{"format":"mw-players-2","players":[{"names":["Ann"],"world":"w.json"},{"names":["Bob"],"world":"w.json","options":{"accessibility":"full"}}],"links":[{"name":"Duo","members":[1,2],"items":["Sword","Sword"]}]}"#;

/// Changes of these players, and what the file is answered then.
const LINK_CASES: &str = r#"mw-players-2 => mw-players-3 => OtherFormat /format
mw-players-2 => mw-players-1 => accepted
"full" => "items" => accepted
"full" => "minimal" => accepted
"full" => "all" => WrongKind /players/1/options/accessibility
"full" => 1 => WrongKind /players/1/options/accessibility
"full" => 1.5 => NotWhole /players/1/options/accessibility
"links":[ => "link":[ => accepted
"links":[ => "links":7,"no":[ => WrongKind /links
"links":[ => "links":[],"no":[ => accepted
"name":"Duo" => "name":"" => WrongKind /links/0/name
"name":"Duo" => "name":"Duo4567890123456" => accepted
"name":"Duo" => "name":"Duo45678901234567" => NameTooLong /links/0/name
"name":"Duo" => "name":"Bob" => DuplicateName /links/0/name
"name":"Duo", =>  => MissingField /links/0/name
"items":["Sword","Sword"]} => "items":[]},{"name":"Duo","members":[1,2],"items":[]} => DuplicateName /links/1/name
"items":["Sword","Sword"]} => "items":[]},{"name":"Two","members":[1,2],"items":[]} => accepted
"members":[1,2] => "members":[2,1] => WrongOrder /links/0/members/1
"members":[1,2] => "members":[1,1] => WrongOrder /links/0/members/1
"members":[1,2] => "members":[1,3] => UnknownName /links/0/members/1
"members":[1,2] => "members":[3,1] => UnknownName /links/0/members/0
"members":[1,2] => "members":[2,1024] => UnknownName /links/0/members/1
"members":[1,2] => "members":[1] => WrongKind /links/0/members
"members":[1,2] => "members":[] => WrongKind /links/0/members
"members":[1,2] => "members":[0,2] => WrongKind /links/0/members/0
"members":[1,2] => "members":[1,1025] => WrongKind /links/0/members/1
"members":[1,2] => "members":[1,2.0] => NotWhole /links/0/members/1
"members":[1,2], =>  => MissingField /links/0/members
["Sword","Sword"] => ["Sword",""] => WrongKind /links/0/items/1
["Sword","Sword"] => 7 => WrongKind /links/0/items
,"items":["Sword","Sword"] =>  => MissingField /links/0/items"#;

/// Links to the limit of 1,024 with the slots, and one more.
const LINK_LIMIT_CASES: &str =
    r#"{"name":"Duo","members":[1,2],"items":["Sword","Sword"]} =>  | {"name":"Duo","members":[1,2],"items":[]}, | 1021 |  | {"name":"Duo","members":[1,2],"items":[]} => DuplicateName /links/1/name
{"name":"Duo","members":[1,2],"items":["Sword","Sword"]} =>  | {"name":"Duo","members":[1,2],"items":[]}, | 1022 |  | {"name":"Duo","members":[1,2],"items":[]} => TooMany /links"#;

/// Changes of the world, and what the file is answered then.
const WORLD_CASES: &str = r#"["Win"]}} => ["Win"]} => NoJson /
mw-world-1 => mw-world-2 => OtherFormat /format
"format":"mw-world-1", =>  => MissingField /format
"game":"G" => "game":"" => WrongKind /game
"game":"G" => "game":1.5 => NotWhole /game
"game":"G" => "game":"G","origin":"Cave" => accepted
"game":"G" => "game":"G","origin":"No" => UnknownName /origin
["Menu","Cave"] => ["Hall","Cave"] => UnknownName /origin
["Menu","Cave"] => ["Menu","Menu"] => DuplicateName /regions/1
"name":"Coin" => "name":"Sword" => DuplicateName /items/1/name
"id":2,"class" => "id":1,"class" => DuplicateId /items/1/id
"id":2,"class" => "id":0,"class" => WrongKind /items/1/id
"id":null,"class":"progression" => "id":null,"class":"useful" => WrongKind /items/2/class
"class":"filler" => "class":"other" => WrongKind /items/1/class
"class":"filler" => "class":"trap" => UnknownName /filler
"filler":"Coin" => "filler":"Sword" => UnknownName /filler
"from":"Menu" => "from":"No" => UnknownName /entrances/0/from
"to":"Cave", =>  => MissingField /entrances/0/to
"count":2}}] => "count":0}}] => WrongKind /entrances/0/rule/count"#;

/// Changes of its locations and rules.
const RULE_CASES: &str =
    r#""name":"Second","id":2 => "name":"First","id":2 => DuplicateName /locations/1/name
"name":"Second","id":2 => "name":"Second","id":1 => DuplicateId /locations/1/id
"region":"Menu" => "region":"No" => UnknownName /locations/0/region
"kind":"priority" => "kind":"first" => WrongKind /locations/1/kind
"rule":{"has":"Sword"}} => "rule":{"has":"Coin"}} => RuleItemNotProgression /locations/1/rule/has
"rule":{"has":"Sword"}} => "rule":{"has":"Sword"},"event":true} => WrongKind /locations/1/event
"rule":{"has":"Sword"}} => "rule":{"has":"Sword"},"event":0.5} => NotWhole /locations/1/event
,"event":"Win" =>  => MissingField /locations/2/event
"event":"Win" => "event":"Sword" => UnknownName /locations/2/event
"location":"First" => "location":"Menu" => UnknownName /locations/2/rule/and/0/can_reach/location
"location":"First" => "region":"Menu","location":0 => accepted
{"location":"First"} => {} => WrongKind /locations/2/rule/and/0/can_reach
["Sword","Win"] => ["Sword","Sword"] => DuplicateName /locations/2/rule/and/1/count/1
,"at_least":2 =>  => WrongKind /locations/2/rule/and/1
"count":3 => "count":10001 => WrongKind /pool/0/count
"item":"Sword" => "item":"Win" => UnknownName /pool/0/item
"item":"Sword","count":3} => "item":"Sword","count":10000} => accepted
"item":"Sword","count":3} => "item":"Sword","count":10000},{"item":"Coin","count":1} => TooMany /pool
{"has_any":["Win"]} => {"or":[false,7]} => WrongKind /goal/or/1
{"has_any":["Win"]} => {"has":"Win","has_all":7} => accepted
{"has_any":["Win"]} => {"has_all":["No"]} => UnknownName /goal/has_all/0
{"has_any":["Win"]} => {"or":[{"has_all":[]},{"and":[]}]} => accepted"#;

/// Changes of the world that repeat a unit, at the edges of the limits.
const LIMIT_CASES: &str = r#""game":"G" => "game":" | x | 128 |  | " => accepted
"game":"G" => "game":" | x | 129 |  | " => NameTooLong /game
["Win"] => [ | "Win", | 63 |  | "Win"] => DuplicateName /goal/has_any/1
["Win"] => [ | "Win", | 64 |  | "Win"] => TooMany /goal/has_any
{"has_any":["Win"]} => {"and":[ | true, | 62 |  | true]} => accepted
{"has_any":["Win"]} => {"and":[ | true, | 63 |  | true]} => RuleTooLarge /goal
{"has_any":["Win"]} =>  | {"or":[ | 16 | ]} |  => accepted
{"has_any":["Win"]} =>  | {"or":[ | 17 | ]} |  => RuleTooLarge /goal
["Menu","Cave"] => [ | 0, | 4999 |  | 0] => WrongKind /regions/0
["Menu","Cave"] => [ | 0, | 5000 |  | 0] => TooMany /regions
"game":"G" => "game": | [ | 63 | ] |  => WrongKind /game
"game":"G" => "game": | [ | 64 | ] |  => TooDeep /"#;

/// Changes of the players, and what the file is answered then.
const PLAYERS_CASES: &str = r#"v.json"}]} => v.json"}] => NoJson /
mw-players-1 => mw-world-1 => OtherFormat /format
"teams":2 => "teams":9 => WrongKind /teams
"teams":2, =>  => WrongKind /players/0/names
"room":{ => "other":{ => accepted
"hint_cost":5 => "hint_cost":1001 => WrongKind /room/hint_cost
"remaining":"disabled" => "remaining":"auto" => WrongKind /room/remaining
"password":"pw", =>  => accepted
"Ann","Ada" => "Ann" => WrongKind /players/0/names
"Bea" => "Ann" => DuplicateName /players/1/names/1
"Bea" => "Bea4567890123456" => accepted
"Bea" => "Bea45678901234567" => NameTooLong /players/1/names/1
,"world":"v.json" =>  => MissingField /players/1/world
["Sword","Sword"] => ["Sword",""] => WrongKind /players/0/options/local_items/1
"Coin":2 => "Coin":255 => accepted
"Coin":2 => "Coin":256 => TooMany /players/0/options/start_inventory
"Coin":2 => "Coin":257 => WrongKind /players/0/options/start_inventory/Coin
"Coin":2 => "":2 => WrongKind /players/0/options/start_inventory/
"players":[ => "players":[],"no":[ => WrongKind /players
"Bob" => "Ann" => DuplicateName /players/1/names/0"#;

/// Whether a world has its entrance alone.
fn has_entrance(world: &World) -> bool {
    let [down] = world.entrances.as_slice() else {
        return false;
    };
    down.name.as_str() == "Down"
        && down.from == 0
        && down.to == 1
        && matches!(down.rule, Rule::Has { item: 0, count: 2 })
}

/// Whether its pool has one entry, its goal takes its event, and its filler is its second item.
fn has_pool_and_goal(world: &World) -> bool {
    let [swords] = world.pool.as_slice() else {
        return false;
    };
    let Rule::HasAny(items) = &world.goal else {
        return false;
    };
    swords.item == 0 && swords.count == 3 && items.as_slice() == [2].as_slice() && world.filler == 1
}

/// Whether a location has these parts; its rule is left.
fn is_location(
    location: &Location,
    name: &str,
    id: Option<LocId>,
    region: u32,
    kind: LocKind,
    event: Option<u32>,
) -> bool {
    location.name.as_str() == name
        && location.id == id
        && location.region == region
        && location.kind == kind
        && location.event == event
}

/// Whether a rule takes a place, and so many of two items.
fn is_end_rule(rule: &Rule) -> bool {
    let Rule::And(rules) = rule else {
        return false;
    };
    match rules.as_slice() {
        [
            Rule::CanReach { place: 2 },
            Rule::Count { items, at_least: 2 },
        ] => { items.as_slice() == [0, 2].as_slice() }
        _ => false,
    }
}

/// Whether a world has its three locations.
fn has_locations(world: &World) -> bool {
    let [first, second, end] = world.locations.as_slice() else {
        return false;
    };
    is_location(first, "First", LocId::new(1), 0, LocKind::Default, None)
        && matches!(first.rule, Rule::Always)
        && is_location(second, "Second", LocId::new(2), 1, LocKind::Priority, None)
        && matches!(second.rule, Rule::Has { item: 0, count: 1 })
        && is_location(end, "End", None, 1, LocKind::Default, Some(2))
        && is_end_rule(&end.rule)
}

/// Whether a world is that of the file.
fn is_world_read(world: &World) -> bool {
    has_entrance(world) && has_pool_and_goal(world) && has_locations(world)
}

#[test]
fn a_world_is_read(rt: HostRuntime) {
    let Ok(world) = read_world(rt.alloc(), WORLD.as_bytes()) else {
        panic!(rt; "refused")
    };
    assert!(rt; is_world_read(&world));
}

/// Whether a case of the world is so.
fn is_world_case(alloc: Global, line: &str) -> Result<bool, Fail> {
    let text = changed(alloc, WORLD, line)?;
    Ok(is_answer(alloc, read_world(alloc, text.as_bytes()).err(), line)?)
}

#[test]
fn each_refusal_of_a_world_has_its_place(rt: HostRuntime) -> Result<(), Fail> {
    each(rt.alloc(), WORLD_CASES, is_world_case)
}

#[test]
fn each_refusal_of_locations_and_rules_has_its_place(rt: HostRuntime) -> Result<(), Fail> {
    each(rt.alloc(), RULE_CASES, is_world_case)
}

#[test]
fn limits_of_a_world_hold_at_their_edge(rt: HostRuntime) -> Result<(), Fail> {
    each(rt.alloc(), LIMIT_CASES, is_world_case)
}

/// Whether texts are these two.
fn are_two(texts: &List<Text>, first: &str, second: &str) -> bool {
    match texts.as_slice() {
        [one, other] => one.as_str() == first && other.as_str() == second,
        _ => false,
    }
}

/// Whether a room has its settings.
fn is_room(room: &RoomOptions) -> bool {
    room.password.as_str() == "pw"
        && room.hint_cost == 5
        && room.location_check_points == 2
        && room.release == Permission::Goal
        && room.collect == Permission::Enabled
        && room.remaining == Permission::Disabled
}

/// Whether a player starts with two coins and a sword.
fn has_start(options: &Options) -> bool {
    match options.start_inventory.as_slice() {
        [coins, sword] => {
            coins.name.as_str() == "Coin"
                && coins.count == 2
                && sword.name.as_str() == "Sword"
                && sword.count == 1
        }
        _ => false,
    }
}

/// Whether a player keeps no items out of its world, and no locations are excluded or come first.
fn has_no_others(options: &Options) -> bool {
    options.non_local_items.len() == 0
        && options.exclude_locations.len() == 0
        && options.priority_locations.len() == 0
}

/// Whether a player is the first of the file.
fn is_ann(player: &Player) -> bool {
    let options = &player.options;
    are_two(&player.names, "Ann", "Ada")
        && player.world.as_str() == "w.json"
        && are_two(&options.local_items, "Sword", "Sword")
        && has_no_others(options)
        && has_start(options)
}

/// Whether a player is the second of the file, without options.
fn is_bob(player: &Player) -> bool {
    let options = &player.options;
    are_two(&player.names, "Bob", "Bea")
        && player.world.as_str() == "v.json"
        && options.local_items.len() == 0
        && has_no_others(options)
        && options.start_inventory.len() == 0
        && options.accessibility == Access::Items
}

/// Whether players are those of the file.
fn are_players(file: &Players) -> bool {
    match file.players.as_slice() {
        [ann, bob] => file.teams == 2 && is_room(&file.room) && is_ann(ann) && is_bob(bob),
        _ => false,
    }
}

#[test]
fn players_are_read(rt: HostRuntime) {
    let Ok(players) = read_players(rt.alloc(), PLAYERS.as_bytes()) else {
        panic!(rt; "refused")
    };
    assert!(rt; are_players(&players));
}

/// Whether a case of the players is so.
fn is_players_case(alloc: Global, line: &str) -> Result<bool, Fail> {
    let text = changed(alloc, PLAYERS, line)?;
    Ok(is_answer(alloc, read_players(alloc, text.as_bytes()).err(), line)?)
}

#[test]
fn each_refusal_of_players_has_its_place(rt: HostRuntime) -> Result<(), Fail> {
    each(rt.alloc(), PLAYERS_CASES, is_players_case)
}

/// Whether a link is that of the file.
fn is_duo(link: &ItemLink) -> bool {
    let [ann, bob] = link.members.as_slice() else {
        return false;
    };
    link.name.as_str() == "Duo"
        && ann.get() == 1
        && bob.get() == 2
        && are_two(&link.items, "Sword", "Sword")
}

/// Whether players have this one link, and the second wants to reach all of its world.
fn are_linked(file: &Players) -> bool {
    match (file.players.as_slice(), file.links.as_slice()) {
        ([ann, bob], [duo]) => {
            ann.options.accessibility == Access::Items
                && bob.options.accessibility == Access::Full
                && is_duo(duo)
        }
        _ => false,
    }
}

#[test]
fn linked_players_are_read(rt: HostRuntime) {
    let Ok(players) = read_players(rt.alloc(), LINKED.as_bytes()) else {
        panic!(rt; "refused")
    };
    assert!(rt; are_linked(&players));
}

/// Whether a case of these players is so.
fn is_link_case(alloc: Global, line: &str) -> Result<bool, Fail> {
    let text = changed(alloc, LINKED, line)?;
    Ok(is_answer(alloc, read_players(alloc, text.as_bytes()).err(), line)?)
}

#[test]
fn each_refusal_of_links_has_its_place(rt: HostRuntime) -> Result<(), Fail> {
    each(rt.alloc(), LINK_CASES, is_link_case)
}

#[test]
fn links_and_slots_are_at_most_1024(rt: HostRuntime) -> Result<(), Fail> {
    each(rt.alloc(), LINK_LIMIT_CASES, is_link_case)
}

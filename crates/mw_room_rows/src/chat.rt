ghost use Rattle.std.specs.Prelude.{IfOk};
ghost use Rattle.mw_model.specs.Json.{IsWritable};
ghost use Rattle.mw_json.specs.View.{view};

use crate::cases::{Theme, agree, each};
use crate::logs::{COIN, MAP, SWORD, ann, bob, new_log, tables_of, team};
use mw_answers::{
    checked_text, help_text, missing_text, name_of, no_such_name, nothing_to_hint, players_text,
    points_text, remaining_text, too_dear_text,
};
use mw_base::{ItemId, LocId, Memory, Text};
use mw_cases::{ROOM_A, part};
use mw_chat::{
    Said, changed_tags, chatted, collected, command_result, hint_print, item_send, joined, left,
    parse_say, part_item, part_location, part_player, part_text, reached_goal, released,
};
use mw_checks::CheckLog;
use mw_json::{Tree, compact_text};
use mw_packets_out::{ServerPacket, packet_text};
use std::alloc::Global;
use std::test::Fail;

/// A word for what is said, and the text that comes with it.
fn told(said: &Said) -> (&'static str, &str) {
    match said {
        Said::Chat(text) => ("chat:", text.as_str()),
        Said::Help => ("help", ""),
        Said::Players => ("players", ""),
        Said::Missing => ("missing", ""),
        Said::Checked => ("checked", ""),
        Said::Remaining => ("remaining", ""),
        Said::Release => ("release", ""),
        Said::Collect => ("collect", ""),
        Said::Hint(name) => ("hint:", name.as_str()),
        Said::HintLocation(name) => ("hint_location:", name.as_str()),
        Said::UnknownCommand => ("unknown", ""),
    }
}

/// What a text says: a word, and the text that comes with it.
fn said(alloc: Global, text: &str) -> Result<Text, Memory> {
    let said = parse_say(alloc, &Text::of(alloc, text)?)?;
    let (word, rest) = told(&said);
    Ok(Text::from_string([word, rest].join(alloc, "")?))
}

/// What texts say, in cases `TEXT | SAID`.
struct Sayings;

impl Theme for Sayings {
    fn answer(alloc: Global, case: &str) -> Result<Text, Fail> {
        Ok(said(alloc, part(case, 0))?)
    }
}

/// A part of a print by its name.
fn part_named(alloc: Global, name: &str) -> Result<Tree, Memory>
    ensures { IfOk result (λ t. IsWritable (view t)) }
{
    match name {
        "text" => part_text(alloc, &Text::of(alloc, " \"sent\" ")?),
        "player" => part_player(alloc, 1024),
        "item" => part_item(alloc, ItemId::new(7).unwrap(), 2, 1),
        _ => part_location(alloc, LocId::new(101).unwrap(), ann()),
    }
}

/// Parts of a print, in cases `NAME | PART`.
struct Parts;

impl Theme for Parts {
    fn answer(alloc: Global, case: &str) -> Result<Text, Fail> {
        let part = part_named(alloc, part(case, 0))?;
        Ok(compact_text(alloc, &part)?)
    }
}

/// What is printed of Ann by the words for what she does.
fn print_of_ann(alloc: Global, words: &str) -> Result<ServerPacket, Memory> {
    match words {
        "joined" => joined(alloc, team(), ann(), &[Text::of(alloc, "AP")?], "Ann"),
        "changed tags" => changed_tags(alloc, team(), ann(), &[], "Ann"),
        "left" => left(alloc, team(), ann(), "Ann"),
        "reached the goal" => reached_goal(alloc, team(), ann(), "Ann"),
        "released" => released(alloc, team(), ann(), "Ann"),
        _ => collected(alloc, team(), ann(), "Ann"),
    }
}

/// Another print by its name.
fn print_named(alloc: Global, name: &str) -> Result<ServerPacket, Memory> {
    match name {
        "chat" => chatted(alloc, team(), bob(), "Bob", "hi"),
        "result" => command_result(alloc, "no such name"),
        "sword" => item_send(alloc, &SWORD, 2),
        "coin" => item_send(alloc, &COIN, 1),
        _ => hint_print(alloc, &MAP, 1, false),
    }
}

/// The text of a print.
fn text_of(alloc: Global, print: Result<ServerPacket, Memory>) -> Result<Text, Fail> {
    Ok(packet_text(alloc, &print?)?)
}

/// Prints of Ann, in cases `DEED | PRINT`.
struct OfAnn;

impl Theme for OfAnn {
    fn answer(alloc: Global, case: &str) -> Result<Text, Fail> {
        text_of(alloc, print_of_ann(alloc, part(case, 0)))
    }
}

/// Other prints, in cases `NAME | PRINT`.
struct Prints;

impl Theme for Prints {
    fn answer(alloc: Global, case: &str) -> Result<Text, Fail> {
        text_of(alloc, print_named(alloc, part(case, 0)))
    }
}

/// Texts that are no commands.
const CHATS: &str = " | chat:
hi | chat:hi
 !help | chat: !help
a! | chat:a!
\u{a0}! | chat:\u{a0}!";

#[test]
fn a_text_that_is_no_command_is_chat(rt: HostRuntime) -> Result<(), Fail> {
    each::<Sayings>(rt.alloc(), CHATS)
}

/// Commands, and what each is.
const COMMANDS: &str = "!help | help
!help me | help
!players | players
!missing  | missing
!checked | checked
!remaining | remaining
!release | release
!collect now | collect
! | unknown
! help | unknown
!Help | unknown
!helping | unknown";

#[test]
fn commands_are_their_whole_first_word(rt: HostRuntime) -> Result<(), Fail> {
    agree(said(rt.alloc(), "!help\n")?.as_str(), "unknown")?;
    each::<Sayings>(rt.alloc(), COMMANDS)
}

/// Commands that ask for hints, and the name of what they ask for.
const HINTS: &str = "!hint | hint:
!hint  | hint:
!hint Map | hint:Map
!hint  Big Map  | hint: Big Map \n!hint_location | hint_location:
!hint_location B1 | hint_location:B1";

#[test]
fn hints_have_the_rest_as_their_name(rt: HostRuntime) -> Result<(), Fail> {
    each::<Sayings>(rt.alloc(), HINTS)
}

/// The parts of a text and of a player, and their texts.
const TEXT_AND_PLAYER: &str = r#"text | {"text":" \"sent\" "}
player | {"text":"1024","type":"player_id"}"#;

#[test]
fn parts_of_a_print(rt: HostRuntime) -> Result<(), Fail> {
    each::<Parts>(rt.alloc(), TEXT_AND_PLAYER)
}

/// The parts of an item and of a location, and their texts.
const ITEM_AND_LOCATION: &str = r#"item | {"flags":1,"player":2,"text":"7","type":"item_id"}
location | {"player":1,"text":"101","type":"location_id"}"#;

#[test]
fn parts_that_name_an_item(rt: HostRuntime) -> Result<(), Fail> {
    each::<Parts>(rt.alloc(), ITEM_AND_LOCATION)
}

/// The print of who comes.
const JOINED: &str =
    r#"joined | {"cmd":"PrintJSON","data":[{"text":"Ann joined"}],"slot":1,"tags":["AP"],"team":0,"type":"Join"}"#;

#[test]
fn who_comes_is_printed(rt: HostRuntime) -> Result<(), Fail> {
    each::<OfAnn>(rt.alloc(), JOINED)
}

/// The print of new tags.
const CHANGED_TAGS: &str =
    r#"changed tags | {"cmd":"PrintJSON","data":[{"text":"Ann changed tags"}],"slot":1,"tags":[],"team":0,"type":"TagsChanged"}"#;

#[test]
fn new_tags_are_printed(rt: HostRuntime) -> Result<(), Fail> {
    each::<OfAnn>(rt.alloc(), CHANGED_TAGS)
}

/// What Bob says, and what a command that fails is told.
const SAID: &str =
    r#"chat | {"cmd":"PrintJSON","data":[{"text":"Bob: hi"}],"message":"hi","slot":2,"team":0,"type":"Chat"}
result | {"cmd":"PrintJSON","data":[{"text":"no such name"}],"type":"CommandResult"}"#;

#[test]
fn what_is_said_is_printed(rt: HostRuntime) -> Result<(), Fail> {
    each::<Prints>(rt.alloc(), SAID)
}

/// What a player does.
const DEEDS: &str =
    r#"left | {"cmd":"PrintJSON","data":[{"text":"Ann left"}],"slot":1,"team":0,"type":"Part"}
reached the goal | {"cmd":"PrintJSON","data":[{"text":"Ann reached the goal"}],"slot":1,"team":0,"type":"Goal"}
released | {"cmd":"PrintJSON","data":[{"text":"Ann released"}],"slot":1,"team":0,"type":"Release"}
collected | {"cmd":"PrintJSON","data":[{"text":"Ann collected"}],"slot":1,"team":0,"type":"Collect"}"#;

#[test]
fn what_a_player_does_is_printed(rt: HostRuntime) -> Result<(), Fail> {
    each::<OfAnn>(rt.alloc(), DEEDS)
}

/// The print of an item that is sent.
const SENT: &str =
    r#"sword | {"cmd":"PrintJSON","data":[{"text":"1","type":"player_id"},{"text":" sent "},{"flags":1,"player":2,"text":"7","type":"item_id"},{"text":" to "},{"text":"2","type":"player_id"},{"text":" ("},{"player":1,"text":"101","type":"location_id"},{"text":")"}],"item":{"class":"NetworkItem","flags":1,"item":7,"location":101,"player":1},"receiving":2,"type":"ItemSend"}"#;

#[test]
fn items_that_are_sent_are_printed(rt: HostRuntime) -> Result<(), Fail> {
    each::<Prints>(rt.alloc(), SENT)
}

/// The print of an item that is found by its own player.
const FOUND: &str =
    r#"coin | {"cmd":"PrintJSON","data":[{"text":"1","type":"player_id"},{"text":" found their "},{"flags":0,"player":1,"text":"8","type":"item_id"},{"text":" ("},{"player":1,"text":"102","type":"location_id"},{"text":")"}],"item":{"class":"NetworkItem","flags":0,"item":8,"location":102,"player":1},"receiving":1,"type":"ItemSend"}"#;

#[test]
fn items_that_are_found_are_printed(rt: HostRuntime) -> Result<(), Fail> {
    each::<Prints>(rt.alloc(), FOUND)
}

/// The print of a hint.
const HINT: &str =
    r#"hint | {"cmd":"PrintJSON","data":[{"text":"[Hint]: "},{"text":"1","type":"player_id"},{"text":"'s "},{"flags":2,"player":1,"text":"9","type":"item_id"},{"text":" is at "},{"player":2,"text":"201","type":"location_id"},{"text":" in "},{"text":"2","type":"player_id"},{"text":"'s world"}],"found":false,"item":{"class":"NetworkItem","flags":2,"item":9,"location":201,"player":2},"receiving":1,"type":"Hint"}"#;

#[test]
fn hints_are_printed(rt: HostRuntime) -> Result<(), Fail> {
    each::<Prints>(rt.alloc(), HINT)
}

/// What Ann is told who has checked nothing.
fn told_ann(alloc: Global, log: &CheckLog, name: &str) -> Result<Text, Memory> {
    match name {
        "missing" => missing_text(alloc, log, team(), ann()),
        "checked" => checked_text(alloc, log, team(), ann()),
        _ => remaining_text(alloc, log, team(), ann()),
    }
}

/// What Ann is told by commands, in cases `COMMAND | TEXT`.
struct Answered;

impl Theme for Answered {
    fn answer(alloc: Global, case: &str) -> Result<Text, Fail> {
        let log = new_log(alloc)?;
        Ok(told_ann(alloc, &log, part(case, 0))?)
    }
}

/// What is missing, checked and remaining.
const OF_ANN: &str = "missing | 2 missing: A1, A2
checked | 0 checked: \nremaining | 2 remaining: Coin, Map";

#[test]
fn commands_tell_of_a_slot(rt: HostRuntime) -> Result<(), Fail> {
    each::<Answered>(rt.alloc(), OF_ANN)
}

#[test]
fn commands_tell_of_players(rt: HostRuntime) -> Result<(), Fail> {
    let tables = tables_of(rt.alloc(), ROOM_A)?;
    let members = [(team(), bob()), (team(), ann())];
    agree(name_of(&tables, team(), bob()), "Bob")?;
    let text = players_text(rt.alloc(), &tables, team(), &members)?;
    agree(text.as_str(), "Connected: Ann, Bob")
}

/// What is told of points, and the texts that never change, in cases `NAME | TEXT`.
struct Texts;

impl Theme for Texts {
    fn answer(alloc: Global, case: &str) -> Result<Text, Fail> {
        Ok(text_named(alloc, part(case, 0))?)
    }
}

/// A text of points by its name, or one that never changes.
fn text_named(alloc: Global, name: &str) -> Result<Text, Memory> {
    match name {
        "points" => points_text(alloc, 2, 1),
        "too dear" => too_dear_text(alloc, 3, 2),
        "no such name" => Text::of(alloc, no_such_name()),
        "nothing to hint" => Text::of(alloc, nothing_to_hint()),
        _ => Text::of(alloc, help_text()),
    }
}

/// Points of a hint that is bought and of one that is too dear, and the other texts.
const TEXTS: &str = "points | 2 points, a hint costs 1
too dear | 3 points needed, 2 there
no such name | no such name
nothing to hint | nothing to hint
help | !help !players !missing !checked !remaining !release !collect !hint !hint_location";

#[test]
fn commands_tell_of_points(rt: HostRuntime) -> Result<(), Fail> {
    each::<Texts>(rt.alloc(), TEXTS)
}

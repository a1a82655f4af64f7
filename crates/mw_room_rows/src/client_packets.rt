use crate::cases::{Theme, each, fine};
use crate::messages::packets_in;
use mw_base::{List, Memory, Text};
use mw_cases::part;
use mw_packets_in::{Bad, BadKind, Inbound, Packet};
use std::alloc::Global;
use std::test::Fail;

/// The packet of a message that has just one element.
pub(crate) fn sole(found: &List<Inbound>) -> Option<&Packet> {
    match found.as_slice() {
        [Inbound::Good(packet)] => Some(packet),
        _ => None,
    }
}

/// Whether a message is one packet that connects Ann.
fn connects_ann(found: &List<Inbound>) -> bool {
    match sole(found) {
        Some(Packet::Connect(fields)) => {
            fields.name.as_str() == "Ann"
                && fields.password.is_none()
                && fields.game.is_some()
                && fields.version.build == 1
                && fields.items_handling == Some(7)
                && fields.tags.is_some()
        }
        _ => false,
    }
}

#[test]
fn a_connect_is_read(rt: HostRuntime) -> Result<(), Fail> {
    let text =
        r#"[{"cmd":"Connect","name":"Ann","password":null,"game":"G","version":{"major":0,"minor":5,"build":1,"class":"Version"},"items_handling":7,"tags":["AP","NoText"],"uuid":0.5}]"#;
    fine(&[(text, connects_ann(&packets_in(rt.alloc(), text)?))])
}

/// Whether a message is one packet that checks these numbers.
fn checks(found: &List<Inbound>, wanted: &[i128]) -> bool {
    match sole(found) {
        Some(Packet::LocationChecks(checks)) => checks.locations.as_slice() == wanted,
        _ => false,
    }
}

#[test]
fn numbers_of_locations_are_read(rt: HostRuntime) -> Result<(), Fail> {
    let text = r#" [ {"locations": [101, -1, 101], "cmd": "LocationChecks"} ] "#;
    fine(&[(
        text,
        checks(&packets_in(rt.alloc(), text)?, &[101, -1, 101]),
    )])
}

/// What is told of what is no packet: its command, the kind of its fault, and why.
fn fault(alloc: Global, bad: &Bad) -> Result<Text, Memory> {
    let kind = match bad.kind {
        BadKind::Cmd => "cmd",
        BadKind::Arguments => "arguments",
    };
    let cmd = match &bad.cmd {
        Some(cmd) => cmd.as_str(),
        None => "none",
    };
    Ok(Text::from_string([cmd, kind, bad.why.as_str()].join(alloc, ", ")?))
}

/// Whether the one element of a message is a packet, or what is wrong with it.
fn told(alloc: Global, found: &List<Inbound>) -> Result<Text, Memory> {
    match found.as_slice() {
        [Inbound::Good(_)] => Text::of(alloc, "a packet"),
        [Inbound::Wrong(bad)] => fault(alloc, bad),
        _ => Text::of(alloc, "no one element"),
    }
}

/// Messages of one element, in cases `MESSAGE | ANSWER`.
pub(crate) struct Messages;

impl Theme for Messages {
    fn answer(alloc: Global, case: &str) -> Result<Text, Fail> {
        Ok(told(alloc, &packets_in(alloc, part(case, 0))?)?)
    }
}

/// A message of each other command.
const COMMANDS: &str = r#"[{"cmd":"ConnectUpdate","items_handling":3}] | a packet
[{"cmd":"Sync"}] | a packet
[{"cmd":"LocationScouts","locations":[201,101],"create_as_hint":2}] | a packet
[{"cmd":"UpdateHint","player":1,"location":101,"status":30}] | a packet
[{"cmd":"StatusUpdate","status":20}] | a packet
[{"cmd":"Say","text":"!help"}] | a packet
[{"cmd":"GetDataPackage","games":["G"]}] | a packet
[{"cmd":"Bounce","tags":["DeathLink"],"data":{"time":1712345678}}] | a packet
[{"cmd":"Get","keys":["k"],"n":4}] | a packet
[{"cmd":"Set","key":"k","default":0,"operations":[{"operation":"add","value":1}]}] | a packet
[{"cmd":"SetNotify","keys":["k"]}] | a packet"#;

/// Messages with numerals where any value may stand.
const NUMERALS: &str =
    r#"[{"cmd":"Connect","name":"Ann","version":{"major":0,"minor":5,"build":0,"more":[0.5]}}] | a packet
[{"cmd":"Sync","more":1e400}] | a packet
[{"cmd":"Bounce","tags":["DeathLink"],"data":{"source":"Ann","time":1712345678.250}}] | a packet
[{"cmd":"Get","keys":["k"],"n":0.5}] | a packet
[{"cmd":"Set","key":"k","default":-0,"operations":[{"operation":"replace","value":1.50}],"n":[{"a":2e0}]}] | a packet"#;

#[test]
fn each_command_is_read(rt: HostRuntime) -> Result<(), Fail> {
    each::<Messages>(rt.alloc(), COMMANDS)?;
    each::<Messages>(rt.alloc(), NUMERALS)
}

/// Texts that are no packets, and why.
const OTHERS: &str = r#" | none, cmd, no JSON list
7 | none, cmd, no JSON list
{"cmd":"Sync"} | none, cmd, no JSON list
[{"cmd":"Sync"} | none, cmd, no JSON list
[{"cmd":"Sync",1.5:0}] | none, cmd, no JSON list
[{"cmd":"Sync","n":1.}] | none, cmd, no JSON list
1.5 | none, cmd, no JSON list
[7] | none, cmd, no cmd
[7.0] | none, cmd, no cmd
[{"cmd":7.0}] | none, cmd, no cmd
[[]] | none, cmd, no cmd
[{}] | none, cmd, no cmd
[{"cmd":null}] | none, cmd, no cmd
[{"cmd":"Fly"}] | Fly, cmd, unknown cmd"#;

#[test]
fn other_texts_are_no_packets(rt: HostRuntime) -> Result<(), Fail> {
    each::<Messages>(rt.alloc(), OTHERS)
}

/// Packets with a bad member, and what is told of it.
const BAD_MEMBERS: &str =
    r#"[{"cmd":"LocationChecks"}] | LocationChecks, arguments, arguments: locations
[{"cmd":"LocationChecks","locations":[1.0]}] | LocationChecks, arguments, arguments: locations
[{"cmd":"Connect","name":"Ann","version":{"major":0,"minor":5.0,"build":0}}] | Connect, arguments, arguments: version
[{"cmd":"Connect","name":"Ann","version":{"major":0,"minor":5,"build":0},"items_handling":7.0}] | Connect, arguments, arguments: items_handling
[{"cmd":"Connect","name":"Ann","version":{"major":0,"minor":5,"build":0},"tags":null}] | Connect, arguments, arguments: tags
[{"cmd":"ConnectUpdate","items_handling":2,"tags":7}] | ConnectUpdate, arguments, arguments: items_handling
[{"cmd":"StatusUpdate","status":7}] | StatusUpdate, arguments, arguments: status
[{"cmd":"Bounce","slots":[1.0]}] | Bounce, arguments, arguments: slots
[{"cmd":"Get","keys":[0.5]}] | Get, arguments, arguments: keys
[{"cmd":"Set","key":"k","want_reply":-0,"operations":[]}] | Set, arguments, arguments: want_reply
[{"cmd":"Set","key":"k","operations":[{"operation":1e2,"value":1.5}]}] | Set, arguments, arguments: operations"#;

#[test]
fn a_bad_member_is_named(rt: HostRuntime) -> Result<(), Fail> {
    each::<Messages>(rt.alloc(), BAD_MEMBERS)
}

/// Whether these are a packet with bad locations, and a Sync.
fn are_bad_and_sync(found: &List<Inbound>) -> bool {
    match found.as_slice() {
        [Inbound::Wrong(bad), Inbound::Good(packet)] => {
            bad.why.as_str() == "arguments: locations" && matches!(packet, Packet::Sync)
        }
        _ => false,
    }
}

#[test]
fn a_sync_after_a_bad_packet_is_read(rt: HostRuntime) -> Result<(), Fail> {
    let text = r#"[{"cmd":"LocationChecks","locations":["x"]},{"cmd":"Sync"}]"#;
    fine(&[(text, are_bad_and_sync(&packets_in(rt.alloc(), text)?))])
}

ghost use Rattle.std.specs.Prelude.{◌≡◌, ◌∷◌, [], IfOk};

use crate::cases::{Theme, each, fine};
use crate::client_packets::sole;
use crate::logs::{ann, bob, team};
use crate::messages::packets_in;
use mw_base::{List, Memory, NetItem, Permission, SlotId, Text, copy_texts};
use mw_cases::part;
use mw_json::{Member, Tree, copy_members};
use mw_packets_in::{Bounce, Packet};
use mw_packets_out::{
    Bounced, Connected, GameSum, InvalidKind, NetworkPlayer, NetworkSlot, Retrieved, RoomInfo,
    ServerPacket, SetReply, packet_text, write_both, write_message, write_with,
};
use std::alloc::Global;
use std::test::Fail;

/// A list of one.
fn list<T: Drop>(alloc: Global, item: T) -> Result<List<T>, Fail>
    ensures { IfOk result (λ l. l ≡ item ∷ []) }
{
    let mut list = List::new(alloc);
    list.push(item)?;
    Ok(list)
}

fn room_info(alloc: Global) -> Result<RoomInfo, Fail> {
    let sum = GameSum {
        game: Text::of(alloc, "G")?,
        checksum: Text::of(alloc, "H")?,
    };
    Ok(RoomInfo {
        password: false,
        release: Permission::Goal,
        collect: Permission::Goal,
        remaining: Permission::Goal,
        hint_cost: 10,
        location_check_points: 1,
        games: list(alloc, sum)?,
        seed_name: Text::of(alloc, "A")?,
        time: 0,
    })
}

/// A list of these.
fn list_of<T: Copy>(alloc: Global, items: &[T]) -> Result<List<T>, Fail> {
    Ok(List::from_vec(Vec::from_slice(alloc, items)?))
}

/// Adds a player of the first team.
fn push_player(
    alloc: Global,
    players: &mut List<NetworkPlayer>,
    slot: SlotId,
    name: &str,
) -> Result<(), Fail> {
    let (team, name) = (team(), Text::of(alloc, name)?);
    Ok(players.push(NetworkPlayer { team, slot, name })?)
}

fn players(alloc: Global) -> Result<List<NetworkPlayer>, Fail> {
    let mut players = List::new(alloc);
    push_player(alloc, &mut players, ann(), "Ann")?;
    push_player(alloc, &mut players, bob(), "Bob")?;
    Ok(players)
}

/// Adds a slot of the game, or a group of these members.
fn push_slot(
    alloc: Global,
    slots: &mut List<NetworkSlot>,
    slot: SlotId,
    name: &str,
    members: &[SlotId],
) -> Result<(), Fail> {
    let (name, game) = (Text::of(alloc, name)?, Text::of(alloc, "G")?);
    Ok(slots.push(NetworkSlot {
        slot,
        name,
        game,
        members: list_of(alloc, members)?,
    })?)
}

/// The slots, and a group of both where there is one, with number 10.
fn slots(alloc: Global, has_group: bool) -> Result<List<NetworkSlot>, Fail> {
    let mut slots = List::new(alloc);
    push_slot(alloc, &mut slots, ann(), "Ann", &[])?;
    push_slot(alloc, &mut slots, bob(), "Bob", &[])?;
    if has_group {
        let ten = SlotId::new(10).unwrap();
        push_slot(alloc, &mut slots, ten, "Duo", &[ann(), bob()])?;
    }
    Ok(slots)
}

fn connected(alloc: Global, has_group: bool) -> Result<ServerPacket, Fail> {
    let missing_locations = list_of(alloc, &[101, 102])?;
    let players = players(alloc)?;
    Ok(ServerPacket::Connected(Connected {
        team: team(),
        slot: ann(),
        players,
        missing_locations,
        checked_locations: List::new(alloc),
        slot_info: slots(alloc, has_group)?,
        hint_points: 0,
    }))
}

/// What a session has from its start.
const BOOTS: NetItem = NetItem {
    item: 5,
    location: -2,
    player: 0,
    flags: 0,
};

/// What stands at a location.
const SWORD: NetItem = NetItem {
    item: 7,
    location: 101,
    player: 2,
    flags: 1,
};

/// What a session is told of checks.
fn update(alloc: Global, checked: &[i64], hint_points: u64) -> Result<ServerPacket, Fail> {
    Ok(ServerPacket::RoomUpdate {
        checked_locations: list_of(alloc, checked)?,
        hint_points,
    })
}

/// Adds a text.
fn push_text(alloc: Global, texts: &mut List<Text>, text: &str) -> Result<(), Fail> {
    Ok(texts.push(Text::of(alloc, text)?)?)
}

/// A refused Connect.
fn refusal(alloc: Global) -> Result<ServerPacket, Fail> {
    let mut errors = List::new(alloc);
    push_text(alloc, &mut errors, "InvalidPassword")?;
    push_text(alloc, &mut errors, "InvalidSlot")?;
    Ok(ServerPacket::ConnectionRefused { errors })
}

/// What is told of a packet that is none, or whose arguments are wrong.
fn invalid(
    alloc: Global,
    kind: InvalidKind,
    original_cmd: Option<Text>,
    why: &str,
) -> Result<ServerPacket, Fail> {
    Ok(ServerPacket::InvalidPacket {
        kind,
        original_cmd,
        text: Text::of(alloc, why)?,
    })
}

/// A packet whose arguments are wrong.
fn bad_arguments(alloc: Global) -> Result<ServerPacket, Fail> {
    let cmd = Text::of(alloc, "LocationChecks")?;
    invalid(
        alloc,
        InvalidKind::Arguments,
        Some(cmd),
        "arguments: locations",
    )
}

/// The value of a key.
fn value(alloc: Global) -> Result<ServerPacket, Fail> {
    let five = Member {
        name: Text::of(alloc, "k")?,
        value: Tree::Whole(5),
    };
    Ok(ServerPacket::Retrieved(Retrieved {
        keys: list(alloc, five)?,
        further: List::new(alloc),
    }))
}

/// A key's first value.
fn change(alloc: Global) -> Result<ServerPacket, Fail> {
    Ok(ServerPacket::SetReply(SetReply {
        key: Text::of(alloc, "k")?,
        value: Tree::Whole(5),
        original_value: Tree::Null,
        slot: bob(),
        further: List::new(alloc),
    }))
}

/// A packet by its name.
fn packet(alloc: Global, name: &str) -> Result<ServerPacket, Fail> {
    match name {
        "room" => Ok(ServerPacket::RoomInfo(room_info(alloc)?)),
        "connected" => connected(alloc, false),
        "group" => connected(alloc, true),
        "items" => Ok(ServerPacket::ReceivedItems {
            index: 0,
            items: list_of(alloc, &[BOOTS])?,
        }),
        "update" => update(alloc, &[101], 1),
        "points" => update(alloc, &[], 2),
        "refusal" => refusal(alloc),
        "arguments" => bad_arguments(alloc),
        "cmd" => invalid(alloc, InvalidKind::Cmd, None, "no JSON list"),
        "scouted" => Ok(ServerPacket::LocationInfo {
            locations: list_of(alloc, &[SWORD])?,
        }),
        "value" => value(alloc),
        _ => change(alloc),
    }
}

/// The text of a message of packets by their names.
fn message(alloc: Global, names: &str) -> Result<Text, Fail> {
    let mut packets = List::new(alloc);
    for name in names.split(' ') {
        packets.push(packet(alloc, name)?)?;
    }
    Ok(write_message(alloc, &packets)?)
}

/// Messages of packets, in cases `NAMES | TEXT`.
struct Messages;

impl Theme for Messages {
    fn answer(alloc: Global, case: &str) -> Result<Text, Fail> {
        message(alloc, part(case, 0))
    }
}

/// The room presents itself.
const ROOM: &str =
    r#"room | [{"cmd":"RoomInfo","datapackage_checksums":{"G":"H"},"games":["G"],"generator_version":{"build":0,"class":"Version","major":0,"minor":5},"hint_cost":10,"location_check_points":1,"password":false,"permissions":{"collect":2,"release":2,"remaining":2},"seed_name":"A","tags":[],"time":0,"version":{"build":0,"class":"Version","major":0,"minor":5}}]"#;

#[test]
fn a_room_presents_itself(rt: HostRuntime) -> Result<(), Fail> {
    each::<Messages>(rt.alloc(), ROOM)
}

/// The session is connected.
const WELCOME: &str =
    r#"connected items | [{"checked_locations":[],"cmd":"Connected","hint_points":0,"missing_locations":[101,102],"players":[{"alias":"Ann","class":"NetworkPlayer","name":"Ann","slot":1,"team":0},{"alias":"Bob","class":"NetworkPlayer","name":"Bob","slot":2,"team":0}],"slot":1,"slot_data":{},"slot_info":{"1":{"class":"NetworkSlot","game":"G","group_members":[],"name":"Ann","type":1},"2":{"class":"NetworkSlot","game":"G","group_members":[],"name":"Bob","type":1}},"team":0},{"cmd":"ReceivedItems","index":0,"items":[{"class":"NetworkItem","flags":0,"item":5,"location":-2,"player":0}]}]"#;

#[test]
fn a_session_is_connected(rt: HostRuntime) -> Result<(), Fail> {
    each::<Messages>(rt.alloc(), WELCOME)
}

/// A location is checked.
const UPDATE: &str = r#"update | [{"checked_locations":[101],"cmd":"RoomUpdate","hint_points":1}]"#;

#[test]
fn a_location_is_checked(rt: HostRuntime) -> Result<(), Fail> {
    each::<Messages>(rt.alloc(), UPDATE)
}

/// A group and its members.
const GROUP: &str =
    r#""10":{"class":"NetworkSlot","game":"G","group_members":[1,2],"name":"Duo","type":2}"#;

/// Whether the group stands between the first slot and the second.
fn is_in_byte_order(text: &str) -> bool {
    let first = text.find(r#""1":{"#);
    let group = text.find(GROUP);
    let second = text.find(r#""2":{"#);
    first < group && group < second
}

#[test]
fn slots_and_groups_stand_in_byte_order(rt: HostRuntime) -> Result<(), Fail> {
    let text = message(rt.alloc(), "group")?;
    fine(&[(text.as_str(), is_in_byte_order(text.as_str()))])
}

/// Three refusals.
const REFUSALS: &str =
    r#"refusal arguments cmd | [{"cmd":"ConnectionRefused","errors":["InvalidPassword","InvalidSlot"]},{"cmd":"InvalidPacket","original_cmd":"LocationChecks","text":"arguments: locations","type":"arguments"},{"cmd":"InvalidPacket","original_cmd":null,"text":"no JSON list","type":"cmd"}]"#;

#[test]
fn refusals_are_told(rt: HostRuntime) -> Result<(), Fail> {
    each::<Messages>(rt.alloc(), REFUSALS)
}

/// The text of a packet alone, of a message of it behind no others, or of one in which two written
/// texts stand behind it.
fn written(alloc: Global, form: &str, packet: &ServerPacket) -> Result<Text, Memory> {
    let alone = std::slice::from_ref(packet);
    match form {
        "behind" => write_both(alloc, &[], alone),
        "before" => write_with(alloc, alone, &[], &["{}", r#"{"a":1}"#]),
        _ => packet_text(alloc, packet),
    }
}

/// Packets by themselves or with others, in cases `FORM | NAME | TEXT`.
struct Packets;

impl Theme for Packets {
    fn answer(alloc: Global, case: &str) -> Result<Text, Fail> {
        let packet = packet(alloc, part(case, 1))?;
        Ok(written(alloc, part(case, 0), &packet)?)
    }
}

/// What stands at a location is told.
const SCOUTED: &str =
    r#"behind | scouted | [{"cmd":"LocationInfo","locations":[{"class":"NetworkItem","flags":1,"item":7,"location":101,"player":2}]}]"#;

#[test]
fn what_stands_there_is_told(rt: HostRuntime) -> Result<(), Fail> {
    each::<Packets>(rt.alloc(), SCOUTED)
}

/// The value of a key is told.
const VALUE: &str = r#"alone | value | {"cmd":"Retrieved","keys":{"k":5}}"#;

#[test]
fn values_are_told(rt: HostRuntime) -> Result<(), Fail> {
    each::<Packets>(rt.alloc(), VALUE)
}

/// A key's first value is told.
const CHANGE: &str =
    r#"alone | change | {"cmd":"SetReply","key":"k","original_value":null,"slot":2,"value":5}"#;

#[test]
fn changes_are_told(rt: HostRuntime) -> Result<(), Fail> {
    each::<Packets>(rt.alloc(), CHANGE)
}

/// Copies of texts, where they are given.
fn copied(alloc: Global, texts: &Option<List<Text>>) -> Result<Option<List<Text>>, Memory>
    ensures { IfOk result (λ copies. copies ≡ texts.now) }
{
    match texts {
        Some(texts) => Ok(Some(copy_texts(alloc, texts.as_slice())?)),
        None => Ok(None),
    }
}

/// What the clients of a Bounce's games and tags are told.
fn bounced(alloc: Global, bounce: &Bounce) -> Result<ServerPacket, Memory> {
    let games = copied(alloc, &bounce.games)?;
    let tags = copied(alloc, &bounce.tags)?;
    Ok(ServerPacket::Bounced(Bounced {
        games,
        tags,
        slots: None,
        further: copy_members(alloc, bounce.further.as_slice())?,
    }))
}

/// Messages of a Bounce, in cases `MESSAGE | TEXT`.
struct Bounces;

impl Theme for Bounces {
    fn answer(alloc: Global, case: &str) -> Result<Text, Fail> {
        let found = packets_in(alloc, part(case, 0))?;
        match sole(&found) {
            Some(Packet::Bounce(bounce)) => Ok(packet_text(alloc, &bounced(alloc, bounce)?)?),
            _ => Err(Fail::new(case)),
        }
    }
}

/// Messages of a Bounce, and what is told of each.
const BOUNCES: &str =
    r#"[{"tags":["DeathLink"],"data":{"time":1712345678,"source":"Ann","cause":""},"cmd":"Bounce"}] | {"cmd":"Bounced","data":{"cause":"","source":"Ann","time":1712345678},"tags":["DeathLink"]}
[{"games":["G"],"cmd":"Bounce","zeal":[],"at":null}] | {"at":null,"cmd":"Bounced","games":["G"],"zeal":[]}"#;

#[test]
fn a_message_passes_through(rt: HostRuntime) -> Result<(), Fail> {
    each::<Bounces>(rt.alloc(), BOUNCES)
}

/// A message of a packet and two texts.
const WITH_TEXTS: &str =
    r#"before | points | [{"checked_locations":[],"cmd":"RoomUpdate","hint_points":2},{},{"a":1}]"#;

#[test]
fn written_texts_stand_behind(rt: HostRuntime) -> Result<(), Fail> {
    each::<Packets>(rt.alloc(), WITH_TEXTS)
}

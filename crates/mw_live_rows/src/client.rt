//! A client beside a room that is served, and beside texts and save files of its own.
use crate::served::{coming, new_room};
use mw_base::{List, LocId, NetItem, Text};
use mw_cases::ROOM_A_INFO;
use mw_client::{Answer, Play, Who, answer_text, news_in, saved_list};
use mw_disk::SteadyDisk;
use mw_link::{SteadyGate, SteadyLink};
use mw_session::serve_room;
use std::alloc::Global;
use std::collections::VecDeque;
use std::fmt::Write;
use std::test::Fail;

/// The word of an answer.
fn word_of(answer: Answer) -> &'static str {
    match answer {
        Answer::Connect => "Connect",
        Answer::Checks => "Checks",
        Answer::Sync => "Sync",
    }
}

/// Tells what a client answers to a text, and the bodies that lead to its new list.
fn hear(alloc: Global, play: &mut Play, text: &str, told: &mut String) -> Result<(), Fail> {
    let text = Text::of(alloc, text)?;
    let news = news_in(alloc, &text)?;
    let turn = play.hear(news.as_slice())?;
    for answer in turn.answers.as_slice() {
        let word = word_of(*answer);
        write!(told, "{word} ")?;
    }
    for byte in turn.bodies.as_slice() {
        write!(told, "{byte:02x}")?;
    }
    told.push_str(";")?;
    Ok(())
}

/// Tells the items of a list.
fn put_items(items: &List<NetItem>, told: &mut String) -> Result<(), Fail> {
    for entry in items.as_slice() {
        let item = entry.item;
        let location = entry.location;
        let player = entry.player;
        let flags = entry.flags;
        write!(told, " {item} {location} {player} {flags}")?;
    }
    Ok(())
}

/// Fails where a text is another than the one that is wanted.
fn is_told(told: &str, wanted: &str) -> Result<(), Fail> {
    if told == wanted {
        Ok(())
    } else {
        Err(Fail::new(told))
    }
}

/// The messages of Ann's client: a Connect, and the checks of her two locations.
fn messages_of_ann(alloc: Global) -> Result<(Text, Text), Fail> {
    let who = Who {
        name: Text::of(alloc, "Ann")?,
        game: Text::of(alloc, "G")?,
        password: None,
    };
    let mut locations = Vec::new(alloc);
    locations.push(LocId::new(101).ok_or("no location")?)?;
    locations.push(LocId::new(102).ok_or("no location")?)?;
    let connect = answer_text(alloc, &who, locations.as_slice(), Answer::Connect)?;
    let checks = answer_text(alloc, &who, locations.as_slice(), Answer::Checks)?;
    Ok((connect.ok_or("no text")?, checks.ok_or("no text")?))
}

/// Ann's client hears all that the room sends her: she is greeted, joins with the item that she
/// begins with, and finds her own.
#[test]
fn a_client_hears_a_room(rt: HostRuntime) -> Result<(), Fail> {
    let alloc = rt.alloc();
    let (connect, checks) = messages_of_ann(alloc)?;
    let texts = coming(alloc, &[connect.as_str(), checks.as_str()])?;
    let mut links = VecDeque::new(alloc);
    links.push_back(SteadyLink::new(alloc, texts, 0))?;
    let room = new_room(alloc, SteadyDisk::new(alloc, List::new(alloc))?)?;
    let end = serve_room(&rt, alloc, SteadyGate::new(links), room, 1, None);
    let worker = end.served.get(0).ok_or("no worker")?;
    let entry = worker.get(0).ok_or("no link")?;
    let mut play = Play::new(alloc, &List::new(alloc))?;
    let mut told = String::new(alloc);
    for text in entry.line.sent() {
        hear(alloc, &mut play, text.as_str(), &mut told)?;
    }
    put_items(play.list(), &mut told)?;
    is_told(
        told.as_str(),
        "Connect ;Checks 01000000010000000000000005fffffffffffffffe000000;000000000100000000000000080000000000000066000100; 5 -2 0 0 8 102 1 0",
    )
}

/// Fails where a client that hears texts tells another than what is wanted.
fn plays(alloc: Global, texts: &[&str], wanted: &str) -> Result<(), Fail> {
    let mut play = Play::new(alloc, &List::new(alloc))?;
    let mut told = String::new(alloc);
    for text in texts {
        hear(alloc, &mut play, text, &mut told)?;
    }
    put_items(play.list(), &mut told)?;
    is_told(told.as_str(), wanted)
}

const CONNECTED: &str = r#"[{"cmd":"Connected"}]"#;

const FIRST: &str =
    r#"[{"cmd":"ReceivedItems","index":0,"items":[{"class":"NetworkItem","flags":0,"item":5,"location":-2,"player":0}]}]"#;

const THIRD: &str =
    r#"[{"cmd":"ReceivedItems","index":2,"items":[{"class":"NetworkItem","flags":2,"item":9,"location":201,"player":2}]}]"#;

/// An index from nowhere asks for Sync. What is no packet, or comes again, changes nothing.
#[test]
fn an_index_from_nowhere(rt: HostRuntime) -> Result<(), Fail> {
    let alloc = rt.alloc();
    plays(
        alloc,
        &[ROOM_A_INFO, CONNECTED, FIRST, THIRD],
        "Connect ;Checks ;01000000010000000000000005fffffffffffffffe000000;Sync ; 5 -2 0 0",
    )?;
    plays(
        alloc,
        &[FIRST, FIRST, ROOM_A_INFO, ROOM_A_INFO, THIRD, "7", "[7]"],
        "01000000010000000000000005fffffffffffffffe000000;;Connect ;;Sync ;;; 5 -2 0 0",
    )?;
    let no_class =
        r#"[{"cmd":"ReceivedItems","index":0,"items":[{"flags":0,"item":5,"location":-2,"player":0}]}]"#;
    let low =
        r#"[{"cmd":"ReceivedItems","index":0,"items":[{"class":"NetworkItem","flags":0,"item":-1,"location":-2,"player":0}]}]"#;
    plays(alloc, &[no_class, low, r#"[{"cmd":"Fly"},{}]"#], ";;;")
}

/// Fails where the bytes of bodies give another list.
fn gives(alloc: Global, bytes: &[u8], wanted: &str) -> Result<(), Fail> {
    let mut told = String::new(alloc);
    match saved_list(alloc, bytes) {
        Ok(list) => put_items(&list, &mut told)?,
        Err(_) => told.push_str("bad body")?,
    }
    is_told(told.as_str(), wanted)
}

/// Item 5, which a slot begins with.
const ENTRY: [u8; 19] = [
    0, 0, 0, 0, 0, 0, 0, 5, 255, 255, 255, 255, 255, 255, 255, 254, 0, 0, 0,
];

/// The bytes of a body with so many times this entry.
fn body_of(alloc: Global, kind: u8, count: u8) -> Result<Vec<u8>, Fail> {
    let mut bytes = Vec::new(alloc);
    bytes.extend_from_slice(&[kind, 0, 0, 0, count])?;
    for _ in 0..count {
        bytes.extend_from_slice(&ENTRY)?;
    }
    Ok(bytes)
}

/// Bodies one after another; one that is cut, of another kind, or that appends nothing.
#[test]
fn saved_bodies(rt: HostRuntime) -> Result<(), Fail> {
    let alloc = rt.alloc();
    gives(alloc, &[], "")?;
    gives(alloc, body_of(alloc, 1, 0)?.as_slice(), "")?;
    gives(alloc, body_of(alloc, 0, 0)?.as_slice(), "bad body")?;
    gives(alloc, body_of(alloc, 2, 1)?.as_slice(), "bad body")?;
    gives(
        alloc,
        body_of(alloc, 0, 2)?.as_slice(),
        " 5 -2 0 0 5 -2 0 0",
    )?;
    let mut bodies = body_of(alloc, 0, 2)?;
    bodies.extend_from_slice(body_of(alloc, 1, 1)?.as_slice())?;
    gives(alloc, bodies.as_slice(), " 5 -2 0 0")?;
    bodies.pop();
    gives(alloc, bodies.as_slice(), "bad body")
}

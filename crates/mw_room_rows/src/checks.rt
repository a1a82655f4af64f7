use crate::cases::fine;
use crate::logs::{COIN, MAP, NUMBERS, SWORD, ann, b1, bob, new_log, played_log, team};
use mw_base::{List, LocId, Memory, NetItem, SlotId, TeamId};
use mw_checks::CheckLog;
use std::test::Fail;

const BOOTS: NetItem = NetItem {
    item: 5,
    location: -2,
    player: 0,
    flags: 0,
};

fn other() -> TeamId {
    TeamId::new(1).unwrap()
}

fn a1() -> LocId {
    LocId::new(101).unwrap()
}

fn a2() -> LocId {
    LocId::new(102).unwrap()
}

/// Whether the item that a location of a slot holds has this number.
fn holds(log: &CheckLog, slot: SlotId, location: LocId, item: i64) -> bool {
    match log.held(slot, location) {
        Some(held) => held.item.get() == item,
        None => false,
    }
}

/// Whether just these are found, in order.
fn are<T: PartialEq + Drop>(found: Result<List<T>, Memory>, wanted: &[T]) -> bool {
    match found {
        Ok(found) => found.as_slice() == wanted,
        Err(_) => false,
    }
}

/// A log is that of one team, in which Ann alone has the first location, and nothing is checked.
#[test]
fn a_new_log_has_its_places(rt: HostRuntime) -> Result<(), Fail> {
    let log = new_log(rt.alloc())?;
    fine(&[
        ("one team", log.tables().multidata().teams == 1),
        ("Ann's first location", holds(&log, ann(), a1(), 7)),
        ("no such location of Bob's", log.held(bob(), a1()).is_none()),
        ("no checks", log.checks().len() == 0),
    ])
}

/// Both of Ann's locations, as she checks them.
fn both() -> [(SlotId, LocId); 2] {
    [(ann(), a2()), (ann(), a1())]
}

/// Both of Ann's locations are fresh, and give Bob his sword and Ann nothing from another world.
#[test]
fn numbers_of_ones_own_are_fresh_once(rt: HostRuntime) -> Result<(), Fail> {
    let log = new_log(rt.alloc())?;
    fine(&[
        ("fresh", are(log.fresh_of(team(), ann(), &NUMBERS), &both())),
        (
            "Bob's",
            are(log.given_by(team(), bob(), 1, &both()), &[SWORD]),
        ),
        ("Ann's", are(log.given_by(team(), ann(), 1, &both()), &[])),
    ])
}

/// Ann's first location is checked in her team alone, and Bob's isn't; just her two are checked,
/// and none of them is fresh.
#[test]
fn a_rooms_checks_are_logged_once(rt: HostRuntime) -> Result<(), Fail> {
    let log = played_log(rt.alloc(), ann())?;
    fine(&[
        ("Ann's first", log.is_checked(team(), ann(), a1())),
        ("another team's", !log.is_checked(other(), ann(), a1())),
        ("Bob's", !log.is_checked(team(), bob(), b1())),
        ("two checks", log.checks().len() == 2),
        ("two of Ann's", log.checked_len(team(), ann()) == 2),
        ("which", are(log.checked_of(team(), ann()), &[a2(), a1()])),
        (
            "none fresh",
            are(log.fresh_of(team(), ann(), &NUMBERS), &[]),
        ),
    ])
}

/// Ann received boots and a coin, of which each mask keeps what it has to.
#[test]
fn masks_keep_what_a_slot_received(rt: HostRuntime) -> Result<(), Fail> {
    let log = played_log(rt.alloc(), ann())?;
    fine(&[
        ("all", are(log.view(team(), ann(), 7, 0), &[BOOTS, COIN])),
        (
            "from the second on",
            are(log.view(team(), ann(), 7, 1), &[COIN]),
        ),
        (
            "from past the end on",
            are(log.view(team(), ann(), 7, 9), &[]),
        ),
        ("how many", log.view_len(team(), ann(), 7) == 2),
        ("of others", log.view_len(team(), ann(), 1) == 0),
        ("of her own", log.view_len(team(), ann(), 2) == 1),
        ("of the start", log.view_len(team(), ann(), 4) == 1),
    ])
}

/// Of these pairs just that of Bob's location is added, and then Ann has received the map, Bob the
/// sword, and Ann of another team one item.
#[test]
fn pairs_are_added_once(rt: HostRuntime) -> Result<(), Fail> {
    let mut log = played_log(rt.alloc(), ann())?;
    let pairs = [(ann(), a1()), (bob(), b1()), (bob(), b1()), (bob(), a1())];
    let added = are(log.add(team(), &pairs), &[(bob(), b1())]);
    fine(&[
        ("added", added),
        ("Ann's", are(log.view(team(), ann(), 1, 0), &[MAP])),
        ("Bob's", are(log.view(team(), bob(), 7, 0), &[SWORD])),
        ("another team's", log.view_len(other(), ann(), 7) == 1),
    ])
}

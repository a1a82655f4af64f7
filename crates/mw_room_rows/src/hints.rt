use crate::cases::{Theme, each, fine};
use crate::logs::{ann, b1, bob, new_log, played_log, team};
use mw_base::{HintRecord, HintStatus, ItemId, LocId, Memory, SlotId, Text};
use mw_cases::part;
use mw_checks::CheckLog;
use mw_hints::{Hint, HintAnswer, HintBook, Wanted, cost};
use std::alloc::Global;
use std::test::Fail;

fn priority() -> HintStatus {
    HintStatus::new(30).unwrap()
}

fn no_priority() -> HintStatus {
    HintStatus::new(10).unwrap()
}

/// The hint of Bob's location as a slot makes it.
fn made(buyer: SlotId, bought: bool, status: HintStatus) -> HintRecord {
    HintRecord::Made {
        team: team(),
        finder: bob(),
        loc: b1(),
        bought,
        buyer,
        status,
    }
}

/// The hint of Bob's location gets no priority.
fn marked() -> HintRecord {
    HintRecord::Marked {
        team: team(),
        finder: bob(),
        loc: b1(),
        status: no_priority(),
    }
}

/// A book, which has the hint that Ann bought or none.
fn book_of(alloc: Global, is_bought: bool) -> Result<HintBook, Memory> {
    let mut book = HintBook::new(alloc);
    if is_bought {
        book.add(&made(ann(), true, priority()))?;
    }
    Ok(book)
}

/// The hints and the checks of a room.
#[derive(Drop)]
struct Hinted {
    book: HintBook,
    log: CheckLog,
}

/// A room in which Ann has bought a hint or hasn't, and a slot has checked all of its locations.
fn room_of(alloc: Global, is_bought: bool, slot: SlotId) -> Result<Hinted, Fail> {
    let log = played_log(alloc, slot)?;
    let book = book_of(alloc, is_bought)?;
    Ok(Hinted { book, log })
}

/// What is wanted by its words, `location NAME` or the name of an item.
fn wanted(alloc: Global, words: &str) -> Result<Wanted, Memory> {
    match words.split_once("location ") {
        Some((_, name)) => Ok(Wanted::Location(Text::of(alloc, name)?)),
        None => Ok(Wanted::Item(Text::of(alloc, words)?)),
    }
}

/// A word for what Ann is answered.
fn word(answer: Result<HintAnswer, Memory>) -> &'static str {
    match answer {
        Ok(HintAnswer::Bought(record)) if record == made(ann(), true, priority()) => "bought",
        Ok(HintAnswer::NoSuchName) => "no such name",
        Ok(HintAnswer::Nothing) => "nothing",
        Ok(HintAnswer::TooDear { cost: 1, points: 0 }) => "one point of none",
        _ => "another answer",
    }
}

/// What Ann is answered in words who wants this.
fn asked(
    alloc: Global,
    book: &HintBook,
    log: &CheckLog,
    words: &str,
) -> Result<&'static str, Memory> {
    let wanted = wanted(alloc, words)?;
    Ok(word(book.buy(team(), ann(), &wanted, log)))
}

/// What Ann is answered who has checked all of her locations, in cases `BOOK | WANTED | ANSWER`.
struct Buying;

impl Theme for Buying {
    fn answer(alloc: Global, case: &str) -> Result<Text, Fail> {
        let room = room_of(alloc, part(case, 0) == "bought", ann())?;
        let word = asked(alloc, &room.book, &room.log, part(case, 1))?;
        Ok(Text::of(alloc, word)?)
    }
}

#[test]
fn a_hint_is_bought(rt: HostRuntime) -> Result<(), Fail> {
    each::<Buying>(rt.alloc(), "new | Map | bought")
}

/// Ann gets neither a map nor a hat, which is no item.
const ONCE: &str = "bought | Map | nothing
bought | Hat | no such name";

#[test]
fn a_hint_is_bought_once(rt: HostRuntime) -> Result<(), Fail> {
    each::<Buying>(rt.alloc(), ONCE)
}

/// No such item, an item of the start, another's item, and one that is found.
const NOT_HINTED: &str = "new | Hat | no such name
new | Boots | nothing
new | Sword | nothing
new | Coin | nothing";

#[test]
fn what_is_not_hinted(rt: HostRuntime) -> Result<(), Fail> {
    each::<Buying>(rt.alloc(), NOT_HINTED)
}

/// Ann may name just a location of her own, of which there is no hint.
const HER_OWN: &str = "new | location B1 | no such name
new | location A1 | nothing
new | location Map | no such name";

#[test]
fn locations_are_hinted_in_their_own_world(rt: HostRuntime) -> Result<(), Fail> {
    each::<Buying>(rt.alloc(), HER_OWN)
}

/// A hint costs Ann a point, which she hasn't.
#[test]
fn hints_cost_points(rt: HostRuntime) -> Result<(), Fail> {
    let log = new_log(rt.alloc())?;
    let book = HintBook::new(rt.alloc());
    fine(&[
        (
            "Map",
            asked(rt.alloc(), &book, &log, "Map") == Ok("one point of none"),
        ),
        (
            "Boots",
            asked(rt.alloc(), &book, &log, "Boots") == Ok("nothing"),
        ),
        ("the cost", cost(ann(), &log) == 1),
    ])
}

/// What checks leave Bob, who has bought nothing, and Ann, who has bought a hint.
#[test]
fn points_are_what_checks_leave(rt: HostRuntime) -> Result<(), Fail> {
    let room = room_of(rt.alloc(), true, ann())?;
    let (team, slot) = (team(), ann());
    let checked = room.log.checked_len(team, slot);
    fine(&[
        (
            "Bob's two",
            room.book.points_once(team, bob(), 2, 0, &room.log) == Ok(2),
        ),
        ("Ann's two", checked == 2),
        (
            "what they leave her",
            room.book.points(team, slot, checked, &room.log) == 1,
        ),
        (
            "Ann's none",
            room.book.points_once(team, slot, 0, 0, &room.log) == Ok(0),
        ),
        (
            "one hint more",
            room.book.points_once(team, slot, 2, 1, &room.log) == Ok(0),
        ),
    ])
}

/// Whether a slot that scouts a location of its own makes these hints.
fn scouts(room: &Hinted, slot: SlotId, location: LocId, wanted: &[HintRecord]) -> bool {
    match room
        .book
        .scout(team(), slot, &[i128::from(location.get())], &room.log)
    {
        Ok(found) => found.as_slice() == wanted,
        Err(_) => false,
    }
}

#[test]
fn scouts_make_hints_of_what_is_not_checked(rt: HostRuntime) -> Result<(), Fail> {
    let room = room_of(rt.alloc(), false, ann())?;
    let wanted = made(bob(), false, HintStatus::new(0).unwrap());
    fine(&[("Bob's location", scouts(&room, bob(), b1(), &[wanted]))])
}

#[test]
fn scouts_make_no_hints_of_what_is_checked(rt: HostRuntime) -> Result<(), Fail> {
    let room = room_of(rt.alloc(), false, ann())?;
    fine(&[(
        "Ann's location",
        scouts(&room, ann(), LocId::new(101).unwrap(), &[]),
    )])
}

/// The record by which a slot gives the hint of Bob's location a status.
fn marks(room: &Hinted, by: SlotId, status: HintStatus) -> Option<HintRecord> {
    room.book
        .set_status(team(), by, bob(), b1(), status, &room.log)
}

/// Ann alone gives the hint another status.
#[test]
fn receivers_set_the_status(rt: HostRuntime) -> Result<(), Fail> {
    let room = room_of(rt.alloc(), true, ann())?;
    fine(&[
        (
            "Ann's mark",
            marks(&room, ann(), no_priority()) == Some(marked()),
        ),
        ("no other status", marks(&room, ann(), priority()).is_none()),
        ("Bob's mark", marks(&room, bob(), no_priority()).is_none()),
    ])
}

/// A book with that hint and its mark, in room that is taken ahead.
fn grown_book(alloc: Global) -> Result<HintBook, Memory> {
    let mut book = HintBook::new(alloc);
    let growth = book.room_for(2)?;
    book.add_grown(&[made(ann(), true, priority()), marked()], growth);
    Ok(book)
}

#[test]
fn hints_are_added_in_room_taken_ahead(rt: HostRuntime) -> Result<(), Fail> {
    let book = grown_book(rt.alloc())?;
    let wanted = Some(made(ann(), true, no_priority()));
    fine(&[
        (
            "the hint with its mark",
            book.hint_at(team(), bob(), b1()) == wanted,
        ),
        ("none of Ann's", book.hint_at(team(), ann(), b1()).is_none()),
    ])
}

/// Whether the hints that a slot is told are that of Bob's location alone, so.
fn is_told(room: &Hinted, slot: SlotId, found: bool, status: u8) -> bool {
    let wanted = Hint {
        receiving_player: 1,
        finding_player: bob(),
        location: b1(),
        item: ItemId::new(9).unwrap(),
        found,
        item_flags: 2,
        status,
    };
    match room.book.list(team(), slot, &room.log) {
        Ok(hints) => hints.as_slice() == [wanted].as_slice(),
        Err(_) => false,
    }
}

/// Both are told the hint, which isn't found.
#[test]
fn hints_are_told_to_both(rt: HostRuntime) -> Result<(), Fail> {
    let room = room_of(rt.alloc(), true, ann())?;
    fine(&[
        ("Ann", is_told(&room, ann(), false, 30)),
        ("Bob", is_told(&room, bob(), false, 30)),
    ])
}

/// The hint is found, and gets no status any more.
#[test]
fn hints_are_found_once_checked(rt: HostRuntime) -> Result<(), Fail> {
    let room = room_of(rt.alloc(), true, bob())?;
    fine(&[
        ("found", is_told(&room, bob(), true, 40)),
        ("no mark", marks(&room, ann(), no_priority()).is_none()),
    ])
}

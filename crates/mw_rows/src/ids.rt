use mw_base::{ItemId, List, LocId, SlotId, TeamId, Text};
use std::alloc::Global;

/// Whether there are slots from 1 to 1,024, and teams from 0 to 7.
fn slots_and_teams_have_their_range() -> bool {
    SlotId::new(0).is_none()
        && SlotId::new(1).is_some()
        && SlotId::new(1024).is_some()
        && SlotId::new(1025).is_none()
        && TeamId::new(0).is_some()
        && TeamId::new(7).is_some()
        && TeamId::new(8).is_none()
}

/// Whether a number is an id of an item, and of a location, or of neither.
fn is_id(value: i64, wanted: bool) -> bool {
    ItemId::new(value).is_some() == wanted && LocId::new(value).is_some() == wanted
}

#[test]
fn ids_have_their_ranges(rt: HostRuntime) {
    assert!(rt;
        slots_and_teams_have_their_range()
            && is_id(0, false)
            && is_id(1, true)
            && is_id(9_007_199_254_740_991, true)
            && is_id(9_007_199_254_740_992, false)
    );
}

/// Whether a list holds the numbers that are put.
fn list_holds(alloc: Global) -> bool {
    let mut list = List::new(alloc);
    list.push(3u8) == Ok(())
        && list.push(4u8) == Ok(())
        && list.as_slice() == [3, 4].as_slice()
        && list.get(1).copied() == Some(4)
}

/// Whether a text holds what is put.
fn text_holds(alloc: Global) -> bool {
    match &Text::of(alloc, "Ann") {
        Ok(text) => text.as_str() == "Ann",
        Err(_) => false,
    }
}

#[test]
fn lists_and_texts_hold_what_is_put(rt: HostRuntime) {
    assert!(rt; list_holds(rt.alloc()) && text_holds(rt.alloc()));
}

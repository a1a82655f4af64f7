//! The room that rows play, and the log of its checks.
use mw_base::{LocId, Memory, NetItem, SlotId, TeamId};
use mw_cases::ROOM_A;
use mw_checks::CheckLog;
use mw_multidata::{RoomTables, read};
use std::alloc::Global;
use std::test::Fail;

/// What a client sends: of these Ann has 101 and 102, and Bob has 201.
pub(crate) const NUMBERS: [i128; 6] = [201, 102, 101, 102, -1, 1_180_591_620_717_411_303_424];

pub(crate) fn team() -> TeamId {
    TeamId::new(0).unwrap()
}

pub(crate) fn ann() -> SlotId {
    SlotId::new(1).unwrap()
}

pub(crate) fn bob() -> SlotId {
    SlotId::new(2).unwrap()
}

/// Bob's location, which holds Ann's item.
pub(crate) fn b1() -> LocId {
    LocId::new(201).unwrap()
}

/// Bob's item, which Ann has.
pub(crate) const SWORD: NetItem = NetItem {
    item: 7,
    location: 101,
    player: 1,
    flags: 1,
};

/// Ann's item, which she has herself.
pub(crate) const COIN: NetItem = NetItem {
    item: 8,
    location: 102,
    player: 1,
    flags: 0,
};

/// Ann's item, which Bob has.
pub(crate) const MAP: NetItem = NetItem {
    item: 9,
    location: 201,
    player: 2,
    flags: 2,
};

/// The tables of a seed file that is accepted.
pub(crate) fn tables_of(alloc: Global, file: &str) -> Result<RoomTables, Fail> {
    match read(alloc, file.as_bytes()) {
        Ok(seed) => Ok(RoomTables::of(alloc, seed)?),
        Err(_) => Err(Fail::from("a seed file is refused")),
    }
}

/// The log of a room in which nothing is checked.
pub(crate) fn new_log(alloc: Global) -> Result<CheckLog, Fail> {
    Ok(CheckLog::new(alloc, tables_of(alloc, ROOM_A)?)?)
}

/// Enters what is fresh of the numbers for a slot, in room that is taken ahead.
fn enter(log: &mut CheckLog, slot: SlotId) -> Result<(), Memory> {
    let team = team();
    let fresh = log.fresh_of(team, slot, &NUMBERS)?;
    let growth = log.room_for(fresh.len() as u64)?;
    log.add_grown(team, fresh.as_slice(), growth);
    Ok(())
}

/// The log of a room in which a slot has checked all of its locations.
pub(crate) fn played_log(alloc: Global, slot: SlotId) -> Result<CheckLog, Fail> {
    let mut log = new_log(alloc)?;
    enter(&mut log, slot)?;
    Ok(log)
}

//! Checkpoints of a kept room, stopped at each call on a disk.
use crate::calls::{last_taken, try_calls};
use crate::cases::fine;
use crate::disks::{disk_of, kept_room, new_journal, new_room};
use mw_cases::ROOM_A;
use mw_checkpoint::{Files, Kept, checkpoint, chosen};
use mw_disk::{MemDisk, Tear};
use mw_multidata::digest;
use std::alloc::Global;
use std::test::Fail;

/// Ann checks her first location, and stores three values under one key.
const STORED: &str = r#"open | opened
Ann | done
first | done
[{"cmd":"Set","default":0,"key":"k","operations":[{"operation":"replace","value":1}],"want_reply":false}] | done
[{"cmd":"Set","default":0,"key":"k","operations":[{"operation":"replace","value":2}],"want_reply":false}] | done
[{"cmd":"Set","default":0,"key":"k","operations":[{"operation":"replace","value":3}],"want_reply":false}] | done
commit | done"#;

/// Bob comes, and gets the value.
const GOT: &str = r#"open | opened
Bob | done
[{"cmd":"Get","keys":["k"]}] | done"#;

/// What he is told.
const THREE: &str = r#"[{"cmd":"Retrieved","keys":{"k":3}}]"#;

/// Bob comes.
const BOB: &str = "open | opened\nBob | done";

/// What he has of Ann's first location.
const SWORD: &str =
    r#"{"cmd":"ReceivedItems","index":0,"items":[{"class":"NetworkItem","flags":1,"item":7,"location":101,"player":1}]}"#;

/// Three disks, the first of which is CHOICE.
pub(crate) fn files_of(
    alloc: Global,
    choice: &[u8],
    zero: &[u8],
    one: &[u8],
) -> Result<Files<MemDisk>, Fail> {
    Ok(Files {
        choice: disk_of(alloc, choice, None)?,
        zero: disk_of(alloc, zero, None)?,
        one: disk_of(alloc, one, None)?,
    })
}

/// The disks of a pair room in which that was stored.
fn stored(alloc: Global) -> Result<Files<MemDisk>, Fail> {
    let mut room = new_room(alloc, None)?;
    try_calls(alloc, &mut room, STORED)?;
    let empty = new_journal(alloc)?;
    files_of(alloc, &empty, room.into_disk().bytes(), &empty)
}

/// A checkpoint of it, and how many calls `chosen` makes on CHOICE.
fn thinned(alloc: Global) -> Result<(Files<MemDisk>, Kept, usize), Fail> {
    let digest = digest(ROOM_A.as_bytes());
    let opened = chosen(alloc, stored(alloc)?, &digest)
        .ok()
        .ok_or("not opened")?;
    let (files, outcome) = checkpoint(alloc, stored(alloc)?, &digest);
    let kept = outcome.ok().ok_or("not thinned")?;
    Ok((files, kept, opened.0.choice.calls().len()))
}

/// The bytes of the journal that these ones of CHOICE name.
fn named<'a>(
    alloc: Global,
    choice: &[u8],
    zero: &'a [u8],
    one: &'a [u8],
) -> Result<&'a [u8], Fail> {
    let files = files_of(alloc, choice, zero, one)?;
    let read = chosen(alloc, files, &digest(ROOM_A.as_bytes()));
    if read.ok().ok_or("no choice")?.1 == 0 {
        return Ok(zero);
    }
    Ok(one)
}

/// The last message to Bob in the room that these bytes keep, after these calls.
fn tells(alloc: Global, bytes: &[u8], calls: &str, wanted: &str) -> Result<bool, Fail> {
    let mut room = kept_room(alloc, bytes, None)?;
    try_calls(alloc, &mut room, calls)?;
    Ok(
        last_taken(&mut room)
            .ok_or("no message")?
            .as_str()
            .contains(wanted),
    )
}

/// How many of a checkpoint's calls were made on each disk, one disk after another: CHOICE as it is
/// opened, the journal that it names, the other one, and CHOICE once more.
#[derive(Clone, Copy)]
struct Stop {
    choice: usize,
    zero: usize,
    one: usize,
}

/// The stop after so many of all calls.
fn stop_at(files: &Files<MemDisk>, opening: usize, count: usize) -> Stop {
    let zero = files.zero.calls().len();
    let one = files.one.calls().len();
    let first = count.min(opening);
    let second = count.saturating_sub(opening);
    let third = second.saturating_sub(zero);
    Stop {
        choice: first.saturating_add(third.saturating_sub(one)),
        zero: second.min(zero),
        one: third.min(one),
    }
}

/// Fails, with the number of calls, unless what a crash leaves there answers as all records do.
fn survives(
    alloc: Global,
    files: &Files<MemDisk>,
    stop: Stop,
    tear: Tear,
    count: usize,
) -> Result<(), Fail> {
    let choice = files.choice.image_at(stop.choice, tear)?;
    let zero = files.zero.image_at(stop.zero, tear)?;
    let one = files.one.image_at(stop.one, tear)?;
    let bytes = named(alloc, choice.as_slice(), zero.as_slice(), one.as_slice())?;
    if tells(alloc, bytes, GOT, THREE)? && tells(alloc, bytes, BOB, SWORD)? {
        return Ok(());
    }
    Err(Fail::new(count))
}

#[test]
fn checkpoint_keeps_two_of_four(rt: HostRuntime) -> Result<(), Fail> {
    let (files, kept, opening) = thinned(rt.alloc())?;
    let all = files.choice.calls().len();
    fine(&[
        ("kept", kept.kept == 2),
        ("of", kept.of == 4),
        ("CHOICE is opened twice", opening.saturating_mul(2) < all),
    ])
}

/// Fails unless the room survives a stop at each call, with this left of the last writes.
fn survives_each(alloc: Global, tear: Tear) -> Result<(), Fail> {
    let (files, _, opening) = thinned(alloc)?;
    let journals = files
        .zero
        .calls()
        .len()
        .saturating_add(files.one.calls().len());
    let all = files.choice.calls().len().saturating_add(journals);
    for count in 0..all.saturating_add(1) {
        let stop = stop_at(&files, opening, count);
        survives(alloc, &files, stop, tear, count)?;
    }
    Ok(())
}

#[test]
fn stops_that_lose_the_last_writes(rt: HostRuntime) -> Result<(), Fail> {
    survives_each(rt.alloc(), Tear::Lost)
}

#[test]
fn stops_that_keep_them(rt: HostRuntime) -> Result<(), Fail> {
    survives_each(rt.alloc(), Tear::Done)
}

#[test]
fn stops_that_tear_them(rt: HostRuntime) -> Result<(), Fail> {
    for tear in [Tear::Filled(1), Tear::Filled(7)] {
        survives_each(rt.alloc(), tear)?;
    }
    Ok(())
}

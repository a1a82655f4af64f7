use crate::calls::{last_taken, try_calls};
use crate::cases::fine;
use crate::disks::{kept_room, new_room};
use mw_base::Text;
use mw_disk::{MemDisk, Tear};
use std::alloc::Global;
use std::test::Fail;

/// How Connected begins where none of Ann's locations is checked.
const NONE_CHECKED: &str = r#"[{"checked_locations":[],"cmd":"Connected""#;

/// The same where the first is.
const FIRST_CHECKED: &str = r#"[{"checked_locations":[101],"cmd":"Connected""#;

/// The same where both are.
const BOTH_CHECKED: &str = r#"[{"checked_locations":[101,102],"cmd":"Connected""#;

/// What a crash may leave of the last writes.
const TEARS: [Tear; 4] = [Tear::Lost, Tear::Done, Tear::Filled(1), Tear::Filled(7)];

/// A player comes.
const ANN: &str = "open | opened\nAnn | done";

/// Another one does.
const BOB: &str = "open | opened\nBob | done";

/// The last message of a player who comes to the room that these bytes keep.
fn told(alloc: Global, bytes: &[u8], player: &str) -> Result<Text, Fail> {
    let mut room = kept_room(alloc, bytes, None)?;
    try_calls(alloc, &mut room, player)?;
    Ok(last_taken(&mut room).ok_or("no message")?)
}

/// Ann checks both of her locations, and each check is committed.
const PLAY: &str = "open | opened
Ann | done
first | done
commit | done
second | done
commit | done";

/// The disk after calls on a new room.
fn played_disk(alloc: Global, calls: &str) -> Result<MemDisk, Fail> {
    let mut room = new_room(alloc, None)?;
    try_calls(alloc, &mut room, calls)?;
    Ok(room.into_disk())
}

/// What Bob is told of Ann's first location.
const SWORD: &str =
    r#"{"cmd":"ReceivedItems","index":0,"items":[{"class":"NetworkItem","flags":1,"item":7,"location":101,"player":1}]}"#;

/// Ann checks her first location, and nobody takes or commits.
const UNCOMMITTED: &str = "open | opened
Ann | done
first | done";

/// The same, and it is committed.
const COMMITTED: &str = "open | opened
Ann | done
first | done
commit | done";

/// A check that no commit and no take covered is lost at a crash: Bob is told of no item, and Ann
/// that nothing is checked. With a commit both are told of it.
#[test]
fn crash_before_commit(rt: HostRuntime) -> Result<(), Fail> {
    let lost = played_disk(rt.alloc(), UNCOMMITTED)?;
    let kept = played_disk(rt.alloc(), COMMITTED)?;
    let no_bob = told(rt.alloc(), lost.bytes(), BOB)?;
    let no_ann = told(rt.alloc(), lost.bytes(), ANN)?;
    let bob = told(rt.alloc(), kept.bytes(), BOB)?;
    let ann = told(rt.alloc(), kept.bytes(), ANN)?;
    fine(&[
        ("no item", !no_bob.as_str().contains("ReceivedItems")),
        ("no check", no_ann.as_str().contains(NONE_CHECKED)),
        ("Bob", bob.as_str().contains(SWORD)),
        ("Ann", ann.as_str().contains(FIRST_CHECKED)),
    ])
}

/// How a player's Connected begins once so many of the calls on the disk of two commits are made:
/// opening makes three, and each append four.
fn least_checked(moment: usize) -> &'static str {
    if moment >= 11 {
        BOTH_CHECKED
    } else if moment >= 7 {
        FIRST_CHECKED
    } else {
        NONE_CHECKED
    }
}

/// Whether a crash that leaves these bytes keeps the checks that were committed before it, and at
/// most the next one.
fn keeps(alloc: Global, bytes: &[u8], moment: usize) -> Result<bool, Fail> {
    let text = told(alloc, bytes, ANN)?;
    let next = least_checked(moment.saturating_add(4));
    Ok(text.as_str().contains(least_checked(moment)) || text.as_str().contains(next))
}

/// Fails, with the moment, unless a crash after so many calls does, on a disk that they were made
/// on, whatever it leaves of the last writes.
fn survives(alloc: Global, disk: &MemDisk, calls: usize, moment: usize) -> Result<(), Fail> {
    for tear in &TEARS {
        let image = disk.image_at(calls, *tear)?;
        if !keeps(alloc, image.as_slice(), moment)? {
            return Err(Fail::new(moment));
        }
    }
    Ok(())
}

#[test]
fn a_crash_at_each_call_keeps_what_is_committed(rt: HostRuntime) -> Result<(), Fail> {
    let disk = played_disk(rt.alloc(), PLAY)?;
    fine(&[("eleven calls", disk.calls().len() == 11)])?;
    for moment in 0..12usize {
        survives(rt.alloc(), &disk, moment, moment)?;
    }
    Ok(())
}

/// Fails unless a second crash does, at each call of the recovery after a first one.
fn survives_twice(alloc: Global, bytes: &[u8], moment: usize) -> Result<(), Fail> {
    let again = kept_room(alloc, bytes, None)?.into_disk();
    for calls in 0..again.calls().len() {
        survives(alloc, &again, calls, moment)?;
    }
    Ok(())
}

#[test]
fn a_crash_at_each_call_of_a_recovery_keeps_it(rt: HostRuntime) -> Result<(), Fail> {
    let disk = played_disk(rt.alloc(), PLAY)?;
    // The calls of both appends, where a crash may leave a gate that is neither shut nor open.
    for moment in 3..12usize {
        let image = disk.image_at(moment, Tear::Filled(7))?;
        survives_twice(rt.alloc(), image.as_slice(), moment)?;
    }
    Ok(())
}

/// A check is done once Ann has connected; her take of it fails, and then all that is asked of the
/// room is stopped.
const STOPPED: &str = "open | opened
Ann | done
first | done
take | stopped
second | stopped
7 | stopped
take | stopped
commit | stopped
open | stopped";

/// The disk of a room whose first append fails at its second sync, after which all is stopped.
fn stopped_disk(alloc: Global) -> Result<MemDisk, Fail> {
    let mut room = new_room(alloc, Some(6))?;
    try_calls(alloc, &mut room, STOPPED)?;
    Ok(room.into_disk())
}

#[test]
fn second_sync_fails(rt: HostRuntime) -> Result<(), Fail> {
    let disk = stopped_disk(rt.alloc())?;
    survives(rt.alloc(), &disk, 7, 3)
}

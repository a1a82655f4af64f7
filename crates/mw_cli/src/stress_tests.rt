//! Runs of `stress`. Their wanted texts are those of a model of the generator and of what slots
//! receive, written in another language.
use crate::harness::{Run, folder_of, runs_tell, told};
use std::test::Fail;

/// Words, and what is told.
const ROWS: [Run<'static>; 6] = [
    (
        "stress 1 0",
        "",
        "0 stress 1 0\ntry 0\nspheres 4\nslot 1 received 60 last 12\n",
    ),
    (
        "stress 1 0",
        "",
        "0 stress 1 0\ntry 0\nspheres 4\nslot 1 received 60 last 12\n",
    ),
    (
        "stress 2 7",
        "",
        "0 stress 2 7\ntry 0\nspheres 6\nslot 1 received 62 last 4\nslot 2 received 58 last 11\n",
    ),
    (
        "stress 3 18446744073709551615",
        "",
        "0 stress 3 18446744073709551615\ntry 0\nspheres 12\nslot 1 received 62 last 10\n\
         slot 2 received 64 last 12\nslot 3 received 54 last 11\n",
    ),
    ("stress 0 1", "", "2 bad words\n"),
    ("stress 65 1", "", "2 bad words\n"),
];

#[test]
fn stress_tells_what_each_slot_received(rt: HostRuntime) -> Result<(), Fail> {
    let mut folder = folder_of(rt.alloc(), &[], "", "")?;
    runs_tell(&rt, rt.alloc(), &mut folder, "", &ROWS, "")
}

#[test]
fn stress_on_a_sink_that_fails(rt: HostRuntime) -> Result<(), Fail> {
    let mut folder = folder_of(rt.alloc(), &[], "", "")?;
    let failed = [("stress 1 0", "", "5 device failed\n")];
    runs_tell(&rt, rt.alloc(), &mut folder, "- - 0 -", &failed, "")
}

/// How many items a slot's line tells of.
fn received(line: &str) -> u64 {
    let Some((_, rest)) = line.split_once(" received ") else {
        return 0;
    };
    let number = rest.split(' ').next().unwrap_or("");
    number.parse::<u64>().unwrap_or(0)
}

#[test]
fn sixty_four_slots_receive_all_items(rt: HostRuntime) -> Result<(), Fail> {
    let mut folder = folder_of(rt.alloc(), &[], "", "")?;
    let told = told(&rt, rt.alloc(), &mut folder, "stress 64 0", "", "")?;
    let mut all: u64 = 0;
    for line in told.lines() {
        all = all.saturating_add(received(line));
    }
    if all == 3840 {
        return Ok(());
    }
    Err(Fail::from("other items"))
}

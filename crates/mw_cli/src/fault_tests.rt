//! Devices that fail at each of their calls, and messages at their limits.
use crate::harness::{fits, folder_of, told};
use crate::kept_room_tests::{folder_on, plan_of};
use crate::tests::FOLDER_A;
use std::alloc::Global;
use std::sync::Wait;
use std::test::Fail;
use std::thread::Threads;

/// A session of Room A is opened, and takes; a further take finds nothing.
const OPENS: &str = "open\ntake 1\nopen\ntake 2\n";

/// What a run of `drive A` tells where the call of a device fails that `$0` stands for.
fn told_by_drive<R: Threads + Wait + Sync>(
    rt: &R,
    alloc: Global,
    lines: &str,
    calls: &str,
) -> Result<String, Fail> {
    let mut folder = folder_of(alloc, &FOLDER_A, "", "")?;
    told(rt, alloc, &mut folder, "drive A", lines, calls)
}

#[test]
fn the_input_fails_at_each_call(rt: HostRuntime) -> Result<(), Fail> {
    for calls in ["- 0 - -", "- 1 - -"] {
        let told = told_by_drive(&rt, rt.alloc(), OPENS, calls)?;
        assert!(rt; told.as_str() == "5 device failed\n");
    }
    Ok(())
}

/// Whether a run that failed put a front of this text.
fn is_front(told: &str, whole: &str) -> bool {
    let rest = told.strip_prefix("5 ").unwrap_or("none");
    match rest.strip_suffix("device failed\n") {
        Some(front) => whole.starts_with(front),
        None => false,
    }
}

#[test]
fn the_out_sink_fails_at_each_call(rt: HostRuntime) -> Result<(), Fail> {
    let alloc = rt.alloc();
    let told = told_by_drive(&rt, alloc, OPENS, "")?;
    let whole = told.as_str().strip_prefix("0 ").ok_or("not done")?;
    for calls in ["- - 0 -", "- - 1 -", "- - 2 -", "- - 3 -"] {
        let told = told_by_drive(&rt, alloc, OPENS, calls)?;
        assert!(rt; is_front(told.as_str(), whole));
    }
    Ok(())
}

/// Two commits, and two takes that commit.
const COMMITS: [&str; 2] = [
    "open\nconnect 1 Ann 7\nchecks 1 [101]\ncommit\nchecks 1 [102]\ncommit\n",
    "open\nconnect 1 Ann 7\nchecks 1 [101]\ntake 1\nchecks 1 [102]\ntake 1\n",
];

/// Whether a run on a disk whose call of this number fails ends with 5. Opening makes three calls,
/// and each commit four.
fn fails_at<R: Threads + Wait + Sync>(
    rt: &R,
    alloc: Global,
    lines: &str,
    failing: u64,
) -> Result<bool, Fail> {
    let mut folder = folder_on(alloc, plan_of(alloc, failing)?)?;
    let told = told(rt, alloc, &mut folder, "drive A J", lines, "")?;
    if failing < 11 {
        return Ok(told.starts_with("5 ") && told.ends_with("device failed\n"));
    }
    Ok(told.starts_with("0 "))
}

#[test]
fn the_disk_fails_at_each_call_of_two_commits(rt: HostRuntime) -> Result<(), Fail> {
    for lines in COMMITS {
        for failing in 0..12 {
            assert!(rt; fails_at(&rt, rt.alloc(), lines, failing)?);
        }
    }
    Ok(())
}

/// So many copies of a text.
fn copies(alloc: Global, text: &str, many: u64) -> Result<String, Fail> {
    let mut copies = String::new(alloc);
    for _ in 0..many {
        copies.push_str(text)?;
    }
    Ok(copies)
}

/// What is told of a text that a session sends before it connects.
fn told_of_text<R: Threads + Wait + Sync>(
    rt: &R,
    alloc: Global,
    text: &str,
) -> Result<String, Fail> {
    let lines = format!(in alloc; "open\ntext 1 {text}\ntake 1\n")?;
    told_by_drive(rt, alloc, lines.as_str(), "")
}

/// What is told of a packet in which a member that no table names nests so deep, in a message that
/// nests two levels deeper.
fn told_of_nested<R: Threads + Wait + Sync>(
    rt: &R,
    alloc: Global,
    levels: u64,
) -> Result<String, Fail> {
    let (front, back) = (copies(alloc, "[", levels)?, copies(alloc, "]", levels)?);
    let (front, back) = (front.as_str(), back.as_str());
    let text = format!(in alloc; "[{{\"cmd\":\"Fly\",\"deep\":{front}{back}}}]")?;
    told_of_text(rt, alloc, text.as_str())
}

#[test]
fn a_message_nests_64_levels_deep(rt: HostRuntime) -> Result<(), Fail> {
    let told = told_of_nested(&rt, rt.alloc(), 62)?;
    assert!(rt;
        fits(
            told.as_str(),
            "0 1 [..\"text\":\"unknown cmd\",\"type\":\"cmd\"}]\n"
        )
    );
    let told = told_of_nested(&rt, rt.alloc(), 63)?;
    assert!(rt;
        fits(
            told.as_str(),
            "0 1 [..\"text\":\"no JSON list\",\"type\":\"cmd\"}]\n"
        )
    );
    Ok(())
}

/// What is told of a message of so many packets.
fn told_of_packets<R: Threads + Wait + Sync>(
    rt: &R,
    alloc: Global,
    many: u64,
) -> Result<String, Fail> {
    let rest = copies(alloc, ",{\"cmd\":\"Fly\"}", many.saturating_sub(1))?;
    let rest = rest.as_str();
    let text = format!(in alloc; "[{{\"cmd\":\"Fly\"}}{rest}]")?;
    told_of_text(rt, alloc, text.as_str())
}

#[test]
fn a_message_has_1024_packets(rt: HostRuntime) -> Result<(), Fail> {
    let told = told_of_packets(&rt, rt.alloc(), 1024)?;
    assert!(rt; told.lines().count() == 1025);
    let told = told_of_packets(&rt, rt.alloc(), 1025)?;
    assert!(rt; told.lines().count() == 2);
    assert!(rt;
        fits(
            told.as_str(),
            "0 1 [..\"text\":\"more than 1024 packets\",\"type\":\"cmd\"}]\n"
        )
    );
    Ok(())
}

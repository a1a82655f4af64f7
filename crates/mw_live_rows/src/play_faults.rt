//! Runs of a client whose devices fail.

use crate::play_runs::{ANN, Failing, NONE, Run, empty_folder, faults_at, tells, told_with};
use mw_base::{List, Text};
use mw_disk::DiskError;
use mw_edges::MemoryFolder;
use std::alloc::Global;
use std::test::Fail;

/// A device that fails, or none that answers; and a disk without memory.
#[test]
fn devices_fail(rt: HostRuntime) -> Result<(), Fail> {
    let alloc = rt.alloc();
    let run = Run {
        line: ANN,
        input: "101",
        coming: &["info", "joined", "first"],
    };
    let fault = "5 device failed\n";
    let source = Failing {
        source: &[0],
        ..NONE
    };
    tells(alloc, &mut empty_folder(alloc)?, &run, &source, fault)?;
    let dial = Failing { dial: true, ..NONE };
    tells(alloc, &mut empty_folder(alloc)?, &run, &dial, fault)?;
    let mut folder = MemoryFolder::new(List::new(alloc), faults_at(alloc, &[0])?);
    tells(alloc, &mut folder, &run, &NONE, fault)?;
    let out = Failing { out: &[0], ..NONE };
    let told = told_with(alloc, &mut empty_folder(alloc)?, &run, &out)?;
    if !told.starts_with("5 device failed\n> ") {
        return Err(Fail::new(told.as_str()));
    }
    Ok(())
}

/// Each call of the link fails in turn; what came before is kept.
#[test]
fn a_link_fails_at_each_call(rt: HostRuntime) -> Result<(), Fail> {
    let alloc = rt.alloc();
    let run = Run {
        line: ANN,
        input: "",
        coming: &["info", "joined", "first"],
    };
    let again = Run {
        line: ANN,
        input: "",
        coming: &[],
    };
    for call in 0..5 {
        let mut folder = empty_folder(alloc)?;
        let link = Failing {
            link: &[call],
            ..NONE
        };
        let told = told_with(alloc, &mut folder, &run, &link)?;
        if !told.starts_with("5 device failed\n") {
            return Err(Fail::new(told.as_str()));
        }
        let wanted = if call < 4 {
            "1 items 0\nended early\n"
        } else {
            "1 items 1\n5 -2 0 0\nended early\n"
        };
        tells(alloc, &mut folder, &again, &NONE, wanted)?;
    }
    Ok(())
}

/// The status of a run whose save file's disk gives this error at the call of a number.
fn told_on_disk(alloc: Global, call: u64, error: DiskError) -> Result<String, Fail> {
    let mut calls = List::new(alloc);
    calls.push((call, error))?;
    let folder = empty_folder(alloc)?;
    let mut folder = folder.with_failing_disk(Text::of(alloc, "save")?, calls)?;
    let run = Run {
        line: ANN,
        input: "",
        coming: &["info", "joined", "first"],
    };
    told_with(alloc, &mut folder, &run, &NONE)
}

/// Each call of the save file's disk fails in turn: three as it is made, four as the item is saved.
#[test]
fn a_disk_fails_at_each_call(rt: HostRuntime) -> Result<(), Fail> {
    let alloc = rt.alloc();
    for call in 0..7 {
        let told = told_on_disk(alloc, call, DiskError::Failed)?;
        if !told.starts_with("5 device failed\n") {
            return Err(Fail::new(told.as_str()));
        }
        let told = told_on_disk(alloc, call, DiskError::Memory)?;
        if !told.starts_with("6 no memory\n") {
            return Err(Fail::new(told.as_str()));
        }
    }
    let told = told_on_disk(alloc, 7, DiskError::Failed)?;
    if !told.starts_with("0 items 1\n") {
        return Err(Fail::new(told.as_str()));
    }
    Ok(())
}

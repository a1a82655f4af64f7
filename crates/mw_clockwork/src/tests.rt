//! The tests: what the program writes into a folder in memory.
use crate::run::run;
use mw_base::{Bytes, List, Text};
use mw_edges::{Faults, FileRead, Folder, MemoryFolder, MemorySink};
use mw_offline::{GenerateWords, cmd_generate};
use std::alloc::Global;
use std::test::Fail;

fn no_faults(alloc: Global) -> Faults {
    Faults::at(List::new(alloc))
}

fn empty_folder(alloc: Global) -> MemoryFolder {
    MemoryFolder::new(List::new(alloc), no_faults(alloc))
}

/// A run. Its clauses stay here: the tests look at what it leaves.
fn ran(
    alloc: Global,
    words: &[Text],
    folder: &mut MemoryFolder,
    out: &mut MemorySink,
    err: &mut MemorySink,
) -> u8 {
    run(alloc, words, folder, out, err)
}

/// What a run told: its status, a blank, what was put, and the error line.
fn told_of(alloc: Global, status: u8, out: &MemorySink, err: &MemorySink) -> Result<String, Fail> {
    let printed = std::str::from_utf8(out.bytes()).or(Err("no text"))?;
    let line = std::str::from_utf8(err.bytes()).or(Err("no text"))?;
    let status = u64::from(status);
    Ok(format!(in alloc; "{status} {printed}{line}")?)
}

/// What a run of a line of words tells.
fn told(alloc: Global, folder: &mut MemoryFolder, line: &str) -> Result<String, Fail> {
    let mut words = Vec::new(alloc);
    for word in line.split(' ') {
        words.push(Text::of(alloc, word)?)?;
    }
    let mut out = MemorySink::new(alloc, no_faults(alloc));
    let mut err = MemorySink::new(alloc, no_faults(alloc));
    let status = ran(alloc, words.as_slice(), folder, &mut out, &mut err);
    told_of(alloc, status, &out, &err)
}

/// What a file has.
fn file_in(alloc: Global, folder: &mut MemoryFolder, name: &str) -> Result<Bytes, Fail> {
    let name = Text::of(alloc, name)?;
    match folder.read_file(alloc, &name, 1_000_000) {
        Ok(FileRead::Whole(bytes)) => Ok(bytes),
        _ => Err(Fail::from("no file")),
    }
}

/// The seed file of one gear and the number 0.
const ONE_GEAR: &str =
    r#"{"format":"mw-multidata-1","games":{"Clockwork":{"item_name_to_id":{"Gear":1,"Oil":2},"location_name_to_id":{"Bell":3,"Box 1":1,"Box 2":2}}},"locations":[[1,1,1,1,1],[1,2,2,1,0],[1,3,2,1,0]],"seed_name":"0","server":{"collect":"auto","hint_cost":10,"location_check_points":1,"password":"","release":"auto","remaining":"goal"},"slots":[{"game":"Clockwork","names":["Player"],"start":[]}],"spheres":[[[1,0]]],"teams":1}"#;

#[test]
fn one_gear(rt: HostRuntime) -> Result<(), Fail> {
    let alloc = rt.alloc();
    let mut folder = empty_folder(alloc);
    let told = told(alloc, &mut folder, "generate 1 0 out.json")?;
    if told.as_str() != "0 seed 0 try 0 spheres 1\n1 Player: Box 1 -> Player: Gear\n" {
        return Err(Fail::new(told.as_str()));
    }
    let file = file_in(alloc, &mut folder, "out.json")?;
    if file.as_slice() != ONE_GEAR.as_bytes() {
        return Err(Fail::from("another seed file"));
    }
    Ok(())
}

/// What `multiworld generate` tells of the tables in a folder. Its clauses stay here too.
fn told_by_tables(alloc: Global, folder: &mut MemoryFolder, seed: u64) -> Result<String, Fail> {
    let words = GenerateWords {
        players: Text::of(alloc, "players.json")?,
        out_name: Text::of(alloc, "same.json")?,
        seed,
        tries: 100,
    };
    let mut out = MemorySink::new(alloc, no_faults(alloc));
    let mut err = MemorySink::new(alloc, no_faults(alloc));
    let status = cmd_generate(alloc, &words, folder, &mut out, &mut err);
    told_of(alloc, status, &out, &err)
}

/// Fails where the closure tells other than the tables, or writes another seed file.
fn agree(alloc: Global, folder: &mut MemoryFolder, seed: u64) -> Result<(), Fail> {
    let line = format!(in alloc; "generate 20 {seed} out.json")?;
    let told = told(alloc, folder, line.as_str())?;
    let told_too = told_by_tables(alloc, folder, seed)?;
    if told.as_str() != told_too.as_str() {
        return Err(Fail::new(told.as_str()));
    }
    if told.as_str() == "4 exhausted after 100 tries\n" {
        return Ok(());
    }
    let bytes = file_in(alloc, folder, "out.json")?;
    let same = file_in(alloc, folder, "same.json")?;
    if !told.starts_with("0 ") || bytes.as_slice() != same.as_slice() {
        return Err(Fail::new(line.as_str()));
    }
    Ok(())
}

#[test]
fn twenty_gears(rt: HostRuntime) -> Result<(), Fail> {
    let alloc = rt.alloc();
    let mut folder = empty_folder(alloc);
    let told = told(alloc, &mut folder, "tables 20 world.json players.json")?;
    if told.as_str() != "0 tables made\n" {
        return Err(Fail::new(told.as_str()));
    }
    for seed in 0..10 {
        agree(alloc, &mut folder, seed)?;
    }
    Ok(())
}

/// Words that are no command.
const NO_COMMANDS: [&str; 7] = [
    "generate 0 0 out.json",
    "generate 21 0 out.json",
    "generate 1 -1 out.json",
    "generate 01 0 out.json",
    "tables 0 world.json players.json",
    "tables 1 same.json same.json",
    "tables 1 world.json",
];

#[test]
fn no_such_size(rt: HostRuntime) -> Result<(), Fail> {
    let alloc = rt.alloc();
    let mut folder = empty_folder(alloc);
    for line in NO_COMMANDS.iter() {
        if told(alloc, &mut folder, line)?.as_str() != "2 bad words\n" {
            return Err(Fail::new(line));
        }
    }
    Ok(())
}

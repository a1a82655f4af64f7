//! Save files that a client refuses.

use crate::play_runs::{ANN, NONE, Run, empty_folder, faults_at, tells, told_with};
use mw_base::{Bytes, List, Text};
use mw_edges::{FileRead, Folder, MemoryFolder};
use std::alloc::Global;
use std::test::Fail;

/// The bytes of the save file.
fn saved(alloc: Global, folder: &mut MemoryFolder) -> Result<Vec<u8>, Fail> {
    match folder.read_file(alloc, &Text::of(alloc, "save")?, 1_000_000) {
        Ok(FileRead::Whole(bytes)) => Ok(bytes.into_vec()),
        _ => Err(Fail::from("no file")),
    }
}

/// A folder with this save file.
fn folder_with(alloc: Global, bytes: &[u8]) -> Result<MemoryFolder, Fail> {
    let mut files = List::new(alloc);
    let bytes = Bytes::from_vec(Vec::from_slice(alloc, bytes)?);
    files.push((Text::of(alloc, "save")?, bytes))?;
    Ok(MemoryFolder::new(files, faults_at(alloc, &[])?))
}

/// The save file of a run that ended with one item.
fn save_of_one(alloc: Global) -> Result<Vec<u8>, Fail> {
    let mut folder = empty_folder(alloc)?;
    let run = Run {
        line: ANN,
        input: "",
        coming: &["info", "joined", "first"],
    };
    told_with(alloc, &mut folder, &run, &NONE)?;
    saved(alloc, &mut folder)
}

/// Fails where a run on these bytes tells another than what is wanted, or changes them.
fn refuses(alloc: Global, line: &str, bytes: &[u8], wanted: &str) -> Result<(), Fail> {
    let mut folder = folder_with(alloc, bytes)?;
    let run = Run {
        line,
        input: "",
        coming: &["info"],
    };
    tells(alloc, &mut folder, &run, &NONE, wanted)?;
    if saved(alloc, &mut folder)?.as_slice() != bytes {
        return Err(Fail::from("the save file changed"));
    }
    Ok(())
}

/// A save file that is no journal, is cut, is of another game or name, or has another body.
#[test]
fn save_files_are_refused(rt: HostRuntime) -> Result<(), Fail> {
    let alloc = rt.alloc();
    let save = save_of_one(alloc)?;
    refuses(alloc, ANN, b"save", "7 save refused: NotJournal\n")?;
    let (cut, _) = save.as_slice().split_at(save.len().saturating_sub(2));
    refuses(alloc, ANN, cut, "7 save refused: NotJournal\n")?;
    let bob = "room:1 Bob G save 100";
    refuses(alloc, bob, save.as_slice(), "7 save refused: OtherSeed\n")?;
    let game = "room:1 Ann H save 100";
    refuses(alloc, game, save.as_slice(), "7 save refused: OtherSeed\n")?;
    let mut other = save_of_one(alloc)?;
    if let Some(kind) = other.get_mut(45) {
        *kind = 2;
    }
    refuses(alloc, ANN, other.as_slice(), "7 save refused: BadBody\n")
}

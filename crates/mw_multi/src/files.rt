ghost use Rattle.std.specs.Prelude.{◌≡◌, [], IfOk, OnOk, bytes_eq};
ghost use Rattle.std.specs.List.{position_from};
ghost use Rattle.mw_multi.specs.Files.{is_among, with_file, world_files};

use crate::players::Players;
use mw_base::{List, Memory, Text};
use std::alloc::Global;

/// The index of a file's name; None exactly where it isn't there.
pub(crate) fn find_file(files: &[Text], name: &str) -> Option<usize>
    ensures { result ≡ position_from (bytes_eq name.now) 0 files.now }
{
    for (i, file) in files.iter().enumerate() {
        if name == file.as_str() {
            return Some(i);
        }
    }
    None
}

/// Whether a file's name is there.
fn has_file(files: &[Text], name: &str) -> bool
    ensures { result ≡ is_among files.now name.now }
{
    for file in files {
        if name == file.as_str() {
            return true;
        }
    }
    false
}

/// Adds a file's name where it isn't there yet.
fn note_file(alloc: Global, files: &mut List<Text>, name: &str) -> Result<(), Memory>
    ensures { OnOk result (files.new ≡ with_file files.old name.now) }
{
    if !has_file(files.as_slice(), name) {
        files.push(Text::of(alloc, name)?)?;
    }
    Ok(())
}

impl Players {
    /// The different world files that the players name, in first-named order; `Memory` where memory ran out.
    pub fn world_files(&self, alloc: Global) -> Result<List<Text>, Memory>
        ensures { IfOk result (λ files. files ≡ world_files self.now) }
    {
        let mut files = List::new(alloc);
        for player in self.players.as_slice() {
            note_file(alloc, &mut files, player.world.as_str())?;
        }
        Ok(files)
    }
}

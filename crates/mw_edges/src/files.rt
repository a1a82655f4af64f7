ghost use Rattle.std.specs.Prelude.{◌≡◌, Some, IfOk, OnOk, OnErr};
ghost use Rattle.std.specs.Option.{option_copied};
ghost use Rattle.mw_edges.specs.Files.{entry_of, with_entry};
ghost use Rattle.mw_edges.specs.Places.{place_in};
ghost use Rattle.mw_edges.specs.Folders.{GivesFile};

use crate::folder::FileRead;
use mw_base::{Bytes, Memory, Text};
use std::alloc::Global;

/// The first entry of a name.
pub(crate) fn find_entry<'a, T>(entries: &'a [(Text, T)], name: &str) -> Option<&'a T>
    ensures { option_copied result ≡ entry_of entries.now name.now }
{
    for entry in entries {
        if entry.0.as_str() == name {
            return Some(&entry.1);
        }
    }
    None
}

/// What a read of a file with these bytes gives.
pub(crate) fn read_bytes(alloc: Global, bytes: &[u8], limit: u64) -> Result<FileRead, Memory>
    ensures { IfOk result (GivesFile (Some (Some bytes.now)) limit) }
{
    if bytes.len() as u64 > limit {
        return Ok(FileRead::Longer);
    }
    let copy = Vec::from_slice(alloc, bytes)?;
    Ok(FileRead::Whole(Bytes::from_vec(copy)))
}

/// The place of the first entry of a name, or the number of entries where none has it.
pub(crate) fn place_of<T>(entries: &[(Text, T)], name: &str) -> usize
    ensures { result ≡ place_in entries.now name.now }
{
    for (i, entry) in entries.iter().enumerate() {
        if entry.0.as_str() == name {
            return i;
        }
    }
    entries.len()
}

/// Puts an entry in place of the first one of its name, or behind the others. After `Memory` the
/// entries are as before.
#[tactic(auto, using(crate::proofs::Replaced::set_there, crate::proofs::Replaced::pushed))]
pub(crate) fn put_entry<T: Drop>(
    entries: &mut Vec<(Text, T)>,
    name: Text,
    value: T,
) -> Result<(), Memory>
    ensures ok { OnOk result (entries.new.items ≡ with_entry entries.old.items name value) }
    ensures err { OnErr result (entries.new.items ≡ entries.old.items) }
{
    let at = place_of(entries.as_slice(), name.as_str());
    if at < entries.len() {
        entries[at] = (name, value);
    } else {
        entries.push((name, value))?;
    }
    Ok(())
}

/// The same of a copy of a file's name and bytes.
pub(crate) fn write_bytes(
    alloc: Global,
    files: &mut Vec<(Text, Bytes)>,
    name: &str,
    bytes: &[u8],
) -> Result<(), Memory>
    ensures ok { OnOk result (files.new.items ≡ with_entry files.old.items name.now bytes.now) }
    ensures err { OnErr result (files.new.items ≡ files.old.items) }
{
    let copy = Vec::from_slice(alloc, bytes)?;
    let name = Text::of(alloc, name)?;
    put_entry(files, name, Bytes::from_vec(copy))
}

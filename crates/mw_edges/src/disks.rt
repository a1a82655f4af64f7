ghost use Rattle.std.specs.Prelude.{◌≡◌, ◌⊎◌, ℕ, List, [], Some, true, false, IfOk, OnOk, OnErr, unwrap_or};
ghost use Rattle.std.specs.Option.{option_copied, option_map};
ghost use Rattle.mw_edges.specs.Disks.{is_open_in, shown_file, opened_disk, closed_of, written_disk, IsFileImage};
ghost use Rattle.mw_edges.specs.Files.{entry_of, HasPut};
ghost use Rattle.mw_edges.specs.Folders.{SameImages};

use crate::files::{find_entry, place_of, put_entry};
use mw_base::{Bytes, Memory, Text};
use mw_disk::MemDisk;
use std::alloc::Global;

/// What is kept of a name whose file was opened as a disk.
#[derive(Drop)]
pub(crate) struct KeptDisk {
    /// Whether a disk is open.
    pub(crate) opened: bool,
    /// The disk that was closed last, where the file was not written since.
    pub(crate) closed: Option<MemDisk>,
}

/// Whether a disk of a name is open.
pub(crate) fn is_open(disks: &[(Text, KeptDisk)], name: &str) -> bool
    ensures { result ≡ is_open_in disks.now name.now }
{
    match find_entry(disks, name) {
        Some(kept) => kept.opened,
        None => false,
    }
}

/// The disk of a name that was closed last, where its file was not written since.
pub(crate) fn find_closed<'a>(disks: &'a [(Text, KeptDisk)], name: &str) -> Option<&'a MemDisk>
    ensures { option_copied result ≡ closed_of disks.now name.now }
{
    match find_entry(disks, name) {
        Some(kept) => kept.closed.as_ref(),
        None => None,
    }
}

/// The bytes of a name: of its closed disk, or else of its file.
pub(crate) fn find_bytes<'a>(
    files: &'a [(Text, Bytes)],
    disks: &'a [(Text, KeptDisk)],
    name: &str,
) -> Option<&'a [u8]>
    ensures { option_map (λ bytes. bytes.now) result ≡ shown_file files.now disks.now name.now }
{
    if let Some(disk) = find_closed(disks, name) {
        return Some(disk.bytes());
    }
    match find_entry(files, name) {
        Some(bytes) => Some(bytes.as_slice()),
        None => None,
    }
}

/// A copy of the bytes of a name, none where there is no file; a crash may leave them.
#[tactic(auto, using(crate::proofs::KeptDisks::shown_image))]
pub(crate) fn copy_bytes(
    alloc: Global,
    files: &[(Text, Bytes)],
    disks: &[(Text, KeptDisk)],
    name: &str,
) -> Result<Bytes, Memory>
    ensures bytes { IfOk result
        (λ bytes. bytes ≡ unwrap_or (shown_file files.now disks.now name.now) []) }
    ensures image { IfOk result (IsFileImage files.now disks.now name.now) }
{
    match find_bytes(files, disks, name) {
        Some(bytes) => Ok(Bytes::from_vec(Vec::from_slice(alloc, bytes)?)),
        None => Ok(Bytes::new(alloc)),
    }
}

/// Makes a file that isn't there, empty. After `Memory` the files are as before.
#[tactic(auto, using(crate::proofs::Replaced::entry_there, crate::proofs::Replaced::others_there))]
pub(crate) fn make_file(
    alloc: Global,
    files: &mut Vec<(Text, Bytes)>,
    name: &str,
) -> Result<(), Memory>
    ensures ok { OnOk result (HasPut files.old.items files.new.items name.now
        (Some (unwrap_or (entry_of files.old.items name.now) []))) }
    ensures err { OnErr result (files.new.items ≡ files.old.items) }
{
    if find_entry(files.as_slice(), name).is_none() {
        let name = Text::of(alloc, name)?;
        put_entry(files, name, Bytes::new(alloc))?;
    }
    Ok(())
}

/// Keeps that a disk of a name is open. After `Memory` all is as before.
#[tactic(auto, using(crate::proofs::Replaced::entry_there, crate::proofs::Replaced::others_there))]
pub(crate) fn keep_open(
    alloc: Global,
    disks: &mut Vec<(Text, KeptDisk)>,
    name: &str,
) -> Result<(), Memory>
    ensures ok { OnOk result (HasPut disks.old.items disks.new.items name.now
        (Some (opened_disk (entry_of disks.old.items name.now)))) }
    ensures err { OnErr result (disks.new.items ≡ disks.old.items) }
{
    let at = place_of(disks.as_slice(), name);
    if at < disks.len() {
        disks[at].1.opened = true;
        return Ok(());
    }
    let name = Text::of(alloc, name)?;
    let kept = KeptDisk {
        opened: true,
        closed: None,
    };
    put_entry(disks, name, kept)
}

/// Keeps that a disk of a name is open, and makes its file where it isn't there. A crash may leave
/// the same as before.
///
/// After `Memory` all is as before, but for the file, which may then be there, and empty.
pub(crate) fn open_kept(
    alloc: Global,
    files: &mut Vec<(Text, Bytes)>,
    disks: &mut Vec<(Text, KeptDisk)>,
    name: &str,
) -> Result<(), Memory>
    ensures files { OnOk result (HasPut files.old.items files.new.items name.now
        (Some (unwrap_or (entry_of files.old.items name.now) []))) }
    ensures disks { OnOk result (HasPut disks.old.items disks.new.items name.now
        (Some (opened_disk (entry_of disks.old.items name.now)))) }
    ensures kept { OnErr result ((files.new.items ≡ files.old.items)
        ⊎ HasPut files.old.items files.new.items name.now
        (Some (unwrap_or (entry_of files.old.items name.now) []))) }
    ensures unopened { OnErr result (disks.new.items ≡ disks.old.items) }
    ensures crash { (n : List ℕ) → SameImages (IsFileImage files.old.items disks.old.items n)
        (IsFileImage files.new.items disks.new.items n) }
{
    make_file(alloc, files, name)?;
    keep_open(alloc, disks, name)?;
    Ok(())
}

/// Keeps a disk of a name that is closed.
pub(crate) fn keep_closed(disks: &mut Vec<(Text, KeptDisk)>, name: &str, disk: MemDisk)
    requires { is_open_in disks.old.items name.now ≡ true }
    ensures { HasPut disks.old.items disks.new.items name.now
        (Some (record { opened = false; closed = Some disk })) }
{
    let at = place_of(disks.as_slice(), name);
    disks[at].1 = KeptDisk {
        opened: false,
        closed: Some(disk),
    };
}

/// Forgets the disk of a name that was closed last, since its file is written.
pub(crate) fn forget_closed(disks: &mut Vec<(Text, KeptDisk)>, name: &str)
    ensures { HasPut disks.old.items disks.new.items name.now
        (written_disk (entry_of disks.old.items name.now)) }
{
    let at = place_of(disks.as_slice(), name);
    if at < disks.len() {
        disks[at].1.closed = None;
    }
}

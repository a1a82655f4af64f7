//! Whether a seed file's groups and entries agree with joined tables.
ghost use Rattle.std.specs.Prelude.{◌≡◌, IfOk, IfErr};
ghost use Rattle.mw_seeds.specs.FilePuts.{earlier_of as earlier};
ghost use Rattle.mw_seeds.specs.Agreeing.{is_in_both as is_plain_receiver};
ghost use Rattle.mw_seeds.specs.Keys.{as_held, key_of as plain_key, fits_at, fits_among, first_other_key};
ghost use Rattle.mw_seeds.specs.Judging.{IsPlacementIn, IsOther};

use crate::catalog::{Catalog, catalogs_of};
use crate::file_puts::{file_puts, index_of};
use crate::keys::{Key, compare_keys, keys_of};
use crate::refusal::SeedRefusal;
use crate::seed_groups::links_agree;
use mw_multi::{Joint, Placement};
use mw_multidata::{Held, Multidata};
use std::alloc::Global;

/// Whether a receiver's number is that of a slot in tables of so many slots and in a file of so many,
/// or of a link and a group, which are numbered on from as many.
fn is_in_both(slots: usize, many: usize, receiver: u16) -> bool
    ensures { result ≡ is_plain_receiver slots many receiver }
{
    if receiver as usize <= slots {
        receiver as usize <= many
    } else {
        many == slots
    }
}

/// Whether an entry is for such a receiver, with an item that fits.
fn fits(catalogs: &[Catalog], slots: usize, many: usize, held: &Held) -> bool
    ensures { result ≡ fits_among catalogs.now slots many held.now }
{
    is_in_both(slots, many, held.receiver) && index_of(catalogs, held).is_some()
}

/// Whether an entry is at the location of this key, and fits.
fn agrees(catalogs: &[Catalog], slots: usize, many: usize, key: &Key, held: &Held) -> bool
    ensures { result ≡ fits_at (fits_among catalogs.now slots many) (as_held key.now) held.now }
{
    key.slot.get() == held.slot.get()
        && key.location.get() == held.location.get()
        && fits(catalogs, slots, many, held)
}

/// The location of an entry.
fn key_of(held: &Held) -> Key
    ensures { result ≡ plain_key held.now }
{
    Key {
        slot: held.slot,
        location: held.location,
    }
}

/// The location of a key or of an entry, whichever comes first.
fn earlier_of(key: Key, held: &Held) -> Key
    ensures { result ≡ plain_key (earlier (as_held key) held.now) }
{
    let other = key_of(held);
    if compare_keys(&other, &key).is_lt() {
        other
    } else {
        key
    }
}

/// The first location that only one of the two has, or whose entry doesn't fit.
fn first_other(
    catalogs: &[Catalog],
    slots: usize,
    many: usize,
    keys: &[Key],
    held: &[Held],
) -> Option<Key>
    ensures { result ≡ first_other_key catalogs.now slots many keys.now held.now }
{
    for (index, key) in keys.iter().enumerate() {
        if index >= held.len() {
            return Some(*key);
        }
        if !agrees(catalogs, slots, many, key, &held[index]) {
            return Some(earlier_of(*key, &held[index]));
        }
    }
    Some(key_of(held.get(keys.len())?))
}

/// The placement that a seed file's entries are, where they agree with the tables.
///
/// `OtherLinks` where the file's groups don't have the members of the tables' links, in order; else
/// `OtherTables` at the first location, by slot and then by id, that has an entry in only one of the
/// two, or whose receiver isn't one of both, or whose item or flags aren't those of an item with an
/// id of the receiver's world; `Memory` where memory ran out.
pub fn placement_in(
    alloc: Global,
    joint: &Joint,
    file: &Multidata,
) -> Result<Placement, SeedRefusal>
    ensures ok { IfOk result (IsPlacementIn joint.now file.now) }
    ensures err { IfErr result (IsOther joint.now file.now) }
{
    // Reading these makes known what their types keep.
    let slots = joint.slots.len();
    let held = file.locations.as_slice();
    if !links_agree(file.groups.as_slice(), joint.links.as_slice()) {
        return Err(SeedRefusal::OtherLinks);
    }
    let catalogs = catalogs_of(alloc, joint)?;
    let keys = keys_of(alloc, joint)?;
    let many = file.slots.len();
    match first_other(catalogs.as_slice(), slots, many, keys.as_slice(), held) {
        None => {
            let puts = file_puts(alloc, catalogs.as_slice(), joint, held)?;
            Ok(puts)
        }
        Some(key) => Err(SeedRefusal::OtherTables {
            slot: key.slot,
            location: key.location,
        }),
    }
}

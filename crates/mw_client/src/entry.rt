ghost use Rattle.std.specs.Prelude.{◌≡◌, ◌+◌, ◌*◌, ◌++◌, FitsSigned, IfOk, OnOk, length};
ghost use Rattle.std.specs.Int.{w64};
ghost use Rattle.std.specs.List.{flat_map, AllByRecursion};
ghost use Rattle.mw_client.specs.Bodies.{IsEntry, entry_bytes, long_bytes, short_bytes};

use mw_base::{List, Memory, NetItem};
use std::alloc::Global;

/// How many bytes an entry has.
pub(crate) const ENTRY: usize = 19;

/// Puts a number at the end of the bytes, as 64 bits in two's complement.
#[tactic(auto, unfolding(crate::specs::Bodies::long_bytes))]
fn put_long(out: &mut Vec<u8>, number: i64) -> Result<(), Memory>
    ensures bytes { OnOk result (out.new.items ≡ out.old.items ++ long_bytes number) }
    ensures fits { OnOk result (FitsSigned w64 number) }
{
    out.extend_from_slice(&number.to_be_bytes())?;
    Ok(())
}

/// Puts a number at the end of the bytes, as 16 bits.
#[tactic(auto, unfolding(crate::specs::Bodies::short_bytes))]
fn put_short(out: &mut Vec<u8>, number: u16) -> Result<(), Memory>
    ensures { OnOk result (out.new.items ≡ out.old.items ++ short_bytes number) }
{
    out.extend_from_slice(&number.to_be_bytes())?;
    Ok(())
}

/// Puts an entry at the end of the bytes.
fn put_entry(out: &mut Vec<u8>, entry: &NetItem) -> Result<(), Memory>
    ensures bytes { OnOk result (out.new.items ≡ out.old.items ++ entry_bytes entry.now) }
    ensures is_entry { OnOk result (IsEntry entry.now) }
{
    put_long(out, entry.item)?;
    put_long(out, entry.location)?;
    put_short(out, entry.player)?;
    out.push(entry.flags)?;
    Ok(())
}

/// Puts entries at the end of the bytes, one after another.
pub(crate) fn put_entries(out: &mut Vec<u8>, entries: &[NetItem]) -> Result<(), Memory>
    ensures bytes { OnOk result
        (out.new.items ≡ out.old.items ++ flat_map entry_bytes entries.now) }
    ensures are { OnOk result (AllByRecursion IsEntry entries.now) }
{
    for entry in entries {
        put_entry(out, entry)?;
    }
    Ok(())
}

/// The number that 64 bits are in two's complement.
#[tactic(auto, unfolding(crate::specs::Bodies::long_bytes))]
fn long_of(bytes: &[u8]) -> i64
    requires { length bytes.now ≡ 8 }
    ensures bytes { long_bytes result ≡ bytes.now }
    ensures fits { FitsSigned w64 result }
{
    i64::from_be_bytes([
        bytes[0], bytes[1], bytes[2], bytes[3], bytes[4], bytes[5], bytes[6], bytes[7],
    ])
}

/// The number that 16 bits are.
#[tactic(auto, unfolding(crate::specs::Bodies::short_bytes))]
fn short_of(bytes: &[u8]) -> u16
    requires { length bytes.now ≡ 2 }
    ensures { short_bytes result ≡ bytes.now }
{
    u16::from_be_bytes([bytes[0], bytes[1]])
}

/// The item with these numbers.
pub(crate) fn net_item(item: i64, location: i64, player: u16, flags: u8) -> NetItem
    ensures value { result ≡ record {
      item = item;
      location = location;
      player = player;
      flags = flags;
    } }
    ensures is_entry { IsEntry result }
{
    NetItem {
        item,
        location,
        player,
        flags,
    }
}

/// The entry that these bytes are.
fn entry_of(bytes: &[u8]) -> NetItem
    requires { length bytes.now ≡ 19 }
    ensures bytes { entry_bytes result ≡ bytes.now }
    ensures is_entry { IsEntry result }
{
    let (item, rest) = bytes.split_at(8);
    let (location, rest) = rest.split_at(8);
    let (player, flags) = rest.split_at(2);
    net_item(long_of(item), long_of(location), short_of(player), flags[0])
}

/// The entries that these bytes are, of which there are so many.
pub(crate) fn entries_of(alloc: Global, bytes: &[u8], count: usize) -> Result<Vec<NetItem>, Memory>
    requires { length bytes.now ≡ 19 * count }
    ensures bytes { IfOk result (λ v. flat_map entry_bytes v.items ≡ bytes.now) }
    ensures count { IfOk result (λ v. length v.items ≡ count) }
    ensures are { IfOk result (λ v. AllByRecursion IsEntry v.items) }
{
    let mut entries = Vec::with_capacity(alloc, count)?;
    let mut rest = bytes;
    for _ in 0..count {
        let (first, others) = rest.split_at(ENTRY);
        entries.push(entry_of(first))?;
        rest = others;
    }
    Ok(entries)
}

ghost use Rattle.std.specs.Prelude.{◌≡◌, ◌<◌, ◌≤◌, ◌+◌, ◌-◌, ◌^◌, ◌++◌, [], ℕ, List, IfOk, IfErr, OnOk, length, take, drop, min, Some};
ghost use Rattle.mw_journal.specs.Image.{IsShut};
ghost use Rattle.mw_journal.specs.Opening.{RefusesStep, RefusesOpen, Sees, Fits, Reaches};
ghost use Rattle.mw_journal.specs.Reads.{OnlyReads};
ghost use Rattle.mw_journal.specs.Scan.{BadHeaderOf, OtherSeedOf, WrongAt, EndsBefore, NoPlace, NoSeed, SeesOf};

use crate::creating::open_error;
use crate::error::OpenError;
use crate::gate::{Gate, judge_gate};
use crate::header::judge_header;
use mw_disk::Disk;
use std::alloc::Global;

/// How many bytes of a body are read at once.
const CHUNK: usize = 1 << 16;

/// Reads the header, and judges it.
fn read_header<D: Disk>(disk: &mut D, digest: &[u8; 32]) -> Result<(), OpenError>
    ensures reads { OnlyReads D.told D.may_leave D.moment D.left_since D.faults disk.old disk.new }
    ensures ok { OnOk result ((f : List ℕ) → D.told disk.old ≡ Some f
        → Reaches f digest.now [] 40) }
    ensures refused { IfErr result (RefusesStep (BadHeaderOf (D.told disk.old))
        (OtherSeedOf (D.told disk.old) digest.now) (D.faults disk.old) (D.faults disk.new)) }
{
    let mut head = [0; 40];
    match disk.read(0, &mut head) {
        Ok(count) => judge_header(head.split_at(count).0, digest),
        Err(error) => Err(open_error(error)),
    }
}

/// Reads a gate, and the length behind it.
fn read_gate<D: Disk>(disk: &mut D, place: u64) -> Result<Gate, OpenError>
    requires { place ≤ 2 ^ 33 }
    ensures reads { OnlyReads D.told D.may_leave D.moment D.left_since D.faults disk.old disk.new }
    ensures fits { IfOk result (Fits place) }
    ensures sees { IfOk result (SeesOf (D.told disk.old) place) }
    ensures refused { IfErr result (RefusesStep (WrongAt (D.told disk.old) place)
        NoSeed (D.faults disk.old) (D.faults disk.new)) }
{
    let mut head = [0; 5];
    match disk.read(place, &mut head) {
        Ok(count) => match judge_gate(place, head.split_at(count).0) {
            Ok(gate) => Ok(gate),
            Err(at) => Err(OpenError::NotJournal { at }),
        },
        Err(error) => Err(open_error(error)),
    }
}

/// Reads bytes to the end of a text, as many as `chunk` has or as there are, and tells how many.
fn read_more<D: Disk>(
    disk: &mut D,
    at: u64,
    chunk: &mut [u8],
    text: &mut Vec<u8>,
) -> Result<usize, OpenError>
    ensures reads { OnlyReads D.told D.may_leave D.moment D.left_since D.faults disk.old disk.new }
    ensures bound { IfOk result (λ n. n ≤ length chunk.old) }
    ensures bytes { IfOk result (λ n. (f : List ℕ) → D.told disk.old ≡ Some f
        → (n ≡ min (length chunk.old) (length f - at))
        × (text.new.items ≡ text.old.items ++ take n (drop at f))) }
    ensures refused { IfErr result (RefusesStep NoPlace NoSeed
        (D.faults disk.old) (D.faults disk.new)) }
{
    match disk.read(at, chunk) {
        Ok(read) => match text.extend_from_slice(chunk.split_at(read).0) {
            Ok(()) => Ok(read),
            Err(_) => Err(OpenError::Memory),
        },
        Err(error) => Err(open_error(error)),
    }
}

/// Reads a body to the end of a text; `NotJournal` exactly where the body ends too soon.
fn read_body<D: Disk>(
    disk: &mut D,
    at: u64,
    size: u32,
    chunk: &mut [u8],
    text: &mut Vec<u8>,
) -> Result<(), OpenError>
    requires near { at ≤ 2 ^ 33 }
    requires chunk { length chunk.old ≡ 2 ^ 16 }
    ensures reads { OnlyReads D.told D.may_leave D.moment D.left_since D.faults disk.old disk.new }
    ensures bytes { OnOk result ((f : List ℕ) → D.told disk.old ≡ Some f
        → (length (take size (drop at f)) ≡ size)
        × (text.new.items ≡ text.old.items ++ take size (drop at f))) }
    ensures refused { IfErr result (RefusesStep (EndsBefore (D.told disk.old) at size) NoSeed
        (D.faults disk.old) (D.faults disk.new)) }
{
    let size = size as usize;
    let mut done = 0;
    while done < size {
        let count = CHUNK.min(size - done);
        let read = read_more(disk, at + done as u64, &mut chunk[..count], text)?;
        if read < count {
            return Err(OpenError::NotJournal { at });
        }
        done += count;
    }
    Ok(())
}

/// What is found in a journal's bytes: its text, and the place of its first gate that isn't open,
/// with what that gate holds.
#[derive(Drop)]
pub(crate) struct Found {
    pub(crate) text: Vec<u8>,
    pub(crate) place: u64,
    pub(crate) gate: u8,
}

/// Reads a journal from its first gate on. `_digest` is for contracts alone.
fn read_batches<D: Disk>(
    alloc: Global,
    disk: &mut D,
    _digest: &[u8; 32],
    chunk: &mut [u8],
) -> Result<Found, OpenError>
    requires header { (f : List ℕ) → D.told disk.old ≡ Some f → Reaches f _digest.now [] 40 }
    requires chunk { length chunk.old ≡ 2 ^ 16 }
    ensures reads { OnlyReads D.told D.may_leave D.moment D.left_since D.faults disk.old disk.new }
    ensures within { IfOk result (λ found. found.place < 2 ^ 30) }
    ensures found { IfOk result (λ found. (f : List ℕ) → D.told disk.old ≡ Some f
        → IsShut f _digest.now found.text.items found.place found.gate) }
    ensures refused { IfErr result (RefusesOpen (D.told disk.old) _digest.now
        (D.faults disk.old) (D.faults disk.new)) }
{
    let mut text = Vec::new(alloc);
    let mut place = 40;
    loop {
        let size = match read_gate(disk, place) {
            Ok(Gate::Shut(gate)) => return Ok(Found { text, place, gate }),
            Ok(Gate::Open(size)) => size,
            Err(error) => return Err(error),
        };
        if let Err(error) = read_body(disk, place + 5, size, chunk, &mut text) {
            return Err(error);
        }
        place += 5 + u64::from(size);
    }
}

/// Reads a journal.
pub(crate) fn read_journal<D: Disk>(
    alloc: Global,
    disk: &mut D,
    digest: &[u8; 32],
) -> Result<Found, OpenError>
    ensures reads { OnlyReads D.told D.may_leave D.moment D.left_since D.faults disk.old disk.new }
    ensures within { IfOk result (λ found. found.place < 2 ^ 30) }
    ensures found { IfOk result (λ found. (f : List ℕ) → D.told disk.old ≡ Some f
        → IsShut f digest.now found.text.items found.place found.gate) }
    ensures refused { IfErr result (RefusesOpen (D.told disk.old) digest.now
        (D.faults disk.old) (D.faults disk.new)) }
{
    let mut chunk = Vec::new(alloc);
    if chunk.resize(CHUNK, 0).is_err() {
        return Err(OpenError::Memory);
    }
    if let Err(error) = read_header(disk, digest) {
        return Err(error);
    }
    read_batches(alloc, disk, digest, chunk.as_mut_slice())
}

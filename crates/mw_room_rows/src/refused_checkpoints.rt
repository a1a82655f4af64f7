//! Checkpoints of files that are cut, of another seed, or name and keep what they may not. The files
//! are CHOICE, the journal 0 and the journal 1, and a refusal names one by its place in this order.
use crate::checkpoints::files_of;
use crate::disks::{journal_under, new_journal};
use mw_cases::ROOM_A;
use mw_checkpoint::{Kept, PairError, checkpoint, create_pair};
use mw_multidata::digest;
use std::alloc::Global;
use std::test::Fail;

/// A batch that names the journal 1, with the gate behind it.
const NAMES_ONE: [u8; 7] = [1, 0, 0, 0, 1, 1, 0];

/// The same and one more, which names a journal 2.
const NAMES_TWO: [u8; 13] = [1, 0, 0, 0, 1, 1, 1, 0, 0, 0, 1, 2, 0];

/// A batch of Ann's first check.
const FIRST: [u8; 22] = [
    1, 0, 0, 0, 16, 1, 0, 0, 1, 0, 0, 0, 1, 0, 0, 0, 0, 0, 0, 0, 101, 0,
];

/// The same, and one of a byte at which no record begins.
const NO_RECORD: [u8; 28] = [
    1, 0, 0, 0, 16, 1, 0, 0, 1, 0, 0, 0, 1, 0, 0, 0, 0, 0, 0, 0, 101, 1, 0, 0, 0, 1, 9, 0,
];

/// The bytes of a journal of the seed file, which end so behind its header.
fn journal_of(alloc: Global, rest: &[u8]) -> Result<Vec<u8>, Fail> {
    let mut bytes = new_journal(alloc)?;
    bytes.truncate(40);
    bytes.extend_from_slice(rest)?;
    Ok(bytes)
}

/// Fails, with the case, where a checkpoint of these files ends otherwise.
fn ends_so(
    alloc: Global,
    files: [&[u8]; 3],
    wanted: Result<Kept, PairError>,
    case: &str,
) -> Result<(), Fail> {
    let [choice, zero, one] = files;
    let files = files_of(alloc, choice, zero, one)?;
    let (_, ended) = checkpoint(alloc, files, &digest(ROOM_A.as_bytes()));
    if ended == wanted {
        return Ok(());
    }
    Err(Fail::new(case))
}

/// The first so many bytes, or all where there are fewer.
fn front(bytes: &[u8], len: usize) -> &[u8] {
    let (front, _) = bytes.split_at(len.min(bytes.len()));
    front
}

/// Where the bytes of a journal with one batch, of this length, stop to be one if they are cut to a
/// shorter length: at a byte of the header or a gate that is missing, or where a number or a body
/// begins that goes past the end.
fn breaks_at(whole: usize, len: usize) -> u64 {
    if len <= 40 || len.saturating_add(1) >= whole {
        len as u64
    } else if len < 45 {
        41
    } else {
        45
    }
}

/// That the file of a place is no journal, where it is cut to a length.
fn is_cut(place: u8, whole: &[u8], len: usize) -> Result<Kept, PairError> {
    Err(PairError::NotJournal {
        place,
        at: breaks_at(whole.len(), len),
    })
}

/// A checkpoint that keeps no record of none.
const NOTHING: Result<Kept, PairError> = Ok(Kept { kept: 0, of: 0 });

/// CHOICE is no journal at each length below its own.
#[test]
fn cut_choice_is_no_journal(rt: HostRuntime) -> Result<(), Fail> {
    let alloc = rt.alloc();
    let empty = new_journal(alloc)?;
    let choice = journal_of(alloc, &NAMES_ONE)?;
    for len in 0..choice.len() {
        let files: [&[u8]; 3] = [front(&choice, len), &empty, &empty];
        ends_so(alloc, files, is_cut(0, &choice, len), "CHOICE")?;
    }
    ends_so(alloc, [&choice, &empty, &empty], NOTHING, "whole")
}

/// Fails unless the journal that is named is none where it is cut to a length, and the other one
/// may be cut so.
fn cut_journals(alloc: Global, journal: &[u8], len: usize) -> Result<(), Fail> {
    let empty = new_journal(alloc)?;
    let choice = journal_of(alloc, &NAMES_ONE)?;
    let cut = Vec::from_slice(alloc, front(journal, len))?;
    let first = is_cut(1, journal, len);
    let second = is_cut(2, journal, len);
    ends_so(alloc, [&empty, &cut, &empty], first, "journal 0")?;
    ends_so(alloc, [&empty, &empty, &cut], NOTHING, "not journal 1")?;
    ends_so(alloc, [&choice, &empty, &cut], second, "journal 1")?;
    ends_so(alloc, [&choice, &cut, &empty], NOTHING, "not journal 0")
}

#[test]
fn cut_journals_are_none(rt: HostRuntime) -> Result<(), Fail> {
    let alloc = rt.alloc();
    let journal = journal_of(alloc, &FIRST)?;
    for len in 0..journal.len() {
        cut_journals(alloc, &journal, len)?;
    }
    Ok(())
}

/// Another seed file's digest.
const OTHER: [u8; 32] = [7; 32];

/// That the file of a place has it.
fn is_of_another(place: u8) -> Result<Kept, PairError> {
    Err(PairError::OtherSeed {
        place,
        found: OTHER,
    })
}

#[test]
fn files_of_another_seed(rt: HostRuntime) -> Result<(), Fail> {
    let alloc = rt.alloc();
    let empty = new_journal(alloc)?;
    let choice = journal_of(alloc, &NAMES_ONE)?;
    let other = journal_under(alloc, &OTHER)?;
    let first = is_of_another(0);
    ends_so(alloc, [&other, &empty, &empty], first, "CHOICE")?;
    let second = is_of_another(1);
    ends_so(alloc, [&empty, &other, &empty], second, "journal 0")?;
    let third = is_of_another(2);
    ends_so(alloc, [&choice, &empty, &other], third, "journal 1")?;
    ends_so(alloc, [&empty, &empty, &other], NOTHING, "not named")
}

#[test]
fn what_choice_and_journals_may_not_have(rt: HostRuntime) -> Result<(), Fail> {
    let alloc = rt.alloc();
    let empty = new_journal(alloc)?;
    let choice = journal_of(alloc, &NAMES_TWO)?;
    let bad_choice = Err(PairError::BadChoice { at: 1 });
    ends_so(alloc, [&choice, &empty, &empty], bad_choice, "CHOICE")?;
    let journal = journal_of(alloc, &NO_RECORD)?;
    let bad_record = Err(PairError::BadRecord { at: 16 });
    ends_so(alloc, [&empty, &journal, &empty], bad_record, "journal 0")?;
    ends_so(alloc, [&empty, &empty, &journal], NOTHING, "not named")
}

/// Fails unless three files are refused, since the one of a place has bytes.
fn is_not_empty(alloc: Global, files: [&[u8]; 3], wanted: u8) -> Result<(), Fail> {
    let [choice, zero, one] = files;
    let files = files_of(alloc, choice, zero, one)?;
    match create_pair(alloc, files, &digest(ROOM_A.as_bytes())) {
        Err((_, PairError::NotEmpty { place })) if place == wanted => Ok(()),
        _ => Err(Fail::new(wanted)),
    }
}

#[test]
fn files_with_bytes_are_made_no_pair(rt: HostRuntime) -> Result<(), Fail> {
    let alloc = rt.alloc();
    is_not_empty(alloc, [b"7", b"", b""], 0)?;
    is_not_empty(alloc, [b"", b"7", b""], 1)?;
    is_not_empty(alloc, [b"", b"", b"7"], 2)
}

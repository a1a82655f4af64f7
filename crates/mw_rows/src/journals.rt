use crate::cases::each;
use crate::disks::disk_of;
use mw_base::{Bytes, Memory};
use mw_cases::part;
use mw_disk::{DiskCall, DiskError, MadeCall, MemDisk};
use mw_journal::{AppendError, Journal, JournalState, OpenError, create, open};
use mw_multidata::digest;
use std::alloc::Global;
use std::test::Fail;

/// SHA-256 of no bytes.
const EMPTY: [u8; 32] = [
    0xe3, 0xb0, 0xc4, 0x42, 0x98, 0xfc, 0x1c, 0x14, 0x9a, 0xfb, 0xf4, 0xc8, 0x99, 0x6f, 0xb9, 0x24,
    0x27, 0xae, 0x41, 0xe4, 0x64, 0x9b, 0x93, 0x4c, 0xa4, 0x95, 0x99, 0x1b, 0x78, 0x52, 0xb8, 0x55,
];

/// The record of Ann's first check.
const BODY: [u8; 16] = [1, 0, 0, 1, 0, 0, 0, 1, 0, 0, 0, 0, 0, 0, 0, 0x65];

/// The bytes of a new journal.
const NEW: [u8; 41] = [
    0x4d, 0x57, 0x4a, 0x52, 0x4e, 0x4c, 0x31, 0x0a, 0xe3, 0xb0, 0xc4, 0x42, 0x98, 0xfc, 0x1c, 0x14,
    0x9a, 0xfb, 0xf4, 0xc8, 0x99, 0x6f, 0xb9, 0x24, 0x27, 0xae, 0x41, 0xe4, 0x64, 0x9b, 0x93, 0x4c,
    0xa4, 0x95, 0x99, 0x1b, 0x78, 0x52, 0xb8, 0x55, 0,
];

/// The bytes of a journal of one record, whose first gate stands behind 40 of them.
const ONE: [u8; 62] = [
    0x4d, 0x57, 0x4a, 0x52, 0x4e, 0x4c, 0x31, 0x0a, 0xe3, 0xb0, 0xc4, 0x42, 0x98, 0xfc, 0x1c, 0x14,
    0x9a, 0xfb, 0xf4, 0xc8, 0x99, 0x6f, 0xb9, 0x24, 0x27, 0xae, 0x41, 0xe4, 0x64, 0x9b, 0x93, 0x4c,
    0xa4, 0x95, 0x99, 0x1b, 0x78, 0x52, 0xb8, 0x55, 1, 0, 0, 0, 0x10, 1, 0, 0, 1, 0, 0, 0, 1, 0, 0,
    0, 0, 0, 0, 0, 0x65, 0,
];

/// The bytes of such a journal with this at its first gate.
fn image(gate: u8) -> [u8; 62] {
    let mut bytes = ONE;
    bytes[40] = gate;
    bytes
}

/// A journal that is created or opened, and to which the record is appended.
#[derive(Drop)]
struct Case<'a> {
    is_new: bool,
    /// The bytes of its disk before.
    start: &'a [u8],
    /// The number of the call on its disk that fails.
    failing: u64,
    /// What each append is answered.
    appends: &'a [Option<AppendError>],
    /// The text that is read.
    text: &'a [u8],
    /// Its gate and its state in the end.
    gate: u64,
    state: JournalState,
    /// The bytes of its disk in the end.
    bytes: &'a [u8],
    /// The last calls on its disk by their first letters; all calls on that of a new journal.
    calls: &'a str,
}

/// A number that no call on a disk has.
const NONE: u64 = u64::MAX;

/// A journal that is created on a disk, with no text, or the one that is opened, with its text; or why there is none.
fn begun(
    alloc: Global,
    disk: MemDisk,
    digest: &[u8; 32],
    is_new: bool,
) -> Result<(Journal<MemDisk>, Bytes), OpenError> {
    if is_new {
        match create(alloc, disk, digest) {
            Ok(journal) => Ok((journal, Bytes::new(alloc))),
            Err((_, error)) => Err(error),
        }
    } else {
        match open(alloc, disk, digest) {
            Ok(both) => Ok(both),
            Err((_, error)) => Err(error),
        }
    }
}

/// Why no journal is created on a disk of these bytes, or none is opened.
fn refusal(
    alloc: Global,
    bytes: &[u8],
    digest: &[u8; 32],
    is_new: bool,
) -> Result<Option<OpenError>, Memory> {
    let disk = disk_of(alloc, bytes, &[])?;
    Ok(begun(alloc, disk, digest, is_new).err())
}

/// Whether appends of the record are answered so.
fn is_appended(
    alloc: Global,
    journal: &mut Journal<MemDisk>,
    answers: &[Option<AppendError>],
) -> Result<bool, Memory> {
    let body = Bytes::from_vec(Vec::from_slice(alloc, &BODY)?);
    for answer in answers {
        if journal.append_batch(&body).err() != *answer {
            return Ok(false);
        }
    }
    Ok(true)
}

/// The first letter of a call on a disk.
fn letter_of(made: &MadeCall) -> u8 {
    match made.call {
        DiskCall::Read { .. } => b'r',
        DiskCall::Write { .. } => b'w',
        DiskCall::Cut { .. } => b'c',
        DiskCall::Sync => b's',
    }
}

/// Whether calls on a disk are these by their first letters, from some number on.
fn are_calls(calls: &[MadeCall], before: usize, letters: &str) -> bool {
    for (index, letter) in letters.bytes().enumerate() {
        match calls.get(before.saturating_add(index)) {
            Some(made) if letter_of(made) == letter => {}
            _ => return false,
        }
    }
    true
}

/// Whether a disk is as a case says in the end.
fn is_disk(disk: &MemDisk, case: &Case) -> bool {
    let count = case.calls.len();
    let before = disk.calls().len().saturating_sub(count);
    disk.bytes() == case.bytes
        && are_calls(disk.calls(), before, case.calls)
        && (before == 0 || !case.is_new)
}

/// Whether a journal is as a case says in the end.
fn is_left(journal: Journal<MemDisk>, case: &Case) -> bool {
    let is_so = journal.gate() == case.gate && journal.state() == case.state;
    is_disk(&journal.into_disk(), case) && is_so
}

/// Fails where a case isn't so.
fn holds(alloc: Global, case: &Case) -> Result<(), Fail> {
    let disk = disk_of(alloc, case.start, &[(case.failing, DiskError::Failed)])?;
    let (mut journal, text) = begun(alloc, disk, &EMPTY, case.is_new)?;
    let is_appended = is_appended(alloc, &mut journal, case.appends) == Ok(true);
    let is_left = is_left(journal, case);
    if is_appended && is_left && text.as_slice() == case.text {
        return Ok(());
    }
    Err(Fail::new(case.calls))
}

#[test]
fn no_bytes_have_their_digest(rt: HostRuntime) {
    let found = digest(b"");
    assert!(rt; found == EMPTY);
}

#[test]
fn a_journal_is_created(rt: HostRuntime) -> Result<(), Fail> {
    let case = Case {
        is_new: true,
        start: b"",
        failing: NONE,
        appends: &[],
        text: b"",
        gate: 40,
        state: JournalState::Whole,
        bytes: &NEW,
        calls: "rws",
    };
    holds(rt.alloc(), &case)
}

#[test]
fn a_journal_is_created_once(rt: HostRuntime) {
    let error = refusal(rt.alloc(), &NEW, &EMPTY, true);
    assert!(rt; error == Ok(Some(OpenError::NotEmpty)));
}

#[test]
fn a_batch_is_two_writes(rt: HostRuntime) -> Result<(), Fail> {
    let case = Case {
        is_new: true,
        start: b"",
        failing: NONE,
        appends: &[None],
        text: b"",
        gate: 61,
        state: JournalState::Whole,
        bytes: &ONE,
        calls: "rwswsws",
    };
    holds(rt.alloc(), &case)
}

#[test]
fn a_batch_is_read_again(rt: HostRuntime) -> Result<(), Fail> {
    let case = Case {
        is_new: false,
        start: &ONE,
        failing: NONE,
        appends: &[],
        text: &BODY,
        gate: 61,
        state: JournalState::Whole,
        bytes: &ONE,
        calls: "",
    };
    holds(rt.alloc(), &case)
}

#[test]
fn a_torn_gate_is_shut(rt: HostRuntime) -> Result<(), Fail> {
    let case = Case {
        is_new: false,
        start: &image(7),
        failing: NONE,
        appends: &[],
        text: b"",
        gate: 40,
        state: JournalState::Whole,
        bytes: &image(0),
        calls: "ws",
    };
    holds(rt.alloc(), &case)
}

/// To how many bytes a journal of one record is cut, at least and at most, and where it isn't one
/// then: at its end where no place stands.
const CUT_CASES: &str = "0 | 40
41 | 44 | 41
45 | 60 | 45
61 | 61 | 61";

/// Whether a journal that is cut to so many bytes isn't one at this place.
fn is_none_at(alloc: Global, count: usize, at: u64) -> Result<bool, Memory> {
    let error = refusal(alloc, &ONE[..count.min(62)], &EMPTY, false)?;
    Ok(error == Some(OpenError::NotJournal { at }))
}

/// Whether a case of cuts is so.
fn is_cut_case(alloc: Global, case: &str) -> Result<bool, Fail> {
    let low = part(case, 0).parse::<usize>()?;
    let high = part(case, 1).parse::<usize>()?;
    let place = part(case, 2).parse::<u64>().ok();
    for count in low..=high {
        if !is_none_at(alloc, count, place.unwrap_or(count as u64))? {
            return Ok(false);
        }
    }
    Ok(true)
}

#[test]
fn a_journal_that_is_cut_is_none(rt: HostRuntime) -> Result<(), Fail> {
    each(rt.alloc(), CUT_CASES, is_cut_case)
}

#[test]
fn a_journal_is_of_its_seed(rt: HostRuntime) {
    let error = refusal(rt.alloc(), &NEW, &[7; 32], false);
    assert!(rt; error == Ok(Some(OpenError::OtherSeed { found: EMPTY })));
}

#[test]
fn a_failed_sync_ends_a_journal(rt: HostRuntime) -> Result<(), Fail> {
    let failed = Some(AppendError::DiskFault);
    let case = Case {
        is_new: true,
        start: b"",
        failing: 4,
        appends: &[failed, failed],
        text: b"",
        gate: 40,
        state: JournalState::Faulted,
        bytes: &image(0),
        calls: "rwsws",
    };
    holds(rt.alloc(), &case)
}

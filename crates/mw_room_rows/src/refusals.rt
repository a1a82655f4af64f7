use crate::cases::{Theme, agree, each};
use crate::disks::{disk_of, new_journal};
use mw_base::{Memory, Text};
use mw_cases::{ROOM_A, part};
use mw_keep::{KeepError, recover};
use std::alloc::Global;
use std::test::Fail;

/// Why no room is recovered, in a word, and the place of what is wrong, if one is told.
fn cause(alloc: Global, error: &KeepError) -> Result<Text, Memory> {
    let (word, at) = match error {
        KeepError::BadSeed { .. } => return Text::of(alloc, "seed"),
        KeepError::DiskFault => return Text::of(alloc, "disk"),
        KeepError::NotJournal { at } => ("no journal", *at),
        KeepError::OtherSeed { .. } => return Text::of(alloc, "other seed"),
        KeepError::BadRecord { at } => ("record", *at),
        KeepError::Memory => return Err(Memory),
    };
    Ok(Text::from_string(format!(in alloc; "{word} {at}")?))
}

/// Why no room is recovered of these bytes; `none` where one is.
fn refusal(alloc: Global, bytes: &[u8], file: &str) -> Result<Text, Fail> {
    let disk = disk_of(alloc, bytes, None)?;
    match &recover(alloc, disk, file.as_bytes()).err() {
        Some((_, error)) => Ok(cause(alloc, error)?),
        None => Ok(Text::of(alloc, "none")?),
    }
}

/// A new journal with another gate.
fn journal_of(alloc: Global, gate: &[u8]) -> Result<Vec<u8>, Fail> {
    let mut bytes = new_journal(alloc)?;
    let _gate = bytes.pop();
    bytes.extend_from_slice(gate)?;
    Ok(bytes)
}

/// Journals by the digits of their gate, in cases `DIGITS | REFUSAL`.
struct Gates;

impl Theme for Gates {
    fn answer(alloc: Global, case: &str) -> Result<Text, Fail> {
        let gate = hex::decode(alloc, part(case, 0))?;
        let bytes = journal_of(alloc, gate.as_slice())?;
        refusal(alloc, bytes.as_slice(), ROOM_A)
    }
}

/// An open gate, the length of its body, the body, and a shut gate; and why no room is recovered,
/// and at which place of the body.
const BODIES: &str = "0100000008020000010300000200 | none
0100000008020000010200000300 | record 4
01000000040201000100 | record 0
0100000010010000010000000100000000000000c900 | record 0
0100000010010000020000000100000000000000c900 | none
010000000d0600000200000000000000650000 | record 0
01000000100500000200000000000000c90100030000 | record 0
0100000005020000010900 | record 4
010000000302000000 | record 0";

#[test]
fn records_that_the_seed_lacks_are_refused(rt: HostRuntime) -> Result<(), Fail> {
    each::<Gates>(rt.alloc(), BODIES)
}

/// Fails unless a journal is refused so with this seed file.
fn refuses(alloc: Global, journal: &[u8], file: &str, wanted: &str) -> Result<(), Fail> {
    agree(refusal(alloc, journal, file)?.as_str(), wanted)
}

/// Fails unless a journal is refused where its seed file is none, or another one, and so are no
/// bytes.
fn are_refused(alloc: Global, journal: &[u8], other: &str) -> Result<(), Fail> {
    refuses(alloc, journal, "{}", "seed")?;
    refuses(alloc, journal, other, "other seed")?;
    refuses(alloc, b"".as_slice(), ROOM_A, "no journal 0")
}

#[test]
fn other_files_are_refused(rt: HostRuntime) -> Result<(), Fail> {
    let journal = new_journal(rt.alloc())?;
    let room_b = ROOM_A.replace(rt.alloc(), "\"seed_name\":\"A\"", "\"seed_name\":\"B\"")?;
    are_refused(rt.alloc(), journal.as_slice(), room_b.as_str())
}

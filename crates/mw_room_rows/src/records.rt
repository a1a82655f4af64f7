use crate::cases::{Theme, each};
use mw_base::{
    Bytes, ClientStatus, HintRecord, HintStatus, List, LocId, Memory, SlotId, TeamId, Text,
};
use mw_cases::part;
use mw_json::Tree;
use mw_records::{Record, RecordError, Stored, decode, encode};
use std::alloc::Global;
use std::test::Fail;

/// A byte 9 and a record that is written twice behind it.
fn twice(alloc: Global, record: &Record) -> Result<Bytes, Memory> {
    let mut bytes = Bytes::from_vec(Vec::from_slice(alloc, &[9])?);
    encode(alloc, record, &mut bytes)?;
    encode(alloc, record, &mut bytes)?;
    Ok(bytes)
}

/// Whether the first of the two is read again from behind the 9, and ends where the second begins.
fn is_read(alloc: Global, bytes: &[u8]) -> Result<bool, Fail> {
    let (record, next) = decode(alloc, bytes, 1)?;
    let again = twice(alloc, &record)?;
    Ok(next as usize == bytes.len() / 2 + 1 && again.as_slice() == bytes)
}

/// A check of a location.
fn check(alloc: Global) -> Result<Record, Fail> {
    let locations = List::from_vec(Vec::from_slice(alloc, &[LocId::new(101).unwrap()])?);
    let (team, slot) = (TeamId::new(0).unwrap(), SlotId::new(1).unwrap());
    Ok(Record::of_checks(team, slot, locations).ok_or("a location")?)
}

/// The value [5] of a key k.
fn five(alloc: Global) -> Result<Record, Fail> {
    let mut items = List::new(alloc);
    items.push(Tree::Whole(5))?;
    let stored = Stored::new(alloc, Text::of(alloc, "k")?, Tree::Many(items))?;
    Ok(Record::Store(stored.ok_or("short")?))
}

/// The hint that a slot buys of Bob's location.
fn made() -> HintRecord {
    HintRecord::Made {
        team: TeamId::new(0).unwrap(),
        finder: SlotId::new(2).unwrap(),
        loc: LocId::new(201).unwrap(),
        bought: true,
        buyer: SlotId::new(1).unwrap(),
        status: HintStatus::new(30).unwrap(),
    }
}

/// A status of the hint of the location with the greatest id.
fn marked() -> HintRecord {
    HintRecord::Marked {
        team: TeamId::new(0).unwrap(),
        finder: SlotId::new(2).unwrap(),
        loc: LocId::new(9_007_199_254_740_991).unwrap(),
        status: HintStatus::new(30).unwrap(),
    }
}

/// A record by its name: of the last slot of the last team, of a hint, or another.
fn record_of(alloc: Global, name: &str) -> Result<Record, Fail> {
    let (team, slot) = (TeamId::new(7).unwrap(), SlotId::new(1024).unwrap());
    let status = ClientStatus::new(5).unwrap();
    match name {
        "release" => Ok(Record::Release { team, slot }),
        "collect" => Ok(Record::Collect { team, slot }),
        "status" => Ok(Record::Status { team, slot, status }),
        "hint" => Ok(Record::Hint(made())),
        "mark" => Ok(Record::Hint(marked())),
        "check" => check(alloc),
        _ => five(alloc),
    }
}

/// Records that are written twice behind a byte 9, and read again, in cases `RECORD | DIGITS`.
struct Spelled;

impl Theme for Spelled {
    fn answer(alloc: Global, case: &str) -> Result<Text, Fail> {
        let bytes = twice(alloc, &record_of(alloc, part(case, 0))?)?;
        if !is_read(alloc, bytes.as_slice())? {
            return Err(Fail::new(case));
        }
        Ok(Text::from_string(hex::encode(alloc, bytes.as_slice())?))
    }
}

#[test]
fn checks_are_spelled(rt: HostRuntime) -> Result<(), Fail> {
    each::<Spelled>(
        rt.alloc(),
        "check | 090100000100000001000000000000006501000001000000010000000000000065",
    )
}

/// Names of records, and how each is spelled twice behind a 9.
const RECORDS: &str = "release | 090207040002070400
collect | 090307040003070400
status | 0904070400050407040005
hint | 090500000200000000000000c90100011e0500000200000000000000c90100011e
mark | 0906000002001fffffffffffff1e06000002001fffffffffffff1e";

#[test]
fn records_of_slots_and_hints_are_spelled(rt: HostRuntime) -> Result<(), Fail> {
    each::<Spelled>(rt.alloc(), RECORDS)
}

#[test]
fn values_are_spelled(rt: HostRuntime) -> Result<(), Fail> {
    each::<Spelled>(
        rt.alloc(),
        "value | 0907000000016b000000035b355d07000000016b000000035b355d",
    )
}

/// Why no record begins at places of bytes, the places, and the bytes by their digits.
const NO_RECORDS: &str = "nothing | 0 |  | no record
kind 0 | 0 | 00 | no record
kind 8 | 0 | 08000001 | no record
team 8 | 0 | 02080001 | no record
slot 0 | 0 | 02000000 | no record
slot 1,025 | 0 | 02000401 | no record
a slot cut short | 0 | 020004 | no record
no location | 0 | 0100000100000000 | no record
location 0 | 0 | 01000001000000010000000000000000 | no record
location 2^53 | 0 | 01000001000000010020000000000000 | no record
one location of two | 0 | 01000001000000020000000000000065 | no record
status 40 of a slot | 0 | 0400000128 | no record
status 5 of a hint | 0 | 06000001000000000000006505 | no record
a flag of 2 | 0 | 0500000100000000000000650200011e | no record
a key that is no text | 0 | 0700000001ff0000000135 | no record
white space | 0 | 07000000016b000000022035 | no record
another spelling of a text | 0 | 07000000016b00000008225c753030343122 | no record
members out of order | 0 | 07000000016b0000000d7b2262223a312c2261223a327d | no record
a numeral with white space | 0 | 07000000016b00000004312e3520 | no record
a numeral as a name | 0 | 07000000016b000000077b312e353a307d | no record
no numeral | 0 | 07000000016b00000002312e | no record
no JSON | 0 | 07000000016b000000015b | no record
a value cut short | 0 | 07000000016b0000000235 | no record
behind a record's end | 4 | 02000001 | no record
far behind it | 18446744073709551615 | 02000001 | no record";

/// Whether a record begins at a place of bytes.
fn begins(alloc: Global, bytes: &[u8], at: u64) -> &'static str {
    match decode(alloc, bytes, at) {
        Ok(_) => "a record",
        Err(RecordError::BadRecord { at: told }) if told == at => "no record",
        Err(_) => "another error",
    }
}

/// Whether a record begins, in cases `WHY | PLACE | DIGITS | ANSWER`.
struct Beginnings;

impl Theme for Beginnings {
    fn answer(alloc: Global, case: &str) -> Result<Text, Fail> {
        let at = part(case, 1).parse::<u64>()?;
        let bytes = hex::decode(alloc, part(case, 2))?;
        Ok(Text::of(alloc, begins(alloc, bytes.as_slice(), at))?)
    }
}

#[test]
fn what_is_no_record(rt: HostRuntime) -> Result<(), Fail> {
    each::<Beginnings>(rt.alloc(), NO_RECORDS)
}

/// Records that are read, and written again, in cases `VALUE | DIGITS | DIGITS`.
struct Again;

impl Theme for Again {
    fn answer(alloc: Global, case: &str) -> Result<Text, Fail> {
        let bytes = hex::decode(alloc, part(case, 1))?;
        let (record, _) = decode(alloc, bytes.as_slice(), 0)?;
        let mut again = Bytes::from_vec(Vec::new(alloc));
        encode(alloc, &record, &mut again)?;
        Ok(Text::from_string(hex::encode(alloc, again.as_slice())?))
    }
}

/// Records of values with numerals.
const NUMERALS: &str = r#"5.50 | 07000000016b00000004352e3530 | 07000000016b00000004352e3530
-0 | 07000000016b000000022d30 | 07000000016b000000022d30
1e400 | 07000000016b000000053165343030 | 07000000016b000000053165343030
[1.5,{"n":2.0}] | 07000000016b0000000f5b312e352c7b226e223a322e307d5d | 07000000016b0000000f5b312e352c7b226e223a322e307d5d"#;

#[test]
fn records_keep_numerals(rt: HostRuntime) -> Result<(), Fail> {
    each::<Again>(rt.alloc(), NUMERALS)
}

/// Whether a record begins whose value is a numeral within so many lists, in cases
/// `LISTS | ANSWER`.
struct Nested;

impl Theme for Nested {
    fn answer(alloc: Global, case: &str) -> Result<Text, Fail> {
        let lists = part(case, 0).parse::<u8>()?;
        let front = "[".repeat(alloc, usize::from(lists))?;
        let end = "]".repeat(alloc, usize::from(lists))?;
        let mut bytes = Vec::from_slice(alloc, &[7, 0, 0, 0, 1, 107, 0, 0, 0])?;
        bytes.push(lists.saturating_mul(2).saturating_add(3))?;
        bytes.extend_from_slice(front.as_bytes())?;
        bytes.extend_from_slice(b"1.5")?;
        bytes.extend_from_slice(end.as_bytes())?;
        Ok(Text::of(alloc, begins(alloc, bytes.as_slice(), 0))?)
    }
}

#[test]
fn values_nest_as_deep_as_texts(rt: HostRuntime) -> Result<(), Fail> {
    each::<Nested>(rt.alloc(), "64 | a record\n65 | no record")
}

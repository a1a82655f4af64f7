ghost use Rattle.mw_json.specs.View.{view};
ghost use Rattle.mw_storage.specs.Stored.{IsKeepable};

use crate::cases::{Theme, each};
use crate::client_packets::sole;
use crate::messages::packets_in;
use mw_base::{List, Memory, Text};
use mw_cases::part;
use mw_json::{SetPacket, Tree, compact_text, number_tree};
use mw_packets_in::{Inbound, Packet};
use mw_storage::{Store, StoreRefusal};
use std::alloc::Global;
use std::test::Fail;

/// The change that a message of one Set asks for.
pub(crate) fn change_in(found: &List<Inbound>) -> Option<&SetPacket> {
    match sole(found) {
        Some(Packet::Change(set)) => Some(set),
        _ => None,
    }
}

/// The text of what a store keeps under a key, nothing where it keeps nothing.
fn kept(alloc: Global, store: &Store, key: &Text) -> Result<Text, Memory> {
    match store.get(key) {
        Some(value) => compact_text(alloc, value),
        None => Text::of(alloc, ""),
    }
}

/// Keeps what a store makes of a change, and answers the text of what is kept then, which is that
/// of what was made.
fn keep(alloc: Global, store: &mut Store, key: &Text, made: Tree) -> Result<Text, Memory>
    requires { IsKeepable (view made) }
{
    let text = compact_text(alloc, &made)?;
    store.put(key, made)?;
    let kept = kept(alloc, store, key)?;
    if kept.as_str() == text.as_str() {
        return Ok(kept);
    }
    Text::of(alloc, "another value is kept")
}

/// A refusal by its name.
fn name_of(alloc: Global, refusal: StoreRefusal) -> Result<Text, Memory> {
    Ok(Text::from_string(format!(in alloc; "{refusal:?}")?))
}

/// What a store makes of a change and keeps then, or why it refuses the change and keeps nothing.
pub(crate) fn change(alloc: Global, store: &mut Store, set: &SetPacket) -> Result<Text, Memory> {
    match store.apply(set) {
        Ok(changed) => keep(alloc, store, &set.key, changed.new),
        Err(refusal) if store.get(&set.key).is_none() => name_of(alloc, refusal),
        Err(_) => Text::of(alloc, "a refused value is kept"),
    }
}

/// What a store answers the message of one Set.
fn answer(alloc: Global, store: &mut Store, message: &str) -> Result<Text, Fail> {
    let found = packets_in(alloc, message)?;
    match change_in(&found) {
        Some(set) => Ok(change(alloc, store, set)?),
        None => Err(Fail::new(message)),
    }
}

/// What a new store answers the message of one Set.
pub(crate) fn answer_of_new(alloc: Global, message: &str) -> Result<Text, Fail> {
    answer(alloc, &mut Store::new(alloc), message)
}

/// Sets on a new store, in cases `MESSAGE | ANSWER`.
pub(crate) struct Sets;

impl Theme for Sets {
    fn answer(alloc: Global, case: &str) -> Result<Text, Fail> {
        answer_of_new(alloc, part(case, 0))
    }
}

/// Sets, and what the operations of each make of its default.
const OPERATIONS: &str =
    r#"[{"cmd":"Set","key":"q","default":[3,4,3],"operations":[{"operation":"remove","value":3},{"operation":"pop","value":0},{"operation":"add","value":[5]}]}] | [3,5]
[{"cmd":"Set","key":"q","default":-7,"operations":[{"operation":"mod","value":3},{"operation":"left_shift","value":2},{"operation":"right_shift","value":1}]}] | 4
[{"cmd":"Set","key":"q","default":[3,4],"operations":[{"operation":"update","value":[4,5]}]}] | [3,4,5]
[{"cmd":"Set","key":"q","default":{"b":1,"d":2},"operations":[{"operation":"update","value":{"a":0,"b":[],"c":"x"}},{"operation":"pop","value":"d"}]}] | {"a":0,"b":[],"c":"x"}
[{"cmd":"Set","key":"q","default":-9223372036854775808,"operations":[{"operation":"mod","value":-1},{"operation":"or","value":-1},{"operation":"and","value":12},{"operation":"xor","value":-1}]}] | -13
[{"cmd":"Set","key":"q","default":5,"operations":[{"operation":"max","value":9},{"operation":"min","value":7},{"operation":"mul","value":-3},{"operation":"mod","value":-4},{"operation":"right_shift","value":63}]}] | -1
[{"cmd":"Set","key":"q","default":1,"operations":[{"operation":"default","value":9},{"operation":"floor","value":0},{"operation":"ceil","value":0},{"operation":"replace","value":"é\n"}]}] | "é\n""#;

#[test]
fn operations_make_their_values(rt: HostRuntime) -> Result<(), Fail> {
    each::<Sets>(rt.alloc(), OPERATIONS)
}

/// Operations on numbers that are refused.
const OUT_OF_RANGE: &str =
    r#"[{"cmd":"Set","key":"k","default":9223372036854775807,"operations":[{"operation":"add","value":1}]}] | OutOfRange { place: 0 }
[{"cmd":"Set","key":"k","default":-7,"operations":[{"operation":"mod","value":0}]}] | BadOperation { place: 0 }"#;

#[test]
fn storage_out_of_range(rt: HostRuntime) -> Result<(), Fail> {
    each::<Sets>(rt.alloc(), OUT_OF_RANGE)
}

/// Other Sets that are refused.
const REFUSED: &str =
    r#"[{"cmd":"Set","key":"k","default":1,"operations":[{"operation":"add","value":1},{"operation":"fly","value":1},{"operation":"mod","value":0}]}] | BadOperation { place: 1 }
[{"cmd":"Set","key":"k","default":18446744073709551615,"operations":[{"operation":"add","value":0}]}] | BadOperation { place: 0 }
[{"cmd":"Set","key":"_read_x","default":0,"operations":[]}] | PrivateKey"#;

#[test]
fn other_sets_are_refused(rt: HostRuntime) -> Result<(), Fail> {
    each::<Sets>(rt.alloc(), REFUSED)
}

/// Keeps a number under its key, which begins with these words, in room that is taken ahead.
fn put_number(
    alloc: Global,
    store: &mut Store,
    words: &str,
    number: u64,
    value: u64,
) -> Result<(), Fail> {
    let key = Text::from_string(format!(in alloc; "{words}{number}")?);
    let growth = store.room_for(1)?;
    store.put_grown(key, number_tree(value), growth);
    Ok(())
}

/// A store of so many numbers from 0 on under their keys, each number no more than `most`.
fn numbered_store(alloc: Global, words: &str, keys: u64, most: u64) -> Result<Store, Fail> {
    let mut store = Store::new(alloc);
    for number in 0..keys {
        put_number(alloc, &mut store, words, number, number.min(most))?;
    }
    Ok(store)
}

/// A Set that puts a text in the place of what is kept under the seventh key.
const TEXT: &str =
    r#"[{"cmd":"Set","key":"key 7","default":0,"operations":[{"operation":"replace","value":"x"}]}]"#;

/// A store of twenty numbers under their keys, but for a text under the seventh.
fn store_of_twenty(alloc: Global) -> Result<Store, Fail> {
    let mut store = numbered_store(alloc, "key ", 20, 19)?;
    let _text = answer(alloc, &mut store, TEXT)?;
    Ok(store)
}

/// What that store keeps, in cases `KEY | VALUE`.
struct Keeping;

impl Theme for Keeping {
    fn answer(alloc: Global, case: &str) -> Result<Text, Fail> {
        let store = store_of_twenty(alloc)?;
        Ok(kept(alloc, &store, &Text::of(alloc, part(case, 0))?)?)
    }
}

/// The first and the last number, those beside the text, the text, and nothing behind them.
const TWENTY: &str = r#"key 0 | 0
key 6 | 6
key 7 | "x"
key 8 | 8
key 19 | 19
key 20 | "#;

#[test]
fn keys_keep_their_values(rt: HostRuntime) -> Result<(), Fail> {
    each::<Keeping>(rt.alloc(), TWENTY)
}

/// What a store answers the Set of a key to a text of so many characters.
fn set_long(alloc: Global, store: &mut Store, key: &str, count: usize) -> Result<Text, Fail> {
    let long = "a".repeat(alloc, count)?;
    let message = format!(in alloc;
        r#"[{{"cmd":"Set","key":"{key}","default":"{long}","operations":[]}}]"#
    )?;
    answer(alloc, store, message.as_str())
}

/// A store of four keys, each of 1,000,003 bytes with its value.
fn store_of_four(alloc: Global) -> Result<Store, Fail> {
    let mut store = Store::new(alloc);
    for key in "a b c d".split(' ') {
        let _text = set_long(alloc, &mut store, key, 1_000_000)?;
    }
    Ok(store)
}

/// What that store answers the Set of a fifth key, in cases `CHARACTERS | ANSWER`.
struct Fifth;

impl Theme for Fifth {
    fn answer(alloc: Global, case: &str) -> Result<Text, Fail> {
        let count = part(case, 0).parse::<usize>()?;
        let text = set_long(alloc, &mut store_of_four(alloc)?, "e", count)?;
        if text.as_str().len() == count.saturating_add(2) {
            return Ok(Text::of(alloc, "taken")?);
        }
        Ok(text)
    }
}

#[test]
fn a_full_store_says_what_would_stand(rt: HostRuntime) -> Result<(), Fail> {
    each::<Fifth>(
        rt.alloc(),
        "1000000 | StoreFull { bytes: 5000015, keys: 5 }",
    )
}

/// A fifth key that fills the store to its last byte, and one of a character more.
const LAST_BYTE: &str = "194289 | taken
194290 | StoreFull { bytes: 4194305, keys: 5 }";

#[test]
fn a_store_is_filled_to_its_last_byte(rt: HostRuntime) -> Result<(), Fail> {
    each::<Fifth>(rt.alloc(), LAST_BYTE)
}

/// Sets on a store of so many keys, which are the numbers from 0 on, in cases
/// `KEYS | MESSAGE | ANSWER`.
struct Numbered;

impl Theme for Numbered {
    fn answer(alloc: Global, case: &str) -> Result<Text, Fail> {
        let keys = part(case, 0).parse::<u64>()?;
        let mut store = numbered_store(alloc, "", keys, 0)?;
        answer(alloc, &mut store, part(case, 1))
    }
}

/// A store that has its last key takes it again, and no further one.
const FULL: &str = r#"65536 | [{"cmd":"Set","key":"65535","default":0,"operations":[]}] | 0
65536 | [{"cmd":"Set","key":"65536","default":0,"operations":[]}] | StoreFull { bytes: 382112, keys: 65537 }"#;

#[test]
fn a_store_is_filled_to_its_last_key(rt: HostRuntime) -> Result<(), Fail> {
    each::<Numbered>(rt.alloc(), FULL)
}

/// A store that lacks its last key takes it.
const LAST: &str = r#"65535 | [{"cmd":"Set","key":"65535","default":0,"operations":[]}] | 0"#;

#[test]
fn a_store_takes_its_last_key(rt: HostRuntime) -> Result<(), Fail> {
    each::<Numbered>(rt.alloc(), LAST)
}

/// A value of each kind with an operand of each kind.
const PAIRS: &str =
    r#"null/null null/true null/6 null/"a" null/[6] null/{"a":6} true/null true/true true/6 true/"a" true/[6] true/{"a":6} 6/null 6/true 6/6 6/"a" 6/[6] 6/{"a":6} "a"/null "a"/true "a"/6 "a"/"a" "a"/[6] "a"/{"a":6} [6]/null [6]/true [6]/6 [6]/"a" [6]/[6] [6]/{"a":6} {"a":6}/null {"a":6}/true {"a":6}/6 {"a":6}/"a" {"a":6}/[6] {"a":6}/{"a":6}"#;

/// Adds a pair that an operation of this name takes, with what it makes of it.
fn add_taken(alloc: Global, all: &mut String, name: &str, pair: &str) -> Result<(), Fail> {
    let (value, operand) = pair.split_once('/').ok_or("no pair")?;
    let message = format!(in alloc;
        r#"[{{"cmd":"Set","key":"q","default":{value},"operations":[{{"operation":"{name}","value":{operand}}}]}}]"#
    )?;
    let made = answer_of_new(alloc, message.as_str())?;
    if made.as_str() == "BadOperation { place: 0 }" {
        return Ok(());
    }
    Ok(all.push_str([pair, "=", made.as_str(), ";"].join(alloc, "")?.as_str())?)
}

/// The pairs that an operation takes, with what it makes of each, in cases `NAME | TAKEN`.
struct Kinds;

impl Theme for Kinds {
    fn answer(alloc: Global, case: &str) -> Result<Text, Fail> {
        let mut all = String::new(alloc);
        for pair in PAIRS.split(' ') {
            add_taken(alloc, &mut all, part(case, 0), pair)?;
        }
        Ok(Text::from_string(all))
    }
}

/// All operations, and three names of none, the last of which is empty.
const NAMES: &str =
    r#"replace | null/null=null;null/true=true;null/6=6;null/"a"="a";null/[6]=[6];null/{"a":6}={"a":6};true/null=null;true/true=true;true/6=6;true/"a"="a";true/[6]=[6];true/{"a":6}={"a":6};6/null=null;6/true=true;6/6=6;6/"a"="a";6/[6]=[6];6/{"a":6}={"a":6};"a"/null=null;"a"/true=true;"a"/6=6;"a"/"a"="a";"a"/[6]=[6];"a"/{"a":6}={"a":6};[6]/null=null;[6]/true=true;[6]/6=6;[6]/"a"="a";[6]/[6]=[6];[6]/{"a":6}={"a":6};{"a":6}/null=null;{"a":6}/true=true;{"a":6}/6=6;{"a":6}/"a"="a";{"a":6}/[6]=[6];{"a":6}/{"a":6}={"a":6};
default | null/null=null;null/true=null;null/6=null;null/"a"=null;null/[6]=null;null/{"a":6}=null;true/null=true;true/true=true;true/6=true;true/"a"=true;true/[6]=true;true/{"a":6}=true;6/null=6;6/true=6;6/6=6;6/"a"=6;6/[6]=6;6/{"a":6}=6;"a"/null="a";"a"/true="a";"a"/6="a";"a"/"a"="a";"a"/[6]="a";"a"/{"a":6}="a";[6]/null=[6];[6]/true=[6];[6]/6=[6];[6]/"a"=[6];[6]/[6]=[6];[6]/{"a":6}=[6];{"a":6}/null={"a":6};{"a":6}/true={"a":6};{"a":6}/6={"a":6};{"a":6}/"a"={"a":6};{"a":6}/[6]={"a":6};{"a":6}/{"a":6}={"a":6};
floor | 6/null=6;6/true=6;6/6=6;6/"a"=6;6/[6]=6;6/{"a":6}=6;
ceil | 6/null=6;6/true=6;6/6=6;6/"a"=6;6/[6]=6;6/{"a":6}=6;
add | 6/6=12;[6]/[6]=[6,6];
mul | 6/6=36;
max | 6/6=6;
min | 6/6=6;
mod | 6/6=0;
and | 6/6=6;
or | 6/6=6;
xor | 6/6=0;
left_shift | 6/6=384;
right_shift | 6/6=0;
remove | [6]/null=[6];[6]/true=[6];[6]/6=[];[6]/"a"=[6];[6]/[6]=[6];[6]/{"a":6}=[6];
pop | [6]/6=[6];{"a":6}/"a"={};
update | [6]/[6]=[6];{"a":6}/{"a":6}={"a":6};
pow | 
Add | 
 | "#;

#[test]
fn each_operation_takes_its_kinds(rt: HostRuntime) -> Result<(), Fail> {
    each::<Kinds>(rt.alloc(), NAMES)
}

/// The same as of the first table, of numbers at the ends of their ranges.
const ENDS: &str =
    r#"[{"cmd":"Set","key":"q","default":-9223372036854775808,"operations":[{"operation":"left_shift","value":0},{"operation":"right_shift","value":63}]}] | -1
[{"cmd":"Set","key":"q","default":1,"operations":[{"operation":"left_shift","value":62},{"operation":"add","value":4611686018427387903}]}] | 9223372036854775807
[{"cmd":"Set","key":"q","default":-7,"operations":[{"operation":"right_shift","value":1},{"operation":"mod","value":-3}]}] | -1
[{"cmd":"Set","key":"q","default":[1,2],"operations":[{"operation":"pop","value":-1},{"operation":"pop","value":2},{"operation":"pop","value":1}]}] | [1]"#;

#[test]
fn numbers_at_their_ends(rt: HostRuntime) -> Result<(), Fail> {
    each::<Sets>(rt.alloc(), ENDS)
}

use crate::cases::{Theme, check, each};
use crate::messages::packets_in;
use crate::storage::{Sets, answer_of_new, change, change_in};
use mw_base::Text;
use mw_cases::part;
use mw_storage::Store;
use std::alloc::Global;
use std::test::Fail;

/// Sets of numerals, and what their operations make of them.
const NUMERALS: &str =
    r#"[{"cmd":"Set","key":"q","default":0,"operations":[{"operation":"replace","value":1.50}]}] | 1.50
[{"cmd":"Set","key":"q","default":-0,"operations":[]}] | -0
[{"cmd":"Set","key":"q","default":18446744073709551616,"operations":[{"operation":"default","value":1e400}]}] | 18446744073709551616
[{"cmd":"Set","key":"q","default":[1.5,1.50,{"b":2.0,"a":1e2}],"operations":[{"operation":"remove","value":1.50},{"operation":"add","value":[1.5,3.0]}]}] | [1.5,{"a":1e2,"b":2.0},1.5,3.0]
[{"cmd":"Set","key":"q","default":[1.0],"operations":[{"operation":"update","value":[1,1.0,1.00,-0]}]}] | [1.0,1,1.00,-0]
[{"cmd":"Set","key":"q","default":{"b":1.0},"operations":[{"operation":"update","value":{"a":0.5,"b":1.00}},{"operation":"pop","value":"a"}]}] | {"b":1.00}
[{"cmd":"Set","key":"q","default":[1.5,2.5],"operations":[{"operation":"pop","value":0}]}] | [2.5]
[{"cmd":"Set","key":"q","default":"n1.5","operations":[{"operation":"default","value":0}]}] | "n1.5""#;

#[test]
fn numerals_are_values(rt: HostRuntime) -> Result<(), Fail> {
    each::<Sets>(rt.alloc(), NUMERALS)
}

/// Operations that need a number, by their names, in cases `NAME | ANSWER`: a numeral is no number,
/// as a value and as an operand, in its place among the operations.
struct Numbers;

/// Sets of an operation, which stands in the place of `@`: on a numeral, and with one.
const ON_NUMERALS: [&str; 3] = [
    r#"[{"cmd":"Set","key":"k","default":1.50,"operations":[{"operation":"@","value":1}]}]"#,
    r#"[{"cmd":"Set","key":"k","default":-0,"operations":[{"operation":"@","value":1}]}]"#,
    r#"[{"cmd":"Set","key":"k","default":1e2,"operations":[{"operation":"@","value":1e2}]}]"#,
];

impl Theme for Numbers {
    fn answer(alloc: Global, case: &str) -> Result<Text, Fail> {
        for message in ON_NUMERALS {
            let message = message.replace(alloc, "@", part(case, 0))?;
            check(case, answer_of_new(alloc, message.as_str())?.as_str())?;
        }
        Ok(Text::of(alloc, part(case, 1))?)
    }
}

/// Each of them.
const NUMBERS: &str = "add | BadOperation { place: 0 }
mul | BadOperation { place: 0 }
mod | BadOperation { place: 0 }
floor | BadOperation { place: 0 }
ceil | BadOperation { place: 0 }
max | BadOperation { place: 0 }
min | BadOperation { place: 0 }
and | BadOperation { place: 0 }
or | BadOperation { place: 0 }
xor | BadOperation { place: 0 }
left_shift | BadOperation { place: 0 }
right_shift | BadOperation { place: 0 }
remove | BadOperation { place: 0 }
pop | BadOperation { place: 0 }
update | BadOperation { place: 0 }
fly | BadOperation { place: 0 }";

#[test]
fn numerals_are_no_numbers(rt: HostRuntime) -> Result<(), Fail> {
    each::<Numbers>(rt.alloc(), NUMBERS)
}

/// A numeral in its place among the operations, and as an operand of a number or a list.
const NUMERALS_REFUSED: &str =
    r#"[{"cmd":"Set","key":"k","default":0,"operations":[{"operation":"replace","value":1.50},{"operation":"add","value":1}]}] | BadOperation { place: 1 }
[{"cmd":"Set","key":"k","default":5,"operations":[{"operation":"add","value":1},{"operation":"add","value":1.0},{"operation":"fly","value":1}]}] | BadOperation { place: 1 }
[{"cmd":"Set","key":"k","default":9223372036854775807,"operations":[{"operation":"add","value":1},{"operation":"add","value":1.0}]}] | OutOfRange { place: 0 }
[{"cmd":"Set","key":"k","default":1,"operations":[{"operation":"mod","value":-0}]}] | BadOperation { place: 0 }
[{"cmd":"Set","key":"k","default":1,"operations":[{"operation":"left_shift","value":1.0}]}] | BadOperation { place: 0 }
[{"cmd":"Set","key":"k","default":[1],"operations":[{"operation":"add","value":1.5}]}] | BadOperation { place: 0 }
[{"cmd":"Set","key":"k","default":[1],"operations":[{"operation":"pop","value":0.0}]}] | BadOperation { place: 0 }
[{"cmd":"Set","key":"k","default":{"a":1},"operations":[{"operation":"pop","value":1.5}]}] | BadOperation { place: 0 }
[{"cmd":"Set","key":"_read_x","default":1.5,"operations":[{"operation":"add","value":1}]}] | PrivateKey"#;

#[test]
fn numerals_are_refused_in_their_place(rt: HostRuntime) -> Result<(), Fail> {
    each::<Sets>(rt.alloc(), NUMERALS_REFUSED)
}

/// What a new store keeps of a numeral within so many lists, in cases `LISTS | ANSWER`: a message
/// nests no deeper than 64, so a value nests no deeper than 62.
struct NestedSets;

impl Theme for NestedSets {
    fn answer(alloc: Global, case: &str) -> Result<Text, Fail> {
        let lists = part(case, 0).parse::<usize>()?;
        let front = "[".repeat(alloc, lists)?;
        let end = "]".repeat(alloc, lists)?;
        let message = format!(in alloc;
            r#"[{{"cmd":"Set","key":"k","default":{front}1.50{end},"operations":[]}}]"#
        )?;
        let found = packets_in(alloc, message.as_str())?;
        let Some(set) = change_in(&found) else {
            return Ok(Text::of(alloc, "no packet")?);
        };
        let kept = change(alloc, &mut Store::new(alloc), set)?;
        let wanted = format!(in alloc; "{front}1.50{end}")?;
        if kept.as_str() == wanted.as_str() {
            return Ok(Text::of(alloc, "kept")?);
        }
        Ok(kept)
    }
}

#[test]
fn numerals_are_kept_as_deep_as_values(rt: HostRuntime) -> Result<(), Fail> {
    each::<NestedSets>(rt.alloc(), "0 | kept\n61 | kept\n62 | kept\n63 | no packet")
}

//! Scripts of sessions: their lines in short, and what is printed after a mark.
use crate::harness::{after_mark, agree, filled, folder_of, told};
use mw_cases::ROOM_A;
use std::alloc::Global;
use std::sync::Wait;
use std::test::Fail;
use std::thread::Threads;

/// The seed file of Room A, where one text stands in the place of another.
pub(crate) fn room_with(alloc: Global, from: &str, to: &str) -> Result<String, Fail> {
    Ok(ROOM_A.replace(alloc, from, to)?)
}

/// What a short line's word stands for, with places for the words behind it; nothing where the line
/// stands for itself.
fn form_of(word: &str) -> &'static str {
    match word {
        "connect" => {
            r#"text $0 [{"cmd":"Connect","game":"G","items_handling":$2,"name":"$1","tags":["NoText"],"version":{"build":0,"class":"Version","major":0,"minor":5}}]"#
        }
        "checks" => r#"text $0 [{"cmd":"LocationChecks","locations":$1}]"#,
        "sync" => r#"text $0 [{"cmd":"Sync"}]"#,
        "mark" => "take 0",
        "both" => {
            r#"open
text 1 [{"cmd":"Connect","game":"G","items_handling":7,"name":"Ann","tags":[],"version":{"build":0,"major":0,"minor":5}}]
open
text 2 [{"cmd":"Connect","game":"G","items_handling":7,"name":"Bob","tags":[],"version":{"build":0,"major":0,"minor":5}}]
take 1
take 2
take 0"#
        }
        _ => "",
    }
}

/// What a short line stands for.
fn line_of(alloc: Global, short: &str) -> Result<String, Fail> {
    let (word, rest) = short.split_once(' ').unwrap_or((short, ""));
    let form = form_of(word);
    if form.is_empty() {
        return Ok(String::from_str(alloc, short)?);
    }
    filled(alloc, form, " ", rest)
}

/// The script of short lines. `connect S NAME MASK`, `checks S LIST` and `sync S` stand for the
/// texts of these packets, `mark` for `take 0`, which prints `0 gone`, and `both` for Ann and Bob
/// in Room A, who hear texts of the room from a mark on.
pub(crate) fn script_of(alloc: Global, lines: &str) -> Result<String, Fail> {
    let mut script = String::new(alloc);
    for line in lines.split('\n') {
        script.push_str(line_of(alloc, line)?.as_str())?;
        script.push_str("\n")?;
    }
    let _ = script.pop();
    Ok(script)
}

/// Fails where `drive` prints another text of a script of short lines after its first mark.
pub(crate) fn marks<R: Threads + Wait + Sync>(
    rt: &R,
    alloc: Global,
    seed: &str,
    lines: &str,
    wanted: &str,
) -> Result<(), Fail> {
    let mut folder = folder_of(alloc, &[("A", seed)], "", "")?;
    let told = told(rt, alloc, &mut folder, "drive A", lines, "")?;
    let after = after_mark(told.as_str()).unwrap_or("no mark");
    agree(alloc, after, wanted, "")
}

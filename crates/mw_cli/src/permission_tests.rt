//! The commands that a room may forbid, with each permission, before the goal and after it.
use crate::harness::{Run, cases_tell};
use crate::session_harness::room_with;
use std::alloc::Global;
use std::sync::Wait;
use std::test::Fail;
use std::thread::Threads;

/// Ann, who hears texts of the room, says a command once she has a status. A case has the
/// permission, the command, her status, and the end of what she hears.
const ASKED: [Run<'static>; 1] = [(
    "drive A",
    r#"open
text 1 [{"cmd":"Connect","game":"G","items_handling":7,"name":"Ann","tags":[],"version":{"build":0,"major":0,"minor":5}}]
text 1 [{"cmd":"StatusUpdate","status":$2}]
take 1
mark
text 1 [{"cmd":"Say","text":"$1"}]
take 1
"#,
    r#"mark
..$3
"#,
)];

/// Fails at the first case in which that is otherwise, where the room's permission is the case's in
/// the place of one for the goal.
fn may<R: Threads + Wait + Sync>(
    rt: &R,
    alloc: Global,
    from: &str,
    to: &str,
    cases: &str,
) -> Result<(), Fail> {
    let room = room_with(alloc, from, to)?;
    cases_tell(rt, alloc, &[("A", room.as_str())], "", &ASKED, cases)
}

const REMAINING: &str =
    r#"disabled | !remaining | 20 | [{"text":"not allowed"}],"type":"CommandResult"}]
disabled | !remaining | 30 | [{"text":"not allowed"}],"type":"CommandResult"}]
enabled | !remaining | 20 | [{"text":"2 remaining: Coin, Map"}],"type":"CommandResult"}]
enabled | !remaining | 30 | [{"text":"2 remaining: Coin, Map"}],"type":"CommandResult"}]
goal | !remaining | 20 | [{"text":"not allowed"}],"type":"CommandResult"}]
goal | !remaining | 30 | [{"text":"2 remaining: Coin, Map"}],"type":"CommandResult"}]"#;

#[test]
fn who_may_ask_what_remains(rt: HostRuntime) -> Result<(), Fail> {
    let to = r#""remaining":"$0""#;
    may(&rt, rt.alloc(), r#""remaining":"goal""#, to, REMAINING)
}

/// By an automatic permission it was done at the goal.
const RELEASE: &str =
    r#"disabled | !release | 20 | [{"text":"not allowed"}],"type":"CommandResult"}]
disabled | !release | 30 | [{"text":"not allowed"}],"type":"CommandResult"}]
enabled | !release | 20 | [{"text":"Ann released"}],"slot":1,"team":0,"type":"Release"}]
enabled | !release | 30 | [{"text":"Ann released"}],"slot":1,"team":0,"type":"Release"}]
goal | !release | 20 | [{"text":"not allowed"}],"type":"CommandResult"}]
goal | !release | 30 | [{"text":"Ann released"}],"slot":1,"team":0,"type":"Release"}]
auto | !release | 20 | [{"text":"not allowed"}],"type":"CommandResult"}]
auto | !release | 30 | [{"text":"nothing left"}],"type":"CommandResult"}]
auto_enabled | !release | 20 | [{"text":"Ann released"}],"slot":1,"team":0,"type":"Release"}]
auto_enabled | !release | 30 | [{"text":"nothing left"}],"type":"CommandResult"}]"#;

#[test]
fn who_may_release(rt: HostRuntime) -> Result<(), Fail> {
    let to = r#""release":"$0""#;
    may(&rt, rt.alloc(), r#""release":"goal""#, to, RELEASE)
}

/// By an automatic permission it was done at the goal.
const COLLECT: &str =
    r#"disabled | !collect | 20 | [{"text":"not allowed"}],"type":"CommandResult"}]
disabled | !collect | 30 | [{"text":"not allowed"}],"type":"CommandResult"}]
enabled | !collect | 20 | [{"text":"Ann collected"}],"slot":1,"team":0,"type":"Collect"}]
enabled | !collect | 30 | [{"text":"Ann collected"}],"slot":1,"team":0,"type":"Collect"}]
goal | !collect | 20 | [{"text":"not allowed"}],"type":"CommandResult"}]
goal | !collect | 30 | [{"text":"Ann collected"}],"slot":1,"team":0,"type":"Collect"}]
auto | !collect | 20 | [{"text":"not allowed"}],"type":"CommandResult"}]
auto | !collect | 30 | [{"text":"nothing left"}],"type":"CommandResult"}]
auto_enabled | !collect | 20 | [{"text":"Ann collected"}],"slot":1,"team":0,"type":"Collect"}]
auto_enabled | !collect | 30 | [{"text":"nothing left"}],"type":"CommandResult"}]"#;

#[test]
fn who_may_collect(rt: HostRuntime) -> Result<(), Fail> {
    let to = r#""collect":"$0""#;
    may(&rt, rt.alloc(), r#""collect":"goal""#, to, COLLECT)
}

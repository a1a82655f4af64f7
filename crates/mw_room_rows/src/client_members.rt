//! Each member of each packet of a client: missing, null, and of each other kind.
use crate::cases::Theme;
use crate::client_packets::Messages;
use mw_cases::part;
use std::alloc::Global;
use std::test::Fail;

/// The values that each member is tried with. The first stands for none.
const VALUES: &str =
    r#"- null true 0 1 2 3 5 7 10 20 30 40 -9 0.5 1e3 -0 "x" [] ["x"] [7] [null] [0.5] {} {"a":0.5} 1e400"#;

/// A member with a value, as it stands behind others; nothing where there is none.
fn member(alloc: Global, name: &str, value: &str) -> Result<String, Fail> {
    if value == "-" {
        return Ok(String::new(alloc));
    }
    Ok(format!(in alloc; r#","{name}":{value}"#)?)
}

/// What a case `MESSAGE | MEMBER | FINE | FAULT` wants for a value: a packet where the value is one
/// of those that are no fault of the member, else the fault.
fn wanted<'a>(case: &'a str, value: &str) -> &'a str {
    for fine in part(case, 2).split(' ') {
        if fine == value {
            return "a packet";
        }
    }
    part(case, 3)
}

/// Fails unless a case's message is answered as it has to be where its member, which stands in the
/// place of `@`, has a value.
fn try_value(alloc: Global, case: &str, value: &str) -> Result<(), Fail> {
    let member = member(alloc, part(case, 1), value)?;
    let message = part(case, 0).replace(alloc, "@", member.as_str())?;
    if Messages::answer(alloc, message.as_str())?.as_str() == wanted(case, value) {
        return Ok(());
    }
    Err(Fail::new(message))
}

/// Tries each case with each value.
fn try_all(alloc: Global, cases: &str) -> Result<(), Fail> {
    for case in cases.split('\n') {
        for value in VALUES.split(' ') {
            try_value(alloc, case, value)?;
        }
    }
    Ok(())
}

/// Members of Connect and ConnectUpdate.
const CONNECT: &str =
    r#"[{"cmd":"Connect","version":{"major":0,"minor":5,"build":0}@}] | name | "x" | Connect, arguments, arguments: name
[{"cmd":"Connect","name":"x","version":{"major":0,"minor":5,"build":0}@}] | password | - null "x" | Connect, arguments, arguments: password
[{"cmd":"Connect","name":"x","version":{"major":0,"minor":5,"build":0}@}] | game | - null "x" | Connect, arguments, arguments: game
[{"cmd":"Connect","name":"x"@}] | version | none | Connect, arguments, arguments: version
[{"cmd":"Connect","name":"x","version":{"minor":0,"build":0@}}] | major | 0 1 2 3 5 7 10 20 30 40 -9 | Connect, arguments, arguments: version
[{"cmd":"Connect","name":"x","version":{"major":0,"build":0@}}] | minor | 0 1 2 3 5 7 10 20 30 40 -9 | Connect, arguments, arguments: version
[{"cmd":"Connect","name":"x","version":{"major":0,"minor":0@}}] | build | 0 1 2 3 5 7 10 20 30 40 -9 | Connect, arguments, arguments: version
[{"cmd":"Connect","name":"x","version":{"major":0,"minor":5,"build":0}@}] | items_handling | - null 0 1 2 3 5 7 10 20 30 40 -9 | Connect, arguments, arguments: items_handling
[{"cmd":"Connect","name":"x","version":{"major":0,"minor":5,"build":0}@}] | tags | - [] ["x"] | Connect, arguments, arguments: tags
[{"cmd":"ConnectUpdate"@}] | items_handling | - 0 1 3 5 7 | ConnectUpdate, arguments, arguments: items_handling
[{"cmd":"ConnectUpdate"@}] | tags | - [] ["x"] | ConnectUpdate, arguments, arguments: tags"#;

#[test]
fn each_member_of_connect(rt: HostRuntime) -> Result<(), Fail> {
    try_all(rt.alloc(), CONNECT)
}

/// Members of the packets of locations, hints and statuses.
const LOCATIONS_AND_STATUSES: &str =
    r#"[{"cmd":"LocationChecks"@}] | locations | [] [7] | LocationChecks, arguments, arguments: locations
[{"cmd":"LocationScouts"@}] | locations | [] [7] | LocationScouts, arguments, arguments: locations
[{"cmd":"LocationScouts","locations":[]@}] | create_as_hint | - 0 1 2 | LocationScouts, arguments, arguments: create_as_hint
[{"cmd":"UpdateHint","location":1@}] | player | 0 1 2 3 5 7 10 20 30 40 -9 | UpdateHint, arguments, arguments: player
[{"cmd":"UpdateHint","player":1@}] | location | 0 1 2 3 5 7 10 20 30 40 -9 | UpdateHint, arguments, arguments: location
[{"cmd":"UpdateHint","player":1,"location":1@}] | status | - 0 10 20 30 | UpdateHint, arguments, arguments: status
[{"cmd":"StatusUpdate"@}] | status | 0 5 10 20 30 | StatusUpdate, arguments, arguments: status
[{"cmd":"Say"@}] | text | "x" | Say, arguments, arguments: text
[{"cmd":"GetDataPackage"@}] | games | - [] ["x"] | GetDataPackage, arguments, arguments: games
[{"cmd":"Sync"@}] | more | - null true 0 1 2 3 5 7 10 20 30 40 -9 "x" [] ["x"] [7] [null] {} 0.5 1e3 -0 [0.5] {"a":0.5} 1e400 | "#;

#[test]
fn each_member_of_locations_and_statuses(rt: HostRuntime) -> Result<(), Fail> {
    try_all(rt.alloc(), LOCATIONS_AND_STATUSES)
}

/// Members of Bounce and the data storage.
const MESSAGES_AND_STORAGE: &str =
    r#"[{"cmd":"Bounce"@}] | games | - [] ["x"] | Bounce, arguments, arguments: games
[{"cmd":"Bounce"@}] | tags | - [] ["x"] | Bounce, arguments, arguments: tags
[{"cmd":"Bounce"@}] | slots | - [] [7] | Bounce, arguments, arguments: slots
[{"cmd":"Bounce"@}] | more | - null true 0 1 2 3 5 7 10 20 30 40 -9 "x" [] ["x"] [7] [null] {} 0.5 1e3 -0 [0.5] {"a":0.5} 1e400 | none
[{"cmd":"Get"@}] | keys | [] ["x"] | Get, arguments, arguments: keys
[{"cmd":"Get","keys":[]@}] | more | - null true 0 1 2 3 5 7 10 20 30 40 -9 "x" [] ["x"] [7] [null] {} 0.5 1e3 -0 [0.5] {"a":0.5} 1e400 | none
[{"cmd":"Set","operations":[]@}] | key | "x" | Set, arguments, arguments: key
[{"cmd":"Set","key":"x","operations":[]@}] | default | - null true 0 1 2 3 5 7 10 20 30 40 -9 "x" [] ["x"] [7] [null] {} 0.5 1e3 -0 [0.5] {"a":0.5} 1e400 | none
[{"cmd":"Set","key":"x","operations":[]@}] | want_reply | - true | Set, arguments, arguments: want_reply
[{"cmd":"Set","key":"x"@}] | operations | [] | Set, arguments, arguments: operations
[{"cmd":"Set","key":"x","operations":[]@}] | more | - null true 0 1 2 3 5 7 10 20 30 40 -9 "x" [] ["x"] [7] [null] {} 0.5 1e3 -0 [0.5] {"a":0.5} 1e400 | none
[{"cmd":"Set","key":"x","operations":[{"value":1@}]}] | operation | "x" | Set, arguments, arguments: operations
[{"cmd":"Set","key":"x","operations":[{"operation":"add"@}]}] | value | null true 0 1 2 3 5 7 10 20 30 40 -9 "x" [] ["x"] [7] [null] {} 0.5 1e3 -0 [0.5] {"a":0.5} 1e400 | Set, arguments, arguments: operations
[{"cmd":"SetNotify"@}] | keys | [] ["x"] | SetNotify, arguments, arguments: keys"#;

#[test]
fn each_member_of_messages_and_storage(rt: HostRuntime) -> Result<(), Fail> {
    try_all(rt.alloc(), MESSAGES_AND_STORAGE)
}

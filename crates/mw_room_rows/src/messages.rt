use mw_base::{List, Text};
use mw_packets_in::{Inbound, packets_of};
use std::alloc::Global;
use std::test::Fail;

/// A message by its name: of Ann's or Bob's client, or one that checks Ann's first location or her
/// second. What begins as a list, and `7`, is the message itself; no other word is one.
fn message_of(name: &str) -> Option<&str> {
    let message = match name {
        "Ann" => {
            r#"[{"cmd":"Connect","game":"G","items_handling":7,"name":"Ann","tags":["NoText"],"version":{"build":0,"major":0,"minor":5}}]"#
        }
        "Bob" => {
            r#"[{"cmd":"Connect","game":"G","items_handling":7,"name":"Bob","tags":["NoText"],"version":{"build":0,"major":0,"minor":5}}]"#
        }
        "first" => r#"[{"cmd":"LocationChecks","locations":[101]}]"#,
        "second" => r#"[{"cmd":"LocationChecks","locations":[102]}]"#,
        message if message == "7" || message.starts_with('[') => message,
        _ => return None,
    };
    Some(message)
}

/// The packets of a message.
pub(crate) fn packets_in(alloc: Global, message: &str) -> Result<List<Inbound>, Fail> {
    Ok(packets_of(alloc, &Text::of(alloc, message)?)?)
}

/// The last element of a message by its name.
pub(crate) fn last_in(alloc: Global, name: &str) -> Result<Inbound, Fail> {
    let found = packets_in(alloc, message_of(name).ok_or("no message")?)?;
    Ok(found.into_vec().pop().ok_or("no element")?)
}

//! Kept rooms by scripts: lines `CALL | ANSWER`, of which each is what is asked of a room, and in a
//! word what is answered. Its one session is the first.
use crate::cases::check;
use crate::messages::last_in;
use crate::rooms::session;
use mw_base::{SessionId, Text};
use mw_cases::part;
use mw_disk::MemDisk;
use mw_keep::{Call, KeptRoom, Reply, StopCause};
use mw_packets_in::Inbound;
use std::alloc::Global;
use std::test::Fail;

/// A reply in one word.
fn word(reply: &Reply) -> &'static str {
    match reply {
        Reply::Opened(_) => "opened",
        Reply::Done => "done",
        Reply::Messages(_) => "messages",
        Reply::Gone => "gone",
        Reply::Overrun => "overrun",
        Reply::Stopped(StopCause::DiskFault) => "stopped",
        Reply::Stopped(_) => "full",
        Reply::Memory => "memory",
    }
}

/// The call of what a session sends.
fn call_of(session: SessionId, sent: Inbound) -> Call {
    match sent {
        Inbound::Good(packet) => Call::Packet { session, packet },
        Inbound::Wrong(bad) => Call::Bad { session, bad },
    }
}

/// A call by its name, or that of a message.
fn named(alloc: Global, asked: &str) -> Result<Call, Fail> {
    let session = session();
    match asked {
        "open" => Ok(Call::Open { time: 0 }),
        "commit" => Ok(Call::Commit),
        "lost" => Ok(Call::Lost { session }),
        "take" => Ok(Call::Take { session }),
        "take of another" => Ok(Call::Take {
            session: SessionId::new(2).unwrap(),
        }),
        sent => Ok(call_of(session, last_in(alloc, sent)?)),
    }
}

/// Fails at the first line of a script that a room answers otherwise.
pub(crate) fn try_calls(
    alloc: Global,
    room: &mut KeptRoom<MemDisk>,
    script: &str,
) -> Result<(), Fail> {
    for line in script.split('\n') {
        let call = named(alloc, part(line, 0))?;
        check(line, word(&room.act(call)))?;
    }
    Ok(())
}

/// The last of the messages that the session takes.
pub(crate) fn last_taken(room: &mut KeptRoom<MemDisk>) -> Option<Text> {
    match room.act(Call::Take { session: session() }) {
        Reply::Messages(texts) => texts.into_vec().pop(),
        _ => None,
    }
}

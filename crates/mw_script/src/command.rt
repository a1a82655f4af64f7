use mw_base::List;
use mw_packets_in::Inbound;

/// What a line of a script asks for. Sessions are numbered from 1 in the order of opening; a number
/// may be no session's.
#[derive(Drop)]
pub enum Command {
    /// A session is opened.
    Open {
        /// The room's time, from 0 to 2^64 - 1.
        time: u64,
    },
    /// A session sends a message.
    Send {
        /// The session's number.
        session: u64,
        /// The packets of the message, and what stands in the place of those that are none.
        message: List<Inbound>,
    },
    /// The untaken messages of a session are taken.
    Take {
        /// The session's number.
        session: u64,
    },
    /// A session is lost.
    Lose {
        /// The session's number.
        session: u64,
    },
    /// What is recorded is made safe.
    Commit,
    /// The room is dropped, and recovered from its journal.
    Crash,
}

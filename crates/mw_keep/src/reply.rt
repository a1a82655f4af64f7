use mw_base::{List, SessionId, Text};

/// What a kept room answers.
#[derive(Drop)]
pub enum Reply {
    /// A session is open, under this number.
    Opened(SessionId),
    /// It is done.
    Done,
    /// The messages that the session takes.
    Messages(List<Text>),
    /// The session isn't open, and nothing was done.
    Gone,
    /// The session was owed more than it may keep, and nothing was done.
    Overrun,
    /// The room goes no further until its journal is opened again.
    Stopped(StopCause),
    /// Memory ran out, and nothing was done.
    Memory,
}

/// Why a kept room goes no further.
#[derive(Clone, Copy)]
pub enum StopCause {
    /// The disk failed in an append.
    DiskFault,
    /// With an event's batch the journal's file would pass 1,073,741,824 bytes.
    JournalFull {
        /// The length in bytes that it would have.
        len: u64,
    },
    /// The room has had as many calls as it may have.
    TooManyCalls {
        /// How many that are: 2^63.
        count: u64,
    },
}

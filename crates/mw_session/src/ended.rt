use mw_keep::StopCause;

/// Why a session ended.
#[derive(Clone, Copy)]
pub enum Ended {
    /// The link ended.
    Closed,
    /// The link failed, and its count of faults rose.
    LinkFault,
    /// The session was owed more than it may keep.
    Overrun,
    /// Another caller closed the session.
    Gone,
    /// A text had more than 524,288 bytes.
    TooLong {
        /// How many bytes it had.
        bytes: u64,
    },
    /// The room goes no further, for this cause.
    Stopped(StopCause),
    /// Memory ran out.
    Memory,
}

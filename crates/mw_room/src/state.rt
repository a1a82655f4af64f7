/// How a session stands.
#[derive(Clone, Copy, PartialEq, Eq)]
pub enum SessionState {
    /// It isn't open.
    Shut,
    /// It was owed more than it may keep, and is owed nothing more.
    Overrun,
    /// It is open.
    Ready {
        /// The greatest length of the journal that an untaken message carries, 0 without one.
        shows: u64,
    },
}

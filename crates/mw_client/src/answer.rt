/// What a client sends for what it heard, each in a message of its own.
#[derive(Clone, Copy)]
pub enum Answer {
    /// A Connect.
    Connect,
    /// A LocationChecks of its locations, if there are any.
    Checks,
    /// A Sync.
    Sync,
}

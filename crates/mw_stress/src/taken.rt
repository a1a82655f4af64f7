use mw_base::{List, SessionId, Text};

/// The texts that a session takes at once.
#[derive(Drop)]
pub struct Taken {
    /// The session.
    pub session: SessionId,
    /// The texts.
    pub texts: List<Text>,
}

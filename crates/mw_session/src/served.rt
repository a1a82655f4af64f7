use crate::ended::Ended;
use mw_base::SessionId;

/// A link that was served.
#[derive(Drop)]
pub struct Served<T> {
    /// The link, which was shut. It tells what came and went over it.
    pub line: T,
    /// The session's number, where one was opened.
    pub session: Option<SessionId>,
    /// Why it ended.
    pub ended: Ended,
}

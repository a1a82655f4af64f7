use crate::words::PlayWords;
use mw_base::{List, LocId};

/// Who plays what.
#[derive(Drop)]
pub struct Player {
    /// What the words ask for.
    pub words: PlayWords,
    /// The locations that are checked once the session has joined.
    pub locations: List<LocId>,
}

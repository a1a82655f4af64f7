use crate::growths::Growths;
use crate::session::{Change, Session};
use mw_base::List;
use mw_effects::Effect;
use mw_records::Record;

/// What an event does to a room, with the memory that it takes.
#[derive(Drop)]
pub struct Plan {
    pub(crate) effect: Effect,
    pub(crate) length: u64,
    pub(crate) opened: u64,
    pub(crate) changes: Vec<Change>,
    pub(crate) lost: Option<u64>,
    pub(crate) new_sessions: Vec<Session>,
    pub(crate) growths: Growths,
}

impl Plan {
    ghost use Rattle.std.specs.Prelude.{◌≡◌, map};
    ghost use Rattle.mw_records.specs.Records.{record_view};
    ghost use Rattle.mw_room.specs.Views.{plan_records};

    /// The records that the event makes.
    pub fn records(&self) -> &List<Record>
        ensures { map record_view result.now ≡ plan_records self.now }
    {
        &self.effect.records
    }
}

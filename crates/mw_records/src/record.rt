ghost use Rattle.std.specs.Prelude.{◌≡◌, option_map};
ghost use Rattle.std.specs.Option.{option_to_list};
ghost use Rattle.mw_protocol.specs.Locating.{checks_record};

use crate::checked::CheckedLocations;
use crate::stored::Stored;
use mw_base::{ClientStatus, HintRecord, List, LocId, SlotId, TeamId};

/// An entry of a room's journal.
pub enum Record {
    /// A slot of a team checked locations of its own.
    Checks(CheckedLocations),
    /// A slot of a team gave all that its world holds.
    Release {
        /// The team.
        team: TeamId,
        /// The slot.
        slot: SlotId,
    },
    /// A slot of a team got all that other worlds hold for it.
    Collect {
        /// The team.
        team: TeamId,
        /// The slot.
        slot: SlotId,
    },
    /// A slot of a team has a status.
    Status {
        /// The team.
        team: TeamId,
        /// The slot.
        slot: SlotId,
        /// The status.
        status: ClientStatus,
    },
    /// A hint is made, or has another status.
    Hint(HintRecord),
    /// A key of the data storage holds a value.
    Store(Stored),
}

/// By hand, so that whoever lets it go calls this, and what it frees is listed once.
impl Drop for Record {
    fn drop(self) {
        match self {
            Record::Checks(_) => {}
            Record::Release { team: _, slot: _ } => {}
            Record::Collect { team: _, slot: _ } => {}
            Record::Status {
                team: _,
                slot: _,
                status: _,
            } => {}
            Record::Hint(_) => {}
            Record::Store(_) => {}
        }
    }
}

impl Record {
    ghost use Rattle.mw_records.specs.Records.{record_view};

    /// The record of what a slot of a team checked; None exactly where there is no location.
    pub fn of_checks(team: TeamId, slot: SlotId, locations: List<LocId>) -> Option<Record>
        ensures { option_to_list (option_map record_view result)
            ≡ checks_record team slot locations }
    {
        CheckedLocations::new(team, slot, locations).map(Record::Checks)
    }
}

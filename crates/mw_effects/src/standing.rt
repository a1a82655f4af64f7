ghost use Rattle.std.specs.Prelude.{◌≡◌, IfOk};
ghost use Rattle.mw_protocol.specs.Standing.{status_in, start};
ghost use Rattle.mw_effects.specs.Parts.{standing_of};

use crate::status::{SlotStatus, status_among};
use mw_base::{Memory, SlotId, TeamId};
use mw_checks::CheckLog;
use mw_hints::HintBook;
use mw_multidata::{Multidata, RoomTables};
use mw_storage::Store;
use std::alloc::Global;

/// What a room's records come to: the distinct checks, the hints, the statuses of slots, and the
/// data storage.
pub struct Standing {
    pub log: CheckLog,
    pub hints: HintBook,
    pub statuses: Vec<SlotStatus>,
    pub store: Store,
}

/// By hand, so that whoever lets it go calls this, and what it frees is listed once.
impl Drop for Standing {
    fn drop(self) {
        let Standing {
            log: _,
            hints: _,
            statuses: _,
            store: _,
        } = self;
    }
}

impl Standing {
    /// That of no records.
    pub fn new(alloc: Global, tables: RoomTables) -> Result<Standing, Memory>
        ensures seed { IfOk result (λ s. s.log.seed ≡ tables) }
        ensures start { IfOk result (λ s. standing_of s ≡ start) }
    {
        Ok(Standing {
            log: CheckLog::new(alloc, tables)?,
            hints: HintBook::new(alloc),
            statuses: Vec::new(alloc),
            store: Store::new(alloc),
        })
    }

    /// The seed.
    pub fn seed(&self) -> &Multidata
        ensures { result.now ≡ self.now.log.seed }
    {
        self.log.tables().multidata()
    }

    /// The status of a slot in a team, 0 where none was given.
    pub fn status_of(&self, team: TeamId, slot: SlotId) -> u8
        ensures { result ≡ status_in (standing_of self.now) team slot }
    {
        status_among(&self.statuses, team, slot)
    }
}

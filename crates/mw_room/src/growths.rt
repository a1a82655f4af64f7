ghost use Rattle.mw_room.specs.Fits.{HasGrowths};
ghost use Rattle.std.specs.Prelude.{IfOk};

use crate::room::Room;
use crate::session::Session;
use mw_base::{Growth, Memory};
use mw_checks::CheckGrowth;
use mw_effects::{Effect, SlotStatus, keys_in};
use mw_hints::HintGrowth;
use mw_storage::StoreGrowth;

/// The memory that an effect and new sessions take.
#[derive(Drop)]
pub struct Growths {
    pub(crate) log: CheckGrowth,
    pub(crate) hints: HintGrowth,
    pub(crate) statuses: Growth<SlotStatus>,
    pub(crate) store: StoreGrowth,
    pub(crate) sessions: Growth<Session>,
}

impl Room {
    /// The memory for an effect, and for so many new sessions.
    pub(crate) fn growths_for(&self, effect: &Effect, new: usize) -> Result<Growths, Memory>
        ensures { IfOk result (HasGrowths self.now effect.now new) }
    {
        let alloc = self.alloc;
        let log = self.standing.log.room_for(effect.new.len() as u64);
        let hints = self.standing.hints.room_for(effect.hints.len() as u64);
        let statuses = Growth::of(alloc, &self.standing.statuses, 1);
        let store = self.standing.store.room_for(keys_in(&effect.stored));
        let sessions = Growth::of(alloc, &self.sessions, new);
        match (log, hints, statuses, store, sessions) {
            (Ok(log), Ok(hints), Ok(statuses), Ok(store), Ok(sessions)) => Ok(Growths {
                log,
                hints,
                statuses,
                store,
                sessions,
            }),
            _ => Err(Memory),
        }
    }
}

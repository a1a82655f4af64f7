use crate::log::CheckLog;
use mw_base::{LocId, SlotId, TeamId};
use mw_multidata::{Checks, Held, RoomTables};

impl Checks for CheckLog {
    ghost use Rattle.std.specs.Prelude.{length};
    ghost use Rattle.mw_protocol.specs.Checks.{is_among, locations_in};

    ghost seed = { λ l. l.seed };

    ghost is_found = { λ l. is_among l.checked };

    ghost count = { λ l team slot. length (locations_in team slot l.checked) };

    fn tables(&self) -> &RoomTables {
        self.tables()
    }

    fn held(&self, slot: SlotId, location: LocId) -> Option<&Held> {
        self.held(slot, location)
    }

    fn is_checked(&self, team: TeamId, slot: SlotId, location: LocId) -> bool {
        self.is_checked(team, slot, location)
    }

    fn checked_len(&self, team: TeamId, slot: SlotId) -> u64 {
        self.checked_len(team, slot)
    }

    fn id_of(&self, number: i128) -> Option<LocId> {
        self.id_of(number)
    }

    fn locations_len(&self, slot: SlotId) -> u64 {
        self.locations_len(slot)
    }
}

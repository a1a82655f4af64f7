ghost use Rattle.std.specs.Prelude.{◌≡◌, ◌∷◌, [], IfOk, IsTrue, OnErr, Ok, false, map, true};
ghost use Rattle.mw_laws.specs.Told.{recording_more};
ghost use Rattle.mw_protocol.specs.Named.{are_named, is_named};
ghost use Rattle.mw_protocol.specs.Rooms as plain;
ghost use Rattle.mw_records.specs.Records.{record_view};
ghost use Rattle.mw_room.specs.Replayed.{known_more};
ghost use Rattle.mw_room.specs.Represents.{Represents};
ghost use Rattle.mw_room.specs.Views.{room_view};

use crate::room::Room;
use mw_base::{List, Memory};
use mw_multidata::RoomTables;
use mw_records::Record;
use std::alloc::Global;

impl Room {
    /// Enters a record of a journal, and tells no session of it; gives false, and does nothing,
    /// exactly where the record names a team, a slot or a location that the seed hasn't. After
    /// `Memory`, which also tells of 2^64 records, the room is as before.
    pub fn enter(&mut self, entry: &Record) -> Result<bool, Memory>
        ensures named { IfOk result (λ named. (r : plain.Room) → Represents self.old r
            → named ≡ is_named r.seed (record_view entry.now)) }
        ensures entered { result ≡ Ok true → (r : plain.Room) → Represents self.old r
            → Represents self.new (recording_more (record_view entry.now ∷ []) r) }
        ensures refused { result ≡ Ok false → self.new ≡ self.old }
        ensures memory { OnErr result (self.new ≡ self.old) }
    {
        let named = self.enter_known(entry)?;
        Ok(named)
    }

    fn enter_known(&mut self, entry: &Record) -> Result<bool, Memory>
        ensures named { IfOk result (λ named.
            named ≡ is_named self.old.standing.log.seed (record_view entry.now)) }
        ensures entered { result ≡ Ok true
            → room_view self.new ≡ known_more (room_view self.old) (record_view entry.now) }
        ensures refused { result ≡ Ok false → self.new ≡ self.old }
        ensures memory { OnErr result (self.new ≡ self.old) }
    {
        if !self.standing.names_known(entry) {
            return Ok(false);
        }
        let recorded = self.recorded.checked_add(1).ok_or(Memory)?;
        self.standing.enter(self.alloc, entry)?;
        self.recorded = recorded;
        Ok(true)
    }

    /// The room of a journal, with nobody in it.
    pub fn replay(alloc: Global, tables: RoomTables, records: &List<Record>) -> Result<Room, Memory>
        requires { IsTrue (are_named tables (map record_view records.now)) }
        ensures { IfOk result (λ room.
            Represents room (plain.replayed tables (map record_view records.now))) }
    {
        let mut room = Room::new(alloc, tables)?;
        for entry in records.as_slice() {
            room.enter(entry)?;
        }
        Ok(room)
    }
}

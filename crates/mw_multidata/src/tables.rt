ghost use Rattle.std.specs.Prelude.{◌≡◌, IfOk};
ghost use Rattle.mw_multidata.specs.SeedKept.{IsSeed};

use crate::multidata::Multidata;
use mw_base::Memory;
use std::alloc::Global;
use std::marker::Model;

/// A seed, kept for the look-ups of a room.
pub struct RoomTables {
    multidata: Multidata,
}

/// By hand, so that whoever lets it go calls this, and what it frees is listed once.
impl Drop for RoomTables {
    fn drop(self) {
        let RoomTables { multidata: _ } = self;
    }
}

impl Model for RoomTables {
    ghost use Rattle.mw_model.specs.Seed as plain;

    ghost Value = { plain.Seed };

    ghost view = { λ t. t.multidata };
}

impl RoomTables {
    /// The tables of a seed.
    pub fn of(alloc: Global, multidata: Multidata) -> Result<RoomTables, Memory>
        ensures { IfOk result (λ t. t ≡ multidata) }
    {
        let _ = alloc;
        Ok(RoomTables { multidata })
    }

    /// The seed.
    pub fn multidata(&self) -> &Multidata
        ensures value { result.now ≡ self.now }
        ensures kept { IsSeed result.now }
    {
        let multidata = &self.multidata;
        let _ = &multidata.seed_name;
        multidata
    }
}

use mw_base::{List, LocId, SlotId, TeamId};
use std::marker::Model;

/// Locations of its own that a slot of a team checked, at least one.
#[derive(Drop)]
pub struct CheckedLocations {
    /// The team.
    pub team: TeamId,
    /// The slot.
    pub slot: SlotId,
    /// The locations, in order.
    pub locations: List<LocId>,
}

impl Model for CheckedLocations {
    ghost use Rattle.std.specs.Prelude.{◌<◌, length};
    ghost use Rattle.mw_records.specs.Fields as plain;

    ghost Value = { plain.CheckedLocations };

    ghost view = { λ c. record { team = c.team; slot = c.slot; locations = c.locations } };

    ghost invariant = { λ c. 0 < length c.locations };
}

impl CheckedLocations {
    ghost use Rattle.std.specs.Prelude.{◌<◌, length};
    ghost use Rattle.std.specs.Option.{SomeIff};

    /// What a slot of a team checked; None exactly where there is no location.
    pub fn new(team: TeamId, slot: SlotId, locations: List<LocId>) -> Option<Self>
        ensures { SomeIff result (0 < length locations)
            (record { team = team; slot = slot; locations = locations }) }
    {
        if locations.len() == 0 {
            return None;
        }
        Some(CheckedLocations {
            team,
            slot,
            locations,
        })
    }
}

use mw_base::{LocId, SlotId, TeamId};
use std::marker::Model;

/// A location of a slot, checked in a team.
#[derive(Clone, Copy)]
pub struct Check {
    /// The team, 0 to 7.
    pub team: TeamId,
    /// The slot that found it, 1 to 1,024.
    pub slot: SlotId,
    /// The location's id, 1 to 2^53 - 1.
    pub location: LocId,
}

impl Model for Check {
    ghost use Rattle.mw_protocol.specs.Checks as plain;

    ghost Value = { plain.Check };

    ghost view = { λ c. record { team = c.team; slot = c.slot; location = c.location } };

    ghost inverse = { λ c. record { team = c.team; slot = c.slot; location = c.location } };
}

use mw_base::{SlotId, TeamId};
use std::marker::Model;

/// A player: the team, and the slot.
#[derive(Clone, Copy)]
pub struct Player {
    pub team: TeamId,
    pub slot: SlotId,
}

impl Model for Player {
    ghost use Rattle.mw_protocol.specs.Connecting as plain;

    ghost Value = { plain.Player };

    ghost view = { λ p. record { team = p.team; slot = p.slot } };

    ghost inverse = { λ p. record { team = p.team; slot = p.slot } };
}

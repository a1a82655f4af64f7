use mw_base::{List, SlotId, TeamId, Text};
use std::marker::Model;

/// A player of a team.
#[derive(Drop)]
pub struct NetworkPlayer {
    /// The team.
    pub team: TeamId,
    /// The slot.
    pub slot: SlotId,
    /// The slot's name in the team.
    pub name: Text,
}

impl Model for NetworkPlayer {
    ghost use Rattle.mw_protocol.specs.Messages as plain;

    ghost Value = { plain.NetworkPlayer };

    ghost view = { λ p. record { team = p.team; slot = p.slot; name = p.name } };
}

/// A player's slot or a group, and what is played in it.
#[derive(Drop)]
pub struct NetworkSlot {
    /// Its number; groups are numbered on from the slots.
    pub slot: SlotId,
    /// A slot's name in the session's team, or the group's name.
    pub name: Text,
    /// Its game.
    pub game: Text,
    /// A group's members; none for a player.
    pub members: List<SlotId>,
}

impl Model for NetworkSlot {
    ghost use Rattle.mw_protocol.specs.Messages as plain;

    ghost Value = { plain.NetworkSlot };

    ghost view = { λ s. record {
      slot = s.slot;
      name = s.name;
      game = s.game;
      members = s.members;
    } };
}

/// What a session is told once it is connected.
#[derive(Drop)]
pub struct Connected {
    /// The session's team.
    pub team: TeamId,
    /// The session's slot.
    pub slot: SlotId,
    /// The players of all teams, by team, then slot.
    pub players: List<NetworkPlayer>,
    /// The slot's locations that aren't checked, by id.
    pub missing_locations: List<i64>,
    /// The slot's locations that are checked, by id.
    pub checked_locations: List<i64>,
    /// The slots and then the groups, by number.
    pub slot_info: List<NetworkSlot>,
    /// What the slot's checked locations are worth.
    pub hint_points: u64,
}

impl Model for Connected {
    ghost use Rattle.mw_protocol.specs.Messages as plain;

    ghost Value = { plain.Connected };

    ghost view = { λ c. record {
      team = c.team;
      slot = c.slot;
      players = c.players;
      missing_locations = c.missing_locations;
      checked_locations = c.checked_locations;
      slot_info = c.slot_info;
      hint_points = c.hint_points;
    } };
}

use crate::item_link::ItemLink;
use crate::player::Player;
use mw_base::{List, RoomOptions};
use std::marker::Model;

/// A players file: the teams, the settings of the room and the players.
#[derive(Drop)]
pub struct Players {
    /// 1 to 8 teams, which all play the same placement.
    pub teams: u8,
    /// The settings of the room.
    pub room: RoomOptions,
    /// 1 to 1,024 players; the first one has slot 1. No two names are equal over all teams, slots and links.
    pub players: List<Player>,
    /// What players share; with the players at most 1,024. The first link is the receiver after the last slot.
    pub links: List<ItemLink>,
}

impl Model for Players {
    ghost use Rattle.mw_multi.specs.Players as plain;
    ghost use Rattle.mw_multi.specs.PlayersKept.{IsPlayers};

    ghost Value = { plain.Players };

    ghost view = { λ p. record {
      teams = p.teams;
      room = p.room;
      players = p.players;
      links = p.links;
    } };

    ghost invariant = { λ p. IsPlayers record {
      teams = p.teams;
      room = p.room;
      players = p.players;
      links = p.links;
    } };
}

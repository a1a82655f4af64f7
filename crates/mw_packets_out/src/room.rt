use mw_base::{List, Permission, Text};
use std::marker::Model;

/// A game, and the checksum of its names.
#[derive(Drop)]
pub struct GameSum {
    /// The game's name.
    pub game: Text,
    /// SHA-1 of the game's names, in lower-case hexadecimal.
    pub checksum: Text,
}

impl Model for GameSum {
    ghost use Rattle.mw_protocol.specs.Messages as plain;

    ghost Value = { plain.GameSum };

    ghost view = { λ g. record { game = g.game; checksum = g.checksum } };
}

/// What a session is told first.
#[derive(Drop)]
pub struct RoomInfo {
    /// Whether a password is set.
    pub password: bool,
    /// Who may release the items of its world.
    pub release: Permission,
    /// Who may collect its items.
    pub collect: Permission,
    /// Who may ask what is left.
    pub remaining: Permission,
    /// The cost of a hint in hundredths of a slot's locations, 0 to 1,000.
    pub hint_cost: u32,
    /// What a checked location is worth, 0 to 1,000,000.
    pub location_check_points: u32,
    /// The games that are played, in byte order, no two of one name.
    pub games: List<GameSum>,
    /// The seed's name.
    pub seed_name: Text,
    /// When the session was opened, as the room was told.
    pub time: u64,
}

impl Model for RoomInfo {
    ghost use Rattle.mw_base.specs.Permissions.{permission_number};
    ghost use Rattle.mw_protocol.specs.Messages as plain;
    ghost use Rattle.mw_packets_out.specs.Room.{GamesAscend};

    ghost Value = { plain.RoomInfo };

    ghost view = { λ r. record {
      password = r.password;
      release = permission_number r.release;
      collect = permission_number r.collect;
      remaining = permission_number r.remaining;
      hint_cost = r.hint_cost;
      location_check_points = r.location_check_points;
      games = r.games;
      seed_name = r.seed_name;
      time = r.time;
    } };

    ghost invariant = { λ r. GamesAscend r.games };
}

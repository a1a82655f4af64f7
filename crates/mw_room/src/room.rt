ghost use Rattle.std.specs.Prelude.{◌≡◌, ◌≤◌, ◌^◌};
ghost use Rattle.mw_protocol.specs.Players.{games_played};

use crate::session::Session;
use mw_base::List;
use mw_effects::Standing;
use mw_packets_out::GameSum;
use std::alloc::Global;

/// A room without its journal: what its records come to, the games that are played with their
/// checksums, how many records there are, how many sessions were ever opened, and those that are
/// open.
pub struct Room {
    pub(crate) alloc: Global,
    pub(crate) standing: Standing,
    pub(crate) games: List<GameSum>,
    pub(crate) recorded: u64,
    pub(crate) opened: u64,
    pub(crate) sessions: Vec<Session>,
    ghost few_opened: { opened ≤ 2 ^ 63 },
    ghost played: { games ≡ games_played standing.log.seed.slots standing.log.seed.games },
}

/// By hand, so that whoever lets it go calls this, and what it frees is listed once.
impl Drop for Room {
    fn drop(self) {
        let Room {
            alloc: _,
            standing: _,
            games: _,
            recorded: _,
            opened: _,
            sessions: _,
        } = self;
    }
}

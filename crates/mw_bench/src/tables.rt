use mw_base::List;
use mw_multi::{Joint, Players, World};
use mw_tables::{read_players, read_world};
use std::alloc::Global;

/// One player, of any world.
const PLAYERS: &str = r#"{"format":"mw-players-1","players":[{"names":["Ann"],"world":"w.json"}]}"#;

/// The tables of a world and of one player.
#[derive(Drop)]
pub(crate) struct Tables {
    players: Players,
    worlds: List<World>,
}

/// The tables of this world; None where it isn't one, or memory runs out.
pub(crate) fn tables_of(alloc: Global, world: &[u8]) -> Option<Tables> {
    let players = read_players(alloc, PLAYERS.as_bytes()).ok()?;
    let mut worlds = List::new(alloc);
    worlds.push(read_world(alloc, world).ok()?).ok()?;
    Some(Tables { players, worlds })
}

impl Tables {
    /// The joint of the tables.
    pub(crate) fn joint(&self, alloc: Global) -> Option<Joint<'_>> {
        let files = self.players.world_files(alloc).ok()?;
        if self.worlds.len() != files.len() {
            return None;
        }
        Joint::build(alloc, &self.worlds, &self.players).ok()
    }
}

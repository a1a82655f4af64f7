use mw_base::List;
use mw_multi::{Joint, Players, World};
use mw_tables::{read_players, read_world};
use std::alloc::Global;
use std::test::Fail;

/// The world of a file that is accepted.
pub(crate) fn world_in(alloc: Global, file: &str) -> Result<World, Fail> {
    match read_world(alloc, file.as_bytes()) {
        Ok(world) => Ok(world),
        Err(_) => Err(Fail::from("a world file is refused")),
    }
}

/// The players of a file that is accepted.
pub(crate) fn players_in(alloc: Global, file: &str) -> Result<Players, Fail> {
    match read_players(alloc, file.as_bytes()) {
        Ok(players) => Ok(players),
        Err(_) => Err(Fail::from("a players file is refused")),
    }
}

/// The joint of the players, whose worlds have these tables.
pub(crate) fn joint_of<'a>(
    alloc: Global,
    worlds: &'a List<World>,
    players: &'a Players,
) -> Result<Joint<'a>, Fail> {
    let files = players.world_files(alloc)?;
    if worlds.len() != files.len() {
        return Err(Fail::from("another number of files"));
    }
    Ok(Joint::build(alloc, worlds, players)?)
}

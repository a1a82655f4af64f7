ghost use Rattle.std.specs.Prelude.{◌≡◌, []};
ghost use Rattle.mw_multi.specs.JointOf.{Gives, has_game, games_differ};

use crate::refusal::JointRefusal;
use crate::world::World;

/// Whether some of the worlds are of a game.
fn has_game(worlds: &[World], game: &str) -> bool
    ensures { result ≡ has_game worlds.now game.now }
{
    for world in worlds {
        if world.game.as_str() == game {
            return true;
        }
    }
    false
}

/// Each world's game differs from those of the worlds before it.
pub(crate) fn judge_games(worlds: &[World]) -> Result<(), JointRefusal>
    ensures { Gives result (games_differ [] 0 worlds.now) }
{
    for (i, world) in worlds.iter().enumerate() {
        if has_game(&worlds[..i], world.game.as_str()) {
            return Err(JointRefusal::GameTwice { world: i as u64 });
        }
    }
    Ok(())
}

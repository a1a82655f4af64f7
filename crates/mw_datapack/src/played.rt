ghost use Rattle.std.specs.Prelude.{◌≡◌, ◌↔◌, IsSome, IsTrue, option_map};
ghost use Rattle.mw_protocol.specs.Players.{plays};
ghost use Rattle.mw_multidata.specs.Names.{find_game};
ghost use Rattle.mw_datapack.specs.Played.{game_played};

use mw_multidata::{Game, RoomTables, Slot};

/// Whether some slot plays a game.
pub fn is_played(slots: &[Slot], game: &str) -> bool
    ensures { result ≡ plays slots.now game.now }
{
    for slot in slots {
        if slot.game.as_str() == game {
            return true;
        }
    }
    false
}

/// The game of a name.
fn find<'a>(games: &'a [Game], name: &str) -> Option<&'a Game>
    ensures { option_map (λ g. g.now) result ≡ find_game games.now name.now }
{
    for game in games {
        if game.name.as_str() == name {
            return Some(game);
        }
    }
    None
}

/// The game of a name; None exactly where no slot plays it.
pub(crate) fn played<'a>(tables: &'a RoomTables, name: &str) -> Option<&'a Game>
    ensures value { option_map (λ g. g.now) result ≡ game_played tables.now name.now }
    ensures some { IsSome result ↔ IsTrue (plays tables.now.slots name.now) }
{
    let multidata = tables.multidata();
    if is_played(multidata.slots.as_slice(), name) {
        find(multidata.games.as_slice(), name)
    } else {
        None
    }
}

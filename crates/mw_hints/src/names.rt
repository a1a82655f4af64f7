ghost use Rattle.std.specs.Prelude.{◌≡◌, option_map};
ghost use Rattle.mw_model.specs.Seed.{slot_of};
ghost use Rattle.mw_protocol.specs.Hints.{id_named, game_named, game_played};
ghost use Rattle.mw_protocol.specs.Hints.{item_named, location_named};

use mw_base::SlotId;
use mw_multidata::{Game, Multidata, NamedId};

/// The id of a name.
fn id_of(ids: &[NamedId], name: &str) -> Option<i64>
    ensures { result ≡ id_named name.now ids.now }
{
    for entry in ids {
        if entry.name.as_str() == name {
            return Some(entry.id);
        }
    }
    None
}

/// The game of a name.
fn game_of<'a>(games: &'a [Game], name: &str) -> Option<&'a Game>
    ensures { option_map (λ g. g.now) result ≡ game_named name.now games.now }
{
    for game in games {
        if game.name.as_str() == name {
            return Some(game);
        }
    }
    None
}

/// The game that a slot plays.
fn game_at(seed: &Multidata, slot: SlotId) -> Option<&Game>
    ensures { option_map (λ g. g.now) result
        ≡ game_played seed.now.games (slot_of seed.now slot) }
{
    match seed.slot(slot) {
        Some(slot) => game_of(seed.games.as_slice(), slot.game.as_str()),
        None => None,
    }
}

/// The item of a name in a slot's game.
pub(crate) fn item_named(seed: &Multidata, slot: SlotId, name: &str) -> Option<i64>
    ensures { result ≡ item_named seed.now slot name.now }
{
    match game_at(seed, slot) {
        Some(game) => id_of(game.item_name_to_id.as_slice(), name),
        None => None,
    }
}

/// The location of a name in a slot's game.
pub(crate) fn location_named(seed: &Multidata, slot: SlotId, name: &str) -> Option<i64>
    ensures { result ≡ location_named seed.now slot name.now }
{
    match game_at(seed, slot) {
        Some(game) => id_of(game.location_name_to_id.as_slice(), name),
        None => None,
    }
}

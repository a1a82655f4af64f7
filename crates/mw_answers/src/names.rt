ghost use Rattle.std.specs.Prelude.{◌≡◌, IfOk};
ghost use Rattle.std.specs.Option.{option_copied};
ghost use Rattle.mw_protocol.specs.Commands.{game_of, name_among};
ghost use Rattle.mw_protocol.specs.Entering.{name_of};
ghost use Rattle.mw_protocol.specs.Hints.{game_named};
ghost use Rattle.mw_protocol.specs.Players.{name_in};
ghost use Rattle.mw_answers.specs.Index.{IsIndex};
ghost use Rattle.mw_answers.specs.Names.{item_names, location_names};

use mw_base::{Memory, SlotId, TeamId};
use mw_multidata::{Game, Multidata, NamedId, RoomTables, Slot};
use std::alloc::Global;
use std::collections::HashMap;
use std::marker::Model;

/// A slot's name in a team; empty where there is no such team.
pub(crate) fn name_in(slot: &Slot, team: TeamId) -> &str
    ensures { result.now ≡ name_in team slot.now }
{
    match slot.names.get(usize::from(team.get())) {
        Some(name) => name.as_str(),
        None => "",
    }
}

/// The name of a slot in a team; empty where there is no such slot or team.
pub fn name_of(tables: &RoomTables, team: TeamId, slot: SlotId) -> &str
    ensures { result.now ≡ name_of tables.now team slot }
{
    match tables.multidata().slot(slot) {
        Some(found) => name_in(found, team),
        None => "",
    }
}

/// The game of a name.
fn game_named<'a>(games: &'a [Game], name: &str) -> Option<&'a Game>
    ensures { option_copied result ≡ game_named name.now games.now }
{
    for game in games {
        if game.name.as_str() == name {
            return Some(game);
        }
    }
    None
}

/// The game that a slot plays.
pub(crate) fn game_of(seed: &Multidata, slot: SlotId) -> Option<&Game>
    ensures { option_copied result ≡ game_of seed.now slot }
{
    match seed.slot(slot) {
        Some(found) => game_named(seed.games.as_slice(), found.game.as_str()),
        None => None,
    }
}

/// The names of a game's locations.
pub(crate) fn location_names<'a>(game: Option<&'a Game>) -> &'a [NamedId]
    ensures { result.now ≡ location_names (option_copied game.entry) }
{
    match game {
        Some(found) => found.location_name_to_id.as_slice(),
        None => &[],
    }
}

/// The names of a game's items.
pub(crate) fn item_names<'a>(game: Option<&'a Game>) -> &'a [NamedId]
    ensures { result.now ≡ item_names (option_copied game.entry) }
{
    match game {
        Some(found) => found.item_name_to_id.as_slice(),
        None => &[],
    }
}

/// Names by id.
type ById<'a> = HashMap<i64, &'a str>;

/// Names, with an index from id to name.
#[derive(Drop)]
pub(crate) struct Names<'a> {
    names: &'a [NamedId],
    by_id: ById<'a>,
}

impl<'a> Model for Names<'a> {
    ghost use Rattle.std.specs.Prelude.{List};
    ghost use Rattle.mw_model.specs.Seed as plain;
    ghost use Rattle.mw_protocol.specs.Players.{name_in};
    ghost use Rattle.mw_answers.specs.Index.{IsIndex};

    ghost Value = { List plain.NamedId };

    ghost view = { λ n. n.names.now };

    ghost invariant = { λ n. IsIndex (λ s. s.now) n.names.now n.by_id };
}

/// The index of names, where the first of an id counts.
fn indexed<'a>(alloc: Global, names: &'a [NamedId]) -> Result<ById<'a>, Memory>
    ensures { IfOk result (λ m. IsIndex (λ s. s.now) names.now m) }
{
    let mut by_id = HashMap::new(alloc);
    let mut at = names.len();
    while at > 0 {
        at -= 1;
        let named = &names[at];
        by_id.insert(named.id, named.name.as_str())?;
    }
    Ok(by_id)
}

impl<'a> Names<'a> {
    /// These names with their index.
    pub(crate) fn of(alloc: Global, names: &'a [NamedId]) -> Result<Names<'a>, Memory>
        ensures { IfOk result (λ n. n ≡ names.now) }
    {
        let by_id = indexed(alloc, names)?;
        Ok(Names { names, by_id })
    }

    /// The name of an id; empty where there is none.
    pub(crate) fn name(&self, id: i64) -> &'a str
        ensures { result.now ≡ name_among id self.now }
    {
        let _ = self.names;
        match self.by_id.get(&id) {
            Some(name) => *name,
            None => "",
        }
    }
}

//! The games of a seed.
ghost use Rattle.std.specs.Prelude.{◌≡◌, ◌++◌, IfOk, OnOk, flat_map, map, bytes_eq};
ghost use Rattle.std.specs.Ordering.{nat_cmp};
ghost use Rattle.std.specs.List.Sorted.{IsPermutation};
ghost use Rattle.std.specs.Cmp.Lexicographic.{slice_cmp};
ghost use Rattle.mw_multi.specs.WorldKept.{item_name, location_name};
ghost use Rattle.mw_multi.specs.Names.{NamesDiffer};
ghost use Rattle.mw_model.specs.Ascending.{NamesAscend};
ghost use Rattle.mw_multidata.specs.SeedKept.{entry_name, game_name};
ghost use Rattle.mw_seeds.specs.GamesMet.{has_game, AreDifferent, IsGameAdded};
ghost use Rattle.mw_seeds.specs.SeedFile.{named_where, item_entry, location_entry, IsTable, IsGameOf, AreGames};

use mw_base::{List, Memory, Text};
use mw_multi::{HasId, Item, Joint, Location, Slot, World};
use mw_multidata::{Game, NamedId};
use std::alloc::Global;
use std::cmp::Ordering;

/// The order of two entries' names.
fn compare_entries(a: &NamedId, b: &NamedId) -> Ordering
    ensures { result ≡ slice_cmp nat_cmp a.now.name b.now.name }
{
    a.name.as_str().cmp(b.name.as_str())
}

/// The order of two games' names.
fn compare_games(a: &Game, b: &Game) -> Ordering
    ensures { result ≡ slice_cmp nat_cmp a.now.name b.now.name }
{
    a.name.as_str().cmp(b.name.as_str())
}

/// Adds a name under its id, where it has one.
fn push_entry(
    alloc: Global,
    entries: &mut Vec<NamedId>,
    name: &str,
    id: Option<i64>,
) -> Result<(), Memory>
    ensures { OnOk result (entries.new.items ≡ entries.old.items
        ++ named_where name.now id) }
{
    if let Some(id) = id {
        let name = Text::of(alloc, name)?;
        entries.push(NamedId { name, id })?;
    }
    Ok(())
}

/// A location's id, where it has one.
fn location_id(location: &Location) -> Option<i64>
    ensures { result ≡ location.now.id }
{
    match location.id {
        Some(id) => Some(id.get()),
        None => None,
    }
}

/// Adds an item, where it has an id.
fn push_item(alloc: Global, entries: &mut Vec<NamedId>, item: &Item) -> Result<(), Memory>
    ensures { OnOk result (entries.new.items ≡ entries.old.items ++ item_entry item.now) }
{
    push_entry(alloc, entries, item.name.as_str(), item.id_number())
}

/// Adds a location, where it has an id.
fn push_location(
    alloc: Global,
    entries: &mut Vec<NamedId>,
    location: &Location,
) -> Result<(), Memory>
    ensures { OnOk result (entries.new.items ≡ entries.old.items
        ++ location_entry location.now) }
{
    push_entry(
        alloc,
        entries,
        location.name.as_str(),
        location_id(location),
    )
}

/// The items with an id, in table order.
fn item_entries(alloc: Global, items: &[Item]) -> Result<Vec<NamedId>, Memory>
    ensures { IfOk result (λ entries. entries.items ≡ flat_map item_entry items.now) }
{
    let mut entries = Vec::new(alloc);
    for item in items {
        push_item(alloc, &mut entries, item)?;
    }
    Ok(entries)
}

/// The locations with an id, in table order.
fn location_entries(alloc: Global, locations: &[Location]) -> Result<Vec<NamedId>, Memory>
    ensures { IfOk result (λ entries. entries.items
        ≡ flat_map location_entry locations.now) }
{
    let mut entries = Vec::new(alloc);
    for location in locations {
        push_location(alloc, &mut entries, location)?;
    }
    Ok(entries)
}

/// The same entries, in byte order of their names, which differ.
fn sorted_table(mut entries: Vec<NamedId>) -> List<NamedId>
    requires { NamesDiffer (map entry_name entries.items) }
    ensures { IsTable entries.items result }
{
    entries.sort_unstable_by(|a, b| compare_entries(a, b));
    List::from_vec(entries)
}

/// The game of a world.
fn game_of(alloc: Global, world: &World) -> Result<Game, Memory>
    ensures { IfOk result (IsGameOf world.now) }
{
    let name = Text::of(alloc, world.game.as_str())?;
    let items = item_entries(alloc, world.items.as_slice())?;
    let locations = location_entries(alloc, world.locations.as_slice())?;
    Ok(Game {
        name,
        item_name_to_id: sorted_table(items),
        location_name_to_id: sorted_table(locations),
    })
}

/// Whether it is the game of this name.
fn is_named(game: &Game, name: &str) -> bool
    ensures { result ≡ bytes_eq game.now.name name.now }
{
    game.name.as_str() == name
}

/// Whether a game is among these.
fn has_game(games: &[Game], name: &str) -> bool
    ensures { result ≡ has_game games.now name.now }
{
    for game in games {
        if is_named(game, name) {
            return true;
        }
    }
    false
}

/// Adds the game of a slot's world, where it isn't there yet.
fn push_game(alloc: Global, games: &mut Vec<Game>, slot: &Slot) -> Result<(), Memory>
    ensures { OnOk result (IsGameAdded games.old.items slot.now.world games.new.items) }
{
    let world = slot.world;
    if has_game(games.as_slice(), world.game.as_str()) {
        return Ok(());
    }
    let game = game_of(alloc, world)?;
    games.push(game)?;
    Ok(())
}

/// The different games of the slots' worlds, in the order in which they are met.
fn different_games(alloc: Global, joint: &Joint) -> Result<Vec<Game>, Memory>
    ensures { IfOk result (λ games. AreDifferent joint.now.slots games.items) }
{
    let mut games = Vec::new(alloc);
    for slot in joint.slots.as_slice() {
        push_game(alloc, &mut games, slot)?;
    }
    Ok(games)
}

/// The same games in byte order.
fn sorted_games(mut games: Vec<Game>) -> List<Game>
    requires { NamesDiffer (map game_name games.items) }
    ensures same { IsPermutation games.items result }
    ensures ascend { NamesAscend (map game_name result) }
{
    games.sort_unstable_by(|a, b| compare_games(a, b));
    List::from_vec(games)
}

/// The different games of the slots' worlds, each with the names of its items and of its locations
/// with an id.
pub(crate) fn games_of(alloc: Global, joint: &Joint) -> Result<List<Game>, Memory>
    ensures { IfOk result (AreGames joint.now.slots) }
{
    let games = different_games(alloc, joint)?;
    Ok(sorted_games(games))
}

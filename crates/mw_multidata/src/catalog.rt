ghost use Rattle.std.specs.Prelude.{◌≡◌, ◌||◌, ℤ, not, IfOk, OnOk, List, [], Ok};
ghost use Rattle.std.specs.Ordering.{int_eq};
ghost use Rattle.std.specs.HashSet as hashed;
ghost use Rattle.mw_json.specs.Grammar.{Gives, GivesBy, under};
ghost use Rattle.mw_json.specs.declared.refusal.Step.TheVariants.{Name};
ghost use Rattle.mw_multidata.specs.Names.{has_id, ids_differ, game_named, games_named, find_game};

use crate::seed::{Game, NamedId};
use mw_base::{List, Memory};
use mw_json::{Kind, Refusal, at_name, refuse};
use std::alloc::Global;
use std::collections::HashSet;
use std::marker::Model;

/// A game with its ids for look-up.
#[derive(Drop)]
pub(crate) struct Catalog<'a> {
    game: &'a Game,
    items: HashSet<i64>,
    locations: HashSet<i64>,
}

impl<'a> Model for Catalog<'a> {
    ghost use Rattle.std.specs.Prelude.{◌≡◌, ℤ};
    ghost use Rattle.std.specs.Ordering.{int_eq};
    ghost use Rattle.std.specs.HashSet as hashed;
    ghost use Rattle.mw_model.specs.Seed as plain;
    ghost use Rattle.mw_multidata.specs.Names.{has_id};

    ghost Value = { plain.Game };

    ghost view = { λ c. c.game.now };

    ghost invariant = { λ c. ((q : ℤ)
        → hashed.contains int_eq c.items q ≡ has_id c.game.now.item_name_to_id q)
        × ((q : ℤ)
        → hashed.contains int_eq c.locations q ≡ has_id c.game.now.location_name_to_id q) };
}

impl<'a> Catalog<'a> {
    /// The game's name.
    pub(crate) fn name(&self) -> &str
        ensures { result.now ≡ self.now.name }
    {
        let game = self.game;
        game.name.as_str()
    }

    /// Whether the game has an item of this id.
    pub(crate) fn has_item(&self, id: i64) -> bool
        ensures { result ≡ has_id self.now.item_name_to_id id }
    {
        self.items.contains(&id)
    }

    /// Whether the game has a location of this id.
    pub(crate) fn has_location(&self, id: i64) -> bool
        ensures { result ≡ has_id self.now.location_name_to_id id }
    {
        self.locations.contains(&id)
    }
}

/// Notes an id, and tells whether it is new.
fn note(seen: &mut HashSet<i64>, id: i64) -> Result<bool, Memory>
    ensures added { IfOk result (λ added. added ≡ not (hashed.contains int_eq seen.old id)) }
    ensures seen { OnOk result ((q : ℤ) → hashed.contains int_eq seen.new q
        ≡ (hashed.contains int_eq seen.old q || int_eq id q)) }
{
    Ok(seen.insert(id)?)
}

/// The ids of a table, no two of which are equal.
#[tactic(auto, using(crate::proofs::Ids::has_id_push))]
fn distinct_ids(alloc: Global, names: &[NamedId], table: &str) -> Result<HashSet<i64>, Refusal>
    ensures value { GivesBy (λ _. tt) result (under (Name table.now) (ids_differ [] names.now)) }
    ensures ids { IfOk result (λ ids. (q : ℤ) → hashed.contains int_eq ids q ≡ has_id names.now q) }
{
    let mut seen = HashSet::new(alloc);
    for named in names {
        if !note(&mut seen, named.id)? {
            let refused = at_name(alloc, refuse(alloc, Kind::DuplicateId), named.name.as_str());
            return at_name(alloc, refused, table);
        }
    }
    Ok(seen)
}

/// A game with its ids, which differ in each table.
#[tactic(auto, unfolding(crate::specs::Names::game_named))]
fn catalog_of<'a>(alloc: Global, game: &'a Game) -> Result<Catalog<'a>, Refusal>
    ensures { Gives result (game_named game.now) }
{
    let items = distinct_ids(alloc, game.item_name_to_id.as_slice(), "item_name_to_id")?;
    let locations = distinct_ids(
        alloc,
        game.location_name_to_id.as_slice(),
        "location_name_to_id",
    )?;
    Ok(Catalog {
        game,
        items,
        locations,
    })
}

fn catalog_under<'a>(alloc: Global, game: &'a Game) -> Result<Catalog<'a>, Refusal>
    ensures { Gives result (under (Name game.now.name) (game_named game.now)) }
{
    at_name(alloc, catalog_of(alloc, game), game.name.as_str())
}

/// The games with their ids.
pub(crate) fn catalogs_of<'a>(
    alloc: Global,
    games: &'a [Game],
) -> Result<List<Catalog<'a>>, Refusal>
    ensures { Gives result (games_named games.now) }
{
    let mut catalogs = List::new(alloc);
    for game in games {
        let catalog = catalog_under(alloc, game)?;
        catalogs.push(catalog)?;
    }
    Ok(catalogs)
}

/// The game that a slot plays.
#[derive(Drop)]
pub(crate) struct Plays<'a> {
    catalog: &'a Catalog<'a>,
}

impl<'a> Model for Plays<'a> {
    ghost use Rattle.mw_model.specs.Seed as plain;

    ghost Value = { plain.Game };

    ghost view = { λ p. p.catalog.now };
}

impl<'a> Plays<'a> {
    /// The game with its ids.
    pub(crate) fn catalog(&self) -> &'a Catalog<'a>
        ensures { result.now ≡ self.now }
    {
        self.catalog
    }
}

/// The game of a name; None exactly where there is none.
pub(crate) fn find_game<'a>(catalogs: &'a [Catalog<'a>], name: &str) -> Option<Plays<'a>>
    ensures { result ≡ find_game catalogs.now name.now }
{
    for catalog in catalogs {
        if catalog.name() == name {
            return Some(Plays { catalog });
        }
    }
    None
}

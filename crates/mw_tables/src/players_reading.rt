ghost use Rattle.std.specs.Prelude.{◌≡◌};
ghost use Rattle.mw_json.specs.View.{view};
ghost use Rattle.mw_json.specs.Grammar.{Gives};
ghost use Rattle.mw_json.specs.Files.{GivesFile};
ghost use Rattle.mw_json.specs.Valid.{IsValid};
ghost use Rattle.mw_multi.specs.PlayersKept.{IsPlayers};
ghost use Rattle.mw_tables.specs.PlayersOf.{all_named, players_at};

use crate::link_names::judge_links;
use crate::player_names::{Seen, judge_players};
use crate::players_shape::{RawPlayers, players_shape};
use mw_json::{Refusal, Tree, at_name, tree_of_file};
use mw_multi::Players;
use std::alloc::Global;

/// The names of the players, then the links.
#[tactic(auto, unfolding(crate::specs::PlayersOf::all_named))]
fn judge_names(alloc: Global, raw: &RawPlayers) -> Result<(), Refusal>
    ensures { Gives result (all_named raw.now) }
{
    let mut seen = Seen::new(alloc);
    let players = raw.players.as_slice();
    at_name(alloc, judge_players(alloc, &mut seen, players), "players")?;
    let links = raw.links.as_slice();
    at_name(
        alloc,
        judge_links(alloc, &mut seen, players.len(), links),
        "links",
    )
}

/// The players that an accepted file stands for.
fn players_of(raw: RawPlayers) -> Players
    requires { IsPlayers raw }
    ensures { result ≡ raw }
{
    Players {
        teams: raw.teams,
        room: raw.room,
        players: raw.players,
        links: raw.links,
    }
}

/// The players that a tree stands for.
#[tactic(auto, unfolding(crate::specs::PlayersOf::players_at))]
fn players_of_tree(alloc: Global, tree: &Tree) -> Result<Players, Refusal>
    requires { IsValid (view tree.now) }
    ensures { Gives result (players_at (view tree.now)) }
{
    let raw = players_shape(alloc, tree)?;
    judge_names(alloc, &raw)?;
    Ok(players_of(raw))
}

/// The players that a file's bytes stand for, or the first refusal.
///
/// `NoJson` and `TooDeep` stand at the whole. Then comes the first value that isn't of its kind or
/// in its range, in the order format, teams, room, players, links. Then comes the first name that
/// stands twice over all teams and slots; then the first link whose name stands earlier, or with a
/// member that is no slot or isn't above the one before it. The first form has no links and no
/// accessibility; what stands under these names is then ignored. `Memory` is want of memory.
pub fn read_players(alloc: Global, bytes: &[u8]) -> Result<Players, Refusal>
    ensures { GivesFile result players_at bytes.now }
{
    let tree = tree_of_file(alloc, bytes)?;
    players_of_tree(alloc, &tree)
}

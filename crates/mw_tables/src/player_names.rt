ghost use Rattle.std.specs.Prelude.{◌≡◌, ◌++◌, ◌∷◌, [], IfOk, IsTrue, OnOk, not};
ghost use Rattle.mw_json.specs.Grammar.{Gives};
ghost use Rattle.mw_tables.specs.PlayersOf.{has_name, player_named, players_named, names_of_players};

use indexmap::IndexSet;
use mw_base::{Memory, Text};
use mw_json::{Kind, Refusal, at_index, at_name, refuse};
use mw_multi::Player;
use std::alloc::Global;
use std::marker::Model;

/// The names met so far, in their order.
#[derive(Drop)]
pub(crate) struct Seen<'a> {
    names: IndexSet<&'a str>,
}

impl<'a> Model for Seen<'a> {
    ghost use Rattle.std.specs.Prelude.{ℕ, List, map};

    ghost Value = { List (List ℕ) };

    ghost view = { λ s. map (λ k. k.now) s.names.keys };
}

impl<'a> Seen<'a> {
    pub(crate) fn new(alloc: Global) -> Seen<'a>
        ensures { result ≡ [] }
    {
        Seen {
            names: IndexSet::new(alloc),
        }
    }

    /// Whether a name is new, which is then met.
    pub(crate) fn note(&mut self, name: &'a str) -> Result<bool, Memory>
        ensures added { IfOk result (λ added. added ≡ not (has_name self.old name.now)) }
        ensures grown { IfOk result (λ added. IsTrue added → self.new ≡ self.old ++ name.now ∷ []) }
    {
        Ok(self.names.insert(name)?)
    }
}

/// The names of the player at an index, none of whom was met before.
fn judge_team_names<'a>(
    alloc: Global,
    seen: &mut Seen<'a>,
    names: &'a [Text],
    at: u64,
) -> Result<(), Refusal>
    ensures answer { Gives result (player_named seen.old at names.now) }
    ensures grown { OnOk result (seen.new ≡ seen.old ++ names.now) }
{
    for (i, name) in names.iter().enumerate() {
        if !seen.note(name.as_str())? {
            let refused = at_index(refuse(alloc, Kind::DuplicateName), i as u64);
            return at_index(at_name(alloc, refused, "names"), at);
        }
    }
    Ok(())
}

/// No name stands twice over all teams and slots. The names are then met.
pub(crate) fn judge_players<'a>(
    alloc: Global,
    seen: &mut Seen<'a>,
    players: &'a [Player],
) -> Result<(), Refusal>
    ensures answer { Gives result (players_named seen.old 0 players.now) }
    ensures grown { OnOk result (seen.new ≡ seen.old ++ names_of_players players.now) }
{
    for (i, player) in players.iter().enumerate() {
        judge_team_names(alloc, seen, player.names.as_slice(), i as u64)?;
    }
    Ok(())
}

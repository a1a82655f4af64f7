ghost use Rattle.std.specs.Prelude.{◌≡◌, ◌||◌, ℕ, List, IfOk, OnOk, bytes_eq};
ghost use Rattle.std.specs.HashSet as hashed;
ghost use Rattle.mw_model.specs.Texts.{has_text};
ghost use Rattle.mw_protocol.specs.Packages.{is_wanted};

use mw_base::{List, Memory, Text};
use std::alloc::Global;
use std::collections::HashSet;
use std::marker::Model;

/// The games that are wanted: all, or those of these names.
#[derive(Drop)]
pub(crate) struct Wanted<'a> {
    wanted: &'a Option<List<Text>>,
    names: HashSet<&'a str>,
}

impl<'a> Model for Wanted<'a> {
    ghost use Rattle.std.specs.Prelude.{◌≡◌, ℕ, List, [], Option, bytes_eq, unwrap_or};
    ghost use Rattle.std.specs.HashSet as hashed;
    ghost use Rattle.mw_model.specs.Texts.{has_text};

    ghost Value = { Option (List (List ℕ)) };

    ghost view = { λ w. w.wanted.now };

    ghost invariant = { λ w. (q : List ℕ)
        → hashed.contains_by (λ k. bytes_eq q k.now) w.names
        ≡ has_text (unwrap_or w.wanted.now []) q };
}

impl<'a> Wanted<'a> {
    /// These games, for look-up.
    pub(crate) fn of(alloc: Global, wanted: &'a Option<List<Text>>) -> Result<Wanted<'a>, Memory>
        ensures { IfOk result (λ w. w ≡ wanted.now) }
    {
        let names: &[Text] = match wanted {
            Some(names) => names.as_slice(),
            None => &[],
        };
        let names = names_of(alloc, names)?;
        Ok(Wanted { wanted, names })
    }

    /// Whether a game is wanted.
    pub(crate) fn has(&self, game: &str) -> bool
        ensures { result ≡ is_wanted self.now game.now }
    {
        self.wanted.is_none() || self.names.contains(game)
    }
}

/// Adds a name.
fn note<'a>(names: &mut HashSet<&'a str>, name: &'a str) -> Result<(), Memory>
    ensures { OnOk result ((q : List ℕ) → hashed.contains_by (λ k. bytes_eq q k.now) names.new
        ≡ (hashed.contains_by (λ k. bytes_eq q k.now) names.old || bytes_eq name.now q)) }
{
    let _ = names.insert(name)?;
    Ok(())
}

/// The names as a set.
fn names_of<'a>(alloc: Global, names: &'a [Text]) -> Result<HashSet<&'a str>, Memory>
    ensures { IfOk result (λ s. (q : List ℕ)
        → hashed.contains_by (λ k. bytes_eq q k.now) s ≡ has_text names.now q) }
{
    let mut found = HashSet::new(alloc);
    for name in names {
        note(&mut found, name.as_str())?;
    }
    Ok(found)
}

//! The names of the three files of a pair room.
ghost use Rattle.std.specs.Prelude.{◌≡◌, ◌++◌, IfOk};
ghost use Rattle.mw_pair.specs.Names.{file_names};

use mw_base::{Memory, Text};
use std::alloc::Global;
use std::marker::Model;

/// The names of CHOICE and of its two journals, whose names are that of CHOICE with `.0` and `.1`
/// added.
#[derive(Drop)]
pub struct PairNames {
    choice: Text,
    zero: Text,
    one: Text,
}

impl Model for PairNames {
    ghost use Rattle.std.specs.Prelude.{◌≡◌, ℕ, List};
    ghost use Rattle.mw_pair.specs.Names.{file_names};

    ghost Value = { List ℕ };

    ghost view = { λ p. p.choice };

    ghost invariant = { λ p. (p.zero ≡ (file_names p.choice).zero)
        × (p.one ≡ (file_names p.choice).one) };
}

/// A name with two characters added.
fn longer(alloc: Global, name: &Text, end: &str) -> Result<Text, Memory>
    ensures { IfOk result (λ t. t ≡ name.now ++ end.now) }
{
    let name = name.as_str();
    Ok(Text::from_string(format!(in alloc; "{name}{end}")?))
}

impl PairNames {
    /// Those of CHOICE.
    pub fn of(alloc: Global, choice: &Text) -> Result<PairNames, Memory>
        ensures { IfOk result (λ names. names ≡ choice.now) }
    {
        Ok(PairNames {
            choice: Text::of(alloc, choice.as_str())?,
            zero: longer(alloc, choice, ".0")?,
            one: longer(alloc, choice, ".1")?,
        })
    }

    /// That of CHOICE.
    pub fn choice(&self) -> &Text
        ensures { result.now ≡ self.now }
    {
        &self.choice
    }

    /// That of the journal 0.
    pub fn zero(&self) -> &Text
        ensures { result.now ≡ (file_names self.now).zero }
    {
        &self.zero
    }

    /// That of the journal 1.
    pub fn one(&self) -> &Text
        ensures { result.now ≡ (file_names self.now).one }
    {
        &self.one
    }
}

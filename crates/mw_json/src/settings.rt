ghost use Rattle.std.specs.Prelude.{ℕ};
ghost use Rattle.mw_base.specs.Permissions.{permission_number};
ghost use Rattle.mw_json.specs.View.{view};
ghost use Rattle.mw_json.specs.Grammar.{Gives, GivesBy, number_at};
ghost use Rattle.mw_json.specs.Settings.{password_at, remaining_of, permission_of, remaining_at, permission_at};

use crate::grammar::{copy_short, refuse, text_of};
use crate::parts::number_between;
use crate::refusal::{Kind, Refusal};
use crate::seen::Seen;
use crate::tree::Tree;
use mw_base::{Permission, Text};
use std::alloc::Global;

impl Seen for Permission {
    ghost Plain = { ℕ };

    ghost seen = { permission_number };
}

fn remaining_word(alloc: Global, word: &str) -> Result<Permission, Refusal>
    ensures { GivesBy permission_number result (remaining_of word.now) }
{
    match word {
        "disabled" => Ok(Permission::Disabled),
        "enabled" => Ok(Permission::Enabled),
        "goal" => Ok(Permission::Goal),
        _ => refuse(alloc, Kind::WrongKind),
    }
}

fn permission_word(alloc: Global, word: &str) -> Result<Permission, Refusal>
    ensures { GivesBy permission_number result (permission_of word.now) }
{
    match word {
        "auto" => Ok(Permission::Auto),
        "auto_enabled" => Ok(Permission::AutoEnabled),
        _ => remaining_word(alloc, word),
    }
}

/// Who may ask what is left.
#[tactic(auto, unfolding(crate::specs::Settings::remaining_at))]
pub fn remaining_in(alloc: Global, tree: &Tree) -> Result<Permission, Refusal>
    ensures { GivesBy permission_number result (remaining_at (view tree.now)) }
{
    let word = text_of(alloc, tree)?;
    remaining_word(alloc, word)
}

/// Who may release or collect.
#[tactic(auto, unfolding(crate::specs::Settings::permission_at))]
pub fn permission_in(alloc: Global, tree: &Tree) -> Result<Permission, Refusal>
    ensures { GivesBy permission_number result (permission_at (view tree.now)) }
{
    let word = text_of(alloc, tree)?;
    permission_word(alloc, word)
}

/// A password: a text of at most 128 characters.
#[tactic(auto, unfolding(crate::specs::Settings::password_at))]
pub fn password_in(alloc: Global, tree: &Tree) -> Result<Text, Refusal>
    ensures { Gives result (password_at (view tree.now)) }
{
    let text = text_of(alloc, tree)?;
    copy_short(alloc, text, 128)
}

/// A count of at most `most`.
pub fn count_in(alloc: Global, tree: &Tree, most: u32) -> Result<u32, Refusal>
    ensures { Gives result (number_at 0 most (view tree.now)) }
{
    let number = number_between(alloc, tree, 0, most as u64)?;
    Ok(number as u32)
}

/// What a hint costs: at most 1,000 percent.
pub fn hint_cost_in(alloc: Global, tree: &Tree) -> Result<u32, Refusal>
    ensures { Gives result (number_at 0 1000 (view tree.now)) }
{
    count_in(alloc, tree, 1_000)
}

/// What a checked location is worth: at most 1,000,000 points.
pub fn points_in(alloc: Global, tree: &Tree) -> Result<u32, Refusal>
    ensures { Gives result (number_at 0 1000000 (view tree.now)) }
{
    count_in(alloc, tree, 1_000_000)
}

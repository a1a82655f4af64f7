ghost use Rattle.std.specs.Prelude.{◌≡◌, ℕ, List, Result};
ghost use Rattle.mw_json.specs.View.{view, members_view};
ghost use Rattle.mw_model.specs.Json.{Json};
ghost use Rattle.mw_json.specs.Grammar.{Breach, Gives, field_at};
ghost use Rattle.mw_json.specs.Parts.{field_if_at};
ghost use Rattle.mw_json.specs.Readers.{ReadsAs, field_or_at};

use crate::grammar::{at_name, member_of};
use crate::lookup::find;
use crate::refusal::Refusal;
use crate::tree::{Member, Tree};
use std::alloc::Global;

/// What stands under a name that has to be there.
#[tactic(auto, unfolding(crate::specs::Grammar::field_at))]
pub fn field_in<T: Drop, F: FnOnce(Global, &Tree) -> Result<T, Refusal>>(
    alloc: Global,
    members: &[Member],
    name: &str,
    read: F,
) -> Result<T, Refusal>
    requires { F.IsAlwaysCallable read }
    ensures { (at : Json → Result T Breach) (called : List ℕ) → called ≡ name.now
        → ReadsAs F.FnOnce read at → Gives result (field_at called at (members_view members.now)) }
{
    let found = member_of(alloc, members, name)?;
    at_name(alloc, read(alloc, found), name)
}

/// What stands under a name, or `absent` where nothing does.
#[tactic(auto, unfolding(crate::specs::Readers::field_or_at))]
pub fn field_or<T: Drop, F: FnOnce(Global, &Tree) -> Result<T, Refusal>>(
    alloc: Global,
    members: &[Member],
    name: &str,
    absent: T,
    read: F,
) -> Result<T, Refusal>
    requires { F.IsAlwaysCallable read }
    ensures { (at : Json → Result T Breach) (called : List ℕ) (usual : T) → called ≡ name.now
        → usual ≡ absent → ReadsAs F.FnOnce read at
        → Gives result (field_or_at called usual at (members_view members.now)) }
{
    match find(members, name) {
        Some(found) => at_name(alloc, read(alloc, found), name),
        None => Ok(absent),
    }
}

/// What stands under a name, None where nothing does.
#[tactic(auto, unfolding(crate::specs::Parts::field_if_at))]
pub fn field_if<T: Drop, F: FnOnce(Global, &Tree) -> Result<T, Refusal>>(
    alloc: Global,
    members: &[Member],
    name: &str,
    read: F,
) -> Result<Option<T>, Refusal>
    requires { F.IsAlwaysCallable read }
    ensures { (at : Json → Result T Breach) (called : List ℕ) → called ≡ name.now
        → ReadsAs F.FnOnce read at
        → Gives result (field_if_at called at (members_view members.now)) }
{
    match find(members, name) {
        Some(found) => Ok(Some(at_name(alloc, read(alloc, found), name)?)),
        None => Ok(None),
    }
}

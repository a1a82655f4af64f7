ghost use Rattle.std.specs.Prelude.{◌≡◌, ℕ, List, Result, map};
ghost use Rattle.mw_json.specs.View.{view, members_view};
ghost use Rattle.mw_model.specs.Json.{Json};
ghost use Rattle.mw_json.specs.Grammar.{Breach, GivesBy, under, field_at};
ghost use Rattle.mw_json.specs.Readers.{SeesAs, field_or_at};
ghost use Rattle.mw_json.specs.declared.refusal.Step.TheVariants.{Name, Index};

use crate::grammar::member_of;
use crate::lookup::find;
use crate::refusal::{Refusal, Step};
use crate::tree::{Member, Tree};
use mw_base::{List as Values, Text};
use std::alloc::Global;

/// A type whose values stand for plain ones: an enum, which has no model of its own.
pub trait Seen {
    ghost Plain: { Type 0 };

    ghost seen: { Self → Plain };
}

impl Seen for Tree {
    ghost Plain = { Json };

    ghost seen = { view };
}

impl<T: Seen> Seen for Values<T> {
    ghost Plain = { List T.Plain };

    ghost seen = { map T.seen };
}

fn lift_seen<T: Seen>(answer: Result<T, Refusal>, step: Step) -> Result<T, Refusal>
    ensures { (read : Result T.Plain Breach) → GivesBy T.seen answer read
        → GivesBy T.seen result (under step read) }
{
    match answer {
        Ok(value) => Ok(value),
        Err(Refusal::Memory) => Err(Refusal::Memory),
        Err(Refusal::Named { kind, mut path }) => {
            path.push(step)?;
            Err(Refusal::Named { kind, path })
        }
    }
}

/// The answer for a member as seen from its object.
pub fn at_name_seen<T: Seen>(
    alloc: Global,
    answer: Result<T, Refusal>,
    name: &str,
) -> Result<T, Refusal>
    ensures { (read : Result T.Plain Breach) → GivesBy T.seen answer read
        → GivesBy T.seen result (under (Name name.now) read) }
{
    match answer {
        Ok(value) => Ok(value),
        Err(error) => {
            let step = Step::Name(Text::of(alloc, name)?);
            lift_seen(Err(error), step)
        }
    }
}

/// The answer for an element as seen from its list.
pub fn at_index_seen<T: Seen>(answer: Result<T, Refusal>, index: u64) -> Result<T, Refusal>
    ensures { (read : Result T.Plain Breach) → GivesBy T.seen answer read
        → GivesBy T.seen result (under (Index index) read) }
{
    lift_seen(answer, Step::Index(index))
}

/// What stands under a name that has to be there.
#[tactic(auto, unfolding(crate::specs::Grammar::field_at))]
pub fn field_seen<T: Seen + Drop, F: FnOnce(Global, &Tree) -> Result<T, Refusal>>(
    alloc: Global,
    members: &[Member],
    name: &str,
    read: F,
) -> Result<T, Refusal>
    requires { F.IsAlwaysCallable read }
    ensures { (at : Json → Result T.Plain Breach) (called : List ℕ) → called ≡ name.now
        → SeesAs F.FnOnce read T.seen at
        → GivesBy T.seen result (field_at called at (members_view members.now)) }
{
    let found = member_of(alloc, members, name)?;
    at_name_seen(alloc, read(alloc, found), name)
}

/// What stands under a name, or `absent` where nothing does.
#[tactic(auto, unfolding(crate::specs::Readers::field_or_at))]
pub fn field_or_seen<T: Seen + Drop, F: FnOnce(Global, &Tree) -> Result<T, Refusal>>(
    alloc: Global,
    members: &[Member],
    name: &str,
    absent: T,
    read: F,
) -> Result<T, Refusal>
    requires { F.IsAlwaysCallable read }
    ensures { (at : Json → Result T.Plain Breach) (called : List ℕ) (usual : T.Plain)
        → called ≡ name.now → usual ≡ T.seen absent → SeesAs F.FnOnce read T.seen at
        → GivesBy T.seen result (field_or_at called usual at (members_view members.now)) }
{
    match find(members, name) {
        Some(found) => at_name_seen(alloc, read(alloc, found), name),
        None => Ok(absent),
    }
}

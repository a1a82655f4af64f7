ghost use Rattle.std.specs.Prelude.{◌≡◌, Result, List, ℕ};
ghost use Rattle.mw_json.specs.View.{member_view, members_view};
ghost use Rattle.mw_model.specs.Json.{Json};
ghost use Rattle.mw_json.specs.Grammar.{Breach, Gives, under};
ghost use Rattle.mw_json.specs.declared.refusal.Step.TheVariants.{Name};
ghost use Rattle.mw_json.specs.Readers.{ReadsNamed, each_member_at};

use crate::grammar::at_name;
use crate::refusal::Refusal;
use crate::tree::{Member, Tree};
use mw_base::List;
use std::alloc::Global;

fn read_member<T: Drop, F: Fn(Global, &str, &Tree) -> Result<T, Refusal>>(
    alloc: Global,
    member: &Member,
    read: &F,
) -> Result<T, Refusal>
    requires { F.IsAlwaysCallable read.now }
    ensures { (at : List ℕ → Json → Result T Breach) → ReadsNamed F.Fn read.now at
        → Gives result (under (Name (member_view member.now).0)
        (at (member_view member.now).0 (member_view member.now).1)) }
{
    let name = member.name.as_str();
    at_name(alloc, read(alloc, name, &member.value), name)
}

/// The members, each read in turn with its name.
pub fn each_member<T: Drop, F: Fn(Global, &str, &Tree) -> Result<T, Refusal>>(
    alloc: Global,
    members: &[Member],
    read: F,
) -> Result<List<T>, Refusal>
    requires { F.IsAlwaysCallable read }
    ensures { (at : List ℕ → Json → Result T Breach) → ReadsNamed F.Fn read at
        → Gives result (each_member_at at (members_view members.now)) }
{
    let mut found = List::new(alloc);
    for member in members {
        let one = read_member(alloc, member, &read)?;
        found.push(one)?;
    }
    Ok(found)
}

ghost use Rattle.std.specs.Prelude.{◌≡◌};
ghost use Rattle.mw_json.specs.View.{view, members_view};
ghost use Rattle.mw_json.specs.Grammar.{Gives, number_at, name_at};
ghost use Rattle.mw_tables.specs.RuleShape.{has_member as is_there};

use mw_base::Text;
use mw_json::{Member, Refusal, Tree, find, name_in, number_between};
use std::alloc::Global;

/// A name of at most 128 characters.
pub(crate) fn long_name_in(alloc: Global, tree: &Tree) -> Result<Text, Refusal>
    ensures { Gives result (name_at 128 (view tree.now)) }
{
    name_in(alloc, tree, 128)
}

/// A count from 1 to 10,000.
pub(crate) fn count_in(alloc: Global, tree: &Tree) -> Result<u32, Refusal>
    ensures { Gives result (number_at 1 10000 (view tree.now)) }
{
    let number = number_between(alloc, tree, 1, 10_000)?;
    Ok(number as u32)
}

/// Whether there is a member of a name.
pub(crate) fn has_member(members: &[Member], name: &str) -> bool
    ensures { result ≡ is_there name.now (members_view members.now) }
{
    find(members, name).is_some()
}

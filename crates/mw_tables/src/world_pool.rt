ghost use Rattle.std.specs.Prelude.{◌≡◌, nat_le, sum_by};
ghost use Rattle.mw_json.specs.View.{view};
ghost use Rattle.mw_json.specs.Grammar.{Gives};
ghost use Rattle.mw_tables.specs.WorldShape.{entry_at, entry_count, pool_at};

use crate::parts::{count_in, long_name_in};
use crate::raw::RawEntry;
use mw_base::List;
use mw_json::{Kind, Refusal, Tree, each, field_in, list_of, object_of, refuse};
use std::alloc::Global;

#[tactic(auto, unfolding(crate::specs::WorldShape::entry_at))]
fn entry_of(alloc: Global, tree: &Tree) -> Result<RawEntry, Refusal>
    ensures { Gives result (entry_at (view tree.now)) }
{
    let members = object_of(alloc, tree)?;
    let item = field_in(alloc, members, "item", long_name_in)?;
    let count = field_in(alloc, members, "count", count_in)?;
    Ok(RawEntry { item, count })
}

/// Whether there are at most so many copies together.
fn are_few(entries: &[RawEntry], most: u32) -> bool
    ensures { result ≡ nat_le (sum_by entry_count entries.now) most }
{
    let mut room = most;
    for entry in entries {
        if room < entry.count {
            return false;
        }
        room -= entry.count;
    }
    true
}

/// The pool of a world.
#[tactic(auto, unfolding(crate::specs::WorldShape::pool_at))]
pub(crate) fn pool_of(alloc: Global, tree: &Tree) -> Result<List<RawEntry>, Refusal>
    ensures { Gives result (pool_at (view tree.now)) }
{
    let trees = list_of(alloc, tree)?;
    let entries = each(alloc, trees, entry_of)?;
    if are_few(entries.as_slice(), 10_000) {
        Ok(entries)
    } else {
        refuse(alloc, Kind::TooMany)
    }
}

ghost use Rattle.std.specs.Prelude.{◌≡◌, ℕ, List, [], nat_le, sum_by};
ghost use Rattle.mw_json.specs.View.{view, members_view};
ghost use Rattle.mw_json.specs.Grammar.{Gives, number_at};
ghost use Rattle.mw_json.specs.Readers.{field_or_at};
ghost use Rattle.mw_multi.specs.PlayersKept.{start_count};
ghost use Rattle.mw_tables.specs.PlayersShape.{wishes_at, start_entry_at, start_inventory_at, access_at, access_in, options_at, no_options as plain_options};

use crate::parts::long_name_in;
use mw_base::{List, Text};
use mw_json::{
    Kind, Member, Refusal, Tree, copy_name, each, each_member, field_or, list_of, number_between,
    object_of, refuse, text_of,
};
use mw_multi::{Access, Options, StartEntry};
use std::alloc::Global;

/// Names, however many.
#[tactic(auto, unfolding(crate::specs::PlayersShape::wishes_at))]
pub(crate) fn wishes_of(alloc: Global, tree: &Tree) -> Result<List<Text>, Refusal>
    ensures { Gives result (wishes_at (view tree.now)) }
{
    let items = list_of(alloc, tree)?;
    each(alloc, items, long_name_in)
}

/// The names under a name, none where it is absent.
fn wishes_or_none(alloc: Global, members: &[Member], name: &str) -> Result<List<Text>, Refusal>
    ensures { (called : List ℕ) → called ≡ name.now
        → Gives result (field_or_at called [] wishes_at (members_view members.now)) }
{
    field_or(alloc, members, name, List::new(alloc), wishes_of)
}

/// A count from 1 to 256.
fn start_count_in(alloc: Global, tree: &Tree) -> Result<u32, Refusal>
    ensures { Gives result (number_at 1 256 (view tree.now)) }
{
    let number = number_between(alloc, tree, 1, 256)?;
    Ok(number as u32)
}

#[tactic(auto, unfolding(crate::specs::PlayersShape::start_entry_at))]
fn start_entry_of(alloc: Global, name: &str, tree: &Tree) -> Result<StartEntry, Refusal>
    ensures { Gives result (start_entry_at name.now (view tree.now)) }
{
    let name = copy_name(alloc, name, 128)?;
    let count = start_count_in(alloc, tree)?;
    Ok(StartEntry { name, count })
}

/// Whether there are at most so many items together.
fn are_few(entries: &[StartEntry], most: u32) -> bool
    ensures { result ≡ nat_le (sum_by start_count entries.now) most }
{
    let mut room = most;
    for entry in entries {
        if room < entry.count {
            return false;
        }
        room -= entry.count;
    }
    true
}

#[tactic(auto, unfolding(crate::specs::PlayersShape::start_inventory_at))]
fn start_inventory_of(alloc: Global, tree: &Tree) -> Result<List<StartEntry>, Refusal>
    ensures { Gives result (start_inventory_at (view tree.now)) }
{
    let members = object_of(alloc, tree)?;
    let entries = each_member(alloc, members, start_entry_of)?;
    if are_few(entries.as_slice(), 256) {
        Ok(entries)
    } else {
        refuse(alloc, Kind::TooMany)
    }
}

/// How much of a player's own world has to be reachable, by its word.
#[tactic(auto, unfolding(crate::specs::PlayersShape::access_at))]
fn access_of(alloc: Global, tree: &Tree) -> Result<Access, Refusal>
    ensures { Gives result (access_at (view tree.now)) }
{
    match text_of(alloc, tree)? {
        "full" => Ok(Access::Full),
        "items" => Ok(Access::Items),
        "minimal" => Ok(Access::Minimal),
        _ => refuse(alloc, Kind::WrongKind),
    }
}

/// How much of a player's own world has to be reachable; the first form doesn't say it.
fn access_or_items(alloc: Global, members: &[Member], second: bool) -> Result<Access, Refusal>
    ensures { Gives result (access_in second (members_view members.now)) }
{
    if second {
        field_or(alloc, members, "accessibility", Access::Items, access_of)
    } else {
        Ok(Access::Items)
    }
}

/// A player's wishes, each of which may be absent.
#[tactic(auto, unfolding(crate::specs::PlayersShape::options_at))]
pub(crate) fn options_of(alloc: Global, tree: &Tree, second: bool) -> Result<Options, Refusal>
    ensures { Gives result (options_at second (view tree.now)) }
{
    let members = object_of(alloc, tree)?;
    let local_items = wishes_or_none(alloc, members, "local_items")?;
    let non_local_items = wishes_or_none(alloc, members, "non_local_items")?;
    let exclude_locations = wishes_or_none(alloc, members, "exclude_locations")?;
    let priority_locations = wishes_or_none(alloc, members, "priority_locations")?;
    let start_inventory = field_or(
        alloc,
        members,
        "start_inventory",
        List::new(alloc),
        start_inventory_of,
    )?;
    let accessibility = access_or_items(alloc, members, second)?;
    Ok(Options {
        local_items,
        non_local_items,
        exclude_locations,
        priority_locations,
        start_inventory,
        accessibility,
    })
}

/// The wishes of a player who says none.
pub(crate) fn no_options(alloc: Global) -> Options
    ensures { result ≡ plain_options }
{
    Options {
        local_items: List::new(alloc),
        non_local_items: List::new(alloc),
        exclude_locations: List::new(alloc),
        priority_locations: List::new(alloc),
        start_inventory: List::new(alloc),
        accessibility: Access::Items,
    }
}

ghost use Rattle.std.specs.Prelude.{◌≡◌, ◌≤◌, ◌<◌, ◌^◌, pos, ◌≤ℤ◌, ◌<ℤ◌, IfOk, length};
ghost use Rattle.mw_json.specs.View.{view, items_view};
ghost use Rattle.mw_json.specs.Grammar.{Gives, GivesBy, number_at};
ghost use Rattle.mw_json.specs.Parts.{id_at, not_empty, list_of_length, item_at};

use crate::grammar::{list_of, number_in, refuse};
use crate::refusal::{Kind, Refusal};
use crate::tree::Tree;
use mw_base::{ItemId, LocId};
use std::alloc::Global;

const MAX_ID: u64 = 9_007_199_254_740_991;

/// A whole number from `low` to `high`, which says so.
#[tactic(auto, using(crate::proofs::Numbers::number_in_range))]
pub fn number_between(alloc: Global, tree: &Tree, low: u64, high: u64) -> Result<u64, Refusal>
    ensures value { Gives result (number_at low high (view tree.now)) }
    ensures range { IfOk result (λ n. (low ≤ n) × (n ≤ high)) }
{
    number_in(alloc, tree, low, high)
}

/// An id.
#[tactic(auto, unfolding(crate::specs::Parts::id_at))]
pub fn id_in(alloc: Global, tree: &Tree) -> Result<i64, Refusal>
    ensures value { Gives result (id_at (view tree.now)) }
    ensures range { IfOk result (λ n. (pos 1 ≤ℤ n) × (n <ℤ pos (2 ^ 53))) }
{
    let number = number_between(alloc, tree, 1, MAX_ID)?;
    Ok(number as i64)
}

/// An item's id.
pub fn item_id_in(alloc: Global, tree: &Tree) -> Result<ItemId, Refusal>
    ensures { Gives result (id_at (view tree.now)) }
{
    let number = id_in(alloc, tree)?;
    match ItemId::new(number) {
        Some(id) => Ok(id),
        None => refuse(alloc, Kind::WrongKind),
    }
}

/// A location's id.
pub fn location_id_in(alloc: Global, tree: &Tree) -> Result<LocId, Refusal>
    ensures { Gives result (id_at (view tree.now)) }
{
    let number = id_in(alloc, tree)?;
    match LocId::new(number) {
        Some(id) => Ok(id),
        None => refuse(alloc, Kind::WrongKind),
    }
}

/// Elements of which there is one at least.
#[tactic(auto, using(crate::proofs::Elements::not_empty_view))]
pub fn some_of<'a>(alloc: Global, items: &'a [Tree]) -> Result<&'a [Tree], Refusal>
    ensures { GivesBy (λ ts. items_view ts.now) result (not_empty (items_view items.now)) }
{
    if items.is_empty() {
        refuse(alloc, Kind::WrongKind)
    } else {
        Ok(items)
    }
}

/// The elements of a list of `count` elements.
#[tactic(auto, using(crate::proofs::Trees::as_many), unfolding(crate::specs::Parts::list_of_length))]
pub fn list_with<'a>(alloc: Global, tree: &'a Tree, count: usize) -> Result<&'a [Tree], Refusal>
    ensures value { GivesBy (λ ts. items_view ts.now) result
        (list_of_length count (view tree.now)) }
    ensures length { IfOk result (λ ts. length ts.now ≡ count) }
{
    let items = list_of(alloc, tree)?;
    if items.len() == count {
        Ok(items)
    } else {
        refuse(alloc, Kind::WrongKind)
    }
}

/// The element at an index.
#[tactic(auto, using(crate::proofs::Elements::item_at_view))]
pub fn element<'a>(items: &'a [Tree], index: usize) -> &'a Tree
    requires { index < length items.now }
    ensures { view result.now ≡ item_at index (items_view items.now) }
{
    &items[index]
}

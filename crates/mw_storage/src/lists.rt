ghost use Rattle.std.specs.Prelude.{◌≡◌, ◌<◌, length, IfOk, IfSome};
ghost use Rattle.mw_json.specs.View.{view, items_view};
ghost use Rattle.mw_protocol.specs.Equal.{json_eq};
ghost use Rattle.mw_protocol.specs.Operations.{append_items, place_from, without_at, without_first, without_index, lacking};

use mw_base::{List, Memory};
use mw_json::{Tree, copy, same};
use std::alloc::Global;

fn equal(left: &Tree, right: &Tree) -> bool
    ensures { result ≡ json_eq (view left.now) (view right.now) }
{
    same(left, right)
}

/// The place of the first element that is this value.
fn place_of(items: &[Tree], wanted: &Tree) -> Option<usize>
    ensures place { result ≡ place_from 0 (view wanted.now) (items_view items.now) }
    ensures within { IfSome result (λ i. i < length items.now) }
{
    for (i, item) in items.iter().enumerate() {
        if equal(item, wanted) {
            return Some(i);
        }
    }
    None
}

#[tactic(auto, using(crate::proofs::Elements::remove_view))]
fn without_at(items: List<Tree>, at: usize) -> List<Tree>
    requires { at < length items }
    ensures { items_view result ≡ without_at at (items_view items) }
{
    let mut items = items.into_vec();
    let _gone = items.remove(at);
    List::from_vec(items)
}

/// Without the first element that is this value, where there is one.
pub(crate) fn without_first(items: List<Tree>, wanted: &Tree) -> List<Tree>
    ensures { items_view result ≡ without_first (view wanted.now) (items_view items) }
{
    match place_of(items.as_slice(), wanted) {
        Some(at) => without_at(items, at),
        None => items,
    }
}

/// Without the element at an index, where there is one.
pub(crate) fn without_index(items: List<Tree>, index: i64) -> List<Tree>
    ensures { items_view result ≡ without_index index (items_view items) }
{
    if index < 0 {
        return items;
    }
    let at = index as usize;
    if at < items.len() {
        without_at(items, at)
    } else {
        items
    }
}

/// The elements of two lists.
#[tactic(auto, using(crate::proofs::Elements::append_view))]
pub(crate) fn append(items: List<Tree>, more: List<Tree>) -> Result<List<Tree>, Memory>
    ensures { IfOk result (λ all.
        items_view all ≡ append_items (items_view items) (items_view more)) }
{
    let mut items = items.into_vec();
    let mut more = more.into_vec();
    items.append(&mut more)?;
    Ok(List::from_vec(items))
}

/// Copies of the elements of the second list that are none of the first.
pub(crate) fn lacking(alloc: Global, items: &[Tree], more: &[Tree]) -> Result<List<Tree>, Memory>
    ensures { IfOk result (λ new.
        items_view new ≡ lacking (items_view items.now) (items_view more.now)) }
{
    let mut found = List::new(alloc);
    for item in more {
        if place_of(items, item).is_some() {
            continue;
        }
        found.push(copy(alloc, item)?)?;
    }
    Ok(found)
}

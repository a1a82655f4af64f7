ghost use Rattle.std.specs.Prelude.{◌≡◌, Result};
ghost use Rattle.mw_json.specs.View.{view, items_view};
ghost use Rattle.mw_model.specs.Json.{Json};
ghost use Rattle.mw_json.specs.Grammar.{Breach, Gives};
ghost use Rattle.mw_json.specs.Readers.{ReadsEach, each_from, list_of_at};

use crate::grammar::{at_index, list_of_at_most};
use crate::refusal::Refusal;
use crate::tree::Tree;
use mw_base::List;
use std::alloc::Global;

/// The elements, each read in turn.
pub fn each<T: Drop, F: Fn(Global, &Tree) -> Result<T, Refusal>>(
    alloc: Global,
    items: &[Tree],
    read: F,
) -> Result<List<T>, Refusal>
    requires { F.IsAlwaysCallable read }
    ensures { (at : Json → Result T Breach) → ReadsEach F.Fn read at
        → Gives result (each_from at 0 (items_view items.now)) }
{
    let mut found = List::new(alloc);
    for (i, item) in items.iter().enumerate() {
        let one = at_index(read(alloc, item), i as u64)?;
        found.push(one)?;
    }
    Ok(found)
}

/// A list of at most `most` elements, each read in turn.
#[tactic(auto, unfolding(crate::specs::Readers::list_of_at))]
pub fn list<T: Drop, F: Fn(Global, &Tree) -> Result<T, Refusal>>(
    alloc: Global,
    tree: &Tree,
    most: usize,
    read: F,
) -> Result<List<T>, Refusal>
    requires { F.IsAlwaysCallable read }
    ensures { (at : Json → Result T Breach) → ReadsEach F.Fn read at
        → Gives result (list_of_at most at (view tree.now)) }
{
    let items = list_of_at_most(alloc, tree, most)?;
    each(alloc, items, read)
}

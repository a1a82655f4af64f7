ghost use Rattle.std.specs.Prelude.{◌≡◌, Result, map};
ghost use Rattle.mw_json.specs.View.{view, items_view};
ghost use Rattle.mw_model.specs.Json.{Json};
ghost use Rattle.mw_json.specs.Grammar.{Breach, GivesBy};
ghost use Rattle.mw_json.specs.Readers.{SeesEach, each_from, list_of_at};

use crate::grammar::list_of_at_most;
use crate::refusal::Refusal;
use crate::seen::{Seen, at_index_seen};
use crate::tree::Tree;
use mw_base::List;
use std::alloc::Global;

/// The elements, each read in turn.
pub fn each_seen<T: Seen + Drop, F: Fn(Global, &Tree) -> Result<T, Refusal>>(
    alloc: Global,
    items: &[Tree],
    read: F,
) -> Result<List<T>, Refusal>
    requires { F.IsAlwaysCallable read }
    ensures { (at : Json → Result T.Plain Breach) → SeesEach F.Fn read T.seen at
        → GivesBy (map T.seen) result (each_from at 0 (items_view items.now)) }
{
    let mut found = List::new(alloc);
    for (i, item) in items.iter().enumerate() {
        let one = at_index_seen(read(alloc, item), i as u64)?;
        found.push(one)?;
    }
    Ok(found)
}

/// A list of at most `most` elements, each read in turn.
#[tactic(auto, unfolding(crate::specs::Readers::list_of_at))]
pub fn list_seen<T: Seen + Drop, F: Fn(Global, &Tree) -> Result<T, Refusal>>(
    alloc: Global,
    tree: &Tree,
    most: usize,
    read: F,
) -> Result<List<T>, Refusal>
    requires { F.IsAlwaysCallable read }
    ensures { (at : Json → Result T.Plain Breach) → SeesEach F.Fn read T.seen at
        → GivesBy (map T.seen) result (list_of_at most at (view tree.now)) }
{
    let items = list_of_at_most(alloc, tree, most)?;
    each_seen(alloc, items, read)
}

ghost use Rattle.std.specs.Prelude.{◌<◌, Result, length};
ghost use Rattle.mw_model.specs.Json.{Json};
ghost use Rattle.mw_json.specs.View.{view, items_view};
ghost use Rattle.mw_json.specs.Grammar.{Breach, Gives};
ghost use Rattle.mw_json.specs.Parts.{element_at, null_or_at};
ghost use Rattle.mw_json.specs.Readers.{ReadsAs};

use crate::grammar::at_index;
use crate::parts::element;
use crate::refusal::Refusal;
use crate::tree::Tree;
use std::alloc::Global;

/// What stands at an index.
#[tactic(auto, unfolding(crate::specs::Parts::element_at))]
pub fn element_in<T: Drop, F: FnOnce(Global, &Tree) -> Result<T, Refusal>>(
    alloc: Global,
    items: &[Tree],
    index: usize,
    read: F,
) -> Result<T, Refusal>
    requires within { index < length items.now }
    requires callable { F.IsAlwaysCallable read }
    ensures { (at : Json → Result T Breach) → ReadsAs F.FnOnce read at
        → Gives result (element_at index at (items_view items.now)) }
{
    at_index(read(alloc, element(items, index)), index as u64)
}

/// What stands there, None where it is null.
pub fn null_or<T: Drop, F: FnOnce(Global, &Tree) -> Result<T, Refusal>>(
    alloc: Global,
    tree: &Tree,
    read: F,
) -> Result<Option<T>, Refusal>
    requires { F.IsAlwaysCallable read }
    ensures { (at : Json → Result T Breach) → ReadsAs F.FnOnce read at
        → Gives result (null_or_at at (view tree.now)) }
{
    match tree {
        Tree::Null => Ok(None),
        _ => Ok(Some(read(alloc, tree)?)),
    }
}

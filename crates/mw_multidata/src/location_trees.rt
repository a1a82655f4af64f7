ghost use Rattle.std.specs.Prelude.{◌≡◌, IfOk, map};
ghost use Rattle.mw_model.specs.Json.{IsWritable, many};
ghost use Rattle.mw_model.specs.Trees.{items_of};
ghost use Rattle.mw_json.specs.View.{view};
ghost use Rattle.mw_multidata.specs.Written.{held_json};

use crate::seed::Held;
use mw_base::{List, Memory};
use mw_json::{Tree, id_tree, number_tree, push_tree};
use std::alloc::Global;

/// A location with what it holds, as a list of five.
fn held_tree(alloc: Global, held: &Held) -> Result<Tree, Memory>
    ensures value { IfOk result (λ t. view t ≡ held_json held.now) }
    ensures writable { IfOk result (λ t. IsWritable (view t)) }
{
    let mut parts = List::with_capacity(alloc, 5)?;
    push_tree(&mut parts, number_tree(u64::from(held.slot.get())))?;
    push_tree(&mut parts, id_tree(held.location.get()))?;
    push_tree(&mut parts, id_tree(held.item.get()))?;
    push_tree(&mut parts, number_tree(u64::from(held.receiver)))?;
    push_tree(&mut parts, number_tree(u64::from(held.flags)))?;
    Ok(Tree::Many(parts))
}

/// The locations, as a list.
pub(crate) fn locations_tree(alloc: Global, locations: &[Held]) -> Result<Tree, Memory>
    ensures value { IfOk result (λ t. view t ≡ many (items_of (map held_json locations.now))) }
    ensures writable { IfOk result (λ t. IsWritable (view t)) }
{
    let mut trees = List::with_capacity(alloc, locations.len())?;
    for held in locations {
        push_tree(&mut trees, held_tree(alloc, held)?)?;
    }
    Ok(Tree::Many(trees))
}

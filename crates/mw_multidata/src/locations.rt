ghost use Rattle.mw_json.specs.View.{view};
ghost use Rattle.mw_json.specs.Grammar.{Gives};
ghost use Rattle.mw_multidata.specs.Shape.{held_at};

use crate::parts::{flags_in, slot_in, slot_number_in};
use crate::seed::Held;
use mw_json::{Refusal, Tree, element_in, item_id_in, list_with, location_id_in};
use std::alloc::Global;

/// A location of a seed file, with what it holds.
#[tactic(auto, unfolding(crate::specs::Shape::held_at))]
pub(crate) fn held_of(alloc: Global, tree: &Tree) -> Result<Held, Refusal>
    ensures { Gives result (held_at (view tree.now)) }
{
    let items = list_with(alloc, tree, 5)?;
    let slot = element_in(alloc, items, 0, slot_in)?;
    let location = element_in(alloc, items, 1, |a, t| location_id_in(a, t))?;
    let item = element_in(alloc, items, 2, |a, t| item_id_in(a, t))?;
    let receiver = element_in(alloc, items, 3, slot_number_in)?;
    let flags = element_in(alloc, items, 4, flags_in)?;
    Ok(Held {
        slot,
        location,
        item,
        receiver,
        flags,
    })
}

ghost use Rattle.std.specs.Prelude.{◌≤◌, IfOk};
ghost use Rattle.mw_json.specs.View.{view};
ghost use Rattle.mw_json.specs.Grammar.{Gives};
ghost use Rattle.mw_multidata.specs.Parts.{slot_number_at, flags_at};

use mw_base::SlotId;
use mw_json::{Kind, Refusal, Tree, number_between, refuse};
use std::alloc::Global;

/// The number of a slot.
pub(crate) fn slot_number_in(alloc: Global, tree: &Tree) -> Result<u16, Refusal>
    ensures value { Gives result (slot_number_at (view tree.now)) }
    ensures range { IfOk result (λ n. (1 ≤ n) × (n ≤ 1024)) }
{
    let number = number_between(alloc, tree, 1, 1024)?;
    Ok(number as u16)
}

/// A slot.
pub(crate) fn slot_in(alloc: Global, tree: &Tree) -> Result<SlotId, Refusal>
    ensures { Gives result (slot_number_at (view tree.now)) }
{
    let number = slot_number_in(alloc, tree)?;
    match SlotId::new(number) {
        Some(slot) => Ok(slot),
        None => refuse(alloc, Kind::WrongKind),
    }
}

/// An item's class.
#[tactic(auto, unfolding(crate::specs::Parts::flags_at))]
pub(crate) fn flags_in(alloc: Global, tree: &Tree) -> Result<u8, Refusal>
    ensures { Gives result (flags_at (view tree.now)) }
{
    let number = number_between(alloc, tree, 0, 4)?;
    if number == 3 {
        refuse(alloc, Kind::WrongKind)
    } else {
        Ok(number as u8)
    }
}

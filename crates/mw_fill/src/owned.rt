ghost use Rattle.std.specs.Prelude.{◌≡◌, IfOk};
ghost use Rattle.mw_fill.specs.Copies.{all_numbers};
ghost use Rattle.mw_fill.specs.Laying.{AreBegins};

use crate::item_copy::ItemCopy;
use mw_base::{List, Memory};
use mw_multi::{Joint, push_numbers};
use std::alloc::Global;

/// The numbers over all slots of copies, one for each owner of each. They stand in one list, so
/// that no copy has a list of its own.
#[derive(Drop)]
pub(crate) struct Owned {
    /// The numbers, copy by copy.
    pub numbers: List<u32>,
    /// For each copy where its numbers begin, and last where they end.
    pub begins: List<usize>,
}

/// The numbers of the copies; `Memory` where memory ran out.
pub(crate) fn owned_of(alloc: Global, joint: &Joint, copies: &[ItemCopy]) -> Result<Owned, Memory>
    ensures numbers { IfOk result (λ owned. owned.numbers
        ≡ all_numbers joint.now copies.now) }
    ensures begins { IfOk result (λ owned. AreBegins joint.now copies.now owned.begins) }
{
    let mut numbers = List::new(alloc);
    let mut begins = List::new(alloc);
    begins.push(0)?;
    for copy in copies {
        push_numbers(&mut numbers, joint, copy.receiver, copy.item)?;
        begins.push(numbers.len())?;
    }
    Ok(Owned { numbers, begins })
}

ghost use Rattle.std.specs.Prelude.{Result};
ghost use Rattle.mw_model.specs.Json.{Json};
ghost use Rattle.mw_json.specs.View.{view};
ghost use Rattle.mw_protocol.specs.Operations.{Fault as PlainFault};
ghost use Rattle.mw_protocol.specs.Storage.{refused_at, run_from};
ghost use Rattle.mw_storage.specs.Results.{IsResultOf};
ghost use Rattle.mw_storage.specs.Refusals.{GivesBy};

use crate::fault::Fault;
use crate::operate::operated;
use crate::refusal::StoreRefusal;
use mw_json::{Operation, Tree};
use std::alloc::Global;

/// The answer of the operation at a place.
fn at_place(place: u64, answer: Result<Tree, Fault>) -> Result<Tree, StoreRefusal>
    ensures { (made : Result Json PlainFault) → IsResultOf answer made
        → GivesBy view result (refused_at place made) }
{
    match answer {
        Ok(value) => Ok(value),
        Err(Fault::Bad) => Err(StoreRefusal::BadOperation { place }),
        Err(Fault::OutOfRange) => Err(StoreRefusal::OutOfRange { place }),
        Err(Fault::Memory) => Err(StoreRefusal::Memory),
    }
}

/// What operations in order make of a value, up to the first that fails.
pub(crate) fn run(
    alloc: Global,
    operations: &[Operation],
    value: Tree,
) -> Result<Tree, StoreRefusal>
    ensures { GivesBy view result (run_from 0 operations.now (view value)) }
{
    let mut value = value;
    for (i, operation) in operations.iter().enumerate() {
        value = at_place(i as u64, operated(alloc, operation, value))?;
    }
    Ok(value)
}

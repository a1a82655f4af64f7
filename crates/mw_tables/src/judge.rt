ghost use Rattle.mw_json.specs.Grammar.{Gives};
ghost use Rattle.mw_tables.specs.Names.{demand, known as has_to_be_there};

use mw_json::{Kind, Refusal, refuse};
use std::alloc::Global;

/// Refused with this kind where it doesn't hold.
pub(crate) fn judge(alloc: Global, holds: bool, kind: Kind) -> Result<(), Refusal>
    ensures { Gives result (demand kind holds) }
{
    if holds { Ok(()) } else { refuse(alloc, kind) }
}

/// The place of a name, which has to be there.
pub(crate) fn known(alloc: Global, place: Option<u32>) -> Result<u32, Refusal>
    ensures { Gives result (has_to_be_there place) }
{
    match place {
        Some(place) => Ok(place),
        None => refuse(alloc, Kind::UnknownName),
    }
}

ghost use Rattle.std.specs.Prelude.{◌≡◌, ◌<◌, All, IfOk, length, map};
ghost use Rattle.mw_fill.specs.Try.{or_filler};
ghost use Rattle.mw_fill.specs.Kept.{end_held};

use crate::opening::Opening;
use mw_base::{List, Memory};
use mw_multi::{Placement, Put};
use std::alloc::Global;

/// What was put at a location, or else its own slot's filler.
fn put_or_filler(opening: &Opening, held: Option<Put>) -> Put
    ensures { result ≡ or_filler held opening.now }
{
    match held {
        Some(put) => put,
        None => Put {
            place: opening.place,
            receiver: opening.slot,
            item: opening.filler,
        },
    }
}

/// Something at each of the locations: what is held there, or else the filler; `Memory` where
/// memory ran out.
pub(crate) fn placement_from(
    alloc: Global,
    openings: &[Opening],
    held: &[Option<Put>],
) -> Result<Placement, Memory>
    requires within { All (λ s. s.place < length held.now) openings.now }
    ensures { IfOk result (λ placement. placement ≡ map (end_held held.now) openings.now) }
{
    let mut placement = List::new(alloc);
    for opening in openings {
        placement.push(put_or_filler(opening, held[opening.place as usize]))?;
    }
    Ok(placement)
}

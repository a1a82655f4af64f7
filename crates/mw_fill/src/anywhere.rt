ghost use Rattle.std.specs.Prelude.{◌≡◌, ◌<◌, ◌≤◌, List, All, MatchResult, find, length};
ghost use Rattle.mw_multi.specs.Joint.{Joint};
ghost use Rattle.mw_multi.specs.Placement as plain;
ghost use Rattle.mw_fill.specs.Openings.{accepts};
ghost use Rattle.mw_fill.specs.Fill.{filled, stuck, placed_anywhere};
ghost use Rattle.mw_fill.specs.Kept.{CopyKept, OpeningKept, IsHeldFor, AreTaken, is_open_in};
ghost use Rattle.mw_fill.specs.Answer.{OnStuck};

use crate::error::FillError;
use crate::item_copy::ItemCopy;
use crate::opening::Opening;
use crate::taken::past_taken;
use mw_multi::Put;

/// The first of the locations that is free and accepts the copy. The first so many are taken.
pub(crate) fn first_accepting(
    copy: &ItemCopy,
    openings: &[Opening],
    from: usize,
    held: &[Option<Put>],
) -> Option<Opening>
    requires within { All (λ s. s.place < length held.now) openings.now }
    requires from { from ≤ length openings.now }
    requires taken { AreTaken held.now openings.now from }
    ensures { result ≡ find (is_open_in (accepts copy.now) held.now) openings.now }
{
    for opening in &openings[from..] {
        if held[opening.place as usize].is_none() && opening.accepts(copy) {
            return Some(*opening);
        }
    }
    None
}

/// Puts each copy in order at the first of the locations that is free and accepts it.
pub(crate) fn place_anywhere(
    copies: &[ItemCopy],
    openings: &[Opening],
    held: &mut [Option<Put>],
) -> Result<(), FillError>
    requires within { All (λ s. s.place < length held.old) openings.now }
    ensures { (joint : Joint) (puts : List plain.Put) → All (CopyKept joint) copies.now
        → All (OpeningKept joint) openings.now → IsHeldFor joint puts held.old
        → MatchResult result (λ _. (more : List plain.Put) × IsHeldFor joint more held.new
        × (placed_anywhere openings.now copies.now puts ≡ filled more))
        (λ e. OnStuck e (λ slot item. placed_anywhere openings.now copies.now puts
        ≡ stuck slot item)) }
{
    let mut from = 0;
    for copy in copies {
        from = past_taken(openings, held, from);
        match first_accepting(copy, openings, from, held) {
            None => return Err(copy.stuck()),
            Some(opening) => held[opening.place as usize] = Some(copy.put_at(&opening)),
        }
    }
    Ok(())
}

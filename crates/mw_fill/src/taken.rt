ghost use Rattle.std.specs.Prelude.{◌≡◌, ◌<◌, ◌≤◌, None, true, false, All, is_none, length, slice_index_or};
ghost use Rattle.mw_fill.specs.Openings as plain_opening;
ghost use Rattle.mw_fill.specs.Kept.{AreTaken};

use crate::opening::Opening;
use mw_multi::Put;

/// Whether there is a location at this number, from 0, where something is held.
fn is_taken(openings: &[Opening], held: &[Option<Put>], at: usize) -> bool
    requires within { All (λ s. s.place < length held.now) openings.now }
    ensures within { result ≡ true → at < length openings.now }
    ensures taken { result ≡ true → (d : plain_opening.Opening)
        → is_none (slice_index_or held.now (slice_index_or openings.now at d).place None) ≡ false }
{
    match openings.get(at) {
        Some(opening) => held[opening.place as usize].is_some(),
        None => false,
    }
}

/// How many of the first locations are taken, where so many are known to be.
pub(crate) fn past_taken(openings: &[Opening], held: &[Option<Put>], from: usize) -> usize
    requires within { All (λ s. s.place < length held.now) openings.now }
    requires from { from ≤ length openings.now }
    requires taken { AreTaken held.now openings.now from }
    ensures within { result ≤ length openings.now }
    ensures taken { AreTaken held.now openings.now result }
{
    let mut from = from;
    while is_taken(openings, held, from) {
        from += 1;
    }
    from
}

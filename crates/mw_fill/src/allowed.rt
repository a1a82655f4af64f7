ghost use Rattle.std.specs.Prelude.{◌≡◌, ◌<◌, ◌≤◌, ◌+◌, true, All, find, length};
ghost use Rattle.mw_rules.specs.Holds.{bag_of};
ghost use Rattle.mw_multi.specs.Steps.{rule_list};
ghost use Rattle.mw_reach.specs.Reached.{IsMadeFor, counts_in, places_in};
ghost use Rattle.mw_fill.specs.Fill as plain;
ghost use Rattle.mw_fill.specs.Fill.{is_allowed};
ghost use Rattle.mw_fill.specs.Asks.{goals_for};
ghost use Rattle.mw_fill.specs.Kept.{AreTaken, is_open_in};

use crate::item_copy::ItemCopy;
use crate::missable::{is_minimal_at, is_missable};
use crate::opening::Opening;
use mw_multi::{Joint, Put};
use mw_reach::{Reached, is_required_by};
use mw_rules::{Ruling, Steps};
use std::sync::ledger::Ledger;

/// Whether the location accepts the copy, and is reached or, where the copy may be missed, of a
/// slot that wants no more than its goal.
fn is_allowed_if(
    joint: &Joint,
    missed: bool,
    copy: &ItemCopy,
    opening: &Opening,
    reached: &Reached,
) -> bool
    ensures { result ≡ plain.is_allowed_if joint.now missed (places_in reached.now) copy.now
        opening.now }
{
    if !opening.accepts(copy) {
        return false;
    }
    reached.has(opening.place) || (missed && is_minimal_at(joint, opening.slot))
}

/// The first of the locations that is free and is allowed so.
fn first_of(
    joint: &Joint,
    missed: bool,
    copy: &ItemCopy,
    openings: &[Opening],
    held: &[Option<Put>],
    reached: &Reached,
) -> Option<Opening>
    requires within { All (λ s. s.place < length held.now) openings.now }
    ensures { result ≡ find (is_open_in
        (plain.is_allowed_if joint.now missed (places_in reached.now) copy.now) held.now)
        openings.now }
{
    for opening in openings {
        let free = held[opening.place as usize].is_none();
        if free && is_allowed_if(joint, missed, copy, opening, reached) {
            return Some(*opening);
        }
    }
    None
}

/// `first_of` where the first so many locations are taken.
fn first_after(
    joint: &Joint,
    missed: bool,
    copy: &ItemCopy,
    openings: &[Opening],
    from: usize,
    held: &[Option<Put>],
    reached: &Reached,
) -> Option<Opening>
    requires within { All (λ s. s.place < length held.now) openings.now }
    requires from { from ≤ length openings.now }
    requires taken { AreTaken held.now openings.now from }
    ensures { result ≡ find (is_open_in
        (plain.is_allowed_if joint.now missed (places_in reached.now) copy.now) held.now)
        openings.now }
{
    first_of(joint, missed, copy, &openings[from..], held, reached)
}

/// `first_allowed` for a copy that may be missed. What is required is judged only where it decides.
fn first_missed<R: Ruling, L: Ledger>(
    joint: &Joint,
    rules: &R,
    copy: &ItemCopy,
    openings: &[Opening],
    from: usize,
    held: &[Option<Put>],
    reached: &Reached,
    steps: &mut Steps<L>,
) -> Option<Opening>
    requires rules { R.stands_for rules.now (rule_list joint.now) }
    requires made { IsMadeFor joint.now reached.now }
    requires missable { plain.is_missable joint.now copy.now ≡ true }
    requires within { All (λ s. s.place < length held.now) openings.now }
    requires from { from ≤ length openings.now }
    requires taken { AreTaken held.now openings.now from }
    ensures found { result ≡ find (is_open_in (is_allowed joint.now
        (bag_of (counts_in reached.now)) (places_in reached.now) copy.now) held.now) openings.now }
    ensures steps { steps.new ≤ steps.old + length joint.now.slots }
{
    match first_after(joint, true, copy, openings, from, held, reached) {
        None => None,
        Some(opening) => {
            if reached.has(opening.place) {
                return Some(opening);
            }
            if is_required_by(joint, rules, reached, steps) {
                return Some(opening);
            }
            first_after(joint, false, copy, openings, from, held, reached)
        }
    }
}

/// The first of the locations that is free and allowed for the copy; the first so many are taken.
/// `reached` has the copy's own list.
pub(crate) fn first_allowed<R: Ruling, L: Ledger>(
    joint: &Joint,
    rules: &R,
    copy: &ItemCopy,
    openings: &[Opening],
    from: usize,
    held: &[Option<Put>],
    reached: &Reached,
    steps: &mut Steps<L>,
) -> Option<Opening>
    requires rules { R.stands_for rules.now (rule_list joint.now) }
    requires made { IsMadeFor joint.now reached.now }
    requires within { All (λ s. s.place < length held.now) openings.now }
    requires from { from ≤ length openings.now }
    requires taken { AreTaken held.now openings.now from }
    ensures found { result ≡ find (is_open_in (is_allowed joint.now
        (bag_of (counts_in reached.now)) (places_in reached.now) copy.now) held.now) openings.now }
    ensures steps { steps.new ≤ steps.old + goals_for joint.now copy.now }
{
    if !is_missable(joint, copy) {
        return first_after(joint, false, copy, openings, from, held, reached);
    }
    first_missed(joint, rules, copy, openings, from, held, reached, steps)
}

ghost use Rattle.std.specs.Prelude.{◌≡◌, ◌<◌, List, IfOk, MatchResult};
ghost use Rattle.mw_multi.specs.Placement as plain;
ghost use Rattle.mw_multi.specs.Placement.{IsPlacement};
ghost use Rattle.mw_multi.specs.Steps.{rule_list};
ghost use Rattle.mw_fill.specs.Fill.{filled, stuck};
ghost use Rattle.mw_fill.specs.Kept.{IsHeldFor};
ghost use Rattle.mw_reach.specs.Reached.{IsMadeFor};
ghost use Rattle.mw_fill.specs.Openings.{openings_of, regular as regular_of};
ghost use Rattle.mw_fill.specs.ListsKept.{AreKept, AreShort};
ghost use Rattle.mw_fill.specs.Try.{stock_of, the_rest, IsOutcome, IsFilled, IsStuck, placement_of};
ghost use Rattle.mw_fill.specs.Asks.{AsksWithin, TryAsksWithin};
ghost use Rattle.mw_fill.specs.Answer.{OnStuck};

use crate::anywhere::place_anywhere;
use crate::assumed::place_asked;
use crate::error::FillError;
use crate::lists::{self, Lists, lists_of};
use crate::opening::Opening;
use crate::openings::{all_kinds, regular};
use crate::placement::placement_from;
use mw_base::Memory;
use mw_multi::{Joint, Placement, Put, TreeRules};
use mw_reach::Reached;
use mw_rules::{Ruling, Steps};
use std::alloc::Global;
use std::marker::Brand;
use std::sync::ledger::{Blank, Ledger};

/// Puts the copies of the lists that no rule asks for. `places` are the locations that useful ones
/// may stand at.
fn place_rest(
    alloc: Global,
    joint: &Joint,
    lists: &Lists,
    places: &[Opening],
    held: &mut [Option<Put>],
) -> Result<(), FillError>
    requires lists { AreKept joint.now lists.now }
    requires places { places.now ≡ regular_of lists.now.openings }
    requires held { (puts : List plain.Put) × IsHeldFor joint.now puts held.old }
    ensures { (puts : List plain.Put) → IsHeldFor joint.now puts held.old → MatchResult result
        (λ _. (more : List plain.Put) × IsHeldFor joint.now more held.new
        × (the_rest lists.now puts ≡ filled more))
        (λ e. OnStuck e (λ slot item. the_rest lists.now puts ≡ stuck slot item)) }
{
    if let Err(error) = place_anywhere(lists.helping.as_slice(), places, held) {
        return Err(error);
    }
    let places = all_kinds(alloc, lists.openings.as_slice())?;
    place_anywhere(lists.filling.as_slice(), places.as_slice(), held)
}

/// Puts the copies of the lists, first those that rules ask for, and gives what is held then.
fn place_all<R: Ruling, L: Ledger>(
    alloc: Global,
    joint: &Joint,
    rules: &R,
    lists: &Lists,
    reached: &mut Reached,
    steps: &mut Steps<L>,
) -> Result<Vec<Option<Put>>, FillError>
    requires rules { R.stands_for rules.now (rule_list joint.now) }
    requires lists { AreKept joint.now lists.now }
    requires reached { IsMadeFor joint.now reached.old }
    ensures kept { IsMadeFor joint.now reached.new }
    ensures answer { MatchResult result
        (λ held. (puts : List plain.Put) × IsHeldFor joint.now puts held.items
        × IsOutcome joint.now lists.now (filled puts))
        (λ e. OnStuck e (λ slot item. IsOutcome joint.now lists.now (stuck slot item))) }
    ensures steps { AsksWithin joint.now (regular_of lists.now.openings) lists.now.asked result
        steps.old steps.new }
{
    let places = regular(alloc, lists.openings.as_slice())?;
    let places = places.as_slice();
    let asked = lists.asked.as_slice();
    let mut held = place_asked(alloc, joint, rules, asked, places, reached, steps)?;
    place_rest(alloc, joint, lists, places, held.as_mut_slice())?;
    Ok(held)
}

/// The placement that the lists give, with something at each of the joint's locations with an id.
fn place_lists<R: Ruling, L: Ledger>(
    alloc: Global,
    joint: &Joint,
    rules: &R,
    openings: &[Opening],
    lists: &Lists,
    reached: &mut Reached,
    steps: &mut Steps<L>,
) -> Result<Placement, FillError>
    requires openings { openings.now ≡ openings_of joint.now }
    requires rules { R.stands_for rules.now (rule_list joint.now) }
    requires lists { AreKept joint.now lists.now }
    requires reached { IsMadeFor joint.now reached.old }
    ensures kept { IsMadeFor joint.now reached.new }
    ensures answer { MatchResult result
        (λ placement. (puts : List plain.Put) × IsOutcome joint.now lists.now (filled puts)
        × (placement ≡ placement_of joint.now puts))
        (λ e. OnStuck e (λ slot item. IsOutcome joint.now lists.now (stuck slot item))) }
    ensures placement { IfOk result (IsPlacement joint.now) }
    ensures steps { AsksWithin joint.now (regular_of lists.now.openings) lists.now.asked result
        steps.old steps.new }
{
    // Reading the joint makes known what its type keeps.
    let _ = &joint.slots;
    let held = place_all(alloc, joint, rules, lists, reached, steps)?;
    let placement = placement_from(alloc, openings, held.as_slice())?;
    Ok(placement)
}

/// `fill_try_counted` from the joint's stock.
pub(crate) fn try_from_stock<R: Ruling, L: Ledger>(
    alloc: Global,
    joint: &Joint,
    rules: &R,
    stock: &Lists,
    reached: &mut Reached,
    seed: u64,
    stream: u64,
    steps: &mut Steps<L>,
) -> Result<Placement, FillError>
    requires rules { R.stands_for rules.now (rule_list joint.now) }
    requires stock { stock.now ≡ stock_of joint.now }
    requires kept { AreKept joint.now stock.now }
    requires short { AreShort stock.now }
    requires reached { IsMadeFor joint.now reached.old }
    ensures kept { IsMadeFor joint.now reached.new }
    ensures answer { MatchResult result (IsFilled joint.now seed stream)
        (λ e. OnStuck e (IsStuck joint.now seed stream)) }
    ensures placement { IfOk result (IsPlacement joint.now) }
    ensures steps { TryAsksWithin joint.now seed stream result steps.old steps.new }
{
    let lists = lists_of(alloc, stock, seed, stream)?;
    let openings = stock.openings.as_slice();
    place_lists(alloc, joint, rules, openings, &lists, reached, steps)
}

/// The placement of the try with this number of a seed: something at each location with an id. It
/// is Stuck exactly where a copy of a pool finds no location; the first such copy's slot and item
/// are told. `Memory` where memory ran out. The joint's rules are asked of `rules`, and the asks
/// are counted in `steps`.
pub fn fill_try_counted<R: Ruling, L: Ledger>(
    alloc: Global,
    joint: &Joint,
    rules: &R,
    seed: u64,
    stream: u64,
    steps: &mut Steps<L>,
) -> Result<Placement, FillError>
    requires rules { R.stands_for rules.now (rule_list joint.now) }
    ensures answer { MatchResult result (IsFilled joint.now seed stream)
        (λ e. OnStuck e (IsStuck joint.now seed stream)) }
    ensures placement { IfOk result (IsPlacement joint.now) }
    ensures steps { TryAsksWithin joint.now seed stream result steps.old steps.new }
{
    let stock = lists::stock_of(alloc, joint)?;
    let mut reached = Reached::new_by(alloc, joint, rules)?;
    try_from_stock(
        alloc,
        joint,
        rules,
        &stock,
        &mut reached,
        seed,
        stream,
        steps,
    )
}

/// `fill_try_counted` with a counter of its own.
fn count_and_try<R: Ruling, L: Ledger>(
    blank: Blank,
    alloc: Global,
    joint: &Joint,
    rules: &R,
    seed: u64,
    stream: u64,
) -> Result<Placement, FillError>
    requires name { blank.name ≡ L.name }
    requires parts { (blank.parts ≡ L.parts) × (blank.parts ≡ 1) }
    requires rules { R.stands_for rules.now (rule_list joint.now) }
    ensures answer { MatchResult result (IsFilled joint.now seed stream)
        (λ e. OnStuck e (IsStuck joint.now seed stream)) }
    ensures placement { IfOk result (IsPlacement joint.now) }
{
    let mut steps = Steps::<L>::new(blank);
    fill_try_counted(alloc, joint, rules, seed, stream, &mut steps)
}

/// The placement of the try with this number of a seed: something at each location with an id. It
/// is Stuck exactly where a copy of a pool finds no location; the first such copy's slot and item
/// are told. `Memory` where memory ran out. The joint's rules are asked of `rules`.
pub fn fill_try_by<R: Ruling>(
    alloc: Global,
    joint: &Joint,
    rules: &R,
    seed: u64,
    stream: u64,
) -> Result<Placement, FillError>
    requires rules { R.stands_for rules.now (rule_list joint.now) }
    ensures answer { MatchResult result (IsFilled joint.now seed stream)
        (λ e. OnStuck e (IsStuck joint.now seed stream)) }
    ensures placement { IfOk result (IsPlacement joint.now) }
{
    count_and_try::<R, Brand>(Blank::new(1), alloc, joint, rules, seed, stream)
}

/// The placement of the try with this number of a seed: something at each location with an id. It
/// is Stuck exactly where a copy of a pool finds no location; the first such copy's slot and item
/// are told. `Memory` where memory ran out.
pub fn fill_try(
    alloc: Global,
    joint: &Joint,
    seed: u64,
    stream: u64,
) -> Result<Placement, FillError>
    ensures answer { MatchResult result (IsFilled joint.now seed stream)
        (λ e. OnStuck e (IsStuck joint.now seed stream)) }
    ensures placement { IfOk result (IsPlacement joint.now) }
{
    let rules = TreeRules::of(alloc, joint)?;
    fill_try_by(alloc, joint, &rules, seed, stream)
}

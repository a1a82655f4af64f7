ghost use Rattle.std.specs.Prelude.{◌≡◌, ◌<◌, ◌≤◌, ◌++◌, [], List, All, IfErr, OnOk, MatchResult, drop, length, take};
ghost use Rattle.mw_multi.specs.Placement as plain;
ghost use Rattle.mw_multi.specs.Placement.{IsPlaced};
ghost use Rattle.mw_multi.specs.Steps.{rule_list};
ghost use Rattle.mw_multi.specs.Events.{events_of};
ghost use Rattle.mw_reach.specs.Reach.{Placed};
ghost use Rattle.mw_reach.specs.Reached.{IsMadeFor, HasLeast, counts_in, flags_in};
ghost use Rattle.mw_fill.specs.Copies.{all_numbers};
ghost use Rattle.mw_fill.specs.Fill.{filled, stuck, in_hand, FillRun};
ghost use Rattle.mw_fill.specs.Asks.{AsksWithin, FindsNone};
ghost use Rattle.mw_fill.specs.Kept.{CopyKept, OpeningKept, IsHeldFor};
ghost use Rattle.mw_fill.specs.Laying.{IsLaid, RunsOn, AreOrdered, IsLaying, IsPast, RangeWithin, FirstWithin, SecondWithin};
ghost use Rattle.mw_fill.specs.Answer.{OnStuck};

use crate::error::FillError;
use crate::item_copy::ItemCopy;
use crate::laying::Laying;
use crate::opening::Opening;
use crate::order::Order;
use crate::owned::owned_of;
use mw_multi::{Bag, Joint, Put};
use mw_reach::{Reached, reach_by};
use mw_rules::{Ruling, Steps};
use std::alloc::Global;
use std::sync::ledger::Ledger;

/// Puts the copies up to the middle one, which isn't put, as `place_range` does, with those from
/// there on in hand as well. `reached` has the list with the copies from `to` on in hand and with
/// those that were put, and has it again in the end.
///
/// Where only one copy is left, it is put without a list of its own if its location is known by the
/// smaller one.
#[cycle(place_range)]
fn place_first<R: Ruling, L: Ledger>(
    alloc: Global,
    joint: &Joint,
    rules: &R,
    order: &Order,
    middle: usize,
    to: usize,
    laying: &mut Laying,
    reached: &mut Reached,
    steps: &mut Steps<L>,
) -> Result<(), FillError>
    requires rules { R.stands_for rules.now (rule_list joint.now) }
    requires order { AreOrdered joint.now order.now.copies.now order.now.numbers.now
        order.now.begins.now order.now.openings.now }
    requires range { (length laying.old.laid < middle) × (middle ≤ to)
        × (to ≤ length order.now.copies.now) }
    requires laid { IsLaying joint.now order.now.openings.now order.now.copies.now laying.old }
    requires past { IsPast order.now.openings.now laying.old }
    requires made { IsMadeFor joint.now reached.old }
    requires least { HasLeast joint.now (in_hand joint.now (drop to order.now.copies.now))
        laying.old.placed reached.old }
    ensures made { IsMadeFor joint.now reached.new }
    ensures again { OnOk result ((flags_in reached.new ≡ flags_in reached.old)
        × (counts_in reached.new ≡ counts_in reached.old)) }
    ensures front { take (length laying.old.laid) laying.new.laid ≡ laying.old.laid }
    ensures each { All (IsLaid joint.now) laying.new.laid }
    ensures runs { RunsOn joint.now order.now.openings.now order.now.copies.now
        laying.new.laid }
    ensures more { OnOk result (length laying.new.laid ≡ middle) }
    ensures past { OnOk result (IsPast order.now.openings.now laying.new) }
    ensures answer { MatchResult result
        (λ _. IsLaying joint.now order.now.openings.now order.now.copies.now laying.new)
        (λ e. OnStuck e (λ slot item. FillRun joint.now order.now.openings.now
        order.now.copies.now [] (stuck slot item))) }
    ensures none { IfErr result (λ e. OnStuck e (λ slot item. FindsNone joint.now
        order.now.openings.now (drop (length laying.new.laid) order.now.copies.now)
        laying.new.laid)) }
    ensures steps { FirstWithin joint.now order.now.copies.now laying.new.laid
        (length laying.old.laid) middle to steps.old steps.new }
{
    // Reading the joint makes known what its type keeps.
    let _ = &joint.slots;
    if let Some(opening) = laying.sure_location(order, middle, reached) {
        return laying.put_next(alloc, joint, order, Some(opening));
    }
    let mark = reached.mark(alloc)?;
    laying.hold_more(joint, rules, order, middle, to, reached, steps);
    place_range(alloc, joint, rules, order, middle, laying, reached, steps)?;
    reached.go_back(mark);
    Ok(())
}

/// Puts the other copies up to this one, which isn't put, as `place_range` does. `reached` has the
/// list with the copies from there on in hand and with those that were put before `from`.
#[cycle(place_range)]
fn place_second<R: Ruling, L: Ledger>(
    alloc: Global,
    joint: &Joint,
    rules: &R,
    order: &Order,
    from: usize,
    to: usize,
    laying: &mut Laying,
    reached: &mut Reached,
    steps: &mut Steps<L>,
) -> Result<(), FillError>
    requires rules { R.stands_for rules.now (rule_list joint.now) }
    requires order { AreOrdered joint.now order.now.copies.now order.now.numbers.now
        order.now.begins.now order.now.openings.now }
    requires range { (from ≤ length laying.old.laid) × (length laying.old.laid < to)
        × (to ≤ length order.now.copies.now) }
    requires laid { IsLaying joint.now order.now.openings.now order.now.copies.now laying.old }
    requires past { IsPast order.now.openings.now laying.old }
    requires made { IsMadeFor joint.now reached.old }
    requires least { (before : Placed)
        × IsPlaced joint.now
        (events_of joint.now ++ take from laying.old.laid) before
        × HasLeast joint.now (in_hand joint.now (drop to order.now.copies.now)) before
        reached.old }
    ensures made { IsMadeFor joint.now reached.new }
    ensures front { take (length laying.old.laid) laying.new.laid ≡ laying.old.laid }
    ensures each { All (IsLaid joint.now) laying.new.laid }
    ensures runs { RunsOn joint.now order.now.openings.now order.now.copies.now
        laying.new.laid }
    ensures more { OnOk result (length laying.new.laid ≡ to) }
    ensures past { OnOk result (IsPast order.now.openings.now laying.new) }
    ensures answer { MatchResult result
        (λ _. IsLaying joint.now order.now.openings.now order.now.copies.now laying.new)
        (λ e. OnStuck e (λ slot item. FillRun joint.now order.now.openings.now
        order.now.copies.now [] (stuck slot item))) }
    ensures none { IfErr result (λ e. OnStuck e (λ slot item. FindsNone joint.now
        order.now.openings.now (drop (length laying.new.laid) order.now.copies.now)
        laying.new.laid)) }
    ensures steps { SecondWithin joint.now order.now.copies.now laying.new.laid from
        (length laying.old.laid) to steps.old steps.new }
{
    // Reading the joint makes known what its type keeps.
    let _ = &joint.slots;
    if let Some(opening) = laying.sure_location(order, to, reached) {
        return laying.put_next(alloc, joint, order, Some(opening));
    }
    laying.find_from(alloc, joint, rules, order, from, reached, steps)?;
    place_range(alloc, joint, rules, order, to, laying, reached, steps)
}

/// Puts the copies up to this one, which isn't put, each by the least list with the copies after it
/// in hand. `reached` has the list with the copies from there on in hand and with those that were
/// put.
///
/// The first half begins with the second half in hand as well, and the second half with the first
/// half where it was put. So each list goes on from a smaller one, and a rule is asked but a few
/// times for each halving.
#[cycle(place_range)]
fn place_range<R: Ruling, L: Ledger>(
    alloc: Global,
    joint: &Joint,
    rules: &R,
    order: &Order,
    to: usize,
    laying: &mut Laying,
    reached: &mut Reached,
    steps: &mut Steps<L>,
) -> Result<(), FillError>
    requires rules { R.stands_for rules.now (rule_list joint.now) }
    requires order { AreOrdered joint.now order.now.copies.now order.now.numbers.now
        order.now.begins.now order.now.openings.now }
    requires range { (length laying.old.laid ≤ to) × (to ≤ length order.now.copies.now) }
    requires laid { IsLaying joint.now order.now.openings.now order.now.copies.now laying.old }
    requires past { IsPast order.now.openings.now laying.old }
    requires made { IsMadeFor joint.now reached.old }
    requires least { HasLeast joint.now (in_hand joint.now (drop to order.now.copies.now))
        laying.old.placed reached.old }
    ensures made { IsMadeFor joint.now reached.new }
    ensures front { take (length laying.old.laid) laying.new.laid ≡ laying.old.laid }
    ensures each { All (IsLaid joint.now) laying.new.laid }
    ensures runs { RunsOn joint.now order.now.openings.now order.now.copies.now
        laying.new.laid }
    ensures more { OnOk result (length laying.new.laid ≡ to) }
    ensures past { OnOk result (IsPast order.now.openings.now laying.new) }
    ensures answer { MatchResult result
        (λ _. IsLaying joint.now order.now.openings.now order.now.copies.now laying.new)
        (λ e. OnStuck e (λ slot item. FillRun joint.now order.now.openings.now
        order.now.copies.now [] (stuck slot item))) }
    ensures none { IfErr result (λ e. OnStuck e (λ slot item. FindsNone joint.now
        order.now.openings.now (drop (length laying.new.laid) order.now.copies.now)
        laying.new.laid)) }
    ensures steps { RangeWithin joint.now order.now.copies.now laying.new.laid
        (length laying.old.laid) to steps.old steps.new }
{
    // Reading the joint makes known what its type keeps.
    let _ = &joint.slots;
    let from = laying.laid.len();
    if to == from {
        return Ok(());
    }
    if to - from == 1 {
        let found = laying.find_next(joint, rules, order, reached, steps);
        return laying.put_next(alloc, joint, order, found);
    }
    let middle = from + (to - from) / 2;
    place_first(
        alloc, joint, rules, order, middle, to, laying, reached, steps,
    )?;
    place_second(alloc, joint, rules, order, from, to, laying, reached, steps)
}

/// Puts each copy in order at the first of the locations that is free and allowed for it: one that
/// accepts it and can be reached with the starting items and the later copies, or where it may be
/// missed. It gives for each place what stands there.
pub(crate) fn place_asked<R: Ruling, L: Ledger>(
    alloc: Global,
    joint: &Joint,
    rules: &R,
    copies: &[ItemCopy],
    openings: &[Opening],
    reached: &mut Reached,
    steps: &mut Steps<L>,
) -> Result<Vec<Option<Put>>, FillError>
    requires rules { R.stands_for rules.now (rule_list joint.now) }
    requires copies { All (CopyKept joint.now) copies.now }
    requires few { length copies.now ≤ 10240000 }
    requires few_numbers { length (all_numbers joint.now copies.now) ≤ 10240000 }
    requires openings { All (OpeningKept joint.now) openings.now }
    requires reached { IsMadeFor joint.now reached.old }
    ensures kept { IsMadeFor joint.now reached.new }
    ensures answer { MatchResult result
        (λ held. (puts : List plain.Put) × IsHeldFor joint.now puts held.items
        × FillRun joint.now openings.now copies.now [] (filled puts))
        (λ e. OnStuck e (λ slot item. FillRun joint.now openings.now copies.now []
        (stuck slot item))) }
    ensures steps { AsksWithin joint.now openings.now copies.now result steps.old steps.new }
{
    // Reading the joint makes known what its type keeps.
    let _ = &joint.slots;
    let start = Bag::starting(alloc, joint)?;
    let mut laying = Laying::new(alloc, joint)?;
    let owned = owned_of(alloc, joint, copies)?;
    let order = Order {
        copies,
        numbers: owned.numbers.as_slice(),
        begins: owned.begins.as_slice(),
        openings,
    };
    reach_by(joint, rules, &start, &laying.placed, reached, steps);
    let to = copies.len();
    place_range(alloc, joint, rules, &order, to, &mut laying, reached, steps)?;
    Ok(laying.held)
}

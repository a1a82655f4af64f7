ghost use Rattle.std.specs.Prelude.{◌≡◌, ◌≤◌, ◌+◌, List, IfOk, drop, length, map, take};
ghost use Rattle.mw_multi.specs.Joint as plain_joint;
ghost use Rattle.mw_multi.specs.Placement.{put_numbers};
ghost use Rattle.mw_reach.specs.Reached.{places_in};
ghost use Rattle.mw_fill.specs.Copies.{copy_numbers};
ghost use Rattle.mw_fill.specs.Laying.{AreOrdered, numbers_found as found_numbers};

use crate::laying::Laying;
use crate::order::{Order, numbers_between};
use mw_base::Memory;
use mw_multi::{Joint, Put};
use mw_reach::{Reached, go_on_by};
use mw_rules::{Ruling, Steps};
use std::alloc::Global;
use std::sync::ledger::Ledger;

/// The numbers of those of the copies that lie at places of the list. They are the copies of the
/// order from one on.
fn numbers_found(
    alloc: Global,
    order: &Order,
    from: usize,
    laid: &[Put],
    reached: &Reached,
) -> Result<Vec<u32>, Memory>
    requires order { (joint : plain_joint.Joint) × AreOrdered joint order.now.copies.now
        order.now.numbers.now order.now.begins.now order.now.openings.now }
    requires within { from + length laid.now ≤ length order.now.copies.now }
    ensures { IfOk result (λ found. (joint : plain_joint.Joint)
        → AreOrdered joint order.now.copies.now order.now.numbers.now order.now.begins.now
        order.now.openings.now
        → map (put_numbers joint) laid.now
        ≡ map (copy_numbers joint) (take (length laid.now) (drop from order.now.copies.now))
        → found.items ≡ found_numbers joint (places_in reached.now) laid.now) }
{
    let mut found = Vec::new(alloc);
    for (index, put) in laid.iter().enumerate() {
        if reached.has(put.place) {
            let at = from + index;
            found.extend_from_slice(numbers_between(order, at, at + 1))?;
        }
    }
    Ok(found)
}

impl Laying {
    ghost use Rattle.std.specs.Prelude.{◌≡◌, ◌<◌, ◌≤◌, ◌+◌, ◌^◌, ◌++◌, ℕ, List, All, OnOk, OnErr, drop, length, sum_by};
    ghost use Rattle.mw_rules.specs.Holds as holding;
    ghost use Rattle.mw_rules.specs.Holds.{bag_of};
    ghost use Rattle.mw_multi.specs.Placement as plain;
    ghost use Rattle.mw_multi.specs.Placement.{IsPlaced};
    ghost use Rattle.mw_multi.specs.Steps.{rule_list};
    ghost use Rattle.mw_reach.specs.Reach as reach;
    ghost use Rattle.mw_reach.specs.Reached.{IsPlacedFor, IsMadeFor, HasLeast, counts_in, flags_in};
    ghost use Rattle.mw_fill.specs.Fill.{in_hand};
    ghost use Rattle.mw_fill.specs.Laying.{numbers_between as plain_between, asks_more, IsLaid, AreFirst, AreOrdered};

    /// Goes on with the copies from `middle` to `to` in hand as well.
    pub(crate) fn hold_more<R: Ruling, L: Ledger>(
        &self,
        joint: &Joint,
        rules: &R,
        order: &Order,
        middle: usize,
        to: usize,
        reached: &mut Reached,
        steps: &mut Steps<L>,
    )
        requires rules { R.stands_for rules.now (rule_list joint.now) }
        requires order { AreOrdered joint.now order.now.copies.now order.now.numbers.now
            order.now.begins.now order.now.openings.now }
        requires range { (middle ≤ to) × (to ≤ length order.now.copies.now) }
        requires placed { IsPlacedFor joint.now self.now.placed }
        requires few { (i : ℕ) → bag_of (counts_in reached.old) i + length order.now.numbers.now
            + sum_by length self.now.placed < 2 ^ 32 }
        requires made { IsMadeFor joint.now reached.old }
        requires least { HasLeast joint.now (in_hand joint.now (drop to order.now.copies.now))
            self.now.placed reached.old }
        ensures made { IsMadeFor joint.now reached.new }
        ensures least { HasLeast joint.now (in_hand joint.now (drop middle order.now.copies.now))
            self.now.placed reached.new }
        ensures steps { steps.new ≤ steps.old + asks_more joint.now self.now.placed
            (plain_between joint.now order.now.copies.now middle to) (flags_in reached.old)
            (flags_in reached.new) }
    {
        let more = numbers_between(order, middle, to);
        go_on_by(joint, rules, more, &self.placed, reached, steps);
    }

    /// Goes on with the copies that were put from this one on, where they were put. After `Memory`
    /// the list is as before.
    pub(crate) fn find_from<R: Ruling, L: Ledger>(
        &self,
        alloc: Global,
        joint: &Joint,
        rules: &R,
        order: &Order,
        from: usize,
        reached: &mut Reached,
        steps: &mut Steps<L>,
    ) -> Result<(), Memory>
        requires rules { R.stands_for rules.now (rule_list joint.now) }
        requires order { AreOrdered joint.now order.now.copies.now order.now.numbers.now
            order.now.begins.now order.now.openings.now }
        requires from { from ≤ length self.now.laid }
        requires first { AreFirst joint.now order.now.copies.now self.now.laid }
        requires laid { All (IsLaid joint.now) self.now.laid }
        requires placed { IsPlacedFor joint.now self.now.placed }
        requires few { (i : ℕ) → bag_of (counts_in reached.old) i + length order.now.numbers.now
            + sum_by length self.now.placed < 2 ^ 32 }
        requires made { IsMadeFor joint.now reached.old }
        ensures made { IsMadeFor joint.now reached.new }
        ensures least { OnOk result ((base : holding.Bag) (puts : List plain.Put)
            (before : reach.Placed) → IsPlaced joint.now puts before
            → IsPlaced joint.now (puts ++ drop from self.now.laid) self.now.placed
            → HasLeast joint.now base before reached.old
            → HasLeast joint.now base self.now.placed reached.new) }
        ensures steps { OnOk result (steps.new ≤ steps.old + asks_more joint.now self.now.placed
            (plain_between joint.now order.now.copies.now from (length self.now.laid))
            (flags_in reached.old) (flags_in reached.new)) }
        ensures unasked { OnErr result (steps.new ≡ steps.old) }
    {
        let laid = &self.laid.as_slice()[from..];
        let found = numbers_found(alloc, order, from, laid, reached)?;
        let more = found.as_slice();
        go_on_by(joint, rules, more, &self.placed, reached, steps);
        Ok(())
    }
}

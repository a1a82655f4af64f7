ghost use Rattle.std.specs.Prelude.{◌≡◌, ◌≤◌, ◌-◌, drop, length, take};
ghost use Rattle.mw_multi.specs.Joint as plain_joint;
ghost use Rattle.mw_fill.specs.Laying.{AreOrdered, numbers_between as plain_between};

use crate::item_copy::ItemCopy;
use crate::opening::Opening;

/// Copies to be put in this order, and the locations to put them at.
#[derive(Clone, Copy)]
pub(crate) struct Order<'a> {
    pub copies: &'a [ItemCopy],
    /// The copies' numbers over all slots, copy by copy, one for each owner of each.
    pub numbers: &'a [u32],
    /// For each copy where its numbers begin, and last where they end.
    pub begins: &'a [usize],
    pub openings: &'a [Opening],
}

/// The numbers from a place up to an end.
fn part(numbers: &[u32], begin: usize, end: usize) -> &[u32]
    requires begin { begin ≤ end }
    requires end { end ≤ length numbers.now }
    ensures { result.now ≡ take (end - begin) (drop begin numbers.now) }
{
    &numbers[begin..end]
}

/// The numbers over all slots of the copies from one to another, one for each owner of each.
pub(crate) fn numbers_between<'a>(order: &Order<'a>, from: usize, to: usize) -> &'a [u32]
    requires order { (joint : plain_joint.Joint) × AreOrdered joint order.now.copies.now
        order.now.numbers.now order.now.begins.now order.now.openings.now }
    requires range { (from ≤ to) × (to ≤ length order.now.copies.now) }
    ensures { (joint : plain_joint.Joint) → AreOrdered joint order.now.copies.now
        order.now.numbers.now order.now.begins.now order.now.openings.now
        → result.now ≡ plain_between joint order.now.copies.now from to }
{
    part(order.numbers, order.begins[from], order.begins[to])
}

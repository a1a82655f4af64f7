ghost use Rattle.std.specs.Prelude.{◌≡◌, ◌<◌, ◌≤◌, ◌+◌, ◌-◌, ◌*◌, ◌^◌, ℕ, IfOk, All, length, replicate, slice_index, slice_set, sum_by};
ghost use Rattle.mw_rules.specs.Holds.{bag_of};
ghost use Rattle.mw_multi.specs.WorldKept.{copies};
ghost use Rattle.mw_multi.specs.Joint.{LinkKept, slot_at, world_of, item_total, link_copies, slot_items};
ghost use Rattle.mw_multi.specs.Bags.{entries_count, slot_start, slot_pool, start_count, pool_count, member_count, link_count, everything, IsBagOf};

use crate::joint::Joint;
use crate::link::Link;
use crate::placed::slot_of;
use crate::slot::Slot;
use crate::world::PoolEntry;
use mw_base::Memory;
use std::alloc::Global;
use std::marker::Model;

/// How many of each item there are, by the items' numbers over all slots; each count is below 2^31.
#[derive(Drop)]
pub struct Bag {
    counts: Vec<u32>,
}

impl Model for Bag {
    ghost use Rattle.std.specs.Prelude.{◌<◌, ◌^◌, ℕ, List, All};

    ghost Value = { List ℕ };

    ghost view = { λ b. b.counts.items };

    ghost invariant = { λ b. All (λ n. n < 2 ^ 31) b.counts.items };
}

/// Adds the copies of entries of a slot.
fn add_entries(bag: &mut Bag, first_item: u32, entries: &[PoolEntry])
    requires few { length bag.old < 2 ^ 31 }
    requires within { All (λ e. first_item + e.item < length bag.old) entries.now }
    requires room { (n : ℕ) → bag_of bag.old n + sum_by copies entries.now < 2 ^ 31 }
    ensures size { length bag.new ≡ length bag.old }
    ensures counts { (n : ℕ) → bag_of bag.new n ≡ bag_of bag.old n
        + entries_count first_item entries.now n }
{
    for entry in entries {
        bag.add(first_item + entry.item, entry.count);
    }
}

/// Adds what a slot begins with.
fn add_start(bag: &mut Bag, slot: &Slot)
    requires few { length bag.old < 2 ^ 31 }
    requires fits { slot.now.first_item + slot_items slot.now ≤ length bag.old }
    requires room { (n : ℕ) → bag_of bag.old n + 256 < 2 ^ 31 }
    ensures size { length bag.new ≡ length bag.old }
    ensures counts { (n : ℕ) → bag_of bag.new n ≡ bag_of bag.old n + slot_start n slot.now }
    ensures bound { (n : ℕ) → slot_start n slot.now ≤ 256 }
{
    add_entries(bag, slot.first_item, slot.start.as_slice());
}

/// Adds the pool of a slot.
fn add_pool(bag: &mut Bag, slot: &Slot)
    requires few { length bag.old < 2 ^ 31 }
    requires fits { slot.now.first_item + slot_items slot.now ≤ length bag.old }
    requires room { (n : ℕ) → bag_of bag.old n + 10000 < 2 ^ 31 }
    ensures size { length bag.new ≡ length bag.old }
    ensures counts { (n : ℕ) → bag_of bag.new n ≡ bag_of bag.old n + slot_pool n slot.now }
    ensures bound { (n : ℕ) → slot_pool n slot.now ≤ 10000 }
{
    add_entries(bag, slot.first_item, slot.pool());
}

/// Adds entries for one of their owners, where there is such a slot.
fn add_owned(bag: &mut Bag, joint: &Joint, owner: u16, entries: &[PoolEntry])
    requires size { length bag.old ≡ item_total joint.now.slots }
    requires fits { All (λ e. e.item < length (world_of (slot_at joint.now.slots owner)).items)
        entries.now }
    requires room { (n : ℕ) → bag_of bag.old n + sum_by copies entries.now < 2 ^ 31 }
    ensures size { length bag.new ≡ length bag.old }
    ensures counts { (n : ℕ) → bag_of bag.new n ≡ bag_of bag.old n
        + member_count joint.now.slots n entries.now owner }
{
    if let Some(slot) = slot_of(joint.slots.as_slice(), owner) {
        add_entries(bag, slot.first_item, entries);
    }
}

/// Adds the copies of a link, once for each member.
fn add_link(bag: &mut Bag, joint: &Joint, link: &Link)
    requires size { length bag.old ≡ item_total joint.now.slots }
    requires kept { LinkKept joint.now.slots link.now }
    requires room { (n : ℕ) → bag_of bag.old n + link_copies link.now < 2 ^ 31 }
    ensures size { length bag.new ≡ length bag.old }
    ensures counts { (n : ℕ) → bag_of bag.new n ≡ bag_of bag.old n
        + link_count joint.now.slots n link.now }
    ensures bound { (n : ℕ) → link_count joint.now.slots n link.now ≤ link_copies link.now }
{
    let shared = link.link;
    for member in shared.members.as_slice() {
        add_owned(bag, joint, member.get(), link.copies.as_slice());
    }
}

impl Bag {
    /// What the joint's slots begin with; `Memory` where memory ran out.
    pub fn starting(alloc: Global, joint: &Joint) -> Result<Bag, Memory>
        ensures { IfOk result (IsBagOf joint.now.slots (start_count joint.now.slots)) }
    {
        let mut bag = Bag::empty(alloc, joint)?;
        for slot in joint.slots.as_slice() {
            add_start(&mut bag, slot);
        }
        Ok(bag)
    }

    /// What the joint's slots begin with and all that their pools have; `Memory` where memory ran out.
    fn with_pools(alloc: Global, joint: &Joint) -> Result<Bag, Memory>
        ensures { IfOk result (IsBagOf joint.now.slots (λ n. start_count joint.now.slots n
            + pool_count joint.now.slots n)) }
    {
        let mut bag = Bag::starting(alloc, joint)?;
        for slot in joint.slots.as_slice() {
            add_pool(&mut bag, slot);
        }
        Ok(bag)
    }

    /// What the joint's slots begin with, all that their pools have, and what links have, once for each owner; `Memory` where
    /// memory ran out.
    pub fn everything(alloc: Global, joint: &Joint) -> Result<Bag, Memory>
        ensures { IfOk result (IsBagOf joint.now.slots (everything joint.now)) }
    {
        let mut bag = Bag::with_pools(alloc, joint)?;
        for link in joint.links.as_slice() {
            add_link(&mut bag, joint, link);
        }
        Ok(bag)
    }

    /// None of the joint's items; `Memory` where memory ran out.
    pub fn empty(alloc: Global, joint: &Joint) -> Result<Bag, Memory>
        ensures { IfOk result (λ bag. bag ≡ replicate (item_total joint.now.slots) 0) }
    {
        let counts = vec![in alloc; 0; joint.item_count() as usize]?;
        Ok(Bag { counts })
    }

    /// How many there are of an item.
    pub fn count(&self, item: u32) -> u32
        requires { item < length self.now }
        ensures value { result ≡ slice_index self.now item }
        ensures range { result < 2 ^ 31 }
    {
        self.counts[item as usize]
    }

    /// The counts, in the order of the items.
    pub fn as_slice(&self) -> &[u32]
        ensures value { result.now ≡ self.now }
        ensures range { All (λ n. n < 2 ^ 31) result.now }
    {
        self.counts.as_slice()
    }

    /// So many more of an item.
    pub fn add(&mut self, item: u32, count: u32)
        requires item { item < length self.old }
        requires room { slice_index self.old item + count < 2 ^ 31 }
        ensures { self.new ≡ slice_set self.old item (slice_index self.old item + count) }
    {
        self.counts[item as usize] += count;
    }

    /// One less of an item.
    pub fn take_one(&mut self, item: u32)
        requires item { item < length self.old }
        requires some { 1 ≤ slice_index self.old item }
        ensures { self.new ≡ slice_set self.old item (slice_index self.old item - 1) }
    {
        self.counts[item as usize] -= 1;
    }
}

ghost use Rattle.std.specs.Prelude.{◌≡◌, ◌<◌, ◌+◌, ◌^◌, [], IfOk, OnOk, drop, length, slice_index_or, slice_set};
ghost use Rattle.mw_multi.specs.Links.{row_at, fewer, left_of, taken_from, taken_from_each, shared, left_by_item, left_by_items, left_by, shared_copies, links_of, pool_row, pool_rows, first_copies};

use crate::link::Link;
use crate::sharing::Sharing;
use crate::slot::Slot;
use crate::world::{PoolEntry, World};
use mw_base::{List, Memory, SlotId};
use std::alloc::Global;
use std::marker::Model;

/// For each item of a world, how many copies are left in a pool.
#[derive(Drop)]
struct Row {
    counts: Vec<u32>,
}

impl Model for Row {
    ghost use Rattle.std.specs.Prelude.{ℕ, List};

    ghost Value = { List ℕ };

    ghost view = { λ r. r.counts.items };
}

/// For each item of a world, how many copies its pool has.
fn row_of(alloc: Global, world: &World) -> Result<Row, Memory>
    ensures { IfOk result (λ row. row ≡ pool_row world.now) }
{
    let counts = vec![in alloc; 0; world.items.len()]?;
    let mut row = Row { counts };
    for entry in world.pool.as_slice() {
        row.add(entry.item, entry.count);
    }
    Ok(row)
}

impl Row {
    /// How many copies of an item are left, none past the end.
    fn at(&self, item: u32) -> u32
        ensures { result ≡ row_at self.now item }
    {
        match self.counts.get(item as usize) {
            Some(count) => *count,
            None => 0,
        }
    }

    /// So many copies of an item more.
    fn add(&mut self, item: u32, count: u32)
        requires item { item < length self.old }
        requires room { row_at self.old item + count < 2 ^ 32 }
        ensures { self.new ≡ slice_set self.old item (row_at self.old item + count) }
    {
        self.counts[item as usize] += count;
    }

    /// So many copies of an item fewer.
    fn take(&mut self, item: u32, count: u32)
        ensures { self.new ≡ fewer item count self.old }
    {
        let at = item as usize;
        if at < self.counts.len() {
            self.counts[at] = self.counts[at].saturating_sub(count);
        }
    }

    /// The first copies of a pool, as many of each item as there are here. They are taken.
    fn take_first(&mut self, alloc: Global, pool: &[PoolEntry]) -> Result<List<PoolEntry>, Memory>
        ensures { IfOk result (λ first. first ≡ first_copies self.old pool.now) }
    {
        let mut first = List::new(alloc);
        for entry in pool {
            let item = entry.item;
            let count = entry.count.min(self.at(item));
            self.take(item, entry.count);
            first.push(PoolEntry { item, count })?;
        }
        Ok(first)
    }
}

/// For each slot, how many copies of each item of its world are left in its pool.
#[derive(Drop)]
pub(crate) struct Left {
    rows: Vec<Row>,
}

impl Model for Left {
    ghost use Rattle.std.specs.Prelude.{ℕ, List};

    ghost Value = { List (List ℕ) };

    ghost view = { λ l. l.rows.items };
}

impl Left {
    /// How many copies of each item the pools of the slots' worlds have.
    pub(crate) fn of_pools(alloc: Global, slots: &[Slot]) -> Result<Left, Memory>
        ensures { IfOk result (λ left. left ≡ pool_rows slots.now) }
    {
        let mut rows = Vec::with_capacity(alloc, slots.len())?;
        for slot in slots {
            rows.push(row_of(alloc, slot.world)?)?;
        }
        Ok(Left { rows })
    }

    /// How many copies of an item are left for a slot.
    fn of(&self, number: SlotId, item: u32) -> u32
        ensures { result ≡ left_of self.now item number }
    {
        match self.rows.get(number.get() as usize - 1) {
            Some(row) => row.at(item),
            None => 0,
        }
    }

    /// The last so many copies of an item leave a slot's pool.
    fn take(&mut self, number: SlotId, item: u32, count: u32)
        ensures { self.new ≡ taken_from self.old item count number }
    {
        let at = number.get() as usize - 1;
        if at < self.rows.len() {
            self.rows[at].take(item, count);
        }
    }

    /// The last so many copies of an item leave the pools of these slots.
    fn take_each(&mut self, members: &[SlotId], item: u32, count: u32)
        ensures { self.new ≡ taken_from_each self.old item count members.now }
    {
        for number in members {
            self.take(*number, item, count);
        }
    }

    /// The least number of copies of an item that is left for one of these slots.
    fn shared(&self, members: &[SlotId], item: u32) -> u32
        ensures { result ≡ shared self.now members.now item }
    {
        let Some(first) = members.first() else {
            return 0;
        };
        let mut least = self.of(*first, item);
        for number in members {
            least = least.min(self.of(*number, item));
        }
        least
    }

    /// What the members give of an item: each as many copies as the one who has fewest.
    fn share(&mut self, members: &[SlotId], item: u32) -> u32
        ensures count { result ≡ shared self.old members.now item }
        ensures left { self.new ≡ left_by_item self.old members.now item }
    {
        let count = self.shared(members, item);
        self.take_each(members, item, count);
        count
    }

    /// What the members of a link give of its items.
    fn share_items(
        &mut self,
        alloc: Global,
        members: &[SlotId],
        items: &[u32],
    ) -> Result<List<PoolEntry>, Memory>
        ensures copies { IfOk result (λ copies. copies
            ≡ shared_copies self.old members.now items.now) }
        ensures left { OnOk result (self.new ≡ left_by_items self.old members.now items.now) }
    {
        let mut copies = List::new(alloc);
        for item in items {
            let count = self.share(members, *item);
            copies.push(PoolEntry { item: *item, count })?;
        }
        Ok(copies)
    }

    /// What the members of each link give of its items.
    pub(crate) fn share_all<'a>(
        &mut self,
        alloc: Global,
        sharings: &[Sharing<'a>],
    ) -> Result<List<Link<'a>>, Memory>
        ensures links { IfOk result (λ links. links ≡ links_of self.old sharings.now) }
        ensures left { OnOk result (self.new ≡ left_by self.old sharings.now) }
    {
        let mut links = List::new(alloc);
        for sharing in sharings {
            let link = sharing.link;
            let members = link.members.as_slice();
            let copies = self.share_items(alloc, members, sharing.items.as_slice())?;
            links.push(Link { link, copies })?;
        }
        Ok(links)
    }

    /// The first copies of a pool, as many of each item as are left for the slot at an index, which counts from 0. They are
    /// taken.
    pub(crate) fn take_first(
        &mut self,
        alloc: Global,
        at: usize,
        pool: &[PoolEntry],
    ) -> Result<List<PoolEntry>, Memory>
        requires { at < length self.old }
        ensures first { IfOk result (λ first. first
            ≡ first_copies (slice_index_or self.old at []) pool.now) }
        ensures later { drop (at + 1) self.new ≡ drop (at + 1) self.old }
        ensures size { length self.new ≡ length self.old }
    {
        self.rows[at].take_first(alloc, pool)
    }
}

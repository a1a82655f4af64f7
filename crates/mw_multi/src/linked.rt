ghost use Rattle.std.specs.Prelude.{◌≡◌, ℕ, List, IfOk, length};
ghost use Rattle.mw_multi.specs.Links.{first_copies, with_left, each_with_left};

use crate::left::Left;
use crate::slot::Slot;
use crate::world::PoolEntry;
use mw_base::{List, Memory};
use std::alloc::Global;

/// A slot with a pool of its own, the first copies of its world's.
fn with_pool<'a>(slot: Slot<'a>, pool: List<PoolEntry>) -> Slot<'a>
    requires { (row : List ℕ) × (pool ≡ first_copies row slot.world.pool) }
    ensures { (row : List ℕ) → pool ≡ first_copies row slot.entry.world.pool
        → result ≡ with_left row slot.entry }
{
    let Slot {
        player,
        world,
        first_place,
        first_item,
        local_items,
        non_local_items,
        exclude_locations,
        priority_locations,
        start,
        own_pool: _,
    } = slot;
    Slot {
        player,
        world,
        first_place,
        first_item,
        local_items,
        non_local_items,
        exclude_locations,
        priority_locations,
        start,
        own_pool: Some(pool),
    }
}

/// The slots, each with what is left of its pool.
pub(crate) fn slots_left<'a>(
    alloc: Global,
    mut left: Left,
    slots: List<Slot<'a>>,
) -> Result<List<Slot<'a>>, Memory>
    requires { length left ≡ length slots }
    ensures { IfOk result (λ done. done ≡ each_with_left left slots.entry) }
{
    let mut done = List::with_capacity(alloc, slots.len())?;
    let mut at = 0;
    for slot in slots.into_vec() {
        let world = slot.world;
        let pool = left.take_first(alloc, at, world.pool.as_slice())?;
        done.push(with_pool(slot, pool))?;
        at += 1;
    }
    Ok(done)
}

ghost use Rattle.std.specs.Prelude.{◌≡◌, ◌≤◌, ◌+◌, ◌^◌, ◌==◌, ℕ, IfOk, map, length, replicate, get_or};
ghost use Rattle.mw_model.specs.Ascending.{Ascend};
ghost use Rattle.mw_model.specs.Seed.{has_number, is_owner};
ghost use Rattle.std.specs.Ordering.{nat_cmp};
ghost use Rattle.mw_checks.specs.Rows.{Counts, Sized, one_if, receivers_of};

use mw_base::{Memory, SlotId};
use mw_multidata::{Held, Multidata};
use std::alloc::Global;

/// The slots that there may be, which count from 1.
pub(crate) const SLOTS: usize = 1025;

/// A count of 0 for each slot.
fn no_counts(alloc: Global) -> Result<Vec<usize>, Memory>
    ensures { IfOk result (λ cs. cs.items ≡ replicate 1025 0) }
{
    Ok(vec![in alloc; 0; SLOTS]?)
}

/// Counts one for a slot.
fn count_one(counts: &mut Vec<usize>, slot: u16)
    requires many { length counts.old.items ≡ 1025 }
    requires few { (s : ℕ) → s ≤ 1024 → get_or counts.old.items s 0 ≤ 2 ^ 32 }
    requires range { slot ≤ 1024 }
    ensures many { length counts.new.items ≡ 1025 }
    ensures counts { (s : ℕ) → s ≤ 1024 → get_or counts.new.items s 0
        ≡ get_or counts.old.items s 0 + one_if (slot == s) }
{
    counts[usize::from(slot)] += 1;
}

/// Counts one for each of these slots, which ascend.
fn count_each(counts: &mut Vec<usize>, slots: &[SlotId])
    requires many { length counts.old.items ≡ 1025 }
    requires few { (s : ℕ) → s ≤ 1024 → get_or counts.old.items s 0 ≤ 2 ^ 31 }
    requires ascend { Ascend nat_cmp slots.now }
    ensures many { length counts.new.items ≡ 1025 }
    ensures counts { (s : ℕ) → s ≤ 1024 → get_or counts.new.items s 0
        ≡ get_or counts.old.items s 0 + one_if (has_number slots.now s) }
{
    for slot in slots {
        count_one(counts, slot.get());
    }
}

/// Counts one for each owner of a receiver.
fn count_owners(counts: &mut Vec<usize>, multidata: &Multidata, receiver: u16)
    requires many { length counts.old.items ≡ 1025 }
    requires few { (s : ℕ) → s ≤ 1024 → get_or counts.old.items s 0 ≤ 2 ^ 31 }
    ensures many { length counts.new.items ≡ 1025 }
    ensures counts { (s : ℕ) → s ≤ 1024 → get_or counts.new.items s 0
        ≡ get_or counts.old.items s 0 + one_if (is_owner multidata.now receiver s) }
{
    if usize::from(receiver) <= multidata.slots.len() {
        count_one(counts, receiver);
    } else if let Some(group) = multidata.group(receiver) {
        count_each(counts, group.members.as_slice());
    }
}

/// How many items each slot may receive.
pub(crate) fn receipts_of(alloc: Global, multidata: &Multidata) -> Result<Vec<usize>, Memory>
    ensures many { IfOk result (λ cs. length cs.items ≡ 1025) }
    ensures counts { IfOk result
        (λ cs. Counts (map (receivers_of multidata.now) multidata.now.locations) cs.items) }
{
    let mut counts = no_counts(alloc)?;
    for held in multidata.locations.as_slice() {
        count_owners(&mut counts, multidata, held.receiver);
    }
    Ok(counts)
}

/// How many locations each slot has.
pub(crate) fn sizes_of(alloc: Global, locations: &[Held]) -> Result<Vec<usize>, Memory>
    requires { length locations.now ≤ 16777216 }
    ensures { IfOk result (λ v. Sized locations.now v.items) }
{
    let mut counts = no_counts(alloc)?;
    for held in locations {
        count_one(&mut counts, held.slot.get());
    }
    Ok(counts)
}

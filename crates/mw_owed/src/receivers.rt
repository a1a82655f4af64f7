ghost use Rattle.std.specs.Prelude.{◌≡◌, ◌++◌, IfOk, OnOk};
ghost use Rattle.mw_model.specs.Seed.{held_at};
ghost use Rattle.mw_owed.specs.Receivers.{owns_one as owns_one_lem, receiver_of, receivers_in};

use mw_base::{Memory, SlotId};
use mw_checks::CheckLog;
use mw_effects::{Member, Pair};
use mw_multidata::Multidata;
use std::alloc::Global;

/// Adds who gets what stands at a location.
fn push_receiver(receivers: &mut Vec<u16>, log: &CheckLog, pair: Pair) -> Result<(), Memory>
    ensures { OnOk result (receivers.new.items ≡ receivers.old.items
        ++ receiver_of (held_at log.now.seed pair.0 pair.1)) }
{
    let (slot, location) = pair;
    if let Some(held) = log.held(slot, location) {
        receivers.push(held.receiver)?;
    }
    Ok(())
}

/// Who gets what stands at the locations, each of which is looked up once.
pub(crate) fn receivers_of(
    alloc: Global,
    log: &CheckLog,
    pairs: &[Pair],
) -> Result<Vec<u16>, Memory>
    ensures { IfOk result (λ rs. rs.items ≡ receivers_in log.now.seed pairs.now) }
{
    let mut receivers = Vec::new(alloc);
    for pair in pairs {
        push_receiver(&mut receivers, log, *pair)?;
    }
    Ok(receivers)
}

/// Whether a slot is one of these, or a member of a group that is.
fn owns_one(seed: &Multidata, receivers: &[u16], slot: SlotId) -> bool
    ensures { result ≡ owns_one_lem seed.now receivers.now slot }
{
    for receiver in receivers {
        if seed.is_owner(*receiver, slot) {
            return true;
        }
    }
    false
}

/// Whether the member's slot is one of these, or a member of a group that is.
pub(crate) fn receives(seed: &Multidata, receivers: &[u16], member: &Member) -> bool
    ensures { result ≡ owns_one_lem seed.now receivers.now member.now.slot }
{
    owns_one(seed, receivers, member.slot)
}

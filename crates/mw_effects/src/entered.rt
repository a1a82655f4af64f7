ghost use Rattle.std.specs.Prelude.{◌≡◌, ◌++◌, ℕ, IfOk, IsTrue, OnErr, OnOk};
ghost use Rattle.mw_checks.specs.Log.{AreFresh, checks_of};
ghost use Rattle.mw_protocol.specs.Checks.{checks_at};
ghost use Rattle.mw_protocol.specs.Named.{has_locations, is_named};
ghost use Rattle.mw_protocol.specs.Records.{checks, collect, release};
ghost use Rattle.mw_protocol.specs.Standing.{step};
ghost use Rattle.mw_protocol.specs.Statuses.{set_status as set_status_lem};
ghost use Rattle.mw_protocol.specs.Storage.{put};
ghost use Rattle.mw_records.specs.Records.{record_view};
ghost use Rattle.mw_effects.specs.Entered.{asked_in};
ghost use Rattle.mw_effects.specs.Parts.{standing_of};

use crate::news::Pair;
use crate::standing::Standing;
use crate::status::{SlotStatus, set_status};
use mw_base::{Growth, List, LocId, Memory, SlotId, TeamId};
use mw_checks::CheckLog;
use mw_json::copy;
use mw_records::{CheckedLocations, Record, Stored};
use mw_storage::Store;
use std::alloc::Global;

/// Locations, each with the slot.
fn pairs_of(alloc: Global, slot: SlotId, locations: &[LocId]) -> Result<List<Pair>, Memory>
    ensures { IfOk result (λ ps. (team : ℕ)
        → checks_of team ps ≡ checks_at team slot locations.now) }
{
    let mut pairs = List::with_capacity(alloc, locations.len())?;
    for location in locations {
        pairs.push((slot, *location))?;
    }
    Ok(pairs)
}

/// Adds the checks that a slot of a team reported. After `Memory` the log is as before.
#[tactic(auto, using(crate::proofs::AllKnown::known_all))]
fn add_checks(alloc: Global, log: &mut CheckLog, checked: &CheckedLocations) -> Result<(), Memory>
    requires { IsTrue (has_locations log.old.seed checked.now.slot checked.now.locations) }
    ensures seed { log.new.seed ≡ log.old.seed }
    ensures ok { OnOk result (log.new.checked ≡ asked_in log.old
        (checks checked.now.team checked.now.slot checked.now.locations)) }
    ensures err { OnErr result (log.new ≡ log.old) }
{
    let pairs = pairs_of(alloc, checked.slot, checked.locations.as_slice())?;
    let _added = log.add(checked.team, pairs.as_slice())?;
    Ok(())
}

/// Adds fresh checks of a team. After `Memory` the log is as before.
fn add_fresh(log: &mut CheckLog, team: TeamId, fresh: &[Pair]) -> Result<(), Memory>
    requires { AreFresh log.old.seed log.old.checked team fresh.now }
    ensures seed { log.new.seed ≡ log.old.seed }
    ensures ok { OnOk result (log.new.checked ≡ log.old.checked ++ checks_of team fresh.now) }
    ensures err { OnErr result (log.new ≡ log.old) }
{
    let growth = log.room_for(fresh.len() as u64)?;
    log.add_grown(team, fresh, growth);
    Ok(())
}

/// Adds the checks of a slot's release. After `Memory` the log is as before.
fn add_released(log: &mut CheckLog, team: TeamId, slot: SlotId) -> Result<(), Memory>
    ensures seed { log.new.seed ≡ log.old.seed }
    ensures ok { OnOk result (log.new.checked ≡ asked_in log.old (release team slot)) }
    ensures err { OnErr result (log.new ≡ log.old) }
{
    let fresh = log.released(team, slot, &[])?;
    add_fresh(log, team, fresh.as_slice())?;
    Ok(())
}

/// Adds the checks of a slot's collect. After `Memory` the log is as before.
fn add_collected(log: &mut CheckLog, team: TeamId, slot: SlotId) -> Result<(), Memory>
    ensures seed { log.new.seed ≡ log.old.seed }
    ensures ok { OnOk result (log.new.checked ≡ asked_in log.old (collect team slot)) }
    ensures err { OnErr result (log.new ≡ log.old) }
{
    let fresh = log.collected(team, slot, &[])?;
    add_fresh(log, team, fresh.as_slice())?;
    Ok(())
}

/// Gives a slot a status. After `Memory` the statuses are as before.
fn put_status(alloc: Global, statuses: &mut Vec<SlotStatus>, new: SlotStatus) -> Result<(), Memory>
    ensures ok { OnOk result (statuses.new.items
        ≡ set_status_lem new.team new.slot new.status statuses.old.items) }
    ensures err { OnErr result (statuses.new ≡ statuses.old) }
{
    let growth = Growth::of(alloc, statuses, 1)?;
    set_status(statuses, Some(new), growth);
    Ok(())
}

/// Keeps a key's value. After `Memory` the store is as before.
fn keep(alloc: Global, store: &mut Store, stored: &Stored) -> Result<(), Memory>
    ensures ok { OnOk result (store.new.kept
        ≡ put stored.now.key stored.now.value store.old.kept) }
    ensures err { OnErr result (store.new ≡ store.old) }
{
    let value = copy(alloc, &stored.value)?;
    store.put(&stored.key, value)?;
    Ok(())
}

impl Standing {
    /// Enters a record. After `Memory` all is as before.
    pub fn enter(&mut self, alloc: Global, entry: &Record) -> Result<(), Memory>
        requires { IsTrue (is_named self.old.log.seed (record_view entry.now)) }
        ensures seed { self.new.log.seed ≡ self.old.log.seed }
        ensures ok { OnOk result (standing_of self.new
            ≡ step self.old.log.seed (standing_of self.old) (record_view entry.now)) }
        ensures err { OnErr result (self.new ≡ self.old) }
    {
        match entry {
            Record::Checks(checked) => add_checks(alloc, &mut self.log, checked),
            Record::Release { team, slot } => add_released(&mut self.log, *team, *slot),
            Record::Collect { team, slot } => add_collected(&mut self.log, *team, *slot),
            Record::Status { team, slot, status } => put_status(
                alloc,
                &mut self.statuses,
                SlotStatus {
                    team: *team,
                    slot: *slot,
                    status: *status,
                },
            ),
            Record::Hint(hint) => self.hints.add(hint),
            Record::Store(stored) => keep(alloc, &mut self.store, stored),
        }
    }
}

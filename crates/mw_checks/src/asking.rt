ghost use Rattle.std.specs.Prelude.{◌≡◌, ◌++◌, ◌∷◌, [], IfOk, OnOk};
ghost use Rattle.mw_protocol.specs.Asked.{asked_by, held_for};
ghost use Rattle.mw_protocol.specs.Checks.{unseen};
ghost use Rattle.mw_protocol.specs.Records.{release, collect};
ghost use Rattle.mw_checks.specs.Fresh.{NotesAll};
ghost use Rattle.mw_checks.specs.Log.{AreFresh, checks_of};

use crate::fresh::{Pairs, listed, note};
use crate::log::CheckLog;
use indexmap::IndexSet;
use mw_base::{List, LocId, Memory, SlotId, TeamId};
use mw_multidata::Held;

/// Notes pairs.
fn note_pairs(
    log: &CheckLog,
    team: TeamId,
    pairs: &[(SlotId, LocId)],
    found: &mut Pairs,
) -> Result<(), Memory>
    ensures { OnOk result (NotesAll log.now.seed log.now.checked team
        (checks_of team pairs.now) found.old.keys found.new.keys) }
{
    for pair in pairs {
        note(log, team, *pair, found)?;
    }
    Ok(())
}

/// Notes a location, where it holds an item of the slot.
fn note_receiver(
    log: &CheckLog,
    team: TeamId,
    slot: SlotId,
    held: &Held,
    found: &mut Pairs,
) -> Result<(), Memory>
    ensures { OnOk result (NotesAll log.now.seed log.now.checked team
        (held_for log.now.seed team slot (held.now ∷ [])) found.old.keys found.new.keys) }
{
    let is_owner = log.tables().multidata().is_owner(held.receiver, slot);
    if is_owner {
        note(log, team, (held.slot, held.location), found)?;
    }
    Ok(())
}

/// Notes the locations of a slot.
fn note_released(
    log: &CheckLog,
    team: TeamId,
    slot: SlotId,
    found: &mut Pairs,
) -> Result<(), Memory>
    ensures { OnOk result (NotesAll log.now.seed log.now.checked team
        (asked_by log.now.seed (release team slot)) found.old.keys found.new.keys) }
{
    for held in log.tables().multidata().locations_of(slot) {
        note(log, team, (slot, held.location), found)?;
    }
    Ok(())
}

/// Notes the locations that hold a slot's items.
fn note_collected(
    log: &CheckLog,
    team: TeamId,
    slot: SlotId,
    found: &mut Pairs,
) -> Result<(), Memory>
    ensures { OnOk result (NotesAll log.now.seed log.now.checked team
        (asked_by log.now.seed (collect team slot)) found.old.keys found.new.keys) }
{
    for held in log.tables().multidata().locations.as_slice() {
        note_receiver(log, team, slot, held, found)?;
    }
    Ok(())
}

impl CheckLog {
    /// The checks that a release of a slot makes new, beside the log's and the given fresh ones,
    /// by location.
    pub fn released(
        &self,
        team: TeamId,
        slot: SlotId,
        given: &[(SlotId, LocId)],
    ) -> Result<List<(SlotId, LocId)>, Memory>
        requires { AreFresh self.now.seed self.now.checked team given.now }
        ensures checks { IfOk result (λ ps. checks_of team ps
            ≡ unseen (self.now.checked ++ checks_of team given.now)
            (asked_by self.now.seed (release team slot))) }
        ensures fresh { IfOk result (λ ps. AreFresh self.now.seed
            (self.now.checked ++ checks_of team given.now) team ps) }
    {
        let mut found = IndexSet::new(self.alloc);
        note_pairs(self, team, given, &mut found)?;
        note_released(self, team, slot, &mut found)?;
        listed(self.alloc, &found, given.len())
    }

    /// The checks that a collect of a slot makes new, beside the log's and the given fresh ones,
    /// by finder, then by location.
    pub fn collected(
        &self,
        team: TeamId,
        slot: SlotId,
        given: &[(SlotId, LocId)],
    ) -> Result<List<(SlotId, LocId)>, Memory>
        requires { AreFresh self.now.seed self.now.checked team given.now }
        ensures checks { IfOk result (λ ps. checks_of team ps
            ≡ unseen (self.now.checked ++ checks_of team given.now)
            (asked_by self.now.seed (collect team slot))) }
        ensures fresh { IfOk result (λ ps. AreFresh self.now.seed
            (self.now.checked ++ checks_of team given.now) team ps) }
    {
        let mut found = IndexSet::new(self.alloc);
        note_pairs(self, team, given, &mut found)?;
        note_collected(self, team, slot, &mut found)?;
        listed(self.alloc, &found, given.len())
    }
}

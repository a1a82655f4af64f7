ghost use Rattle.std.specs.Prelude.{◌≡◌, ◌++◌, ◌∷◌, [], IfOk, OnOk, map, option_map};
ghost use Rattle.std.specs.Prelude.{if◌then◌else◌};
ghost use Rattle.mw_model.specs.Seed.{held_at};
ghost use Rattle.mw_protocol.specs.HintList.{hint_at};
ghost use Rattle.mw_protocol.specs.Checks.{checks_at};
ghost use Rattle.mw_protocol.specs.Hints.{differs, marks, receives, scouted_among, scouted_for};
ghost use Rattle.mw_protocol.specs.Records.{hint, hint_status};
ghost use Rattle.mw_records.specs.Records.{hint_view};

use crate::book::HintBook;
use crate::kept::find;
use crate::known::known_locations;
use mw_base::{HintRecord, HintStatus, List, LocId, Memory, SlotId, TeamId};
use mw_multidata::Checks;

/// Whether a slot receives what stands at a finder's location.
fn receives<C: Checks>(slot: SlotId, finder: SlotId, loc: LocId, log: &C) -> bool
    ensures { let seed = C.seed log.now in result ≡ receives seed slot (held_at seed finder loc) }
{
    match log.held(finder, loc) {
        Some(held) => log.tables().multidata().is_owner(held.receiver, slot),
        None => false,
    }
}

impl HintBook {
    /// Whether the hint of a finder's location is there and has another status.
    fn differs(&self, team: TeamId, finder: SlotId, loc: LocId, status: HintStatus) -> bool
        ensures { result ≡ differs (hint_at self.now.hints team finder loc) status }
    {
        match find(&self.hints, &(team, finder, loc)) {
            Some(kept) => kept.status != status,
            None => false,
        }
    }

    /// Adds the hint that a scouted location gets, unless it is checked or has one.
    fn add_scouted<C: Checks>(
        &self,
        found: &mut List<HintRecord>,
        team: TeamId,
        slot: SlotId,
        location: LocId,
        log: &C,
    ) -> Result<(), Memory>
        ensures { OnOk result (map hint_view found.new ≡ map hint_view found.old
            ++ map hint (scouted_among (C.is_found log.now) self.now.hints team slot
            (checks_at team slot (location ∷ [])))) }
    {
        if !log.is_checked(team, slot, location) && self.hint_at(team, slot, location).is_none() {
            found.push(HintRecord::Made {
                team,
                finder: slot,
                loc: location,
                bought: false,
                buyer: slot,
                status: HintStatus::new(0).unwrap(),
            })?;
        }
        Ok(())
    }

    /// The hints that scouted locations of a slot get: one for each that isn't checked and has none.
    fn scouted_of<C: Checks>(
        &self,
        team: TeamId,
        slot: SlotId,
        locations: &[LocId],
        log: &C,
    ) -> Result<List<HintRecord>, Memory>
        ensures { IfOk result (λ rs. map hint_view rs
            ≡ map hint (scouted_among (C.is_found log.now) self.now.hints team slot
            (checks_at team slot locations.now))) }
    {
        let mut found = List::new(self.alloc);
        for location in locations {
            self.add_scouted(&mut found, team, slot, *location, log)?;
        }
        Ok(found)
    }

    /// The hints that a slot of a team makes by scouting these numbers, as a client sends them: one
    /// for each that is a location of the slot, where it stands first, unless the location is
    /// checked or has a hint. The book stays: `add` enters them.
    pub fn scout<C: Checks>(
        &self,
        team: TeamId,
        slot: SlotId,
        numbers: &[i128],
        log: &C,
    ) -> Result<List<HintRecord>, Memory>
        ensures { IfOk result (λ rs. map hint_view rs
            ≡ map hint (scouted_for (C.seed log.now) (C.is_found log.now) self.now.hints team slot
            numbers.now)) }
    {
        let known = known_locations(self.alloc, team, slot, numbers, log)?;
        self.scouted_of(team, slot, known.as_slice(), log)
    }

    /// The record by which a slot of a team gives the hint of a finder's location a status; None
    /// exactly where it may not, since it doesn't receive what stands there, or where nothing
    /// changes, since the location is checked, has no hint, or its hint has this status. It takes
    /// no memory, and the book stays: `add` enters it.
    pub fn set_status<C: Checks>(
        &self,
        team: TeamId,
        slot: SlotId,
        finder: SlotId,
        loc: LocId,
        status: HintStatus,
        log: &C,
    ) -> Option<HintRecord>
        ensures { option_map hint_view result ≡
            (if marks (C.seed log.now) (C.is_found log.now) self.now.hints
            team slot finder loc status then Some (hint_status team finder loc status) else None) }
    {
        if self.marks(team, slot, finder, loc, status, log) {
            Some(HintRecord::Marked {
                team,
                finder,
                loc,
                status,
            })
        } else {
            None
        }
    }

    /// Whether a slot of a team gives the hint of a finder's location this status.
    fn marks<C: Checks>(
        &self,
        team: TeamId,
        slot: SlotId,
        finder: SlotId,
        loc: LocId,
        status: HintStatus,
        log: &C,
    ) -> bool
        ensures { result ≡ marks (C.seed log.now) (C.is_found log.now) self.now.hints
            team slot finder loc status }
    {
        receives(slot, finder, loc, log)
            && !log.is_checked(team, finder, loc)
            && self.differs(team, finder, loc, status)
    }
}

ghost use Rattle.std.specs.Prelude.{◌≡◌};
ghost use Rattle.mw_protocol.specs.Named.{has_location, has_locations, has_player, is_named};
ghost use Rattle.mw_records.specs.Records.{hint_view, record_view};

use crate::standing::Standing;
use mw_base::{HintRecord, LocId, SlotId, TeamId};
use mw_records::Record;

impl Standing {
    /// Whether the seed has a slot and a team.
    fn has_player(&self, team: TeamId, slot: SlotId) -> bool
        ensures { result ≡ has_player self.now.log.seed team slot }
    {
        let seed = self.seed();
        team.get() < seed.teams && seed.slot(slot).is_some()
    }

    /// Whether the seed has a location of a slot of a team.
    fn has_location(&self, team: TeamId, slot: SlotId, location: LocId) -> bool
        ensures { result ≡ has_location self.now.log.seed team slot location }
    {
        self.has_player(team, slot) && self.log.held(slot, location).is_some()
    }

    /// Whether these are locations of a slot.
    fn has_locations(&self, slot: SlotId, locations: &[LocId]) -> bool
        ensures { result ≡ has_locations self.now.log.seed slot locations.now }
    {
        for location in locations {
            if self.log.held(slot, *location).is_none() {
                return false;
            }
        }
        true
    }

    /// Whether a record of a hint names only what the seed has.
    fn names_hint(&self, entry: &HintRecord) -> bool
        ensures { result ≡ is_named self.now.log.seed (hint_view entry.now) }
    {
        match *entry {
            HintRecord::Made {
                team,
                finder,
                loc,
                buyer,
                ..
            } => self.has_location(team, finder, loc) && self.seed().slot(buyer).is_some(),
            HintRecord::Marked {
                team,
                finder,
                loc,
                ..
            } => self.has_location(team, finder, loc),
        }
    }

    /// Whether a record names only teams, slots and locations that the seed has.
    pub fn names_known(&self, entry: &Record) -> bool
        ensures { result ≡ is_named self.now.log.seed (record_view entry.now) }
    {
        match entry {
            Record::Checks(checked) => {
                self.has_player(checked.team, checked.slot)
                    && self.has_locations(checked.slot, checked.locations.as_slice())
            }
            Record::Release { team, slot } => self.has_player(*team, *slot),
            Record::Collect { team, slot } => self.has_player(*team, *slot),
            Record::Status { team, slot, .. } => self.has_player(*team, *slot),
            Record::Hint(hint) => self.names_hint(hint),
            Record::Store(_) => true,
        }
    }
}

use crate::members::is_among;
use crate::seed::{Game, Group, Held, Slot};
use mw_base::{List, RoomOptions, SlotId, SphereList, Text};
use std::marker::Model;

/// A seed, which keeps the rules of its file's format. What keeps them is written and read again.
pub struct Multidata {
    /// 1 to 128 characters.
    pub seed_name: Text,
    /// 1 to 8 teams, which all play the same placement.
    pub teams: u8,
    /// The settings of the room.
    pub server: RoomOptions,
    /// The games, in byte order of their names.
    pub games: List<Game>,
    /// 1 to 1,024 slots; the first one has number 1. No two names are equal over all teams and slots.
    pub slots: List<Slot>,
    /// The k-th of them, from 1, has the number of slots plus k. Slots and groups together are at most 1,024.
    pub groups: List<Group>,
    /// At most 16,777,216 locations, strictly ascending by slot, then by location.
    pub locations: List<Held>,
    /// The spheres, none of them empty; each slot is there.
    pub spheres: SphereList,
}

/// By hand, so that whoever lets it go calls this, and what it frees is listed once.
impl Drop for Multidata {
    fn drop(self) {
        let Multidata {
            seed_name: _,
            teams: _,
            server: _,
            games: _,
            slots: _,
            groups: _,
            locations: _,
            spheres: _,
        } = self;
    }
}

impl Model for Multidata {
    ghost use Rattle.mw_model.specs.Seed as plain;
    ghost use Rattle.mw_multidata.specs.SeedKept.{IsSeed};

    ghost Value = { plain.Seed };

    ghost view = { λ m. record {
      seed_name = m.seed_name;
      teams = m.teams;
      server = m.server;
      games = m.games;
      slots = m.slots;
      groups = m.groups;
      locations = m.locations;
      spheres = m.spheres;
    } };

    ghost invariant = { λ m. IsSeed record {
      seed_name = m.seed_name;
      teams = m.teams;
      server = m.server;
      games = m.games;
      slots = m.slots;
      groups = m.groups;
      locations = m.locations;
      spheres = m.spheres;
    } };
}

impl Multidata {
    ghost use Rattle.std.specs.Prelude.{◌≡◌};
    ghost use Rattle.std.specs.Option.{option_copied};
    ghost use Rattle.mw_model.specs.Seed.{slot_of, group_of, is_owner};
    ghost use Rattle.mw_multidata.specs.OfSlot.{held_of};

    /// The slot of a number; None where the seed has no such slot.
    #[tactic(auto, using(crate::proofs::Numbered::slot_of_before))]
    pub fn slot(&self, number: SlotId) -> Option<&Slot>
        ensures { option_copied result ≡ slot_of self.now number }
    {
        let at = number.get() - 1;
        self.slots.get(usize::from(at))
    }

    /// The group of a number; None where the seed has no such group.
    #[tactic(auto, using(crate::proofs::Numbered::group_of_slot, crate::proofs::Numbered::group_of_after))]
    pub fn group(&self, number: u16) -> Option<&Group>
        ensures { option_copied result ≡ group_of self.now number }
    {
        let number = usize::from(number);
        let slots = self.slots.len();
        if number <= slots {
            None
        } else {
            self.groups.get(number - slots - 1)
        }
    }

    /// Whether a slot gets what is for a receiver: a slot gets its own, a member what is for its group. It searches
    /// a group's members.
    pub fn is_owner(&self, receiver: u16, slot: SlotId) -> bool
        ensures { result ≡ is_owner self.now receiver slot }
    {
        if usize::from(receiver) <= self.slots.len() {
            return receiver == slot.get();
        }
        match self.group(receiver) {
            None => false,
            Some(group) => is_among(group.members.as_slice(), slot),
        }
    }

    /// The locations of a slot, by id. It searches for where they begin and end.
    pub fn locations_of(&self, slot: SlotId) -> &[Held]
        ensures { result.now ≡ held_of slot self.now.locations }
    {
        let locations = self.locations.as_slice();
        let before = locations.partition_point(|held| held.slot.get() < slot.get());
        let rest = &locations[before..];
        let many = rest.partition_point(|held| held.slot.get() <= slot.get());
        &rest[..many]
    }
}

ghost use Rattle.std.specs.Prelude.{◌≡◌, ◌==◌, ◌&&◌, ℕ, ℤ, Bool, None, IfNone, IfSome, count_by};
ghost use Rattle.std.specs.Option.{option_copied};
ghost use Rattle.mw_model.specs.Seed.{Seed, held_at};

use crate::seed::Held;
use crate::tables::RoomTables;
use mw_base::{LocId, SlotId, TeamId};

/// Who knows a seed's locations, and which of them are checked. No call takes memory.
pub trait Checks {
    /// The seed of the tables.
    ghost seed: { Self → Seed };

    /// Whether a location of a slot is checked in a team.
    ghost is_found: { Self → ℕ → ℕ → ℤ → Bool };

    /// How many locations of a slot are checked in a team.
    ghost count: { Self → ℕ → ℕ → ℕ };

    /// The tables.
    fn tables(&self) -> &RoomTables
        ensures { result.now ≡ seed self.now };

    /// What stands at a location of a slot; None exactly where the slot has no such location.
    fn held(&self, slot: SlotId, location: LocId) -> Option<&Held>
        ensures { option_copied result ≡ held_at (seed self.now) slot location };

    /// Whether a location of a slot is checked in a team.
    fn is_checked(&self, team: TeamId, slot: SlotId, location: LocId) -> bool
        ensures { result ≡ is_found self.now team slot location };

    /// How many locations of a slot are checked in a team: as many as of the seed's locations are
    /// the slot's and checked.
    fn checked_len(&self, team: TeamId, slot: SlotId) -> u64
        ensures count { result ≡ count self.now team slot }
        ensures found { result ≡ count_by (λ h. (h.slot == slot)
            && is_found self.now team slot h.location) (seed self.now).locations };

    /// The location of a number, if it is an id's; else no slot has it.
    fn id_of(&self, number: i128) -> Option<LocId>
        ensures some { IfSome result (λ l. l ≡ number) }
        ensures none { IfNone result ((slot : ℕ) → held_at (seed self.now) slot number ≡ None) };

    /// How many locations a slot has.
    fn locations_len(&self, slot: SlotId) -> u64
        ensures { result ≡ count_by (λ h. h.slot == slot) (seed self.now).locations };
}

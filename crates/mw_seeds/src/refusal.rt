ghost use Rattle.std.specs.Prelude.{◌≡◌};

use mw_base::{LocId, Memory, SlotId, Spot};
use mw_spheres::CheckRefusal;
use thiserror::Error;

/// Why a seed file isn't right for joined tables, in the order of judging.
#[derive(Clone, Copy, Debug, PartialEq, Eq, Error)]
pub enum SeedRefusal {
    /// Its groups don't have the members of the tables' links.
    #[error("other links")]
    OtherLinks,
    /// It is of other tables.
    #[error("other tables")]
    OtherTables {
        /// The slot of the first location that shows it.
        slot: SlotId,
        /// That location.
        location: LocId,
    },
    /// Its placement doesn't reach a goal.
    #[error("goal of slot {slot}")]
    GoalMissed {
        /// The first such slot, from 1.
        slot: u16,
    },
    /// Its placement doesn't reach a location of a slot that wants to reach all of its world.
    #[error("location {place} of slot {slot}")]
    LocationMissed {
        /// The first such slot, from 1.
        slot: u16,
        /// The location's index in its world's table.
        place: u32,
    },
    /// A location stands in a sphere where another one is due, or none.
    #[error("wrong in sphere {sphere}")]
    Wrong {
        /// The sphere, counted from 0.
        sphere: u64,
        /// The first such location.
        place: Spot,
    },
    /// A location that is due isn't in its sphere.
    #[error("missing in sphere {sphere}")]
    Missing {
        /// The sphere, counted from 0.
        sphere: u64,
        /// The first such location.
        place: Spot,
    },
    /// Memory ran out.
    #[error("no memory")]
    Memory,
}

impl From<Memory> for SeedRefusal {
    ghost use Rattle.mw_seeds.specs.declared.refusal.SeedRefusal.TheVariants.{Memory as OutOfMemory};

    ghost from_gives = { λ _ e. e ≡ OutOfMemory };

    fn from(_error: Memory) -> Self {
        SeedRefusal::Memory
    }
}

impl From<CheckRefusal> for SeedRefusal {
    ghost use Rattle.mw_seeds.specs.Refusals.{refusal_of};

    ghost from_gives = { λ found e. e ≡ refusal_of found };

    fn from(found: CheckRefusal) -> Self {
        match found {
            CheckRefusal::GoalMissed { slot } => SeedRefusal::GoalMissed { slot },
            CheckRefusal::LocationMissed { slot, place } => {
                SeedRefusal::LocationMissed { slot, place }
            }
            CheckRefusal::Wrong { sphere, place } => SeedRefusal::Wrong { sphere, place },
            CheckRefusal::Missing { sphere, place } => SeedRefusal::Missing { sphere, place },
            CheckRefusal::Memory => SeedRefusal::Memory,
        }
    }
}

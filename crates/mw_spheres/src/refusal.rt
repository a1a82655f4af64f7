ghost use Rattle.std.specs.Prelude.{◌≡◌};
ghost use Rattle.mw_spheres.specs.Check.{refused_for};

use mw_base::{Memory, Spot};
use mw_reach::Lack;
use thiserror::Error;

/// Why claimed spheres aren't those of a placement, in the order of judging.
#[derive(Clone, Copy, Debug, Error)]
pub enum CheckRefusal {
    /// The placement doesn't reach a slot's goal.
    #[error("goal of slot {slot}")]
    GoalMissed {
        /// The first such slot's number, from 1.
        slot: u16,
    },
    /// The placement doesn't reach a location of a slot that wants all of its world.
    #[error("location {place} of slot {slot}")]
    LocationMissed {
        /// The first such slot's number, from 1.
        slot: u16,
        /// The first such location's index in its world's table.
        place: u32,
    },
    /// A claimed location isn't the one that is due there.
    #[error("wrong in sphere {sphere}")]
    Wrong {
        /// The claimed location's sphere, counted from 0.
        sphere: u64,
        /// The first such location, as it is claimed.
        place: Spot,
    },
    /// A location that is due isn't claimed.
    #[error("missing in sphere {sphere}")]
    Missing {
        /// The location's sphere, counted from 0.
        sphere: u64,
        /// The first such location.
        place: Spot,
    },
    /// Memory ran out.
    #[error("no memory")]
    Memory,
}

impl From<Memory> for CheckRefusal {
    ghost use Rattle.mw_spheres.specs.declared.refusal.CheckRefusal.TheVariants.{Memory as OutOfMemory};

    ghost from_gives = { λ _ e. e ≡ OutOfMemory };

    fn from(_error: Memory) -> Self {
        CheckRefusal::Memory
    }
}

impl CheckRefusal {
    /// The refusal for what is lacking.
    pub(crate) fn of(lack: Lack) -> CheckRefusal
        ensures { result ≡ refused_for lack }
    {
        match lack {
            Lack::Goal { slot } => CheckRefusal::GoalMissed { slot },
            Lack::Location { slot, place } => CheckRefusal::LocationMissed { slot, place },
        }
    }
}

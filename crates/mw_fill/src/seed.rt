ghost use Rattle.std.specs.Prelude.{◌≡◌};

use mw_base::Memory;
use mw_multi::Placement;
use thiserror::Error;

/// A placement, and the number of the try that gave it.
#[derive(Drop)]
pub struct Seed {
    /// An item at each location with an id.
    pub placement: Placement,
    /// The try's number, from 0.
    pub stream: u64,
}

/// Why there is no seed.
#[derive(Clone, Copy, Debug, PartialEq, Eq, Error)]
pub enum GenerateError {
    /// A goal doesn't hold with everything in hand.
    #[error("goal of slot {slot} is out of reach")]
    NotBeatable {
        /// The first such slot, from 1.
        slot: u16,
    },
    /// With everything in hand a location isn't reached, and its slot wants all of them to be
    /// reachable.
    #[error("location {place} of slot {slot} is out of reach")]
    NotFull {
        /// The first such slot, from 1.
        slot: u16,
        /// The first such location's index in its world's table, from 0.
        place: u32,
    },
    /// The pools and links have more copies than there are locations with an id.
    #[error("{have} items for {room} locations")]
    TooManyItems {
        /// How many copies the pools and links have.
        have: u64,
        /// How many locations have an id.
        room: u64,
    },
    /// Each try was stuck.
    #[error("each try was stuck")]
    Exhausted,
    /// Memory ran out.
    #[error("no memory")]
    Memory,
}

impl From<Memory> for GenerateError {
    ghost use Rattle.mw_fill.specs.declared.seed.GenerateError.TheVariants.{Memory as OutOfMemory};

    ghost from_gives = { λ _ e. e ≡ OutOfMemory };

    fn from(_error: Memory) -> Self {
        GenerateError::Memory
    }
}

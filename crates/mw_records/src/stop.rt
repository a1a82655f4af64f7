ghost use Rattle.std.specs.Prelude.{◌≡◌};
ghost use Rattle.mw_records.specs.declared.stop.Stop.TheVariants as stops;

use mw_base::Memory;
use std::alloc::{AllocError, AllocFailed};

/// Why reading stops.
#[derive(Clone, Copy)]
pub(crate) enum Stop {
    /// No field of its kind begins there.
    Bad,
    /// Memory ran out.
    Memory,
}

impl From<Memory> for Stop {
    ghost from_gives = { λ _ e. e ≡ stops.Memory };

    fn from(_error: Memory) -> Self {
        Stop::Memory
    }
}

impl From<AllocError> for Stop {
    ghost from_gives = { λ _ e. e ≡ stops.Memory };

    fn from(_error: AllocError) -> Self {
        Stop::Memory
    }
}

impl<T: Drop> From<AllocFailed<T>> for Stop {
    ghost from_gives = { λ _ e. e ≡ stops.Memory };

    fn from(_error: AllocFailed<T>) -> Self {
        Stop::Memory
    }
}

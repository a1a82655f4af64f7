ghost use Rattle.std.specs.Prelude.{◌≡◌};

use mw_base::Memory;
use thiserror::Error;

/// Why a try gives no placement.
#[derive(Clone, Copy, Debug, PartialEq, Eq, Error)]
pub enum FillError {
    /// An item finds no location.
    #[error("no location for item {item} of slot {slot}")]
    Stuck {
        /// The receiver's number, from 1; that of a link comes after those of all slots.
        slot: u16,
        /// The item's index in the receiver's world, from 0.
        item: u32,
    },
    /// Memory ran out.
    #[error("no memory")]
    Memory,
}

impl From<Memory> for FillError {
    ghost use Rattle.mw_fill.specs.declared.error.FillError.TheVariants.{Memory as OutOfMemory};

    ghost from_gives = { λ _ e. e ≡ OutOfMemory };

    fn from(_error: Memory) -> Self {
        FillError::Memory
    }
}

use mw_base::Memory;
use thiserror::Error;

/// Why a change is refused, in the order of judging.
#[derive(Clone, Copy, Debug, PartialEq, Eq, Error)]
pub enum StoreRefusal {
    /// Its key begins with `_read_`.
    #[error("private key")]
    PrivateKey,
    /// No operation has this name, or the value or the operand isn't of a kind that it takes.
    #[error("operation {place}: bad operation")]
    BadOperation {
        /// The operation's place, from 0.
        place: u64,
    },
    /// A number is outside -2^63 to 2^63 - 1.
    #[error("operation {place}: out of range")]
    OutOfRange {
        /// The operation's place, from 0.
        place: u64,
    },
    /// More than 65,536 keys, or more than 4,194,304 bytes of keys and compact values, would stand.
    #[error("store full: {bytes}")]
    StoreFull {
        /// The bytes that would stand.
        bytes: u64,
        /// The keys that would stand.
        keys: u64,
    },
    /// Memory ran out.
    #[error("no memory")]
    Memory,
}

impl From<Memory> for StoreRefusal {
    ghost use Rattle.std.specs.Prelude.{◌≡◌};
    ghost use Rattle.mw_storage.specs.declared.refusal.StoreRefusal.TheVariants.{Memory as OutOfMemory};

    ghost from_gives = { λ _ e. e ≡ OutOfMemory };

    fn from(_error: Memory) -> Self {
        StoreRefusal::Memory
    }
}

use mw_base::Memory;
use thiserror::Error;

/// Why a save file's bodies give no list.
#[derive(Clone, Copy, Debug, PartialEq, Eq, Error)]
pub enum SavedError {
    /// They aren't whole bodies.
    #[error("bad body")]
    BadBody,
    /// Memory ran out.
    #[error("no memory")]
    Memory,
}

impl From<Memory> for SavedError {
    ghost use Rattle.mw_client.specs.declared.error.SavedError.TheVariants.{Memory as OutOfMemory};
    ghost use Rattle.std.specs.Prelude.{◌≡◌};

    ghost from_gives = { λ _ e. e ≡ OutOfMemory };

    fn from(_error: Memory) -> Self {
        SavedError::Memory
    }
}

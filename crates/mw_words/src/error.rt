ghost use Rattle.std.specs.Prelude.{◌≡◌};

use mw_base::Memory;
use std::alloc::{AllocError, AllocFailed};

/// Why words ask for nothing.
#[derive(Clone, Copy)]
pub enum WordsError {
    /// They are no command.
    BadWords,
    /// Memory ran out.
    Memory,
}

impl From<Memory> for WordsError {
    ghost use Rattle.mw_words.specs.declared.error.WordsError.TheVariants.{Memory as OutOfMemory};

    ghost from_gives = { λ _ e. e ≡ OutOfMemory };

    fn from(_error: Memory) -> Self {
        WordsError::Memory
    }
}

impl From<AllocError> for WordsError {
    ghost use Rattle.mw_words.specs.declared.error.WordsError.TheVariants.{Memory as OutOfMemory};

    ghost from_gives = { λ _ e. e ≡ OutOfMemory };

    fn from(_error: AllocError) -> Self {
        WordsError::Memory
    }
}

impl<T: Drop> From<AllocFailed<T>> for WordsError {
    ghost use Rattle.mw_words.specs.declared.error.WordsError.TheVariants.{Memory as OutOfMemory};

    ghost from_gives = { λ _ e. e ≡ OutOfMemory };

    fn from(_error: AllocFailed<T>) -> Self {
        WordsError::Memory
    }
}

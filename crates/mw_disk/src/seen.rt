ghost use Rattle.std.specs.Prelude.{◌≡◌, ℕ, List};
ghost use Rattle.std.specs.Borrow.{ftrue};

use std::marker::{Model, PhantomData};

/// Bytes that no memory holds.
#[derive(Drop)]
struct Traced {
    marker: PhantomData<u8>,
    pub ghost bytes: { List ℕ },
}

impl Model for Traced {
    ghost also_owns = { λ _. ftrue };
}

impl Traced {
    /// The bytes of a slice.
    fn of(_slice: &[u8]) -> Traced
        ensures { result.bytes ≡ _slice.now }
    {
        Traced {
            marker: PhantomData,
        }
    }
}

/// Bytes that contracts see. A program keeps nothing of them.
#[derive(Drop)]
pub struct Seen {
    traced: Traced,
}

impl Model for Seen {
    ghost use Rattle.std.specs.Prelude.{ℕ, List};

    ghost Value = { List ℕ };

    ghost view = { λ s. s.traced.bytes };
}

impl Seen {
    /// The bytes of a slice, which stays with the caller.
    pub fn of(slice: &[u8]) -> Seen
        ensures { result ≡ slice.now }
    {
        Seen {
            traced: Traced::of(slice),
        }
    }
}

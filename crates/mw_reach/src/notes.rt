ghost use Rattle.std.specs.Prelude.{◌≡◌, ◌<◌, ◌∷◌, ◌++◌, [], IfOk, OnOk, length, replicate, slice_set};
ghost use Rattle.mw_multi.specs.Placement.{numbers_at};

use mw_base::{List, Memory};
use std::alloc::Global;
use std::marker::Model;

/// For each key a list of numbers, to which more are noted.
#[derive(Drop)]
pub struct Notes {
    entries: Vec<List<u32>>,
}

impl Model for Notes {
    ghost use Rattle.std.specs.Prelude.{ℕ, List};

    ghost Value = { List (List ℕ) };

    ghost view = { λ n. n.entries.items };
}

impl Notes {
    /// No numbers for so many keys; `Memory` where memory ran out.
    pub fn new(alloc: Global, keys: usize) -> Result<Notes, Memory>
        ensures { IfOk result (λ notes. notes ≡ replicate keys []) }
    {
        let mut entries = Vec::with_capacity(alloc, keys)?;
        for _ in 0..keys {
            entries.push(List::new(alloc))?;
        }
        Ok(Notes { entries })
    }

    /// How many keys there are.
    pub fn len(&self) -> usize
        ensures { result ≡ length self.now }
    {
        self.entries.len()
    }

    /// The numbers of a key.
    pub fn at(&self, key: usize) -> &[u32]
        requires { key < length self.now }
        ensures { result.now ≡ numbers_at self.now key }
    {
        self.entries[key].as_slice()
    }

    /// One more number for a key; `Memory` where memory ran out.
    pub fn note(&mut self, key: usize, number: u32) -> Result<(), Memory>
        requires { key < length self.old }
        ensures noted { OnOk result (self.new
            ≡ slice_set self.old key (numbers_at self.old key ++ number ∷ [])) }
    {
        self.entries[key].push(number)
    }
}

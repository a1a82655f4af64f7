ghost use Rattle.std.specs.Prelude.{◌≡◌, ◌<◌, ◌≤◌, length, slice_range};
ghost use Rattle.mw_multi.specs.Placement.{numbers_at};
ghost use Rattle.mw_reach.specs.Cut as plain;
ghost use Rattle.mw_reach.specs.Cut.{cut_from, AreEnds};

use crate::notes::Notes;
use mw_base::Memory;
use std::alloc::Global;
use std::marker::Model;

/// For each key a list of numbers. The lists stand one after the other, so that little memory is looked at.
#[derive(Drop)]
pub struct Table {
    /// Where each key's list ends.
    ends: Vec<u32>,
    numbers: Vec<u32>,
}

impl Model for Table {
    ghost use Rattle.std.specs.Prelude.{ℕ, List};
    ghost use Rattle.mw_reach.specs.Cut.{cut_from, AreEnds};

    ghost Value = { List (List ℕ) };

    ghost view = { λ t. cut_from 0 t.ends.items t.numbers.items };

    ghost invariant = { λ t. AreEnds 0 t.ends.items t.numbers.items };
}

/// Where the list of a key begins.
#[inline(always)]
fn start_of(ends: &[u32], key: usize) -> u32
    requires { key < length ends.now }
    ensures { result ≡ plain.start_of ends.now key }
{
    if key == 0 { 0 } else { ends[key - 1] }
}

/// The numbers from a start up to an end.
#[inline(always)]
fn between(numbers: &[u32], start: u32, end: u32) -> &[u32]
    requires start { start ≤ end }
    requires end { end ≤ length numbers.now }
    ensures { result.now ≡ slice_range numbers.now start end }
{
    &numbers[start as usize..end as usize]
}

/// The numbers of a key.
#[inline(always)]
fn list_at<'a>(ends: &[u32], numbers: &'a [u32], key: usize) -> &'a [u32]
    requires ends { AreEnds 0 ends.now numbers.now }
    requires key { key < length ends.now }
    ensures { result.now ≡ numbers_at (cut_from 0 ends.now numbers.now) key }
{
    between(numbers, start_of(ends, key), ends[key])
}

impl Table {
    ghost use Rattle.std.specs.Prelude.{◌≡◌, ◌<◌, ◌++◌, ◌∷◌, [], IfOk, length};
    ghost use Rattle.mw_multi.specs.Placement.{numbers_at};

    /// A table of no key.
    pub fn new(alloc: Global) -> Table
        ensures { result ≡ [] }
    {
        Table {
            ends: Vec::new(alloc),
            numbers: Vec::new(alloc),
        }
    }

    /// The table with one key more, which has these numbers; `Memory` where memory ran out, or for 2^32 numbers in all.
    pub fn with(self, list: &[u32]) -> Result<Table, Memory>
        ensures { IfOk result (λ t. t ≡ self ++ list.now ∷ []) }
    {
        let Table {
            mut ends,
            mut numbers,
        } = self;
        numbers.extend_from_slice(list)?;
        let Ok(end) = u32::try_from(numbers.len()) else {
            return Err(Memory);
        };
        ends.push(end)?;
        Ok(Table { ends, numbers })
    }

    /// The table of what was noted; `Memory` as in `with`.
    pub fn of(alloc: Global, notes: &Notes) -> Result<Table, Memory>
        ensures { IfOk result (λ t. t ≡ notes.now) }
    {
        let mut table = Table::new(alloc);
        for key in 0..notes.len() {
            table = table.with(notes.at(key))?;
        }
        Ok(table)
    }

    /// The numbers of a key.
    #[inline(always)]
    pub fn at(&self, key: usize) -> &[u32]
        requires { key < length self.now }
        ensures { result.now ≡ numbers_at self.now key }
    {
        list_at(self.ends.as_slice(), self.numbers.as_slice(), key)
    }
}

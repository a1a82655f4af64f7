ghost use Rattle.std.specs.Prelude.{◌≡◌, ◌<◌, [], IfOk, length, replicate, slice_set, sum_by};
ghost use Rattle.mw_multi.specs.Placement.{numbers_at};
ghost use Rattle.mw_multi.specs.Words as plain;

use mw_base::{List, Memory};
use std::alloc::Global;
use std::marker::Model;
use std::mem;

/// The word of a place where nothing stands.
const NOTHING: u32 = 4294967295;

/// The word of a place whose numbers stand in a list alone.
const LISTED: u32 = 4294967294;

/// For each place a list of numbers. A word beside it tells what it is where nothing stands or one number, as at most places,
/// so that few lists are looked at.
#[derive(Drop)]
pub(crate) struct Entries {
    lists: Vec<List<u32>>,
    words: Vec<u32>,
}

impl Model for Entries {
    ghost use Rattle.std.specs.Prelude.{◌≡◌, ℕ, List, map};
    ghost use Rattle.mw_multi.specs.Words.{word_of};

    ghost Value = { List (List ℕ) };

    ghost view = { λ e. e.lists.items };

    ghost invariant = { λ e. e.words.items ≡ map word_of e.lists.items };
}

/// The word of a list.
fn word_of(numbers: &[u32]) -> u32
    ensures { result ≡ plain.word_of numbers.now }
{
    match numbers {
        [] => NOTHING,
        [number] if *number < LISTED => *number,
        _ => LISTED,
    }
}

/// An empty list for each of so many places.
fn empty_lists(alloc: Global, places: u32) -> Result<Vec<List<u32>>, Memory>
    ensures value { IfOk result (λ lists. lists.items ≡ replicate places []) }
    ensures none { IfOk result (λ lists. sum_by length lists.items ≡ 0) }
{
    let mut lists = Vec::with_capacity(alloc, places as usize)?;
    for _ in 0..places {
        lists.push(List::new(alloc))?;
    }
    Ok(lists)
}

/// Writes the word of a place anew.
fn note(lists: &[List<u32>], words: &mut [u32], place: u32)
    requires place { place < length lists.now }
    requires words { length words.old ≡ length lists.now }
    ensures { words.new
        ≡ slice_set words.old place (plain.word_of (numbers_at lists.now place)) }
{
    let at = place as usize;
    words[at] = word_of(lists[at].as_slice());
}

impl Entries {
    ghost use Rattle.std.specs.Prelude.{◌≡◌, ◌<◌, [], IfOk, length, replicate, slice_set, sum_by};
    ghost use Rattle.mw_multi.specs.Placement.{numbers_at};

    /// So many places where nothing stands; `Memory` where memory ran out.
    pub(crate) fn none(alloc: Global, places: u32) -> Result<Entries, Memory>
        ensures value { IfOk result (λ entries. entries ≡ replicate places []) }
        ensures none { IfOk result (λ entries. sum_by length entries ≡ 0) }
    {
        let lists = empty_lists(alloc, places)?;
        let words = vec![in alloc; NOTHING; places as usize]?;
        Ok(Entries { lists, words })
    }

    /// How many places there are.
    pub(crate) fn len(&self) -> usize
        ensures { result ≡ length self.now }
    {
        self.lists.len()
    }

    /// The numbers at a place.
    #[inline(always)]
    pub(crate) fn at(&self, place: u32) -> &[u32]
        requires { place < length self.now }
        ensures { result.now ≡ numbers_at self.now place }
    {
        let at = place as usize;
        let word = self.words[at];
        if word == NOTHING {
            return &self.words[at..at];
        }
        if word == LISTED {
            return self.lists[at].as_slice();
        }
        &self.words[at..at + 1]
    }

    /// Puts these numbers at a place, and gives what stood there in exchange. It takes no memory.
    pub(crate) fn swap(&mut self, place: u32, numbers: &mut List<u32>)
        requires { place < length self.old }
        ensures table { self.new ≡ slice_set self.old place numbers.old }
        ensures numbers { numbers.new ≡ numbers_at self.old place }
    {
        mem::swap(&mut self.lists[place as usize], numbers);
        note(self.lists.as_slice(), self.words.as_mut_slice(), place);
    }
}

ghost use Rattle.std.specs.Prelude.{◌≡◌, ◌<◌, ◌≤◌, ◌+◌, ◌^◌, ◌++◌, ◌∷◌, [], List, IfOk, OnOk, OnErr, length, option_copied, slice_set, sum_by};
ghost use Rattle.mw_multi.specs.Joint.{place_total};
ghost use Rattle.mw_multi.specs.Placement as plain;
ghost use Rattle.mw_multi.specs.Placement.{slot_at, PutKept, IsPlacement, put_numbers, numbers_at, IsPlaced};

use crate::entries::Entries;
use crate::joint::Joint;
use crate::placement::{Placement, Put};
use crate::receivers::push_numbers;
use crate::slot::Slot;
use mw_base::{List, Memory};
use std::alloc::Global;
use std::marker::Model;

/// A placement as a table with an entry for each place: the numbers over all slots of the progression item that stands
/// there, one for each owner of its receiver. Together they are fewer than 2^31.
pub struct Placed {
    table: Entries,
}

/// By hand, so that whoever lets it go calls this, and what it frees is listed once.
impl Drop for Placed {
    fn drop(self) {
        let Placed { table: _ } = self;
    }
}

impl Model for Placed {
    ghost use Rattle.std.specs.Prelude.{◌<◌, ◌^◌, ℕ, List, length, sum_by};

    ghost Value = { List (List ℕ) };

    ghost view = { λ p. p.table };

    ghost invariant = { λ p. sum_by length p.table < 2 ^ 31 };
}

/// The slot of a number; None exactly where there is no such slot. Numbers count from 1.
pub fn slot_of<'a, 'b>(slots: &'a [Slot<'b>], number: u16) -> Option<&'a Slot<'b>>
    ensures { option_copied result ≡ slot_at slots.now number }
{
    if number == 0 {
        None
    } else {
        slots.get(number as usize - 1)
    }
}

/// Adds numbers to a list.
fn push_all(list: &mut List<u32>, numbers: &[u32]) -> Result<(), Memory>
    ensures { OnOk result (list.new ≡ list.old ++ numbers.now) }
{
    for number in numbers {
        list.push(*number)?;
    }
    Ok(())
}

impl Placed {
    /// A table of the joint's places where nothing stands; `Memory` where memory ran out.
    pub fn none(alloc: Global, joint: &Joint) -> Result<Placed, Memory>
        ensures value { IfOk result (IsPlaced joint.now []) }
        ensures none { IfOk result (λ placed. sum_by length placed ≡ 0) }
    {
        let table = Entries::none(alloc, joint.place_count())?;
        Ok(Placed { table })
    }

    /// Puts one item more into a table of the joint that has room for it. After `Memory` the table is as before.
    pub fn put(&mut self, alloc: Global, joint: &Joint, put: Put) -> Result<(), Memory>
        requires size { length self.old ≡ place_total joint.now.slots }
        requires kept { PutKept joint.now put }
        requires room { sum_by length self.old + length (put_numbers joint.now put) < 2 ^ 31 }
        ensures ok { OnOk result ((puts : List plain.Put) → IsPlaced joint.now puts self.old
            → IsPlaced joint.now (puts ++ put ∷ []) self.new) }
        ensures err { OnErr result (self.new ≡ self.old) }
        ensures more { sum_by length self.new
            ≤ sum_by length self.old + length (put_numbers joint.now put) }
    {
        let mut numbers = List::new(alloc);
        push_all(&mut numbers, self.table.at(put.place))?;
        push_numbers(&mut numbers, joint, put.receiver, put.item)?;
        self.table.swap(put.place, &mut numbers);
        Ok(())
    }

    /// The table of a placement of the joint; `Memory` where memory ran out.
    pub fn of(alloc: Global, joint: &Joint, placement: &Placement) -> Result<Placed, Memory>
        requires { IsPlacement joint.now placement.now }
        ensures { IfOk result (IsPlaced joint.now placement.now) }
    {
        // Reading the joint makes known what its type keeps.
        let _ = &joint.slots;
        let mut placed = Placed::none(alloc, joint)?;
        for put in placement.as_slice() {
            placed.put(alloc, joint, *put)?;
        }
        Ok(placed)
    }

    /// Puts these numbers at a place, and gives what stood there in exchange. It takes no memory.
    pub fn swap(&mut self, place: u32, numbers: &mut List<u32>)
        requires place { place < length self.old }
        requires room { sum_by length self.old + length numbers.old < 2 ^ 31 }
        ensures table { self.new ≡ slice_set self.old place numbers.old }
        ensures numbers { numbers.new ≡ numbers_at self.old place }
        ensures total { sum_by length self.new + length numbers.new ≡ sum_by length self.old
            + length numbers.old }
    {
        self.table.swap(place, numbers);
    }

    /// How many places there are.
    pub fn len(&self) -> usize
        ensures value { result ≡ length self.now }
        ensures few { sum_by length self.now < 2 ^ 31 }
    {
        self.table.len()
    }

    /// The numbers over all slots of what stands at a place.
    pub fn at(&self, place: u32) -> &[u32]
        requires { place < length self.now }
        ensures { result.now ≡ numbers_at self.now place }
    {
        self.table.at(place)
    }
}

ghost use Rattle.std.specs.Prelude.{◌≡◌, ◌==◌, ◌<◌, ◌≤◌, ℕ, Some, None, length, is_some, slice_get};
ghost use Rattle.std.specs.Prelude.{IfOk, OnOk, IfSome, IfNone, count_by};
ghost use Rattle.std.specs.Option.{option_copied};
ghost use Rattle.mw_model.specs.Seed.{held_at, is_owner};
ghost use Rattle.mw_checks.specs.Numbers.{number_of, IsIndex, AllIds};
ghost use Rattle.mw_checks.specs.Rows.{Sized};

use crate::counts::sizes_of;
use indexmap::IndexMap;
use mw_base::{LocId, Memory, SlotId};
use mw_multidata::{Held, RoomTables};
use std::alloc::Global;
use std::marker::Model;

/// Locations by slot and id, each with its number.
type Numbers = IndexMap<(u16, i64), u32>;

/// The tables of a seed, with the numbers of its locations, and how many each slot has.
#[derive(Drop)]
pub(crate) struct Places {
    tables: RoomTables,
    numbers: Numbers,
    sizes: Vec<usize>,
}

impl Model for Places {
    ghost use Rattle.mw_model.specs.Seed as plain;
    ghost use Rattle.mw_checks.specs.Numbers.{IsIndex, AllIds};
    ghost use Rattle.mw_checks.specs.Rows.{Sized};

    ghost Value = { plain.Seed };

    ghost view = { λ p. p.tables };

    ghost invariant = { λ p. IsIndex p.tables.locations p.numbers × AllIds p.tables.locations
        × Sized p.tables.locations p.sizes.items };
}

/// Numbers locations, the first one 0.
fn numbered(alloc: Global, locations: &[Held]) -> Result<Numbers, Memory>
    requires { length locations.now ≤ 16777216 }
    ensures numbers { IfOk result (λ ns. IsIndex locations.now ns) }
    ensures ids { OnOk result (AllIds locations.now) }
{
    let mut numbers = IndexMap::new(alloc);
    let mut at = locations.len();
    while at > 0 {
        at -= 1;
        let held = &locations[at];
        numbers.insert((held.slot.get(), held.location.get()), at as u32)?;
    }
    Ok(numbers)
}

impl Places {
    /// The tables, with their locations numbered.
    pub(crate) fn new(alloc: Global, tables: RoomTables) -> Result<Places, Memory>
        ensures { IfOk result (λ p. p ≡ tables) }
    {
        let numbers = numbered(alloc, tables.multidata().locations.as_slice())?;
        let sizes = sizes_of(alloc, tables.multidata().locations.as_slice())?;
        Ok(Places {
            tables,
            numbers,
            sizes,
        })
    }

    /// The tables.
    pub(crate) fn tables(&self) -> &RoomTables
        ensures { result.now ≡ self.now }
    {
        &self.tables
    }

    /// The locations, by number.
    pub(crate) fn locations(&self) -> &[Held]
        ensures value { result.now ≡ self.now.locations }
        ensures few { length result.now ≤ 16777216 }
    {
        self.tables.multidata().locations.as_slice()
    }

    /// How many locations each slot has.
    pub(crate) fn sizes(&self) -> &[usize]
        ensures { Sized self.now.locations result.now }
    {
        &self.sizes
    }

    /// How many locations a slot has.
    pub(crate) fn size(&self, slot: SlotId) -> u64
        ensures { result ≡ count_by (λ h. h.slot == slot) self.now.locations }
    {
        self.sizes()[usize::from(slot.get())] as u64
    }

    /// What the index has for a location of a slot.
    fn look_up(&self, slot: SlotId, location: LocId) -> Option<u32>
        ensures value { result ≡ number_of self.now slot location }
        ensures slot { slot ≤ 1024 }
    {
        self.numbers.get(&(slot.get(), location.get())).copied()
    }

    /// The number of a location of a slot.
    pub(crate) fn number_of(&self, slot: SlotId, location: LocId) -> Option<u32>
        ensures value { result ≡ number_of self.now slot location }
        ensures within { IfSome result (λ n. n < length self.now.locations) }
        ensures known { is_some result ≡ is_some (held_at self.now slot location) }
        ensures slot { slot ≤ 1024 }
    {
        self.look_up(slot, location)
    }

    /// What stands at a number, if it is a location's.
    pub(crate) fn find(&self, number: u32) -> Option<&Held>
        ensures { option_copied result ≡ slice_get self.now.locations number }
    {
        self.tables.multidata().locations.get(number as usize)
    }

    /// What stands at a number.
    pub(crate) fn at(&self, number: u32) -> &Held
        requires { number < length self.now.locations }
        ensures value { slice_get self.now.locations number ≡ Some result.now }
        ensures receiver { result.now.receiver ≤ 1024 }
    {
        &self.tables.multidata().locations.as_slice()[number as usize]
    }

    /// The location of a number, if it is an id's.
    pub(crate) fn id_of(&self, number: i128) -> Option<LocId>
        ensures some { IfSome result (λ l. l ≡ number) }
        ensures none { IfNone result ((slot : ℕ) → held_at self.now slot number ≡ None) }
    {
        let _ = &self.tables;
        if 1 <= number && number < 0x20_0000_0000_0000 {
            LocId::new(number as i64)
        } else {
            None
        }
    }

    /// Whether a slot gets what is for a receiver.
    pub(crate) fn is_owner(&self, receiver: u16, slot: SlotId) -> bool
        ensures { result ≡ is_owner self.now receiver slot }
    {
        self.tables.multidata().is_owner(receiver, slot)
    }

    /// What stands at a location of a slot.
    pub(crate) fn held(&self, slot: SlotId, location: LocId) -> Option<&Held>
        ensures { option_copied result ≡ held_at self.now slot location }
    {
        match self.number_of(slot, location) {
            Some(number) => self.tables().multidata().locations.get(number as usize),
            None => None,
        }
    }
}

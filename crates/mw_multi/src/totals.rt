ghost use Rattle.std.specs.Prelude.{◌≡◌, ◌≤◌, length};
ghost use Rattle.mw_multi.specs.Joint.{place_total, item_total};

use crate::joint::Joint;
use crate::slot::Slot;

/// How many places the slots have together.
pub(crate) fn places_in(slots: &[Slot]) -> u32
    requires { length slots.now ≤ 1024 }
    ensures { result ≡ place_total slots.now }
{
    let mut total = 0;
    for slot in slots {
        let world = slot.world;
        total += world.place_count();
    }
    total
}

/// How many items the slots have together.
fn items_in(slots: &[Slot]) -> u32
    requires { length slots.now ≤ 1024 }
    ensures value { result ≡ item_total slots.now }
    ensures few { result ≤ 10240000 }
{
    let mut total = 0;
    for slot in slots {
        let world = slot.world;
        total += world.item_count();
    }
    total
}

impl<'a> Joint<'a> {
    /// How many places there are over all slots, at most 200,000.
    pub fn place_count(&self) -> u32
        ensures value { result ≡ place_total self.now.slots }
        ensures few { result ≤ 200000 }
    {
        places_in(self.slots.as_slice())
    }

    /// How many items there are over all slots, at most 10,240,000.
    pub fn item_count(&self) -> u32
        ensures value { result ≡ item_total self.now.slots }
        ensures few { result ≤ 10240000 }
    {
        items_in(self.slots.as_slice())
    }
}

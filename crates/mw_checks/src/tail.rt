ghost use Rattle.std.specs.Prelude.{◌∷◌, [], OnOk, map, slice_get, option_to_list};
ghost use Rattle.mw_model.specs.Seed.{slot_of};
ghost use Rattle.mw_protocol.specs.Checks.{found_item, start_item, start_items};
ghost use Rattle.mw_checks.specs.Rows.{standing};
ghost use Rattle.mw_checks.specs.Views.{Takes};

use crate::handling::Handling;
use crate::items::{item_of, start_of};
use crate::places::Places;
use mw_base::{List, Memory, NetItem};
use mw_multidata::StartItem;

/// The items after the first so many.
#[derive(Drop)]
pub(crate) struct Tail {
    /// How many are still left out.
    pub(crate) skip: u64,
    pub(crate) items: List<NetItem>,
}

impl Tail {
    /// Takes an item, where it is asked for and isn't left out.
    fn offer(&mut self, handling: &Handling, item: NetItem) -> Result<(), Memory>
        ensures { OnOk result (Takes handling.now self.old self.new (item ∷ [])) }
    {
        if !handling.keeps(&item) {
            return Ok(());
        }
        if self.skip > 0 {
            self.skip -= 1;
            return Ok(());
        }
        self.items.push(item)
    }

    /// Takes what stands at a number.
    fn offer_found(
        &mut self,
        handling: &Handling,
        places: &Places,
        number: u32,
    ) -> Result<(), Memory>
        ensures { OnOk result (Takes handling.now self.old self.new
            (map found_item (option_to_list (slice_get places.now.locations number)))) }
    {
        match places.find(number) {
            Some(held) => self.offer(handling, item_of(held)),
            None => Ok(()),
        }
    }

    /// Takes items to start with.
    fn offer_starts(&mut self, handling: &Handling, starts: &[StartItem]) -> Result<(), Memory>
        ensures { OnOk result (Takes handling.now self.old self.new (map start_item starts.now)) }
    {
        for start in starts {
            self.offer(handling, start_of(start))?;
        }
        Ok(())
    }

    /// Takes what the slot starts with.
    pub(crate) fn offer_own_starts(
        &mut self,
        handling: &Handling,
        places: &Places,
    ) -> Result<(), Memory>
        ensures { OnOk result (Takes handling.now self.old self.new
            (start_items (slot_of places.now handling.now.slot))) }
    {
        match places.tables().multidata().slot(handling.slot) {
            Some(slot) => self.offer_starts(handling, slot.start.as_slice()),
            None => Ok(()),
        }
    }

    /// Takes what stands at numbers.
    pub(crate) fn offer_all(
        &mut self,
        handling: &Handling,
        places: &Places,
        numbers: &[u32],
    ) -> Result<(), Memory>
        ensures { OnOk result (Takes handling.now self.old self.new
            (map found_item (standing places.now.locations numbers.now))) }
    {
        for number in numbers {
            self.offer_found(handling, places, *number)?;
        }
        Ok(())
    }
}

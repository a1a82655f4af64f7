ghost use Rattle.std.specs.Prelude.{◌≡◌, ◌++◌, IfOk, OnOk, map, slice_get, option_to_list};
ghost use Rattle.mw_checks.specs.Rows.{location_of, standing};

use crate::places::Places;
use mw_base::{List, LocId, Memory};
use std::alloc::Global;

/// Adds the location of a number.
fn add_location(found: &mut List<LocId>, places: &Places, number: u32) -> Result<(), Memory>
    ensures { OnOk result (found.new ≡
        found.old ++ map location_of (option_to_list (slice_get places.now.locations number))) }
{
    if let Some(held) = places.find(number) {
        found.push(held.location)?;
    }
    Ok(())
}

/// The locations of numbers.
pub(crate) fn locations_at(
    alloc: Global,
    places: &Places,
    numbers: &[u32],
) -> Result<List<LocId>, Memory>
    ensures { IfOk result (λ ls. ls ≡ map location_of (standing places.now.locations numbers.now)) }
{
    let mut found = List::new(alloc);
    for number in numbers {
        add_location(&mut found, places, *number)?;
    }
    Ok(found)
}

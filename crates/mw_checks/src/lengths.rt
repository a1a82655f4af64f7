ghost use Rattle.std.specs.Prelude.{◌≡◌, ◌≤◌, ◌<◌, ◌^◌, map, length, slice_get, option_to_list};
ghost use Rattle.mw_model.specs.Seed.{slot_of};
ghost use Rattle.mw_protocol.specs.Checks.{found_item, start_item, start_items};
ghost use Rattle.mw_checks.specs.Rows.{AllBelow, one_if, standing};
ghost use Rattle.mw_checks.specs.Views.{asked_of};

use crate::handling::Handling;
use crate::items::{item_of, start_of};
use crate::places::Places;
use mw_multidata::StartItem;

/// How many items to start with are asked for.
fn count_starts(handling: &Handling, starts: &[StartItem]) -> usize
    ensures count { result ≡ length (asked_of handling.now (map start_item starts.now)) }
    ensures few { result ≤ length starts.now }
{
    let mut count: usize = 0;
    for start in starts {
        if handling.keeps(&start_of(start)) {
            count += 1;
        }
    }
    count
}

/// How many of the items that the slot starts with are asked for.
pub(crate) fn count_own_starts(handling: &Handling, places: &Places) -> usize
    ensures count { result ≡ length (asked_of handling.now
        (start_items (slot_of places.now handling.now.slot))) }
    ensures few { result < 2 ^ 63 }
{
    match places.tables().multidata().slot(handling.slot) {
        Some(slot) => count_starts(handling, slot.start.as_slice()),
        None => 0,
    }
}

/// Whether what stands at a number is asked for.
fn is_counted(handling: &Handling, places: &Places, number: u32) -> bool
    ensures { one_if result ≡ length (asked_of handling.now
        (map found_item (option_to_list (slice_get places.now.locations number)))) }
{
    match places.find(number) {
        Some(held) => handling.keeps(&item_of(held)),
        None => false,
    }
}

/// How many of the items that stand at numbers are asked for, one after the other.
fn count_each(handling: &Handling, places: &Places, numbers: &[u32]) -> usize
    ensures count { result ≡ length (asked_of handling.now
        (map found_item (standing places.now.locations numbers.now))) }
    ensures few { result ≤ length numbers.now }
{
    let mut count: usize = 0;
    for number in numbers {
        if is_counted(handling, places, *number) {
            count += 1;
        }
    }
    count
}

/// How many of the items that stand at numbers are asked for.
#[tactic(auto, using(crate::proofs::Kept::counted_all))]
pub(crate) fn count_found(handling: &Handling, places: &Places, numbers: &[u32]) -> usize
    requires { AllBelow (length places.now.locations) numbers.now }
    ensures count { result ≡ length (asked_of handling.now
        (map found_item (standing places.now.locations numbers.now))) }
    ensures few { result ≤ length numbers.now }
{
    if handling.keeps_all() {
        return numbers.len();
    }
    count_each(handling, places, numbers)
}

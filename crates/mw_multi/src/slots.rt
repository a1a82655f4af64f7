ghost use Rattle.std.specs.Prelude.{◌≡◌, ◌≤◌, ◌<◌, true, IfOk, All, length, slice_index_or};
ghost use Rattle.mw_multi.specs.PlayersKept.{OptionsKept};
ghost use Rattle.mw_multi.specs.Files.{no_world, world_named, is_among};
ghost use Rattle.mw_multi.specs.Joint.{AreNumbered, SlotKept};
ghost use Rattle.mw_multi.specs.Links.{HasWholePool};
ghost use Rattle.mw_multi.specs.JointOf.{Gives, slot_of, slots_from};

use crate::files::find_file;
use crate::names::Names;
use crate::options::{flags_in, start_in};
use crate::player::Player;
use crate::refusal::{JointRefusal, OptionName};
use crate::slot::Slot;
use mw_base::{List, Text};
use std::alloc::Global;

/// The slot of a player; refused at the first name in its options that isn't known.
#[tactic(auto, unfolding(crate::specs::JointOf::slot_of))]
fn slot_in<'a>(
    alloc: Global,
    number: u16,
    player: &'a Player,
    names: &Names<'a>,
    first_place: u32,
    first_item: u32,
) -> Result<Slot<'a>, JointRefusal>
    requires { OptionsKept player.now.options }
    ensures slot { Gives result (slot_of number player.now names.now first_place first_item) }
    ensures kept { IfOk result SlotKept }
    ensures world { IfOk result (λ s. s.world ≡ names.now) }
    ensures place { IfOk result (λ s. s.first_place ≡ first_place) }
    ensures item { IfOk result (λ s. s.first_item ≡ first_item) }
    ensures whole { IfOk result HasWholePool }
{
    let world = names.world();
    let items = names.items();
    let locations = names.locations();
    let options = &player.options;
    let local_items = flags_in(
        alloc,
        number,
        OptionName::LocalItems,
        items,
        options.local_items.as_slice(),
    )?;
    let non_local_items = flags_in(
        alloc,
        number,
        OptionName::NonLocalItems,
        items,
        options.non_local_items.as_slice(),
    )?;
    let exclude_locations = flags_in(
        alloc,
        number,
        OptionName::ExcludeLocations,
        locations,
        options.exclude_locations.as_slice(),
    )?;
    let priority_locations = flags_in(
        alloc,
        number,
        OptionName::PriorityLocations,
        locations,
        options.priority_locations.as_slice(),
    )?;
    let start = start_in(alloc, number, items, options.start_inventory.as_slice())?;
    Ok(Slot {
        player,
        world,
        first_place,
        first_item,
        local_items,
        non_local_items,
        exclude_locations,
        priority_locations,
        start,
        own_pool: None,
    })
}

/// The names at an index.
fn names_at<'a, 'b>(names: &'b [Names<'a>], index: usize) -> &'b Names<'a>
    requires { index < length names.now }
    ensures { result.now ≡ slice_index_or names.now index no_world }
{
    &names[index]
}

/// The names of a file's world.
fn names_for<'a, 'b>(files: &[Text], names: &'b [Names<'a>], file: &str) -> &'b Names<'a>
    requires there { is_among files.now file.now ≡ true }
    requires many { length names.now ≡ length files.now }
    ensures { result.now ≡ world_named files.now names.now file.now }
{
    match find_file(files, file) {
        Some(index) => names_at(names, index),
        None => names_at(names, 0),
    }
}

/// The slots of the players; refused at the first name in their options that isn't known.
pub(crate) fn slots_in<'a>(
    alloc: Global,
    files: &[Text],
    names: &[Names<'a>],
    players: &'a [Player],
) -> Result<List<Slot<'a>>, JointRefusal>
    requires options { All (λ p. OptionsKept p.options) players.now }
    requires files { All (λ p. is_among files.now p.world ≡ true) players.now }
    requires many { length names.now ≡ length files.now }
    requires few { length players.now ≤ 1024 }
    ensures slots { Gives result (slots_from (world_named files.now names.now) 1 0 0 players.now) }
    ensures kept { IfOk result (All SlotKept) }
    ensures numbered { IfOk result (AreNumbered 0 0) }
    ensures length { IfOk result (λ slots. length slots ≡ length players.now) }
    ensures whole { IfOk result (All HasWholePool) }
{
    let mut slots = List::new(alloc);
    let mut place = 0;
    let mut item = 0;
    for (i, player) in players.iter().enumerate() {
        let names = names_for(files, names, player.world.as_str());
        let slot = slot_in(alloc, i as u16 + 1, player, names, place, item)?;
        slots.push(slot)?;
        let world = names.world();
        place += world.place_count();
        item += world.item_count();
    }
    Ok(slots)
}

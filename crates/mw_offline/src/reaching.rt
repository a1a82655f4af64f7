ghost use Rattle.std.specs.Prelude.{◌≡◌, ◌+◌, ◌++◌, ◌^◌, ◌<◌, ℕ, IfOk, OnOk, map, length, string_bytes};
ghost use Rattle.mw_rules.specs.Holds.{Places};
ghost use Rattle.mw_multi.specs.Joint.{slot_places};
ghost use Rattle.mw_multi.specs.Bags.{IsBagOf};
ghost use Rattle.mw_multi.specs.Placement.{IsPlaced};
ghost use Rattle.mw_multi.specs.Events.{events_of};
ghost use Rattle.mw_reach.specs.Reached.{IsMadeFor, KeepsRules, places_in};
ghost use Rattle.mw_offline.specs.Reaching.{Reaches, ReachLines, reached_in as reached_in_lem, count_line, slot_lines};

use mw_base::{List, Memory};
use mw_multi::{Bag, Joint, Placed, Slot};
use mw_reach::{Reached, reach};
use mw_seeds::first_name;
use std::alloc::Global;
use std::fmt::Write;

/// How many of a slot's locations are reached.
#[tactic(auto, using(crate::proofs::Counted::counted_more))]
fn reached_in(slot: &Slot, reached: &Reached) -> u32
    requires { slot.now.first_place + slot_places slot.now < 2 ^ 32 }
    ensures { result ≡ reached_in_lem slot.now (places_in reached.now) }
{
    let world = slot.world;
    let first = slot.first_place + world.regions.len() as u32;
    let mut count = 0;
    for index in 0..world.locations.len() as u32 {
        if reached.has(first + index) {
            count += 1;
        }
    }
    count
}

/// How many locations of each slot are reached.
fn counts_of(alloc: Global, joint: &Joint, reached: &Reached) -> Result<List<u32>, Memory>
    ensures { IfOk result
        (λ counts. counts ≡ map (λ s. reached_in_lem s (places_in reached.now)) joint.now.slots) }
{
    let mut counts = List::new(alloc);
    for slot in joint.slots.as_slice() {
        counts.push(reached_in(slot, reached))?;
    }
    Ok(counts)
}

/// Adds a slot's line.
fn add_line(
    out: &mut String,
    number: usize,
    slot: &Slot,
    start: u32,
    all: u32,
) -> Result<(), Memory>
    ensures { OnOk result (string_bytes out.new ≡ string_bytes out.old
        ++ count_line number slot.now start all) }
{
    let world = slot.world;
    let name = first_name(slot);
    let many = world.locations.len();
    write!(out, "{number} {name} start {start} of {many}")?;
    write!(out, " all {all} of {many}\n")?;
    Ok(())
}

/// The lines of slots of which so many locations are reached in the beginning, and these in the
/// end.
fn lines_of(
    alloc: Global,
    joint: &Joint,
    start: &List<u32>,
    all: &Reached,
) -> Result<String, Memory>
    requires { length start.now ≡ length joint.now.slots }
    ensures { IfOk result (λ t. (some : Places) → start.now
        ≡ map (λ s. reached_in_lem s some) joint.now.slots
        → string_bytes t ≡ slot_lines 1 joint.now.slots some (places_in all.now)) }
{
    let mut out = String::new(alloc);
    for before in 0..joint.slots.len() {
        let slot = &joint.slots.as_slice()[before];
        let reached = reached_in(slot, all);
        add_line(
            &mut out,
            before + 1,
            slot,
            start.as_slice()[before],
            reached,
        )?;
    }
    Ok(out)
}

/// Makes `into` what these counts reach with the events alone placed.
fn reach_with(joint: &Joint, base: &Bag, placed: &Placed, into: &mut Reached)
    requires placed { IsPlaced joint.now (events_of joint.now) placed.now }
    requires into { IsMadeFor joint.now into.old }
    requires rules { KeepsRules joint.now into.old }
    requires base { (count : ℕ → ℕ) × IsBagOf joint.now.slots count base.now }
    ensures kept { IsMadeFor joint.now into.new }
    ensures rules { KeepsRules joint.now into.new }
    ensures reached { (count : ℕ → ℕ) → IsBagOf joint.now.slots count base.now
        → Reaches joint.now count (places_in into.new) }
{
    let _ = &joint.slots;
    reach(joint, base, placed, into);
}

/// What each slot reaches, a line for each.
pub(crate) fn reach_text(alloc: Global, joint: &Joint) -> Result<String, Memory>
    ensures { IfOk result (λ t. ReachLines joint.now (string_bytes t)) }
{
    let placed = Placed::events(alloc, joint)?;
    let mut reached = Reached::new(alloc, joint)?;
    reach_with(joint, &Bag::starting(alloc, joint)?, &placed, &mut reached);
    let start = counts_of(alloc, joint, &reached)?;
    reach_with(
        joint,
        &Bag::everything(alloc, joint)?,
        &placed,
        &mut reached,
    );
    lines_of(alloc, joint, &start, &reached)
}

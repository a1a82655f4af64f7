ghost use Rattle.std.specs.Prelude.{◌≡◌, ◌<◌, ◌≤◌, ◌+◌, ℕ, ◌∷◌, [], false, true, length, All, map, slice_index, slice_set};
ghost use Rattle.mw_rules.specs.Holds.{Bag, Places, bag_of, places_of, holds as rule_holds};
ghost use Rattle.mw_rules.specs.Rule.{IsWithin};
ghost use Rattle.mw_rules.specs.Ruling.{rule_at};
ghost use Rattle.mw_rules.specs.Names.{is_among};
ghost use Rattle.mw_multi.specs.Joint.{Joint, item_total, place_total, slot_items, slot_places};
ghost use Rattle.mw_multi.specs.Placement.{numbers_at};
ghost use Rattle.mw_multi.specs.Steps.{Step, rule_list};
ghost use Rattle.mw_reach.specs.Reach.{is_open as step_is_open};
ghost use Rattle.mw_reach.specs.Rows.{slot_at, step_of};
ghost use Rattle.mw_reach.specs.Reached.{IsTallyFor, IsFrontierFor};
ghost use Rattle.mw_reach.specs.Worklist.{IsOrigin, Wakes, cost_at, steps_at, numbers_of};
ghost use Rattle.mw_reach.specs.Walking.{IsTerrain, RowStands, HasSpace, HasWoken, CanGoOn, IsWalking, steps_on, paid_on};

use crate::frontier::Frontier;
use crate::leaf::take_leaves;
use crate::row::{Row, RuleOfSlot};
use crate::tally::Tally;
use crate::terrain::Terrain;
use mw_multi::Joint;
use mw_rules::{Ruling, Steps};
use std::sync::ledger::Ledger;

/// Whether a rule of a slot holds for the slot's places that are done and for the counts of its items.
#[inline(always)]
pub(crate) fn holds<R: Ruling, L: Ledger>(
    joint: &Joint,
    rules: &R,
    asked: RuleOfSlot,
    tally: &Tally,
    steps: &mut Steps<L>,
) -> bool
    requires rules { R.stands_for rules.now (rule_list joint.now) }
    requires tally { IsTallyFor joint.now tally.now }
    requires slot { asked.slot < length joint.now.slots }
    requires rule { asked.rule < length (rule_list joint.now) }
    requires places { (slot_at joint.now asked.slot).first_place
        + slot_places (slot_at joint.now asked.slot) ≤ place_total joint.now.slots }
    requires items { (slot_at joint.now asked.slot).first_item
        + slot_items (slot_at joint.now asked.slot) ≤ item_total joint.now.slots }
    requires within { IsWithin (slot_items (slot_at joint.now asked.slot))
        (slot_places (slot_at joint.now asked.slot)) (rule_at (rule_list joint.now) asked.rule) }
    ensures steps { steps.new ≡ steps.old + 1 }
    ensures answer { result ≡ rule_holds (rule_at (rule_list joint.now) asked.rule)
        (λ i. bag_of tally.now.counts.items ((slot_at joint.now asked.slot).first_item + i))
        (λ p. places_of tally.now.done.items ((slot_at joint.now asked.slot).first_place + p)) }
{
    let slot = &joint.slots.as_slice()[asked.slot as usize];
    let world = slot.world;
    let first_place = slot.first_place as usize;
    let first_item = slot.first_item as usize;
    let done = tally.done.as_slice();
    let counts = tally.counts.as_slice();
    let own_places = &done[first_place..first_place + world.place_count() as usize];
    let own_counts = &counts[first_item..first_item + world.item_count() as usize];
    rules.ask(asked.rule, own_counts, own_places, steps)
}

/// Whether the step may be taken from the places that are done.
#[inline(always)]
fn is_open<R: Ruling, L: Ledger>(
    terrain: &Terrain<R>,
    row: &Row,
    tally: &Tally,
    steps: &mut Steps<L>,
) -> bool
    requires rules { R.stands_for terrain.now.rules.now (rule_list terrain.now.joint.now) }
    requires tally { IsTallyFor terrain.now.joint.now tally.now }
    requires row { RowStands terrain.now row.now }
    ensures steps { steps.new ≤ steps.old + 1 }
    ensures answer { result ≡ step_is_open (step_of terrain.now.joint.now row.now)
        (bag_of tally.now.counts.items) (places_of tally.now.done.items) }
{
    match row.start {
        None => true,
        Some(start) => {
            let asked = RuleOfSlot {
                slot: row.slot,
                rule: start.rule,
            };
            tally.has(start.from) && holds(terrain.joint, terrain.rules, asked, tally, steps)
        }
    }
}

/// Asks a step, and lists the place that it leads to where it's open.
#[inline(always)]
fn ask<R: Ruling, L: Ledger>(
    terrain: &Terrain<R>,
    row: &Row,
    tally: &Tally,
    frontier: &mut Frontier,
    steps: &mut Steps<L>,
)
    requires rules { R.stands_for terrain.now.rules.now (rule_list terrain.now.joint.now) }
    requires tally { IsTallyFor terrain.now.joint.now tally.now }
    requires row { RowStands terrain.now row.now }
    requires frontier { IsFrontierFor terrain.now.joint.now frontier.old }
    requires space { HasSpace frontier.old }
    ensures frontier { IsFrontierFor terrain.now.joint.now frontier.new }
    ensures steps { steps.new ≤ steps.old + 1 }
    ensures woken { HasWoken (step_of terrain.now.joint.now row.now ∷ []) tally.now frontier.old
        frontier.new }
{
    if frontier.has(row.to) || !is_open(terrain, row, tally, steps) {
        return;
    }
    frontier.list(row.to);
}

/// Asks the steps with these numbers.
fn wake<R: Ruling, L: Ledger>(
    terrain: &Terrain<R>,
    numbers: &[u32],
    tally: &Tally,
    frontier: &mut Frontier,
    steps: &mut Steps<L>,
)
    requires rules { R.stands_for terrain.now.rules.now (rule_list terrain.now.joint.now) }
    requires rows { All (RowStands terrain.now) terrain.now.rows.now.rows }
    requires numbers { All (λ n. n < length terrain.now.rows.now.rows) numbers.now }
    requires tally { IsTallyFor terrain.now.joint.now tally.now }
    requires frontier { IsFrontierFor terrain.now.joint.now frontier.old }
    requires space { HasSpace frontier.old }
    ensures frontier { IsFrontierFor terrain.now.joint.now frontier.new }
    ensures steps { steps.new ≤ steps.old + length numbers.now }
    ensures woken { HasWoken (steps_at (steps_on terrain.now) numbers.now) tally.now frontier.old
        frontier.new }
{
    let rows = terrain.rows.rows.as_slice();
    for &number in numbers {
        ask(terrain, &rows[number as usize], tally, frontier, steps);
    }
}

/// Asks the steps that name these items, item by item.
#[inline(always)]
pub(crate) fn wake_items<R: Ruling, L: Ledger>(
    terrain: &Terrain<R>,
    items: &[u32],
    tally: &Tally,
    frontier: &mut Frontier,
    steps: &mut Steps<L>,
)
    requires rules { R.stands_for terrain.now.rules.now (rule_list terrain.now.joint.now) }
    requires terrain { IsTerrain terrain.now }
    requires items { All (λ i. i < item_total terrain.now.joint.now.slots) items.now }
    requires tally { IsTallyFor terrain.now.joint.now tally.now }
    requires frontier { IsFrontierFor terrain.now.joint.now frontier.old }
    requires space { HasSpace frontier.old }
    ensures frontier { IsFrontierFor terrain.now.joint.now frontier.new }
    ensures steps { steps.new ≤ steps.old
        + length (numbers_of terrain.now.rows.now.by_item items.now) }
    ensures woken { HasWoken (steps_at (steps_on terrain.now)
        (numbers_of terrain.now.rows.now.by_item items.now)) tally.now frontier.old frontier.new }
{
    for &item in items {
        let numbers = terrain.rows.by_item.at(item as usize);
        wake(terrain, numbers, tally, frontier, steps);
    }
}

/// Lists the place that a step from nowhere leads to.
fn list_origin(row: &Row, frontier: &mut Frontier)
    requires to { row.now.to < length frontier.old.listed.items }
    requires queue { length frontier.old.queue.items ≡ length frontier.old.listed.items }
    requires space { HasSpace frontier.old }
    ensures listed { length frontier.new.listed.items ≡ length frontier.old.listed.items }
    ensures queue { length frontier.new.queue.items ≡ length frontier.old.queue.items }
    ensures space { HasSpace frontier.new }
    ensures woken { (step : Step) (bag : Bag) (done : Places) → step.to ≡ row.now.to
        → step_is_open step bag done ≡ true
        → Wakes (step ∷ []) bag done frontier.old.listed.items frontier.old.queue.items
        frontier.old.len frontier.new.listed.items frontier.new.queue.items frontier.new.len }
{
    if frontier.has(row.to) {
        return;
    }
    frontier.list(row.to);
}

/// Lists the origins. No rule is asked.
pub(crate) fn begin(rows: &[Row], origins: &[u32], frontier: &mut Frontier)
    requires to { All (λ row. row.to < length frontier.old.listed.items) rows.now }
    requires origins { All (IsOrigin rows.now) origins.now }
    requires queue { length frontier.old.queue.items ≡ length frontier.old.listed.items }
    requires none { frontier.old.len ≡ 0 }
    requires space { HasSpace frontier.old }
    ensures listed { length frontier.new.listed.items ≡ length frontier.old.listed.items }
    ensures queue { length frontier.new.queue.items ≡ length frontier.old.queue.items }
    ensures woken { (joint : Joint) (bag : Bag) (done : Places)
        → Wakes (steps_at (map (step_of joint) rows.now) origins.now) bag done
        frontier.old.listed.items frontier.old.queue.items 0 frontier.new.listed.items
        frontier.new.queue.items frontier.new.len }
{
    for &number in origins {
        list_origin(&rows[number as usize], frontier);
    }
}

/// Marks a place as done, with what lies there, and asks the steps that this may open. Its leaves are in the list.
#[inline(always)]
fn visit<R: Ruling, L: Ledger>(
    terrain: &Terrain<R>,
    place: u32,
    tally: &mut Tally,
    frontier: &mut Frontier,
    steps: &mut Steps<L>,
)
    requires rules { R.stands_for terrain.now.rules.now (rule_list terrain.now.joint.now) }
    requires terrain { IsTerrain terrain.now }
    requires tally { IsTallyFor terrain.now.joint.now tally.old }
    requires frontier { IsFrontierFor terrain.now.joint.now frontier.old }
    requires place { place < length tally.old.done.items }
    requires new { places_of tally.old.done.items place ≡ false }
    requires going { CanGoOn terrain.now.placed.now tally.old frontier.old }
    ensures tally { IsTallyFor terrain.now.joint.now tally.new }
    ensures frontier { IsFrontierFor terrain.now.joint.now frontier.new }
    ensures going { CanGoOn terrain.now.placed.now tally.new frontier.new }
    ensures steps { steps.new ≤ steps.old
        + cost_at terrain.now.rows.now terrain.now.placed.now place }
    ensures done { tally.new.done.items ≡ slice_set tally.old.done.items place true }
    ensures working { (base : Bag) (head : ℕ) → head < frontier.old.len
        → slice_index frontier.old.queue.items head ≡ place
        → ((t : ℕ) → is_among (numbers_at terrain.now.split.now.leaves place) t ≡ true
        → places_of frontier.old.listed.items t ≡ true)
        → IsWalking terrain.now base tally.old frontier.old head
        → IsWalking terrain.now base tally.new frontier.new (head + 1) }
{
    tally.add(place, terrain.placed);
    let numbers = terrain.split.asked.at(place as usize);
    wake(terrain, numbers, tally, frontier, steps);
    let items = terrain.placed.at(place);
    wake_items(terrain, items, tally, frontier, steps);
}

/// Takes the next place of the queue, with its leaves.
#[inline(always)]
pub(crate) fn take_next<R: Ruling, L: Ledger>(
    terrain: &Terrain<R>,
    head: usize,
    tally: &mut Tally,
    frontier: &mut Frontier,
    steps: &mut Steps<L>,
)
    requires rules { R.stands_for terrain.now.rules.now (rule_list terrain.now.joint.now) }
    requires terrain { IsTerrain terrain.now }
    requires tally { IsTallyFor terrain.now.joint.now tally.old }
    requires frontier { IsFrontierFor terrain.now.joint.now frontier.old }
    requires waits { head < frontier.old.len }
    requires going { CanGoOn terrain.now.placed.now tally.old frontier.old }
    ensures tally { IsTallyFor terrain.now.joint.now tally.new }
    ensures frontier { IsFrontierFor terrain.now.joint.now frontier.new }
    ensures going { CanGoOn terrain.now.placed.now tally.new frontier.new }
    ensures steps { steps.new + paid_on terrain.now tally.old ≤ steps.old
        + paid_on terrain.now tally.new }
    ensures working { (base : Bag) → IsWalking terrain.now base tally.old frontier.old head
        → IsWalking terrain.now base tally.new frontier.new (head + 1) }
{
    let place = frontier.place_at(head);
    let leaves = terrain.split.leaves.at(place as usize);
    take_leaves(terrain, leaves, tally, frontier, steps);
    if tally.has(place) {
        return;
    }
    visit(terrain, place, tally, frontier, steps);
}

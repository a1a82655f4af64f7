ghost use Rattle.std.specs.Prelude.{◌≡◌, ◌<◌, ◌≤◌, ◌+◌, ℕ, [], ◌∷◌, true, length, All, slice_index};
ghost use Rattle.mw_rules.specs.Holds.{Bag, places_of};
ghost use Rattle.mw_rules.specs.Names.{is_among};
ghost use Rattle.mw_multi.specs.Steps.{rule_list};
ghost use Rattle.mw_reach.specs.Split.{IsLeaf};
ghost use Rattle.mw_reach.specs.Reached.{IsTallyFor, IsFrontierFor};
ghost use Rattle.mw_reach.specs.Walking.{IsTerrain, CanGoOn, IsWalking, HasLeaves, steps_on, paid_on};

use crate::frontier::Frontier;
use crate::tally::Tally;
use crate::terrain::Terrain;
use crate::worklist::wake_items;
use mw_rules::{Ruling, Steps};
use std::sync::ledger::Ledger;

/// Marks a leaf as done where it isn't yet, with what lies there, and asks the steps that name these items.
#[inline(always)]
fn take_leaf<R: Ruling, L: Ledger>(
    terrain: &Terrain<R>,
    leaf: u32,
    tally: &mut Tally,
    frontier: &mut Frontier,
    steps: &mut Steps<L>,
)
    requires rules { R.stands_for terrain.now.rules.now (rule_list terrain.now.joint.now) }
    requires terrain { IsTerrain terrain.now }
    requires tally { IsTallyFor terrain.now.joint.now tally.old }
    requires frontier { IsFrontierFor terrain.now.joint.now frontier.old }
    requires leaf { leaf < length tally.old.done.items }
    requires going { CanGoOn terrain.now.placed.now tally.old frontier.old }
    ensures tally { IsTallyFor terrain.now.joint.now tally.new }
    ensures frontier { IsFrontierFor terrain.now.joint.now frontier.new }
    ensures going { CanGoOn terrain.now.placed.now tally.new frontier.new }
    ensures longer { frontier.old.len ≤ frontier.new.len }
    ensures front { (k : ℕ) → k < frontier.old.len
        → slice_index frontier.new.queue.items k ≡ slice_index frontier.old.queue.items k }
    ensures steps { steps.new + paid_on terrain.now tally.old ≤ steps.old
        + paid_on terrain.now tally.new }
    ensures taken { (base : Bag) (head from : ℕ) → head ≤ frontier.old.len
        → IsLeaf (steps_on terrain.now) terrain.now.rows.now.by_place from leaf
        → places_of frontier.old.listed.items from ≡ true
        → IsWalking terrain.now base tally.old frontier.old head
        → HasLeaves terrain.now base tally.new frontier.old frontier.new head (leaf ∷ []) }
{
    if tally.has(leaf) {
        return;
    }
    frontier.listed[leaf as usize] = true;
    tally.add(leaf, terrain.placed);
    let items = terrain.placed.at(leaf);
    wake_items(terrain, items, tally, frontier, steps);
}

/// Marks the leaves as done, with what lies there, and asks the steps that name these items.
#[inline(always)]
pub(crate) fn take_leaves<R: Ruling, L: Ledger>(
    terrain: &Terrain<R>,
    leaves: &[u32],
    tally: &mut Tally,
    frontier: &mut Frontier,
    steps: &mut Steps<L>,
)
    requires rules { R.stands_for terrain.now.rules.now (rule_list terrain.now.joint.now) }
    requires terrain { IsTerrain terrain.now }
    requires tally { IsTallyFor terrain.now.joint.now tally.old }
    requires frontier { IsFrontierFor terrain.now.joint.now frontier.old }
    requires leaves { All (λ t. t < length tally.old.done.items) leaves.now }
    requires going { CanGoOn terrain.now.placed.now tally.old frontier.old }
    ensures tally { IsTallyFor terrain.now.joint.now tally.new }
    ensures frontier { IsFrontierFor terrain.now.joint.now frontier.new }
    ensures going { CanGoOn terrain.now.placed.now tally.new frontier.new }
    ensures longer { frontier.old.len ≤ frontier.new.len }
    ensures front { (k : ℕ) → k < frontier.old.len
        → slice_index frontier.new.queue.items k ≡ slice_index frontier.old.queue.items k }
    ensures steps { steps.new + paid_on terrain.now tally.old ≤ steps.old
        + paid_on terrain.now tally.new }
    ensures taken { (base : Bag) (head from : ℕ) → head ≤ frontier.old.len
        → ((t : ℕ) → is_among leaves.now t ≡ true
        → IsLeaf (steps_on terrain.now) terrain.now.rows.now.by_place from t)
        → places_of frontier.old.listed.items from ≡ true
        → IsWalking terrain.now base tally.old frontier.old head
        → HasLeaves terrain.now base tally.new frontier.old frontier.new head leaves.now }
{
    for &leaf in leaves {
        take_leaf(terrain, leaf, tally, frontier, steps);
    }
}

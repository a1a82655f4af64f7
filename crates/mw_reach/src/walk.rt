ghost use Rattle.std.specs.Prelude.{◌≡◌, ◌<◌, ◌≤◌, ◌+◌, ◌^◌, length, All};
ghost use Rattle.mw_rules.specs.Holds.{Bag, bag_of, places_of};
ghost use Rattle.mw_multi.specs.Joint.{item_total};
ghost use Rattle.mw_multi.specs.Steps.{rule_list};
ghost use Rattle.mw_reach.specs.Reach as plain;
ghost use Rattle.mw_reach.specs.Bound.{asks_allowed};
ghost use Rattle.mw_reach.specs.GoingOn.{IsFinished, HasMore, CountsFitWith};
ghost use Rattle.mw_reach.specs.Reached.{IsTallyFor, IsFrontierFor};
ghost use Rattle.mw_reach.specs.Worklist.{numbers_of};
ghost use Rattle.mw_reach.specs.Walking.{IsTerrain, CanGoOn, IsWalking, IsWalked, steps_on, paid_on};

use crate::frontier::Frontier;
use crate::tally::Tally;
use crate::terrain::Terrain;
use crate::worklist::{begin, take_next, wake_items};
use mw_rules::{Ruling, Steps};
use std::sync::ledger::Ledger;

/// Takes the places of the queue one after another, until none waits.
fn visit_all<R: Ruling, L: Ledger>(
    terrain: &Terrain<R>,
    tally: &mut Tally,
    frontier: &mut Frontier,
    steps: &mut Steps<L>,
)
    requires rules { R.stands_for terrain.now.rules.now (rule_list terrain.now.joint.now) }
    requires terrain { IsTerrain terrain.now }
    requires tally { IsTallyFor terrain.now.joint.now tally.old }
    requires frontier { IsFrontierFor terrain.now.joint.now frontier.old }
    requires going { CanGoOn terrain.now.placed.now tally.old frontier.old }
    ensures tally { IsTallyFor terrain.now.joint.now tally.new }
    ensures frontier { IsFrontierFor terrain.now.joint.now frontier.new }
    ensures steps { steps.new + paid_on terrain.now tally.old ≤ steps.old
        + paid_on terrain.now tally.new }
    ensures finished { (base : Bag) → IsWalking terrain.now base tally.old frontier.old 0
        → IsWalked terrain.now base tally.new }
{
    let mut head = 0;
    while head < frontier.len {
        take_next(terrain, head, tally, frontier, steps);
        head += 1;
    }
}

/// Makes the tally's list the least one. The frontier is room to work in.
pub(crate) fn reach_rows<R: Ruling, L: Ledger>(
    terrain: &Terrain<R>,
    base: &[u32],
    tally: &mut Tally,
    frontier: &mut Frontier,
    steps: &mut Steps<L>,
)
    requires rules { R.stands_for terrain.now.rules.now (rule_list terrain.now.joint.now) }
    requires terrain { IsTerrain terrain.now }
    requires tally { IsTallyFor terrain.now.joint.now tally.old }
    requires frontier { IsFrontierFor terrain.now.joint.now frontier.old }
    requires base { length base.now ≡ item_total terrain.now.joint.now.slots }
    requires small { All (λ n. n < 2 ^ 31) base.now }
    ensures tally { IsTallyFor terrain.now.joint.now tally.new }
    ensures frontier { IsFrontierFor terrain.now.joint.now frontier.new }
    ensures steps { steps.new ≤ steps.old
        + asks_allowed (steps_on terrain.now) terrain.now.placed.now tally.new.done.items }
    ensures finished { IsWalked terrain.now (bag_of base.now) tally.new }
{
    // Asking for the length makes known what the table keeps.
    let _ = terrain.placed.len();
    tally.start(base);
    frontier.clear();
    let rows = terrain.rows;
    begin(rows.rows.as_slice(), rows.origins.as_slice(), frontier);
    visit_all(terrain, tally, frontier, steps);
}

/// Goes on from a least list with these items more. Only rules that name them, or what they open, are asked.
pub(crate) fn go_on_rows<R: Ruling, L: Ledger>(
    terrain: &Terrain<R>,
    more: &[u32],
    tally: &mut Tally,
    frontier: &mut Frontier,
    steps: &mut Steps<L>,
)
    requires rules { R.stands_for terrain.now.rules.now (rule_list terrain.now.joint.now) }
    requires terrain { IsTerrain terrain.now }
    requires more { All (λ i. i < item_total terrain.now.joint.now.slots) more.now }
    requires tally { IsTallyFor terrain.now.joint.now tally.old }
    requires frontier { IsFrontierFor terrain.now.joint.now frontier.old }
    requires room { CountsFitWith more.now terrain.now.placed.now tally.old.done.items
        tally.old.counts.items }
    ensures tally { IsTallyFor terrain.now.joint.now tally.new }
    ensures frontier { IsFrontierFor terrain.now.joint.now frontier.new }
    ensures steps { steps.new + paid_on terrain.now tally.old ≤ steps.old
        + length (numbers_of terrain.now.rows.now.by_item more.now)
        + paid_on terrain.now tally.new }
    ensures finished { (base later : Bag) (before : plain.Placed)
        → IsFinished (steps_on terrain.now) base before tally.old.done.items
        tally.old.counts.items
        → HasMore base later before terrain.now.placed.now (places_of tally.old.done.items) more.now
        → IsWalked terrain.now later tally.new }
{
    frontier.list_done(tally.done.as_slice());
    tally.count(more);
    wake_items(terrain, more, tally, frontier, steps);
    visit_all(terrain, tally, frontier, steps);
}

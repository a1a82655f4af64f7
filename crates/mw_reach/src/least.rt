ghost use Rattle.std.specs.Prelude.{◌≡◌, ◌<◌, ◌+◌, ◌≤◌, ℕ, All};
ghost use Rattle.mw_rules.specs.Holds as holding;
ghost use Rattle.mw_rules.specs.Holds.{bag_of, places_of};
ghost use Rattle.mw_multi.specs.Joint.{item_total};
ghost use Rattle.mw_multi.specs.Steps.{steps_of, rule_list};
ghost use Rattle.mw_reach.specs.Reach as plain;
ghost use Rattle.mw_reach.specs.Reach.{bag_with, IsLeast};
ghost use Rattle.mw_reach.specs.Bound.{asks_allowed, asks_naming, asks_at, new_in};
ghost use Rattle.mw_reach.specs.GoingOn.{IsFinished, HasMore, CountsFitWith};
ghost use Rattle.mw_reach.specs.Reached.{IsBagFor, IsPlacedFor, IsWorkFor, IsMadeFor, HasLeast, KeepsRules, counts_in, flags_in, places_in};

use crate::reached::Reached;
use crate::terrain::Terrain;
use crate::walk::{go_on_rows, reach_rows};
use crate::work::Work;
use mw_multi::{Bag, Joint, Placed};
use mw_rules::{Ruling, Steps};
use std::marker::Brand;
use std::sync::ledger::{Blank, Ledger};

/// Makes the work's list the least one.
fn make_least<R: Ruling, L: Ledger>(
    joint: &Joint,
    rules: &R,
    base: &Bag,
    placed: &Placed,
    into: &mut Work,
    steps: &mut Steps<L>,
)
    requires rules { R.stands_for rules.now (rule_list joint.now) }
    requires base { IsBagFor joint.now base.now }
    requires placed { IsPlacedFor joint.now placed.now }
    requires into { IsWorkFor joint.now into.old }
    ensures kept { IsWorkFor joint.now into.new }
    ensures finished { IsFinished (steps_of joint.now) (bag_of base.now) placed.now
        into.new.tally.done.items into.new.tally.counts.items }
    ensures steps { steps.new ≤ steps.old
        + asks_allowed (steps_of joint.now) placed.now into.new.tally.done.items }
{
    let terrain = Terrain {
        joint,
        rules,
        rows: &into.rows,
        split: &into.split,
        placed,
    };
    let base = base.as_slice();
    reach_rows(&terrain, base, &mut into.tally, &mut into.frontier, steps);
}

/// Makes `into` the least list of places of the joint that is closed for the base and the placement, and asks these
/// rules. The asks are counted in `steps`. It takes no memory.
pub fn reach_by<R: Ruling, L: Ledger>(
    joint: &Joint,
    rules: &R,
    base: &Bag,
    placed: &Placed,
    into: &mut Reached,
    steps: &mut Steps<L>,
)
    requires rules { R.stands_for rules.now (rule_list joint.now) }
    requires base { IsBagFor joint.now base.now }
    requires placed { IsPlacedFor joint.now placed.now }
    requires into { IsMadeFor joint.now into.old }
    ensures kept { IsMadeFor joint.now into.new }
    ensures rules { KeepsRules joint.now into.old → KeepsRules joint.now into.new }
    ensures least { IsLeast (steps_of joint.now) (bag_of base.now) placed.now (places_in into.new) }
    ensures counts { (i : ℕ) → bag_of (counts_in into.new) i
        ≡ bag_with (bag_of base.now) placed.now (places_in into.new) i }
    ensures steps { steps.new ≤ steps.old
        + asks_allowed (steps_of joint.now) placed.now (flags_in into.new) }
{
    make_least(joint, rules, base, placed, &mut into.work, steps);
}

/// Makes `into` the least list of places of the joint that is closed for the base and the placement. The rules that are
/// asked are counted in `steps`. It takes no memory.
pub fn reach_counted<L: Ledger>(
    joint: &Joint,
    base: &Bag,
    placed: &Placed,
    into: &mut Reached,
    steps: &mut Steps<L>,
)
    requires base { IsBagFor joint.now base.now }
    requires placed { IsPlacedFor joint.now placed.now }
    requires into { IsMadeFor joint.now into.old }
    requires rules { KeepsRules joint.now into.old }
    ensures kept { IsMadeFor joint.now into.new }
    ensures rules { KeepsRules joint.now into.new }
    ensures least { IsLeast (steps_of joint.now) (bag_of base.now) placed.now (places_in into.new) }
    ensures counts { (i : ℕ) → bag_of (counts_in into.new) i
        ≡ bag_with (bag_of base.now) placed.now (places_in into.new) i }
    ensures steps { steps.new ≤ steps.old
        + asks_allowed (steps_of joint.now) placed.now (flags_in into.new) }
{
    match &into.trees {
        Some(trees) => make_least(joint, trees, base, placed, &mut into.work, steps),
        None => unreachable!(),
    }
}

/// `reach_counted` with a counter of its own.
fn count_and_reach<L: Ledger>(
    blank: Blank,
    joint: &Joint,
    base: &Bag,
    placed: &Placed,
    into: &mut Reached,
)
    requires name { blank.name ≡ L.name }
    requires parts { (blank.parts ≡ L.parts) × (blank.parts ≡ 1) }
    requires base { IsBagFor joint.now base.now }
    requires placed { IsPlacedFor joint.now placed.now }
    requires into { IsMadeFor joint.now into.old }
    requires rules { KeepsRules joint.now into.old }
    ensures kept { IsMadeFor joint.now into.new }
    ensures rules { KeepsRules joint.now into.new }
    ensures least { IsLeast (steps_of joint.now) (bag_of base.now) placed.now (places_in into.new) }
    ensures counts { (i : ℕ) → bag_of (counts_in into.new) i
        ≡ bag_with (bag_of base.now) placed.now (places_in into.new) i }
{
    let mut steps = Steps::<L>::new(blank);
    reach_counted(joint, base, placed, into, &mut steps);
}

/// Makes `into` the least list of places of the joint that is closed for the base and the placement. It takes no memory.
pub fn reach(joint: &Joint, base: &Bag, placed: &Placed, into: &mut Reached)
    requires base { IsBagFor joint.now base.now }
    requires placed { IsPlacedFor joint.now placed.now }
    requires into { IsMadeFor joint.now into.old }
    requires rules { KeepsRules joint.now into.old }
    ensures kept { IsMadeFor joint.now into.new }
    ensures rules { KeepsRules joint.now into.new }
    ensures least { IsLeast (steps_of joint.now) (bag_of base.now) placed.now (places_in into.new) }
    ensures counts { (i : ℕ) → bag_of (counts_in into.new) i
        ≡ bag_with (bag_of base.now) placed.now (places_in into.new) i }
{
    count_and_reach::<Brand>(Blank::new(1), joint, base, placed, into);
}

/// Makes the work's list the least one with these items more.
fn make_more<R: Ruling, L: Ledger>(
    joint: &Joint,
    rules: &R,
    more: &[u32],
    placed: &Placed,
    into: &mut Work,
    steps: &mut Steps<L>,
)
    requires rules { R.stands_for rules.now (rule_list joint.now) }
    requires more { All (λ i. i < item_total joint.now.slots) more.now }
    requires placed { IsPlacedFor joint.now placed.now }
    requires into { IsWorkFor joint.now into.old }
    requires room { CountsFitWith more.now placed.now into.old.tally.done.items
        into.old.tally.counts.items }
    ensures kept { IsWorkFor joint.now into.new }
    ensures finished { (base later : holding.Bag) (before : plain.Placed)
        → IsFinished (steps_of joint.now) base before into.old.tally.done.items
        into.old.tally.counts.items
        → HasMore base later before placed.now (places_of into.old.tally.done.items) more.now
        → IsFinished (steps_of joint.now) later placed.now into.new.tally.done.items
        into.new.tally.counts.items }
    ensures steps { steps.new ≤ steps.old + asks_naming (steps_of joint.now) more.now
        + asks_at (steps_of joint.now) placed.now
        (new_in into.old.tally.done.items into.new.tally.done.items) }
{
    let terrain = Terrain {
        joint,
        rules,
        rows: &into.rows,
        split: &into.split,
        placed,
    };
    go_on_rows(&terrain, more, &mut into.tally, &mut into.frontier, steps);
}

/// Goes on from the least list with these items more, each as often as it stands there: in the base, or at places of the
/// list in the table, which is the new one. Of these rules only those are asked that name the items, or that wait for a place
/// that is new in the list or name an item there. The asks are counted in `steps`. It takes no memory.
pub fn go_on_by<R: Ruling, L: Ledger>(
    joint: &Joint,
    rules: &R,
    more: &[u32],
    placed: &Placed,
    into: &mut Reached,
    steps: &mut Steps<L>,
)
    requires rules { R.stands_for rules.now (rule_list joint.now) }
    requires more { All (λ i. i < item_total joint.now.slots) more.now }
    requires placed { IsPlacedFor joint.now placed.now }
    requires into { IsMadeFor joint.now into.old }
    requires room { CountsFitWith more.now placed.now (flags_in into.old) (counts_in into.old) }
    ensures kept { IsMadeFor joint.now into.new }
    ensures rules { KeepsRules joint.now into.old → KeepsRules joint.now into.new }
    ensures least { (base later : holding.Bag) (before : plain.Placed)
        → HasLeast joint.now base before into.old
        → HasMore base later before placed.now (places_in into.old) more.now
        → HasLeast joint.now later placed.now into.new }
    ensures steps { steps.new ≤ steps.old + asks_naming (steps_of joint.now) more.now
        + asks_at (steps_of joint.now) placed.now (new_in (flags_in into.old) (flags_in into.new)) }
{
    make_more(joint, rules, more, placed, &mut into.work, steps);
}

/// `go_on` with a counter of its own.
fn count_and_go_on<L: Ledger>(
    blank: Blank,
    joint: &Joint,
    more: &[u32],
    placed: &Placed,
    into: &mut Reached,
)
    requires name { blank.name ≡ L.name }
    requires parts { (blank.parts ≡ L.parts) × (blank.parts ≡ 1) }
    requires more { All (λ i. i < item_total joint.now.slots) more.now }
    requires placed { IsPlacedFor joint.now placed.now }
    requires into { IsMadeFor joint.now into.old }
    requires rules { KeepsRules joint.now into.old }
    requires room { CountsFitWith more.now placed.now (flags_in into.old) (counts_in into.old) }
    ensures kept { IsMadeFor joint.now into.new }
    ensures rules { KeepsRules joint.now into.new }
    ensures least { (base later : holding.Bag) (before : plain.Placed)
        → HasLeast joint.now base before into.old
        → HasMore base later before placed.now (places_in into.old) more.now
        → HasLeast joint.now later placed.now into.new }
{
    let mut steps = Steps::<L>::new(blank);
    match &into.trees {
        Some(trees) => make_more(joint, trees, more, placed, &mut into.work, &mut steps),
        None => unreachable!(),
    }
}

/// Goes on from the least list with these items more, each as often as it stands there: in the base, or at places of the
/// list in the table, which is the new one. It takes no memory.
pub fn go_on(joint: &Joint, more: &[u32], placed: &Placed, into: &mut Reached)
    requires more { All (λ i. i < item_total joint.now.slots) more.now }
    requires placed { IsPlacedFor joint.now placed.now }
    requires into { IsMadeFor joint.now into.old }
    requires rules { KeepsRules joint.now into.old }
    requires room { CountsFitWith more.now placed.now (flags_in into.old) (counts_in into.old) }
    ensures kept { IsMadeFor joint.now into.new }
    ensures rules { KeepsRules joint.now into.new }
    ensures least { (base later : holding.Bag) (before : plain.Placed)
        → HasLeast joint.now base before into.old
        → HasMore base later before placed.now (places_in into.old) more.now
        → HasLeast joint.now later placed.now into.new }
{
    count_and_go_on::<Brand>(Blank::new(1), joint, more, placed, into);
}

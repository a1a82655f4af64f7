ghost use Rattle.std.specs.Prelude.{◌≡◌};
ghost use Rattle.mw_multi.specs.Steps.{rule_list};
ghost use Rattle.mw_reach.specs.Reached.{IsBagFor, IsPlacedFor, IsMadeFor};

use mw_fill::{GenerateError, generate};
use mw_multi::{Bag, Joint, Placed, TreeRules};
use mw_reach::{Reached, reach_by};
use mw_rules::{Ruling, Steps};
use std::alloc::Global;
use std::marker::Brand;
use std::sync::ledger::{Blank, Ledger};

/// Makes the list so many times.
fn reach_often<R: Ruling, L: Ledger>(
    blank: Blank,
    joint: &Joint,
    rules: &R,
    base: &Bag,
    placed: &Placed,
    into: &mut Reached,
    times: u32,
)
    requires name { blank.name ≡ L.name }
    requires parts { (blank.parts ≡ L.parts) × (blank.parts ≡ 1) }
    requires rules { R.stands_for rules.now (rule_list joint.now) }
    requires base { IsBagFor joint.now base.now }
    requires placed { IsPlacedFor joint.now placed.now }
    requires into { IsMadeFor joint.now into.old }
{
    let mut steps = Steps::<L>::new(blank);
    for _ in 0..times {
        reach_by(joint, rules, base, placed, into, &mut steps);
    }
}

/// Makes the list of the places that are reached with the starting items and a placement, so many times, and tells how many
/// places it has.
pub(crate) fn reach_times<R: Ruling>(
    alloc: Global,
    joint: &Joint,
    rules: &R,
    times: u32,
) -> Result<u64, GenerateError>
    requires rules { R.stands_for rules.now (rule_list joint.now) }
{
    // Reading the joint makes known what its type keeps.
    let _ = &joint.slots;
    let seed = generate(alloc, joint, 0, 100)?;
    let placed = Placed::with_events(alloc, joint, &seed.placement)?;
    let base = Bag::starting(alloc, joint)?;
    let mut reached = Reached::new_by(alloc, joint, rules)?;
    reach_often::<R, Brand>(
        Blank::new(1),
        joint,
        rules,
        &base,
        &placed,
        &mut reached,
        times,
    );
    let mut places = 0u64;
    for place in 0..joint.place_count() {
        if reached.has(place) {
            places = places.saturating_add(1);
        }
    }
    Ok(places)
}

/// `reach_times` by trees.
pub(crate) fn reach_by_trees(
    alloc: Global,
    joint: &Joint,
    times: u32,
) -> Result<u64, GenerateError> {
    let rules = TreeRules::of(alloc, joint)?;
    reach_times(alloc, joint, &rules, times)
}

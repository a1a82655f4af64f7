//! The rules of `Clockwork`, answered by code.
ghost use Rattle.std.specs.Prelude.{◌≡◌, ◌+◌, ◌*◌, ◌<◌, ◌≤◌, IfOk, length};
ghost use Rattle.std.specs.List.{AllZip};
ghost use Rattle.mw_rules.specs.Rule.{IsWithin};
ghost use Rattle.mw_rules.specs.Holds.{bag_of, places_of, holds};
ghost use Rattle.mw_rules.specs.Ruling.{rule_at};
ghost use Rattle.mw_rules.specs.View.{view};
ghost use Rattle.mw_native.specs.Told.{IsNamed};
ghost use Rattle.mw_clock.specs.Clockwork.{IsSize, clock_rules};

use mw_base::{List, Memory};
use mw_rules::{Named, Rule};
use std::alloc::Global;

/// Whether the rule with this number of the world with so many gears holds, given the counts of the
/// items and the flags of the places. It takes no memory.
pub fn clock_rule(gears: u32, number: u32, counts: &[u32], places: &[bool]) -> bool
    requires size { IsSize gears }
    requires number { number < length (clock_rules gears) }
    requires within { IsWithin (length counts.now) (length places.now)
        (rule_at (clock_rules gears) number) }
    ensures { result ≡ holds (rule_at (clock_rules gears) number) (bag_of counts.now)
        (places_of places.now) }
{
    if number < gears {
        return counts[0] > number;
    }
    if number <= 3 * gears {
        return true;
    }
    places[number as usize]
}

/// The rule with this number as a tree.
fn tree_of(gears: u32, number: u32) -> Rule
    requires size { IsSize gears }
    requires number { number < length (clock_rules gears) }
    ensures { view result ≡ rule_at (clock_rules gears) number }
{
    if number < gears {
        return Rule::Has {
            item: 0,
            count: number + 1,
        };
    }
    if number <= 3 * gears {
        return Rule::Always;
    }
    Rule::CanReach { place: number }
}

/// What each rule names, in the order of their numbers.
#[tactic(auto, using(crate::proofs::RuleNumbers::how_many, crate::proofs::Growing::named_more))]
pub fn clock_named(alloc: Global, gears: u32) -> Result<List<Named>, Memory>
    requires { IsSize gears }
    ensures names { IfOk result (AllZip IsNamed (clock_rules gears)) }
    ensures few { IfOk result (λ named. length named ≤ 62) }
{
    let mut named = List::new(alloc);
    for number in 0..3 * gears + 2 {
        named.push(Named::of(alloc, &tree_of(gears, number))?)?;
    }
    Ok(named)
}

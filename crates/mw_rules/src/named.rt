ghost use Rattle.std.specs.Prelude.{◌≡◌, ℕ, IfOk};
ghost use Rattle.std.specs.List.Sorted.{IsStrictlyIncreasing};
ghost use Rattle.mw_rules.specs.Names.{is_among, items_in, places_in, AreNames};
ghost use Rattle.mw_rules.specs.View.{view};

use crate::gather::{gather_items, gather_places};
use crate::rule::Rule;
use mw_base::{List, Memory};
use std::alloc::Global;

/// The items and the places that a rule names, each once, ascending.
#[derive(Drop)]
pub struct Named {
    /// Items' numbers in their slot, from 0.
    pub items: List<u32>,
    /// Places' numbers in their slot, from 0.
    pub places: List<u32>,
}

impl Named {
    /// What the rule names; `Memory` where memory ran out.
    pub fn of(alloc: Global, rule: &Rule) -> Result<Named, Memory>
        ensures { IfOk result (λ named. AreNames (view rule.now) named.items named.places) }
    {
        let items = items_of(alloc, rule)?;
        let places = places_of(alloc, rule)?;
        Ok(Named { items, places })
    }
}

/// The items that the rule names, each once, ascending.
fn items_of(alloc: Global, rule: &Rule) -> Result<List<u32>, Memory>
    ensures ascend { IfOk result (λ items. IsStrictlyIncreasing items) }
    ensures named { IfOk result (λ items. (i : ℕ)
        → is_among items i ≡ is_among (items_in (view rule.now)) i) }
{
    let mut items = Vec::new(alloc);
    gather_items(rule, &mut items)?;
    Ok(each_once(items))
}

/// The places that the rule names, each once, ascending.
fn places_of(alloc: Global, rule: &Rule) -> Result<List<u32>, Memory>
    ensures ascend { IfOk result (λ places. IsStrictlyIncreasing places) }
    ensures named { IfOk result (λ places. (p : ℕ)
        → is_among places p ≡ is_among (places_in (view rule.now)) p) }
{
    let mut places = Vec::new(alloc);
    gather_places(rule, &mut places)?;
    Ok(each_once(places))
}

/// The numbers, each once, ascending.
fn each_once(numbers: Vec<u32>) -> List<u32>
    ensures ascend { IsStrictlyIncreasing result }
    ensures same { (n : ℕ) → is_among result n ≡ is_among numbers.items n }
{
    let mut numbers = numbers;
    numbers.sort_unstable();
    numbers.dedup();
    List::from_vec(numbers)
}

ghost use Rattle.std.specs.Prelude.{◌≡◌, ◌<◌, ◌≤◌, ◌++◌, ◌||◌, ℕ, All, List, Bool, OnOk, length, false, slice_set, sum_by};
ghost use Rattle.mw_rules.specs.Names.{is_among};
ghost use Rattle.mw_rules.specs.Holds.{places_of};
ghost use Rattle.mw_multi.specs.Bags.{start_count};
ghost use Rattle.mw_reach.specs.Reached.{IsPlacedFor, IsMadeFor, HasLeast, KeepsRules};
ghost use Rattle.mw_spheres.specs.Playthrough.{only, IsAsked, IsThinned};
ghost use Rattle.mw_spheres.specs.Thinning.{AreShown, AreSameBut};

use crate::shown::{hide, reveal};
use mw_base::Memory;
use mw_multi::{Bag, Joint, Placed};
use mw_reach::{Reached, reach, unmet_goal};
use std::alloc::Global;

/// Marks each of the places.
pub(crate) fn mark(places: &[u32], kept: &mut [bool])
    requires { All (λ p. p < length kept.old) places.now }
    ensures { (p : ℕ) → places_of kept.new p ≡ (places_of kept.old p || is_among places.now p) }
{
    for &place in places {
        kept[place as usize] = true;
    }
}

/// Drops a place, unless a goal is unmet by what was reached without it.
fn ask(
    joint: &Joint,
    full: &Placed,
    place: u32,
    kept: &mut [bool],
    shown: &[bool],
    table: &Placed,
    reached: &Reached,
)
    requires made { IsMadeFor joint.now reached.now }
    requires rules { KeepsRules joint.now reached.now }
    requires place { place < length kept.old }
    requires shown { (p : ℕ) → places_of shown.now p
        ≡ places_of (slice_set kept.old place false) p }
    requires table { table.now ≡ only shown.now full.now }
    requires least { HasLeast joint.now (start_count joint.now.slots) table.now reached.now }
    ensures asked { IsAsked joint.now full.now place kept.old kept.new }
{
    match unmet_goal(joint, reached) {
        None => kept[place as usize] = false,
        Some(_) => {}
    }
}

/// Asks the places from the last to the first. `table` has what stands at the kept places but these, and `reached` the list
/// for it.
///
/// The second half is asked with the first half shown as well, and the first half with what is kept of the second. So each
/// list goes on from a smaller one, and a rule is asked but a few times for each halving.
fn thin(
    alloc: Global,
    joint: &Joint,
    full: &Placed,
    places: &[u32],
    kept: &mut [bool],
    shown: &mut [bool],
    table: &mut Placed,
    reached: &mut Reached,
) -> Result<(), Memory>
    requires full { IsPlacedFor joint.now full.now }
    requires few { sum_by length full.now ≤ 409600000 }
    requires made { IsMadeFor joint.now reached.old }
    requires rules { KeepsRules joint.now reached.old }
    requires places { All (λ p. p < length full.now) places.now }
    requires sizes { (length kept.old ≡ length full.now) × (length shown.old ≡ length full.now) }
    requires shown { AreShown kept.old shown.old places.now }
    requires table { table.old ≡ only shown.old full.now }
    requires least { HasLeast joint.now (start_count joint.now.slots) table.old reached.old }
    ensures made { IsMadeFor joint.now reached.new }
    ensures rules { KeepsRules joint.now reached.new }
    ensures others { OnOk result (AreSameBut places.now kept.old kept.new
        × AreSameBut places.now shown.old shown.new) }
    ensures table { OnOk result (table.new ≡ only shown.new full.now) }
    ensures thinned { OnOk result ((first : List Bool) (rest : List ℕ)
        → IsThinned joint.now full.now rest first kept.old
        → IsThinned joint.now full.now (places.now ++ rest) first kept.new) }
{
    if places.is_empty() {
        return Ok(());
    }
    if places.len() == 1 {
        ask(joint, full, places[0], kept, shown, table, reached);
        return Ok(());
    }
    let (below, above) = places.split_at(places.len() / 2);
    let mark = reached.mark(alloc)?;
    reveal(
        alloc, joint, full, below, above, kept, shown, table, reached,
    )?;
    thin(alloc, joint, full, above, kept, shown, table, reached)?;
    reached.go_back(mark);
    hide(alloc, full, places, shown, table);
    reveal(
        alloc, joint, full, above, below, kept, shown, table, reached,
    )?;
    thin(alloc, joint, full, below, kept, shown, table, reached)
}

/// Asks the places from the last to the first. The places are those that are kept.
pub(crate) fn thin_all(
    alloc: Global,
    joint: &Joint,
    full: &Placed,
    places: &[u32],
    kept: &mut [bool],
) -> Result<(), Memory>
    requires full { IsPlacedFor joint.now full.now }
    requires few { sum_by length full.now ≤ 409600000 }
    requires places { All (λ p. p < length full.now) places.now }
    requires size { length kept.old ≡ length full.now }
    requires kept { (p : ℕ) → places_of kept.old p ≡ is_among places.now p }
    ensures { OnOk result (IsThinned joint.now full.now places.now kept.old kept.new) }
{
    // Reading the joint makes known what its type keeps.
    let _ = &joint.slots;
    let start = Bag::starting(alloc, joint)?;
    let mut table = Placed::none(alloc, joint)?;
    let mut shown = vec![in alloc; false; joint.place_count() as usize]?;
    let shown = shown.as_mut_slice();
    let mut reached = Reached::new(alloc, joint)?;
    reach(joint, &start, &table, &mut reached);
    thin(
        alloc,
        joint,
        full,
        places,
        kept,
        shown,
        &mut table,
        &mut reached,
    )
}

ghost use Rattle.std.specs.Prelude.{◌≡◌, ◌<◌, ◌≤◌, ◌&&◌, ◌||◌, ◌∷◌, ◌++◌, [], ℕ, All, OnOk, IfOk, length, not, sum_by, if◌then◌else◌};
ghost use Rattle.mw_rules.specs.Names.{is_among};
ghost use Rattle.mw_rules.specs.Holds as holding;
ghost use Rattle.mw_rules.specs.Holds.{places_of};
ghost use Rattle.mw_multi.specs.Bags.{start_count};
ghost use Rattle.mw_multi.specs.Placement.{numbers_at};
ghost use Rattle.mw_reach.specs.Reach as plain;
ghost use Rattle.mw_reach.specs.GoingOn.{HasMore};
ghost use Rattle.mw_reach.specs.Reached.{IsPlacedFor, IsMadeFor, HasLeast, KeepsRules, places_in};
ghost use Rattle.mw_spheres.specs.Playthrough.{only};
ghost use Rattle.mw_spheres.specs.Thinning.{HasFewer, IsPutIn, AreShown};

use crate::sphere::push_items;
use mw_base::{List, Memory};
use mw_multi::{Joint, Placed};
use mw_reach::{Reached, go_on};
use std::alloc::Global;

/// Shows those of the places that are kept, and no other ones of them.
fn show(places: &[u32], kept: &[bool], shown: &mut [bool])
    requires within { All (λ p. p < length shown.old) places.now }
    requires size { length kept.now ≡ length shown.old }
    ensures { (p : ℕ) → places_of shown.new p
        ≡ (if is_among places.now p then places_of kept.now p else places_of shown.old p) }
{
    for &place in places {
        shown[place as usize] = kept[place as usize];
    }
}

/// Shows none of the places.
fn show_none(places: &[u32], shown: &mut [bool])
    requires within { All (λ p. p < length shown.old) places.now }
    ensures { (p : ℕ) → places_of shown.new p
        ≡ (places_of shown.old p && not (is_among places.now p)) }
{
    for &place in places {
        shown[place as usize] = false;
    }
}

/// Adds the numbers where the place is reached.
fn push_reached(
    place: u32,
    numbers: &[u32],
    reached: &Reached,
    more: &mut List<u32>,
) -> Result<(), Memory>
    ensures { OnOk result (more.new ≡ more.old
        ++ (if places_in reached.now place then numbers.now else [])) }
{
    if !reached.has(place) {
        return Ok(());
    }
    push_items(numbers, more)
}

/// Puts what stands at a place into the table, where it is shown and nothing stands there yet. The numbers are added to
/// `more` where the place is reached. After `Memory` neither is of use.
fn put_one(
    alloc: Global,
    full: &Placed,
    place: u32,
    shown: &[bool],
    table: &mut Placed,
    reached: &Reached,
    more: &mut List<u32>,
) -> Result<(), Memory>
    requires place { place < length table.old }
    requires sizes { (length full.now ≡ length table.old) × (length shown.now ≡ length table.old) }
    requires few { sum_by length full.now ≤ 409600000 }
    requires fewer { HasFewer table.old full.now }
    ensures size { length table.new ≡ length table.old }
    ensures fewer { HasFewer table.new full.now }
    ensures entries { OnOk result (IsPutIn full.now (place ∷ []) shown.now table.old table.new) }
    ensures more { OnOk result ((base : holding.Bag) (before : plain.Placed)
        → HasMore base base before table.old (places_in reached.now) more.old
        → HasMore base base before table.new (places_in reached.now) more.new) }
    ensures within { OnOk result ((items : ℕ) → All (All (λ i. i < items)) full.now
        → All (λ i. i < items) more.old → All (λ i. i < items) more.new) }
{
    if !shown[place as usize] {
        return Ok(());
    }
    if table.at(place).len() > 0 {
        return Ok(());
    }
    let entry = full.at(place);
    let mut numbers = List::new(alloc);
    push_items(entry, &mut numbers)?;
    push_reached(place, entry, reached, more)?;
    table.swap(place, &mut numbers);
    Ok(())
}

/// Puts what stands at those of the places that are shown into the table, and gives the numbers of what stands at reached ones.
fn put_shown(
    alloc: Global,
    full: &Placed,
    places: &[u32],
    shown: &[bool],
    table: &mut Placed,
    reached: &Reached,
) -> Result<List<u32>, Memory>
    requires places { All (λ p. p < length table.old) places.now }
    requires sizes { (length full.now ≡ length table.old) × (length shown.now ≡ length table.old) }
    requires few { sum_by length full.now ≤ 409600000 }
    requires fewer { HasFewer table.old full.now }
    ensures size { length table.new ≡ length table.old }
    ensures fewer { HasFewer table.new full.now }
    ensures entries { OnOk result (IsPutIn full.now places.now shown.now table.old table.new) }
    ensures more { IfOk result (λ more. (base : holding.Bag)
        → HasMore base base table.old table.new (places_in reached.now) more) }
    ensures within { IfOk result (λ more. (items : ℕ) → All (All (λ i. i < items)) full.now
        → All (λ i. i < items) more) }
{
    let mut more = List::new(alloc);
    for &place in places {
        put_one(alloc, full, place, shown, table, reached, &mut more)?;
    }
    Ok(more)
}

/// Shows what is kept at the places `add` and nothing at the places `out`, where nothing was shown at both, and goes on with
/// what stands there.
pub(crate) fn reveal(
    alloc: Global,
    joint: &Joint,
    full: &Placed,
    add: &[u32],
    out: &[u32],
    kept: &[bool],
    shown: &mut [bool],
    table: &mut Placed,
    reached: &mut Reached,
) -> Result<(), Memory>
    requires full { IsPlacedFor joint.now full.now }
    requires few { sum_by length full.now ≤ 409600000 }
    requires made { IsMadeFor joint.now reached.old }
    requires rules { KeepsRules joint.now reached.old }
    requires add { All (λ p. p < length full.now) add.now }
    requires out { All (λ p. p < length full.now) out.now }
    requires sizes { (length kept.now ≡ length full.now) × (length shown.old ≡ length full.now) }
    requires shown { (p : ℕ) → places_of shown.old p
        ≡ (places_of kept.now p && not (is_among add.now p || is_among out.now p)) }
    requires table { table.old ≡ only shown.old full.now }
    requires least { HasLeast joint.now (start_count joint.now.slots) table.old reached.old }
    ensures made { IsMadeFor joint.now reached.new }
    ensures rules { KeepsRules joint.now reached.new }
    ensures shown { AreShown kept.now shown.new out.now }
    ensures table { OnOk result (table.new ≡ only shown.new full.now) }
    ensures least { OnOk result (HasLeast joint.now (start_count joint.now.slots) table.new
        reached.new) }
{
    // Reading the joint makes known what its type keeps.
    let _ = &joint.slots;
    show(add, kept, shown);
    show_none(out, shown);
    let more = put_shown(alloc, full, add, shown, table, reached)?;
    go_on(joint, more.as_slice(), table, reached);
    Ok(())
}

/// Takes from the table what stands at the places.
fn take_out(alloc: Global, places: &[u32], table: &mut Placed)
    requires places { All (λ p. p < length table.old) places.now }
    ensures size { length table.new ≡ length table.old }
    ensures entries { (p : ℕ) → numbers_at table.new p
        ≡ (if is_among places.now p then [] else numbers_at table.old p) }
{
    // Asking for the length makes known what the table keeps.
    let _ = table.len();
    for &place in places {
        table.swap(place, &mut List::new(alloc));
    }
}

/// Shows nothing at the places.
pub(crate) fn hide(
    alloc: Global,
    full: &Placed,
    places: &[u32],
    shown: &mut [bool],
    table: &mut Placed,
)
    requires places { All (λ p. p < length full.now) places.now }
    requires size { length shown.old ≡ length full.now }
    requires table { table.old ≡ only shown.old full.now }
    ensures shown { (p : ℕ) → places_of shown.new p
        ≡ (places_of shown.old p && not (is_among places.now p)) }
    ensures table { table.new ≡ only shown.new full.now }
{
    show_none(places, shown);
    take_out(alloc, places, table);
}

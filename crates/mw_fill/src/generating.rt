ghost use Rattle.std.specs.Prelude.{◌≡◌, ◌<◌, ◌≤◌, ◌^◌, ℕ, List, IfOk, OnOk, sum_by};
ghost use Rattle.mw_multi.specs.Placement.{IsPlacement, IsPlaced};
ghost use Rattle.mw_multi.specs.Steps.{rule_list};
ghost use Rattle.mw_multi.specs.Events.{with_events};
ghost use Rattle.mw_reach.specs.Required.{IsBeatable};
ghost use Rattle.mw_reach.specs.Reached.{IsMadeFor};
ghost use Rattle.mw_multi.specs.WorldKept.{copies};
ghost use Rattle.mw_fill.specs.ListsKept.{AreKept, AreShort};
ghost use Rattle.mw_fill.specs.Try as plain;
ghost use Rattle.mw_fill.specs.Generated.{IsLacking, slot_pool_size, link_size, CanBeTried, GeneratedSeed};

use crate::error::FillError;
use crate::lists::{Lists, stock_of};
use crate::one_try::try_from_stock;
use crate::seed::{GenerateError, Seed};
use mw_base::Memory;
use mw_multi::{Bag, Joint, Placed, PoolEntry, TreeRules};
use mw_reach::{Lack, Reached, first_lack_by, reach_by};
use mw_rules::{Ruling, Steps};
use std::alloc::Global;
use std::marker::Brand;
use std::sync::ledger::{Blank, Ledger};

/// The first thing that is lacking with everything in hand; `Memory` where memory ran out.
fn first_lacking<R: Ruling, L: Ledger>(
    alloc: Global,
    joint: &Joint,
    rules: &R,
    reached: &mut Reached,
    steps: &mut Steps<L>,
) -> Result<Option<Lack>, Memory>
    requires rules { R.stands_for rules.now (rule_list joint.now) }
    requires reached { IsMadeFor joint.now reached.old }
    ensures kept { IsMadeFor joint.now reached.new }
    ensures lack { IfOk result (IsLacking joint.now) }
{
    // Reading the joint makes known what its type keeps.
    let _ = &joint.slots;
    let everything = Bag::everything(alloc, joint)?;
    let placed = Placed::events(alloc, joint)?;
    reach_by(joint, rules, &everything, &placed, reached, steps);
    Ok(first_lack_by(joint, rules, reached, steps))
}

/// How many copies these entries have.
fn copies_in(entries: &[PoolEntry]) -> u64
    requires { sum_by copies entries.now < 2 ^ 64 }
    ensures { result ≡ sum_by copies entries.now }
{
    let mut total = 0;
    for entry in entries {
        total += u64::from(entry.count);
    }
    total
}

/// How many copies the pools have.
fn pool_copies(joint: &Joint) -> u64
    ensures value { result ≡ sum_by slot_pool_size joint.now.slots }
    ensures few { result ≤ 10240000 }
{
    // Reading the joint makes known what its type keeps.
    let _ = &joint.slots;
    let mut total = 0;
    for slot in joint.slots.as_slice() {
        total += copies_in(slot.pool());
    }
    total
}

/// How many copies the links have.
fn link_copies(joint: &Joint) -> u64
    ensures value { result ≡ sum_by link_size joint.now.links }
    ensures few { result ≤ 10240000 }
{
    // Reading the joint makes known what its type keeps.
    let _ = &joint.links;
    let mut total = 0;
    for link in joint.links.as_slice() {
        total += copies_in(link.copies.as_slice());
    }
    total
}

/// The placement of the first of so many tries that gives one, each from the joint's stock.
fn first_filled<R: Ruling, L: Ledger>(
    alloc: Global,
    joint: &Joint,
    rules: &R,
    stock: &Lists,
    reached: &mut Reached,
    seed: u64,
    tries: u32,
    steps: &mut Steps<L>,
) -> Result<Seed, GenerateError>
    requires rules { R.stands_for rules.now (rule_list joint.now) }
    requires stock { stock.now ≡ plain.stock_of joint.now }
    requires kept { AreKept joint.now stock.now }
    requires short { AreShort stock.now }
    requires reached { IsMadeFor joint.now reached.old }
    requires tried { CanBeTried joint.now }
    ensures seed { GeneratedSeed joint.now seed tries result }
    ensures placement { IfOk result (λ found. IsPlacement joint.now found.placement) }
    ensures beatable { IfOk result (λ found. (table : List (List ℕ))
        → IsPlaced joint.now (with_events joint.now found.placement) table
        → IsBeatable joint.now table) }
{
    // Reading the joint makes known what its type keeps.
    let _ = &joint.slots;
    for stream in 0..u64::from(tries) {
        match try_from_stock(alloc, joint, rules, stock, reached, seed, stream, steps) {
            Ok(placement) => return Ok(Seed { placement, stream }),
            Err(FillError::Memory) => return Err(GenerateError::Memory),
            Err(FillError::Stuck { .. }) => {}
        }
    }
    Err(GenerateError::Exhausted)
}

/// `generate_by`, with the asks counted in `steps`.
fn generate_counted<R: Ruling, L: Ledger>(
    alloc: Global,
    joint: &Joint,
    rules: &R,
    seed: u64,
    tries: u32,
    steps: &mut Steps<L>,
) -> Result<Seed, GenerateError>
    requires rules { R.stands_for rules.now (rule_list joint.now) }
    requires tries { (1 ≤ tries) × (tries ≤ 1000) }
    ensures seed { GeneratedSeed joint.now seed tries result }
    ensures tried { OnOk result (CanBeTried joint.now) }
    ensures placement { IfOk result (λ found. IsPlacement joint.now found.placement) }
    ensures beatable { IfOk result (λ found. (table : List (List ℕ))
        → IsPlaced joint.now (with_events joint.now found.placement) table
        → IsBeatable joint.now table) }
{
    // Reading the joint makes known what its type keeps.
    let _ = &joint.slots;
    let mut reached = Reached::new_by(alloc, joint, rules)?;
    match first_lacking(alloc, joint, rules, &mut reached, steps)? {
        Some(Lack::Goal { slot }) => return Err(GenerateError::NotBeatable { slot }),
        Some(Lack::Location { slot, place }) => {
            return Err(GenerateError::NotFull { slot, place });
        }
        None => {}
    }
    let stock = stock_of(alloc, joint)?;
    let have = pool_copies(joint) + link_copies(joint);
    let room = stock.openings.len() as u64;
    if room < have {
        return Err(GenerateError::TooManyItems { have, room });
    }
    first_filled(
        alloc,
        joint,
        rules,
        &stock,
        &mut reached,
        seed,
        tries,
        steps,
    )
}

/// `generate_by` with a counter of its own.
fn count_and_generate<R: Ruling, L: Ledger>(
    blank: Blank,
    alloc: Global,
    joint: &Joint,
    rules: &R,
    seed: u64,
    tries: u32,
) -> Result<Seed, GenerateError>
    requires name { blank.name ≡ L.name }
    requires parts { (blank.parts ≡ L.parts) × (blank.parts ≡ 1) }
    requires rules { R.stands_for rules.now (rule_list joint.now) }
    requires tries { (1 ≤ tries) × (tries ≤ 1000) }
    ensures seed { GeneratedSeed joint.now seed tries result }
    ensures tried { OnOk result (CanBeTried joint.now) }
    ensures placement { IfOk result (λ found. IsPlacement joint.now found.placement) }
    ensures beatable { IfOk result (λ found. (table : List (List ℕ))
        → IsPlaced joint.now (with_events joint.now found.placement) table
        → IsBeatable joint.now table) }
{
    let mut steps = Steps::<L>::new(blank);
    generate_counted(alloc, joint, rules, seed, tries, &mut steps)
}

/// The placement of the first of 1 to 1,000 tries that gives one, the first try having number 0.
///
/// It is refused at the first slot whose goal doesn't hold with all items in hand and the events
/// alone placed; then at the first location that isn't reached of a slot that wants all of them;
/// then where pools and links have more copies than there are locations with an id; then where each
/// try is Stuck. `Memory` is want of memory. The joint's rules are asked of `rules`.
pub fn generate_by<R: Ruling>(
    alloc: Global,
    joint: &Joint,
    rules: &R,
    seed: u64,
    tries: u32,
) -> Result<Seed, GenerateError>
    requires rules { R.stands_for rules.now (rule_list joint.now) }
    requires tries { (1 ≤ tries) × (tries ≤ 1000) }
    ensures seed { GeneratedSeed joint.now seed tries result }
    ensures tried { OnOk result (CanBeTried joint.now) }
    ensures placement { IfOk result (λ found. IsPlacement joint.now found.placement) }
    ensures beatable { IfOk result (λ found. (table : List (List ℕ))
        → IsPlaced joint.now (with_events joint.now found.placement) table
        → IsBeatable joint.now table) }
{
    count_and_generate::<R, Brand>(Blank::new(1), alloc, joint, rules, seed, tries)
}

/// The placement of the first of 1 to 1,000 tries that gives one, the first try having number 0.
///
/// It is refused at the first slot whose goal doesn't hold with all items in hand and the events
/// alone placed; then at the first location that isn't reached of a slot that wants all of them;
/// then where pools and links have more copies than there are locations with an id; then where each
/// try is Stuck. `Memory` is want of memory.
pub fn generate(alloc: Global, joint: &Joint, seed: u64, tries: u32) -> Result<Seed, GenerateError>
    requires { (1 ≤ tries) × (tries ≤ 1000) }
    ensures seed { GeneratedSeed joint.now seed tries result }
    ensures tried { OnOk result (CanBeTried joint.now) }
    ensures placement { IfOk result (λ found. IsPlacement joint.now found.placement) }
    ensures beatable { IfOk result (λ found. (table : List (List ℕ))
        → IsPlaced joint.now (with_events joint.now found.placement) table
        → IsBeatable joint.now table) }
{
    let rules = TreeRules::of(alloc, joint)?;
    generate_by(alloc, joint, &rules, seed, tries)
}

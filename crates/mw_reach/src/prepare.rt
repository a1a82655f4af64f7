ghost use Rattle.std.specs.Prelude.{◌≡◌, IfOk, replicate, false};
ghost use Rattle.mw_multi.specs.Joint.{place_total};
ghost use Rattle.mw_multi.specs.Steps.{rule_list};
ghost use Rattle.mw_reach.specs.Reached.{IsTallyFor, IsFrontierFor, IsWorkFor};

use crate::always::always_of;
use crate::build::rows_of;
use crate::frontier::Frontier;
use crate::splitting::split_of;
use crate::tally::Tally;
use crate::work::Work;
use mw_base::Memory;
use mw_multi::Joint;
use mw_rules::Ruling;
use std::alloc::Global;

/// No place done and nothing counted; `Memory` where memory ran out.
fn no_tally(alloc: Global, joint: &Joint) -> Result<Tally, Memory>
    ensures for_joint { IfOk result (IsTallyFor joint.now) }
    ensures empty { IfOk result (λ tally. tally.done.items
        ≡ replicate (place_total joint.now.slots) false) }
{
    let done = vec![in alloc; false; joint.place_count() as usize]?;
    let counts = vec![in alloc; 0; joint.item_count() as usize]?;
    Ok(Tally { done, counts })
}

/// No place listed, and room for each; `Memory` where memory ran out.
fn no_frontier(alloc: Global, joint: &Joint) -> Result<Frontier, Memory>
    ensures { IfOk result (IsFrontierFor joint.now) }
{
    let places = joint.place_count() as usize;
    let listed = vec![in alloc; false; places]?;
    let queue = vec![in alloc; 0; places]?;
    Ok(Frontier {
        listed,
        queue,
        len: 0,
    })
}

/// The rows of the joint, and room to work in; `Memory` where memory ran out.
pub(crate) fn work_of<R: Ruling>(alloc: Global, joint: &Joint, rules: &R) -> Result<Work, Memory>
    requires rules { R.stands_for rules.now (rule_list joint.now) }
    ensures for_joint { IfOk result (IsWorkFor joint.now) }
    ensures empty { IfOk result (λ work. work.tally.done.items
        ≡ replicate (place_total joint.now.slots) false) }
{
    let rows = rows_of(alloc, joint, rules)?;
    let free = always_of(alloc, joint)?;
    let split = split_of(alloc, joint, free.as_slice(), &rows)?;
    let tally = no_tally(alloc, joint)?;
    let frontier = no_frontier(alloc, joint)?;
    Ok(Work {
        rows,
        split,
        tally,
        frontier,
    })
}

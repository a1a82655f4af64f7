ghost use Rattle.mw_json.specs.View.{view};
ghost use Rattle.mw_json.specs.Grammar.{Gives, number_at};
ghost use Rattle.mw_multidata.specs.Shape.{spot_at, sphere_at, spheres_at};

use crate::parts::slot_number_in;
use mw_base::{List, SphereList, Spot};
use mw_json::{Refusal, Tree, count_in, each, element_in, list_of, list_with, some_of};
use std::alloc::Global;

/// The place of a location in its slot, at most 9,999.
fn index_in(alloc: Global, tree: &Tree) -> Result<u32, Refusal>
    ensures { Gives result (number_at 0 9999 (view tree.now)) }
{
    count_in(alloc, tree, 9_999)
}

#[tactic(auto, unfolding(crate::specs::Shape::spot_at))]
fn spot_of(alloc: Global, tree: &Tree) -> Result<Spot, Refusal>
    ensures { Gives result (spot_at (view tree.now)) }
{
    let items = list_with(alloc, tree, 2)?;
    let slot = element_in(alloc, items, 0, slot_number_in)?;
    let index = element_in(alloc, items, 1, index_in)?;
    Ok(Spot { slot, index })
}

#[tactic(auto, unfolding(crate::specs::Shape::sphere_at))]
fn sphere_of(alloc: Global, tree: &Tree) -> Result<List<Spot>, Refusal>
    ensures { Gives result (sphere_at (view tree.now)) }
{
    let items = list_of(alloc, tree)?;
    let items = some_of(alloc, items)?;
    each(alloc, items, spot_of)
}

/// The spheres of a seed file.
#[tactic(auto, unfolding(crate::specs::Shape::spheres_at))]
pub(crate) fn spheres_of(alloc: Global, tree: &Tree) -> Result<SphereList, Refusal>
    ensures { Gives result (spheres_at (view tree.now)) }
{
    let items = list_of(alloc, tree)?;
    each(alloc, items, sphere_of)
}

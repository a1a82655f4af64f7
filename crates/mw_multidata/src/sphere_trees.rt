ghost use Rattle.std.specs.Prelude.{◌≡◌, IfOk, map};
ghost use Rattle.mw_model.specs.Json.{IsWritable, many};
ghost use Rattle.mw_model.specs.Trees.{items_of};
ghost use Rattle.mw_json.specs.View.{view};
ghost use Rattle.mw_multidata.specs.Written.{sphere_json, spot_json};

use mw_base::{List, Memory, Spot};
use mw_json::{Tree, number_tree, push_tree};
use std::alloc::Global;

/// A location in a sphere, as a list of two.
fn spot_tree(alloc: Global, spot: &Spot) -> Result<Tree, Memory>
    ensures value { IfOk result (λ t. view t ≡ spot_json spot.now) }
    ensures writable { IfOk result (λ t. IsWritable (view t)) }
{
    let mut parts = List::with_capacity(alloc, 2)?;
    push_tree(&mut parts, number_tree(u64::from(spot.slot)))?;
    push_tree(&mut parts, number_tree(u64::from(spot.index)))?;
    Ok(Tree::Many(parts))
}

/// A sphere, as a list.
fn sphere_tree(alloc: Global, sphere: &[Spot]) -> Result<Tree, Memory>
    ensures value { IfOk result (λ t. view t ≡ sphere_json sphere.now) }
    ensures writable { IfOk result (λ t. IsWritable (view t)) }
{
    let mut trees = List::new(alloc);
    for spot in sphere {
        push_tree(&mut trees, spot_tree(alloc, spot)?)?;
    }
    Ok(Tree::Many(trees))
}

/// The spheres, as a list.
pub(crate) fn spheres_tree(alloc: Global, spheres: &[List<Spot>]) -> Result<Tree, Memory>
    ensures value { IfOk result (λ t. view t ≡ many (items_of (map sphere_json spheres.now))) }
    ensures writable { IfOk result (λ t. IsWritable (view t)) }
{
    let mut trees = List::new(alloc);
    for sphere in spheres {
        push_tree(&mut trees, sphere_tree(alloc, sphere.as_slice())?)?;
    }
    Ok(Tree::Many(trees))
}

ghost use Rattle.mw_json.specs.Grammar.{Gives};
ghost use Rattle.mw_multidata.specs.Names.{spot_named, sphere_named, spheres_named};

use crate::catalog::Plays;
use crate::location_names::played_in;
use mw_base::{List, Spot};
use mw_json::{Kind, Refusal, at_index, refuse};
use std::alloc::Global;

#[tactic(auto, unfolding(crate::specs::Names::spot_named))]
fn judge_spot(alloc: Global, played: &[Plays], spot: &Spot) -> Result<(), Refusal>
    ensures { Gives result (spot_named played.now spot.now) }
{
    match played_in(played, spot.slot) {
        Some(_) => Ok(()),
        None => at_index(refuse(alloc, Kind::UnknownName), 0),
    }
}

fn judge_sphere(alloc: Global, played: &[Plays], sphere: &[Spot]) -> Result<(), Refusal>
    ensures { Gives result (sphere_named played.now 0 sphere.now) }
{
    for (i, spot) in sphere.iter().enumerate() {
        at_index(judge_spot(alloc, played, spot), i as u64)?;
    }
    Ok(())
}

/// The slots of the spheres are there.
pub(crate) fn judge_spheres(
    alloc: Global,
    played: &[Plays],
    spheres: &[List<Spot>],
) -> Result<(), Refusal>
    ensures { Gives result (spheres_named played.now 0 spheres.now) }
{
    for (i, sphere) in spheres.iter().enumerate() {
        at_index(judge_sphere(alloc, played, sphere.as_slice()), i as u64)?;
    }
    Ok(())
}

//! Whether a seed file is right for joined tables.
ghost use Rattle.std.specs.Prelude.{IfOk, IfErr};
ghost use Rattle.mw_seeds.specs.Judging.{IsRight, IsNotRight};

use crate::agreeing::placement_in;
use crate::refusal::SeedRefusal;
use mw_multi::{Joint, Placement};
use mw_multidata::Multidata;
use mw_spheres::check_spheres;
use std::alloc::Global;

/// The placement of a seed file that is right for joined tables: its groups and entries agree with the
/// tables, each goal is reached and each location of a slot that wants to reach all of its world, and
/// its spheres are those of the placement.
///
/// `OtherLinks` where the file's groups aren't the tables' links; `OtherTables` at the first location
/// where file and tables differ, by slot and then by id; `GoalMissed` and `LocationMissed` where not
/// all is reached that has to be; `Wrong` and `Missing` where the file's spheres aren't right;
/// `Memory` where memory ran out.
#[tactic(auto, using(crate::proofs::Judged::not_right, crate::proofs::Judged::not_placed))]
pub fn check_seed(alloc: Global, joint: &Joint, file: &Multidata) -> Result<Placement, SeedRefusal>
    ensures ok { IfOk result (IsRight joint.now file.now) }
    ensures err { IfErr result (IsNotRight joint.now file.now) }
{
    let placement = placement_in(alloc, joint, file)?;
    check_spheres(alloc, joint, &placement, &file.spheres)?;
    Ok(placement)
}

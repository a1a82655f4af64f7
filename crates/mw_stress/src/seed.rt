//! The seed that `stress` plays.
ghost use Rattle.std.specs.Prelude.{◌≡◌, [], ◌∷◌, IfOk, IfErr, List, Ok, length};
ghost use Rattle.mw_multi.specs.World.{World as PlainWorld};
ghost use Rattle.mw_multi.specs.JointOf.{joint_of};
ghost use Rattle.mw_multi.specs.Placement.{IsPlacement};
ghost use Rattle.mw_spheres.specs.Spheres.{IsSpheres};
ghost use Rattle.mw_seeds.specs.SeedFile.{SeedFile};
ghost use Rattle.mw_model.specs.Seed.{Spot};
ghost use Rattle.mw_stress.specs.Made.{IsStressSeed, IsUnmade, PlayersJoin};
ghost use Rattle.mw_stress.specs.Stress as plain;
ghost use Rattle.mw_stress.specs.Stress.{IsCrowd};

use crate::players::stress_players;
use crate::world::stress_world;
use mw_base::{List, Memory};
use mw_fill::{GenerateError, Seed, generate};
use mw_multi::{Joint, JointRefusal, Players, World};
use mw_multidata::Multidata;
use mw_seeds::seed_file;
use mw_spheres::spheres;
use std::alloc::Global;

/// A seed, the number of the try that gave it, and how many spheres it has.
#[derive(Drop)]
pub struct StressSeed {
    /// The seed.
    pub multidata: Multidata,
    /// The try's number, from 0.
    pub stream: u64,
    /// How many spheres there are.
    pub spheres: u64,
}

/// Why no seed is made.
#[derive(Clone, Copy)]
pub enum StressError {
    /// Each of a hundred tries is stuck.
    Exhausted,
    /// Memory ran out.
    Memory,
}

impl From<Memory> for StressError {
    ghost use Rattle.std.specs.Prelude.{◌≡◌};
    ghost use Rattle.mw_stress.specs.declared.seed.StressError.TheVariants.{Memory as OutOfMemory};

    ghost from_gives = { λ _ e. e ≡ OutOfMemory };

    fn from(_error: Memory) -> Self {
        StressError::Memory
    }
}

/// The world alone.
fn world_list(alloc: Global) -> Result<List<World>, Memory>
    ensures { IfOk result (λ worlds. worlds ≡ plain.world ∷ []) }
{
    let mut worlds = List::new(alloc);
    worlds.push(stress_world(alloc)?)?;
    Ok(worlds)
}

/// The seed of a placement, with its spheres.
fn seed_of(
    alloc: Global,
    players: &Players,
    joint: &Joint,
    seed: u64,
    found: &Seed,
) -> Result<StressSeed, Memory>
    requires joined { (worlds : List PlainWorld) × (joint_of worlds players.now ≡ Ok joint.now) }
    requires placement { IsPlacement joint.now found.now.placement }
    ensures stream { IfOk result (λ s. s.stream ≡ found.now.stream) }
    ensures made { IfOk result (λ s. (listed : List (List Spot))
        × IsSpheres joint.now found.now.placement listed × (s.spheres ≡ length listed)
        × SeedFile joint.now seed found.now.placement listed s.multidata) }
{
    let spheres = spheres(alloc, joint, &found.placement)?;
    let multidata = seed_file(alloc, players, joint, seed, &found.placement, &spheres)?;
    Ok(StressSeed {
        multidata,
        stream: found.stream,
        spheres: spheres.len() as u64,
    })
}

/// The want of memory that a refusal is: the tables can be joined, by the law below.
fn want_of_memory(refusal: JointRefusal) -> Memory
    requires { refusal ≡ JointRefusal.Memory }
{
    match refusal {
        JointRefusal::Memory => Memory,
        JointRefusal::GameTwice { .. }
        | JointRefusal::UnknownName { .. }
        | JointRefusal::LinkGame { .. }
        | JointRefusal::LinkName { .. }
        | JointRefusal::TooManyPlaces { .. }
        | JointRefusal::TooMuchText { .. } => unreachable!(),
    }
}

/// The seed of the world and its players.
#[tactic(auto, using(crate::proofs::Files::one_world, crate::proofs::Making::made_so, crate::proofs::Making::stuck_so))]
fn made_from(
    alloc: Global,
    worlds: &List<World>,
    players: &Players,
    many: u32,
    seed: u64,
) -> Result<StressSeed, StressError>
    requires crowd { IsCrowd many }
    requires worlds { worlds.now ≡ plain.world ∷ [] }
    requires players { players.now ≡ plain.players many }
    ensures ok { IfOk result (λ s. IsStressSeed many seed s.stream s.spheres s.multidata) }
    ensures err { IfErr result (IsUnmade many seed) }
{
    let joint = match Joint::build(alloc, worlds, players) {
        Ok(joint) => joint,
        Err(refusal) => return Err(StressError::from(want_of_memory(refusal))),
    };
    match generate(alloc, &joint, seed, 100) {
        Ok(found) => Ok(seed_of(alloc, players, &joint, seed, &found)?),
        Err(GenerateError::Exhausted) => Err(StressError::Exhausted),
        Err(GenerateError::Memory) => Err(StressError::Memory),
        // Each goal holds with everything in hand, no slot wants more, and there is room for all
        // copies.
        Err(GenerateError::NotBeatable { .. }) => unreachable!(),
        Err(GenerateError::NotFull { .. }) => unreachable!(),
        Err(GenerateError::TooManyItems { .. }) => unreachable!(),
    }
}

/// The seed of 1 to 64 players with this number: that of the first of a hundred tries that gives a
/// placement. `Exhausted` comes exactly where each try is stuck, and `Memory` where memory ran out.
pub fn made_seed(alloc: Global, many: u32, seed: u64) -> Result<StressSeed, StressError>
    requires { IsCrowd many }
    ensures ok { IfOk result (λ s. IsStressSeed many seed s.stream s.spheres s.multidata) }
    ensures err { IfErr result (IsUnmade many seed) }
{
    let worlds = world_list(alloc)?;
    let players = stress_players(alloc, many)?;
    made_from(alloc, &worlds, &players, many, seed)
}

/// The world and 1 to 64 players can be joined.
pub fn players_join()
    ensures { PlayersJoin }
{}

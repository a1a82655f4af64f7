//! The seed file of joined tables and a placement.
ghost use Rattle.std.specs.Prelude.{◌≡◌, IfOk, List, Ok, decimal};
ghost use Rattle.mw_multi.specs.World.{World as PlainWorld};
ghost use Rattle.mw_multi.specs.JointOf.{joint_of};
ghost use Rattle.mw_multi.specs.Placement.{IsPlacement};
ghost use Rattle.mw_multidata.specs.SeedKept.{ServerKept};
ghost use Rattle.mw_spheres.specs.Spheres.{IsSpheres};
ghost use Rattle.mw_seeds.specs.SeedFile.{SeedFile};

use crate::seed_games::games_of;
use crate::seed_groups::groups_of;
use crate::seed_locations::locations_of;
use crate::seed_slots::slots_of;
use mw_base::{List, Memory, RoomOptions, SphereList, Spot, Text};
use mw_multi::{Joint, Placement, Players};
use mw_multidata::Multidata;
use std::alloc::Global;

/// A seed's number in decimal.
fn name_of(alloc: Global, seed: u64) -> Result<Text, Memory>
    ensures { IfOk result (λ t. t ≡ decimal seed) }
{
    Ok(Text::from_string(format!(in alloc; "{seed}")?))
}

/// A copy of the settings of the players' room.
fn server_of(alloc: Global, players: &Players) -> Result<RoomOptions, Memory>
    ensures same { IfOk result (λ o. o ≡ players.now.room) }
    ensures kept { IfOk result ServerKept }
{
    let room = &players.room;
    let password = Text::of(alloc, room.password.as_str())?;
    Ok(RoomOptions {
        password,
        hint_cost: room.hint_cost,
        location_check_points: room.location_check_points,
        release: room.release,
        collect: room.collect,
        remaining: room.remaining,
    })
}

/// A copy of a sphere.
fn copy_sphere(alloc: Global, sphere: &[Spot]) -> Result<List<Spot>, Memory>
    ensures { IfOk result (λ spots. spots ≡ sphere.now) }
{
    let mut copy = List::new(alloc);
    for spot in sphere {
        copy.push(*spot)?;
    }
    Ok(copy)
}

/// A copy of spheres.
fn copy_spheres(alloc: Global, spheres: &[List<Spot>]) -> Result<SphereList, Memory>
    ensures { IfOk result (λ copy. copy ≡ spheres.now) }
{
    let mut copy = List::new(alloc);
    for sphere in spheres {
        copy.push(copy_sphere(alloc, sphere.as_slice())?)?;
    }
    Ok(copy)
}

/// The seed of joined tables, a seed's number, a placement and its spheres, as its file has it: the
/// seed's name is the number in decimal; the teams and the settings are those of the players file;
/// the games are the different games of the slots' worlds in byte order, each with the names of its
/// items and of its locations with an id in byte order; each slot has its items to begin with,
/// copies one after the other; each link is a group of the game that its members play; the locations
/// with an id hold what the placement puts there.
/// `Memory` where memory ran out.
pub fn seed_file(
    alloc: Global,
    players: &Players,
    joint: &Joint,
    seed: u64,
    placement: &Placement,
    spheres: &SphereList,
) -> Result<Multidata, Memory>
    requires joined { (worlds : List PlainWorld) × (joint_of worlds players.now ≡ Ok joint.now) }
    requires placement { IsPlacement joint.now placement.now }
    requires spheres { IsSpheres joint.now placement.now spheres.now }
    ensures { IfOk result (SeedFile joint.now seed placement.now spheres.now) }
{
    // Reading these makes known what their types keep.
    let _ = &joint.slots;
    let seed_name = name_of(alloc, seed)?;
    let server = server_of(alloc, players)?;
    let games = games_of(alloc, joint)?;
    let slots = slots_of(alloc, joint)?;
    let groups = groups_of(alloc, joint)?;
    let locations = locations_of(alloc, joint, placement)?;
    let spheres = copy_spheres(alloc, spheres.as_slice())?;
    Ok(Multidata {
        seed_name,
        teams: players.teams,
        server,
        games,
        slots,
        groups,
        locations,
        spheres,
    })
}

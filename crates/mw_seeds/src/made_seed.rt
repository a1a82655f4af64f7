//! What `generate` writes and prints: the seed file of the first try that gives a placement, and the
//! text beside it.
ghost use Rattle.std.specs.Prelude.{◌≡◌, ◌≤◌, ◌++◌, ℕ, IfOk, IfErr, List, Ok, string_bytes};
ghost use Rattle.mw_multi.specs.World.{World as PlainWorld};
ghost use Rattle.mw_multi.specs.JointOf.{joint_of};
ghost use Rattle.mw_multi.specs.Steps.{rule_list};
ghost use Rattle.mw_multi.specs.Placement.{IsPlacement, IsPlaced, what_stands};
ghost use Rattle.mw_multi.specs.Events.{with_events};
ghost use Rattle.mw_reach.specs.Required.{IsBeatable};
ghost use Rattle.mw_fill.specs.Generated.{IsRefused};
ghost use Rattle.mw_seeds.specs.Played.{played_lines};
ghost use Rattle.mw_seeds.specs.Made.{generated_line, IsMade, Generates};

use crate::making::seed_file;
use crate::played_lines::with_played;
use mw_base::{Bytes, Memory, SphereList};
use mw_fill::{GenerateError, Seed, generate_by};
use mw_multi::{Joint, Placement, Players, TreeRules};
use mw_multidata::write;
use mw_rules::Ruling;
use mw_spheres::{playthrough, spheres};
use std::alloc::Global;

/// A seed file's bytes, and the text that is printed beside it.
#[derive(Drop)]
pub struct MadeSeed {
    /// The seed file.
    pub bytes: Bytes,
    /// The line of the try, and those of the playthrough.
    pub text: String,
}

/// The line of a try.
fn first_line(alloc: Global, seed: u64, stream: u64, many: u64) -> Result<String, Memory>
    ensures { IfOk result (λ t. string_bytes t ≡ generated_line seed stream many) }
{
    Ok(format!(in alloc; "seed {seed} try {stream} spheres {many}\n")?)
}

/// The line of a try, and those of its playthrough.
fn text_of(
    alloc: Global,
    joint: &Joint,
    seed: u64,
    found: &Seed,
    many: usize,
    played: &SphereList,
) -> Result<String, Memory>
    requires { IsPlacement joint.now found.now.placement }
    ensures { IfOk result (λ t. string_bytes t ≡ generated_line seed found.now.stream many
        ++ played_lines joint.now (what_stands found.now.placement) 1 played.now) }
{
    let text = first_line(alloc, seed, found.stream, many as u64)?;
    with_played(alloc, text, joint, &found.placement, played)
}

/// The seed file of a placement that can be beaten, and the text beside it.
fn made_of(
    alloc: Global,
    players: &Players,
    joint: &Joint,
    seed: u64,
    found: &Seed,
) -> Result<MadeSeed, Memory>
    requires joined { (worlds : List PlainWorld) × (joint_of worlds players.now ≡ Ok joint.now) }
    requires placement { IsPlacement joint.now found.now.placement }
    requires beatable { (table : List (List ℕ))
        → IsPlaced joint.now (with_events joint.now found.now.placement) table
        → IsBeatable joint.now table }
    ensures { IfOk result (λ m. IsMade joint.now seed found.now.stream found.now.placement m.bytes
        (string_bytes m.text)) }
{
    // Reading the joint makes known what its type keeps.
    let _ = &joint.slots;
    let spheres = spheres(alloc, joint, &found.placement)?;
    let played = playthrough(alloc, joint, &found.placement, &spheres)?;
    let file = seed_file(alloc, players, joint, seed, &found.placement, &spheres)?;
    let bytes = write(alloc, &file)?;
    let text = text_of(alloc, joint, seed, found, spheres.len(), &played)?;
    Ok(MadeSeed { bytes, text })
}

/// The seed file of the first of 1 to 1,000 tries that gives a placement, and the text beside it,
/// with the joint's rules asked of `rules`. It is refused as `generate_by` is.
pub fn make_seed_by<R: Ruling>(
    alloc: Global,
    players: &Players,
    joint: &Joint,
    rules: &R,
    seed: u64,
    tries: u32,
) -> Result<MadeSeed, GenerateError>
    requires rules { R.stands_for rules.now (rule_list joint.now) }
    requires tries { (1 ≤ tries) × (tries ≤ 1000) }
    requires joined { (worlds : List PlainWorld) × (joint_of worlds players.now ≡ Ok joint.now) }
    ensures ok { IfOk result (λ m. Generates joint.now seed tries m.bytes (string_bytes m.text)) }
    ensures err { IfErr result (IsRefused joint.now seed tries) }
{
    let found = generate_by(alloc, joint, rules, seed, tries)?;
    Ok(made_of(alloc, players, joint, seed, &found)?)
}

/// The same, with the joint's rules as its tables have them.
pub fn make_seed(
    alloc: Global,
    players: &Players,
    joint: &Joint,
    seed: u64,
    tries: u32,
) -> Result<MadeSeed, GenerateError>
    requires tries { (1 ≤ tries) × (tries ≤ 1000) }
    requires joined { (worlds : List PlainWorld) × (joint_of worlds players.now ≡ Ok joint.now) }
    ensures ok { IfOk result (λ m. Generates joint.now seed tries m.bytes (string_bytes m.text)) }
    ensures err { IfErr result (IsRefused joint.now seed tries) }
{
    let rules = TreeRules::of(alloc, joint)?;
    make_seed_by(alloc, players, joint, &rules, seed, tries)
}

ghost use Rattle.std.specs.Prelude.{◌≡◌, ◌≤◌, ◌+◌, ◌*◌, [], IfOk, OnOk, All, length};
ghost use Rattle.mw_multi.specs.Files.{world_files};
ghost use Rattle.mw_multi.specs.Joint.{IsJoint, place_total};
ghost use Rattle.mw_multi.specs.Links.{HasWholePool, SharingKept, slots_after, links_among};
ghost use Rattle.mw_multi.specs.JointOf.{Gives, few_places, few_text, joint_of};

use crate::games::judge_games;
use crate::joint::Joint;
use crate::left::Left;
use crate::linked::slots_left;
use crate::names::Names;
use crate::players::Players;
use crate::refusal::JointRefusal;
use crate::sharing::{Sharing, judge_links, sharings_in};
use crate::slot::Slot;
use crate::slots::slots_in;
use crate::text::text_in;
use crate::totals::places_in;
use crate::world::World;
use mw_base::{List, Memory};
use std::alloc::Global;

/// The names of each world.
fn names_of<'a>(alloc: Global, worlds: &'a [World]) -> Result<List<Names<'a>>, Memory>
    ensures { IfOk result (λ names. names ≡ worlds.now) }
{
    let mut names = List::new(alloc);
    for world in worlds {
        names.push(Names::of(alloc, world)?)?;
    }
    Ok(names)
}

/// There are not too many places.
fn judge_places(have: u64) -> Result<(), JointRefusal>
    ensures judged { Gives result (few_places have) }
    ensures few { OnOk result (have ≤ 200000) }
{
    if have <= 200_000 {
        Ok(())
    } else {
        Err(JointRefusal::TooManyPlaces { have })
    }
}

/// There is not too much text.
fn judge_text(have: u64) -> Result<(), JointRefusal>
    ensures { Gives result (few_text have) }
{
    if have <= 16_777_216 {
        Ok(())
    } else {
        Err(JointRefusal::TooMuchText { have })
    }
}

/// The joint of slots and of what they share, with what that leaves of their pools.
fn joint_in<'a>(
    alloc: Global,
    players: &'a Players,
    slots: List<Slot<'a>>,
    sharings: &[Sharing<'a>],
) -> Result<Joint<'a>, Memory>
    requires slots { IsJoint record {
      teams = players.now.teams;
      room = players.now.room;
      slots = slots;
      links = [];
    } }
    requires whole { All HasWholePool slots }
    requires sharings { All (SharingKept slots) sharings.now }
    requires few { length slots + length sharings.now ≤ 1024 }
    ensures { IfOk result (λ joint. joint ≡ record {
      teams = players.now.teams;
      room = players.now.room;
      slots = slots_after slots.entry sharings.now;
      links = links_among slots.entry sharings.now;
    }) }
{
    if sharings.is_empty() {
        return Ok(Joint {
            players,
            slots,
            links: List::new(alloc),
        });
    }
    let mut left = Left::of_pools(alloc, slots.as_slice())?;
    let links = left.share_all(alloc, sharings)?;
    let slots = slots_left(alloc, left, slots)?;
    Ok(Joint {
        players,
        slots,
        links,
    })
}

impl<'a> Joint<'a> {
    /// The joint of the players, whose world files in first-named order have these tables.
    ///
    /// It is refused where a file has the game of an earlier one; then at the first name in the players' options, slot by
    /// slot, that isn't that of an item or location with an id; then at the first link whose members don't all play one
    /// game; then at the first name in a link that isn't that of an item with an id of its members' game; then where there
    /// are more than 200,000 places; then where the worlds' names have more than 16,777,216 bytes, with 24 more for each
    /// name. `Memory` is want of memory.
    #[tactic(auto, unfolding(crate::specs::JointOf::joint_of))]
    pub fn build(
        alloc: Global,
        worlds: &'a List<World>,
        players: &'a Players,
    ) -> Result<Joint<'a>, JointRefusal>
        requires { length worlds.now ≡ length (world_files players.now) }
        ensures { Gives result (joint_of worlds.now players.now) }
    {
        let worlds = worlds.as_slice();
        judge_games(worlds)?;
        let files = players.world_files(alloc)?;
        let names = names_of(alloc, worlds)?;
        let slots = slots_in(
            alloc,
            files.as_slice(),
            names.as_slice(),
            players.players.as_slice(),
        )?;
        let links = players.links.as_slice();
        judge_links(slots.as_slice(), links)?;
        let sharings = sharings_in(alloc, slots.as_slice(), links)?;
        judge_places(places_in(slots.as_slice()) as u64)?;
        judge_text(text_in(worlds))?;
        Ok(joint_in(alloc, players, slots, sharings.as_slice())?)
    }
}

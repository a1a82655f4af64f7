ghost use Rattle.std.specs.Prelude.{◌≡◌, IfOk};
ghost use Rattle.mw_protocol.specs.Checks.{found_item as found_item_lem, locations_in};
ghost use Rattle.mw_effects.specs.News.{items_for};
ghost use Rattle.mw_effects.specs.Parts.{news_of};

use crate::effect::Effect;
use crate::member::Member;
use mw_base::{List, LocId, Memory, NetItem, SlotId};
use mw_checks::CheckLog;
use mw_multidata::Held;
use std::alloc::Global;

/// A location with its slot.
pub type Pair = (SlotId, LocId);

/// What was found at a location, with its finder as player.
pub fn found_item(held: &Held) -> NetItem
    ensures { result ≡ found_item_lem held.now }
{
    NetItem {
        item: held.item.get(),
        location: held.location.get(),
        player: held.slot.get(),
        flags: held.flags,
    }
}

/// The items that an effect's new checks give a member, as its mask keeps them.
#[tactic(auto, using(crate::proofs::Grown::others_get_nothing))]
pub fn items_for_member(
    alloc: Global,
    log: &CheckLog,
    effect: &Effect,
    member: &Member,
) -> Result<List<NetItem>, Memory>
    ensures { IfOk result (λ is. is ≡ items_for log.now.seed member.now (news_of effect.now)) }
{
    if effect.team != member.team {
        return Ok(List::new(alloc));
    }
    log.given_by(effect.team, member.slot, member.mask, effect.new.as_slice())
}

/// The locations of the member's slot among an effect's new checks.
pub fn locations_for_member(
    alloc: Global,
    effect: &Effect,
    member: &Member,
) -> Result<List<i64>, Memory>
    ensures { IfOk result (λ ls. ls
        ≡ locations_in member.now.team member.now.slot (news_of effect.now)) }
{
    let mut found = List::new(alloc);
    for pair in effect.new.as_slice() {
        let (slot, location) = *pair;
        if effect.team == member.team && slot == member.slot {
            found.push(location.get())?;
        }
    }
    Ok(found)
}

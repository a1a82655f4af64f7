ghost use Rattle.std.specs.Prelude.{◌≡◌, [], Some, false, map};
ghost use Rattle.mw_protocol.specs.Owed.{owed};
ghost use Rattle.mw_effects.specs.Parts.{grown, standing_of, IsLogged};
ghost use Rattle.mw_effects.specs.Views.{announced_view, effect_view};
ghost use Rattle.mw_owed.specs.Concerned.{hears_some as hears_some_lem, is_finder as is_finder_lem};
ghost use Rattle.mw_owed.specs.Shared.{IsShared};

use crate::hearing::hears;
use crate::owed::paid_by;
use crate::receivers::receives;
use crate::shared::Shared;
use crate::telling::Telling;
use mw_base::SlotId;
use mw_effects::{Effect, Member, Pair, Standing};
use mw_multidata::Multidata;

/// Whether a member that didn't send the packet hears one of those for several.
fn hears_some(seed: &Multidata, tellings: &[Telling], member: &Member) -> bool
    ensures { result ≡ hears_some_lem seed.now (map announced_view tellings.now) member.now }
{
    for telling in tellings {
        if hears(seed, telling.audience(), false, member) {
            return true;
        }
    }
    false
}

/// Whether one of the locations is the slot's.
fn is_finder(pairs: &[Pair], slot: SlotId) -> bool
    ensures { result ≡ is_finder_lem pairs.now slot }
{
    for pair in pairs {
        let (finder, _) = *pair;
        if finder == slot {
            return true;
        }
    }
    false
}

/// Whether a member that didn't send the packet may be owed something.
fn may_owe_member(standing: &Standing, effect: &Effect, shared: &Shared, member: &Member) -> bool
    requires logged { IsLogged standing.now effect.now }
    requires shared { IsShared standing.now.log.seed effect.now shared.now }
    ensures { result ≡ false → owed standing.now.log.seed (standing_of standing.now)
        (grown standing.now effect.now) (effect_view effect.now) false (Some member.now) ≡ [] }
{
    if hears_some(standing.seed(), &shared.tellings, member) {
        return true;
    }
    if receives(standing.seed(), &shared.receivers, member) {
        return true;
    }
    if paid_by(effect, member) > 0 {
        return true;
    }
    is_finder(effect.new.as_slice(), member.slot)
}

/// Whether a session that didn't send the packet, and is this member, if it is one, may be owed
/// something of an effect: where it hears a packet for several, or its slot has a new location or
/// item, or pays for a hint.
pub fn may_owe(
    standing: &Standing,
    effect: &Effect,
    shared: &Shared,
    member: &Option<Member>,
) -> bool
    requires logged { IsLogged standing.now effect.now }
    requires shared { IsShared standing.now.log.seed effect.now shared.now }
    ensures { result ≡ false → owed standing.now.log.seed (standing_of standing.now)
        (grown standing.now effect.now) (effect_view effect.now) false member.now ≡ [] }
{
    match member {
        Some(member) => may_owe_member(standing, effect, shared, member),
        None => false,
    }
}

ghost use Rattle.std.specs.Prelude.{◌≡◌, ◌<◌, IfOk, length};
ghost use Rattle.mw_records.specs.Reading.{Gives, each_location, locations_at, offer_at, place_at, target_at, terms_at};

use crate::fields::{flag_of, hint_status_of, location_of, slot_of, team_of, u32_of};
use crate::stop::Stop;
use mw_base::{HintStatus, List, LocId, SlotId, TeamId};
use std::alloc::Global;

/// A team and a slot.
#[tactic(auto, unfolding(crate::specs::Reading::place_at))]
pub(crate) fn place_of(bytes: &mut &[u8]) -> Result<(TeamId, SlotId), Stop>
    ensures { Gives (λ x. (x, bytes.new.now)) result (place_at bytes.old.now) }
{
    let team = team_of(bytes)?;
    let slot = slot_of(bytes)?;
    Ok((team, slot))
}

/// A location of a finder, in a team.
#[tactic(auto, unfolding(crate::specs::Reading::target_at))]
pub(crate) fn target_of(bytes: &mut &[u8]) -> Result<((TeamId, SlotId), LocId), Stop>
    ensures { Gives (λ x. (x, bytes.new.now)) result (target_at bytes.old.now) }
{
    let place = place_of(bytes)?;
    let location = location_of(bytes)?;
    Ok((place, location))
}

/// Whether a hint was paid for, and by whom.
#[tactic(auto, unfolding(crate::specs::Reading::offer_at))]
fn offer_of(bytes: &mut &[u8]) -> Result<(bool, SlotId), Stop>
    ensures { Gives (λ x. (x, bytes.new.now)) result (offer_at bytes.old.now) }
{
    let bought = flag_of(bytes)?;
    let buyer = slot_of(bytes)?;
    Ok((bought, buyer))
}

/// What a hint that is made has beside its location.
#[tactic(auto, unfolding(crate::specs::Reading::terms_at))]
pub(crate) fn terms_of(bytes: &mut &[u8]) -> Result<((bool, SlotId), HintStatus), Stop>
    ensures { Gives (λ x. (x, bytes.new.now)) result (terms_at bytes.old.now) }
{
    let offer = offer_of(bytes)?;
    let status = hint_status_of(bytes)?;
    Ok((offer, status))
}

/// So many locations.
fn each_of(alloc: Global, count: u32, bytes: &mut &[u8]) -> Result<List<LocId>, Stop>
    ensures value { Gives (λ x. (x, bytes.new.now)) result (each_location count bytes.old.now) }
    ensures count { IfOk result (λ ls. length ls ≡ count) }
{
    let mut locations = List::new(alloc);
    for _ in 0..count {
        locations.push(location_of(bytes)?)?;
    }
    Ok(locations)
}

/// Some locations.
#[tactic(auto, unfolding(crate::specs::Reading::locations_at))]
pub(crate) fn locations_of(alloc: Global, bytes: &mut &[u8]) -> Result<List<LocId>, Stop>
    ensures value { Gives (λ x. (x, bytes.new.now)) result (locations_at bytes.old.now) }
    ensures some { IfOk result (λ ls. 0 < length ls) }
{
    let count = u32_of(bytes)?;
    if count < 1 {
        return Err(Stop::Bad);
    }
    each_of(alloc, count, bytes)
}

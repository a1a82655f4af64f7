ghost use Rattle.std.specs.Prelude.{◌≡◌, ◌+◌, ◌-◌, ◌*◌, IfOk, length};
ghost use Rattle.mw_protocol.specs.HintList.{bought_by};
ghost use Rattle.mw_protocol.specs.Standing.{cost, points_left};

use crate::book::HintBook;
use mw_base::{Memory, SlotId, TeamId};
use mw_multidata::Checks;

/// How many hundredths of a slot's locations a hint costs.
fn hundredths<C: Checks>(log: &C) -> u32
    ensures { result ≡ (C.seed log.now).server.hint_cost }
{
    log.tables().multidata().server.hint_cost
}

/// What a hint costs a slot: so many hundredths of its locations, and at least 1.
pub fn cost<C: Checks>(slot: SlotId, log: &C) -> u64
    ensures { result ≡ cost (C.seed log.now) slot }
{
    let _locations = log.tables().multidata().locations.as_slice();
    (u64::from(hundredths(log)) * log.locations_len(slot) / 100).max(1)
}

/// What so many checked locations of a slot are worth, less what so many hints cost.
fn left_after<C: Checks>(slot: SlotId, checked: u64, bought: u64, log: &C) -> u128
    ensures { let seed = C.seed log.now in result
        ≡ seed.server.location_check_points * checked - cost seed slot * bought }
{
    let worth = log.tables().multidata().server.location_check_points;
    let earned = u128::from(worth) * u128::from(checked);
    earned.saturating_sub(u128::from(cost(slot, log)) * u128::from(bought))
}

impl HintBook {
    /// The points of a slot of a team of which this many locations are checked.
    pub(crate) fn left<C: Checks>(&self, team: TeamId, slot: SlotId, checked: u64, log: &C) -> u128
        ensures { result ≡ points_left (C.seed log.now) checked self.now.hints team slot }
    {
        left_after(slot, checked, self.bought_len(team, slot), log)
    }

    /// The points of a slot of a team of which the log has this many locations checked: what these
    /// are worth, less what its hints cost. It takes no memory.
    pub fn points<C: Checks>(&self, team: TeamId, slot: SlotId, checked: u64, log: &C) -> u64
        requires { checked ≡ C.count log.now team slot }
        ensures { result ≡ points_left (C.seed log.now) checked self.now.hints team slot }
    {
        let _kept = log.tables().multidata();
        let _few = log.checked_len(team, slot);
        self.left(team, slot, checked, log) as u64
    }

    /// The points of a slot of a team of which this many locations are checked, once it has paid
    /// for this many hints more. `Memory` is the answer where they pass 64 bits, which no seed file
    /// within its limits comes to.
    pub fn points_once<C: Checks>(
        &self,
        team: TeamId,
        slot: SlotId,
        checked: u64,
        more: u64,
        log: &C,
    ) -> Result<u64, Memory>
        ensures { let seed = C.seed log.now in IfOk result (λ p. p
            ≡ seed.server.location_check_points * checked
            - cost seed slot * (length (bought_by self.now.hints team slot) + more)) }
    {
        let bought = self.bought_len(team, slot).checked_add(more).ok_or(Memory)?;
        let left = left_after(slot, checked, bought, log);
        u64::try_from(left).ok().ok_or(Memory)
    }
}

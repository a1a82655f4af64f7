ghost use Rattle.std.specs.Prelude.{◌≡◌};
ghost use Rattle.mw_base.specs.Space.{HasSpace};
ghost use Rattle.mw_protocol.specs.Statuses.{set_status as set_status_lem, status_of};
ghost use Rattle.mw_effects.specs.Parts.{place_of_status, stated_by};

use mw_base::{ClientStatus, Growth, SlotId, TeamId};
use std::marker::Model;

/// What a slot of a team is doing.
#[derive(Clone, Copy)]
pub struct SlotStatus {
    pub team: TeamId,
    pub slot: SlotId,
    pub status: ClientStatus,
}

impl Model for SlotStatus {
    ghost use Rattle.mw_protocol.specs.Statuses as plain;

    ghost Value = { plain.SlotStatus };

    ghost view = { λ s. record { team = s.team; slot = s.slot; status = s.status } };

    ghost inverse = { λ s. record { team = s.team; slot = s.slot; status = s.status } };
}

/// The status of a slot in a team, 0 where none was given.
pub fn status_among(statuses: &[SlotStatus], team: TeamId, slot: SlotId) -> u8
    ensures { result ≡ status_of statuses.now team slot }
{
    for stated in statuses {
        if stated.team == team && stated.slot == slot {
            return stated.status.get();
        }
    }
    0
}

/// Where the status of a slot in a team stands, or how many there are.
fn place_of(statuses: &[SlotStatus], new: &SlotStatus) -> usize
    ensures { result ≡ place_of_status new.now.team new.now.slot statuses.now }
{
    for (at, stated) in statuses.iter().enumerate() {
        if stated.team == new.team && stated.slot == new.slot {
            return at;
        }
    }
    statuses.len()
}

/// Gives a slot a status, if one is given. It takes no memory.
pub fn set_status(
    statuses: &mut Vec<SlotStatus>,
    new: Option<SlotStatus>,
    growth: Growth<SlotStatus>,
)
    requires { HasSpace statuses.old growth 1 }
    ensures { statuses.new.items ≡ stated_by new statuses.old.items }
{
    if let Some(new) = new {
        put_status(statuses, new, growth);
    }
}

fn put_status(statuses: &mut Vec<SlotStatus>, new: SlotStatus, growth: Growth<SlotStatus>)
    requires { HasSpace statuses.old growth 1 }
    ensures { statuses.new.items ≡ set_status_lem new.team new.slot new.status statuses.old.items }
{
    let at = place_of(statuses, &new);
    if at < statuses.len() {
        statuses[at] = new;
        return;
    }
    growth.push(statuses, new);
}

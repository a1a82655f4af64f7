ghost use Rattle.std.specs.Prelude.{◌<◌, ◌≤◌, ◌^◌, pos};
ghost use Rattle.std.specs.Int.{w16, w32, w64};
ghost use Rattle.std.specs.Option.{SomeIff};
ghost use Rattle.mw_records.specs.Reading.{Gives, byte_at, client_status_at, flag_at, hint_status_at, location_at, number_at, slot_at, team_at};

use crate::stop::Stop;
use mw_base::{ClientStatus, HintStatus, LocId, SlotId, TeamId};

/// A byte. Each reader takes its field from the front of the bytes.
pub(crate) fn byte_of(bytes: &mut &[u8]) -> Result<u8, Stop>
    ensures { Gives (λ x. (x, bytes.new.now)) result (byte_at bytes.old.now) }
{
    let [first, rest @ ..] = *bytes else {
        return Err(Stop::Bad);
    };
    *bytes = rest;
    Ok(*first)
}

/// A number in two bytes.
fn u16_of(bytes: &mut &[u8]) -> Result<u16, Stop>
    ensures { Gives (λ x. (x, bytes.new.now)) result (number_at w16 bytes.old.now) }
{
    if bytes.len() < 2 {
        return Err(Stop::Bad);
    }
    let (front, rest) = bytes.split_at(2);
    *bytes = rest;
    Ok(u16::from_be_bytes([front[0], front[1]]))
}

/// A number in four bytes.
pub(crate) fn u32_of(bytes: &mut &[u8]) -> Result<u32, Stop>
    ensures { Gives (λ x. (x, bytes.new.now)) result (number_at w32 bytes.old.now) }
{
    if bytes.len() < 4 {
        return Err(Stop::Bad);
    }
    let (front, rest) = bytes.split_at(4);
    *bytes = rest;
    let number = u32::from_be_bytes([front[0], front[1], front[2], front[3]]);
    Ok(number)
}

/// A number in eight bytes.
fn u64_of(bytes: &mut &[u8]) -> Result<u64, Stop>
    ensures { Gives (λ x. (x, bytes.new.now)) result (number_at w64 bytes.old.now) }
{
    if bytes.len() < 8 {
        return Err(Stop::Bad);
    }
    let (front, rest) = bytes.split_at(8);
    *bytes = rest;
    let number = u64::from_be_bytes([
        front[0], front[1], front[2], front[3], front[4], front[5], front[6], front[7],
    ]);
    Ok(number)
}

/// A team.
#[tactic(auto, unfolding(crate::specs::Reading::team_at))]
pub(crate) fn team_of(bytes: &mut &[u8]) -> Result<TeamId, Stop>
    ensures { Gives (λ x. (x, bytes.new.now)) result (team_at bytes.old.now) }
{
    let number = byte_of(bytes)?;
    TeamId::new(number).ok_or(Stop::Bad)
}

/// A slot.
#[tactic(auto, unfolding(crate::specs::Reading::slot_at))]
pub(crate) fn slot_of(bytes: &mut &[u8]) -> Result<SlotId, Stop>
    ensures { Gives (λ x. (x, bytes.new.now)) result (slot_at bytes.old.now) }
{
    let number = u16_of(bytes)?;
    SlotId::new(number).ok_or(Stop::Bad)
}

/// The location of a number.
fn location_id(number: u64) -> Option<LocId>
    ensures { SomeIff result ((1 ≤ number) × (number < 2 ^ 53)) (pos number) }
{
    if number < 0x20_0000_0000_0000 {
        LocId::new(number as i64)
    } else {
        None
    }
}

/// A location.
#[tactic(auto, unfolding(crate::specs::Reading::location_at))]
pub(crate) fn location_of(bytes: &mut &[u8]) -> Result<LocId, Stop>
    ensures { Gives (λ x. (x, bytes.new.now)) result (location_at bytes.old.now) }
{
    let number = u64_of(bytes)?;
    location_id(number).ok_or(Stop::Bad)
}

/// A flag: 0 or 1.
#[tactic(auto, unfolding(crate::specs::Reading::flag_at))]
pub(crate) fn flag_of(bytes: &mut &[u8]) -> Result<bool, Stop>
    ensures { Gives (λ x. (x, bytes.new.now)) result (flag_at bytes.old.now) }
{
    let number = byte_of(bytes)?;
    if number < 2 {
        Ok(number == 1)
    } else {
        Err(Stop::Bad)
    }
}

/// A slot's status.
#[tactic(auto, unfolding(crate::specs::Reading::client_status_at))]
pub(crate) fn client_status_of(bytes: &mut &[u8]) -> Result<ClientStatus, Stop>
    ensures { Gives (λ x. (x, bytes.new.now)) result (client_status_at bytes.old.now) }
{
    let number = byte_of(bytes)?;
    ClientStatus::new(number).ok_or(Stop::Bad)
}

/// A hint's status.
#[tactic(auto, unfolding(crate::specs::Reading::hint_status_at))]
pub(crate) fn hint_status_of(bytes: &mut &[u8]) -> Result<HintStatus, Stop>
    ensures { Gives (λ x. (x, bytes.new.now)) result (hint_status_at bytes.old.now) }
{
    let number = byte_of(bytes)?;
    HintStatus::new(number).ok_or(Stop::Bad)
}

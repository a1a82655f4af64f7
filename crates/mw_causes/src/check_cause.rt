//! Why `check` finds that something isn't right.
ghost use Rattle.std.specs.Prelude.{◌≡◌, IfOk, string_bytes};
ghost use Rattle.mw_causes.specs.CheckCauses.{check_line, place_text};
ghost use Rattle.mw_causes.specs.declared.check_cause.CheckCause.TheVariants.{OtherTables, GoalMissed, LocationMissed, Wrong, Missing};

use crate::seed_cause::SeedCause;
use crate::stop::{Cause, Stop};
use crate::table_cause::TableCause;
use mw_base::{LocId, Memory, SlotId, Spot};
use mw_seeds::SeedRefusal;
use std::alloc::Global;

/// Why `check` finds that something isn't right.
#[derive(Drop)]
pub enum CheckCause {
    /// The tables are refused.
    Tables {
        /// The cause.
        cause: TableCause,
    },
    /// The seed file is refused.
    SeedFile {
        /// The cause.
        cause: SeedCause,
    },
    /// The seed file's groups aren't the links of the tables.
    OtherLinks,
    /// The seed file is of other tables.
    OtherTables {
        /// The slot of the first location that shows it.
        slot: SlotId,
        /// That location.
        location: LocId,
    },
    /// The seed file's placement doesn't reach a goal.
    GoalMissed {
        /// The first such slot, from 1.
        slot: u16,
    },
    /// The seed file's placement doesn't reach a location of a slot that wants all of its world.
    LocationMissed {
        /// The first such slot, from 1.
        slot: u16,
        /// The first such location's index in its world's table.
        place: u32,
    },
    /// A location stands in a sphere where another one is due, or none.
    Wrong {
        /// The sphere, counted from 0.
        sphere: u64,
        /// The first such location.
        place: Spot,
    },
    /// A location that is due isn't in its sphere.
    Missing {
        /// The sphere, counted from 0.
        sphere: u64,
        /// The first such location.
        place: Spot,
    },
}

/// The line where the tables are others.
fn other_line(alloc: Global, slot: SlotId, location: LocId) -> Result<String, Memory>
    ensures { IfOk result (λ t. string_bytes t ≡ check_line (OtherTables slot location)) }
{
    let slot = u64::from(slot.get());
    let location = location.get();
    Ok(format!(in alloc; "check failed: other tables at slot {slot} location {location}\n")?)
}

/// The line where a goal isn't reached.
fn missed_line(alloc: Global, slot: u16) -> Result<String, Memory>
    ensures { IfOk result (λ t. string_bytes t ≡ check_line (GoalMissed slot)) }
{
    let slot = u64::from(slot);
    Ok(format!(in alloc; "check failed: goal of slot {slot}\n")?)
}

/// The line where a location isn't reached.
fn missed_location_line(alloc: Global, slot: u16, place: u32) -> Result<String, Memory>
    ensures { IfOk result (λ t. string_bytes t ≡ check_line (LocationMissed slot place)) }
{
    let slot = u64::from(slot);
    let place = u64::from(place);
    Ok(format!(in alloc; "check failed: location {place} of slot {slot}\n")?)
}

/// A location in a sphere that is counted from 0.
fn place_words(alloc: Global, sphere: u64, place: Spot) -> Result<String, Memory>
    ensures { IfOk result (λ t. string_bytes t ≡ place_text sphere place) }
{
    let number = u128::from(sphere) + 1;
    let slot = u64::from(place.slot);
    let index = u64::from(place.index);
    Ok(format!(in alloc; "{number}: slot {slot} location {index}\n")?)
}

/// The line where a location is wrong in its sphere.
fn wrong_line(alloc: Global, sphere: u64, place: Spot) -> Result<String, Memory>
    ensures { IfOk result (λ t. string_bytes t ≡ check_line (Wrong sphere place)) }
{
    let place = place_words(alloc, sphere, place)?;
    let place = place.as_str();
    Ok(format!(in alloc; "check failed: wrong in sphere {place}")?)
}

/// The line where a location is missing in its sphere.
fn missing_line(alloc: Global, sphere: u64, place: Spot) -> Result<String, Memory>
    ensures { IfOk result (λ t. string_bytes t ≡ check_line (Missing sphere place)) }
{
    let place = place_words(alloc, sphere, place)?;
    let place = place.as_str();
    Ok(format!(in alloc; "check failed: missing in sphere {place}")?)
}

impl Cause for CheckCause {
    ghost use Rattle.mw_causes.specs.CheckCauses.{check_status, check_line};

    ghost status_of = { check_status };

    ghost line_of = { check_line };

    fn status(&self) -> u8 {
        match self {
            CheckCause::Tables { cause } => cause.status(),
            CheckCause::SeedFile { .. } => 7,
            _ => 1,
        }
    }

    fn line(&self, alloc: Global) -> Result<String, Memory> {
        match self {
            CheckCause::Tables { cause } => cause.line(alloc),
            CheckCause::SeedFile { cause } => cause.line(alloc),
            CheckCause::OtherLinks => {
                Ok(String::from_str(alloc, "check failed: other links\n")?)
            }
            CheckCause::OtherTables { slot, location } => other_line(alloc, *slot, *location),
            CheckCause::GoalMissed { slot } => missed_line(alloc, *slot),
            CheckCause::LocationMissed { slot, place } => {
                missed_location_line(alloc, *slot, *place)
            }
            CheckCause::Wrong { sphere, place } => wrong_line(alloc, *sphere, *place),
            CheckCause::Missing { sphere, place } => missing_line(alloc, *sphere, *place),
        }
    }
}

impl From<Stop<TableCause>> for Stop<CheckCause> {
    ghost use Rattle.mw_causes.specs.Ends.{stop_with};
    ghost use Rattle.mw_causes.specs.declared.check_cause.CheckCause.TheVariants.{Tables};

    ghost from_gives = { λ stop e. e ≡ stop_with Tables stop };

    fn from(stop: Stop<TableCause>) -> Self {
        match stop {
            Stop::Fault => Stop::Fault,
            Stop::Memory => Stop::Memory,
            Stop::Refused { cause } => Stop::Refused {
                cause: CheckCause::Tables { cause },
            },
        }
    }
}

impl From<Stop<SeedCause>> for Stop<CheckCause> {
    ghost use Rattle.mw_causes.specs.Ends.{stop_with};
    ghost use Rattle.mw_causes.specs.declared.check_cause.CheckCause.TheVariants.{SeedFile};

    ghost from_gives = { λ stop e. e ≡ stop_with SeedFile stop };

    fn from(stop: Stop<SeedCause>) -> Self {
        match stop {
            Stop::Fault => Stop::Fault,
            Stop::Memory => Stop::Memory,
            Stop::Refused { cause } => Stop::Refused {
                cause: CheckCause::SeedFile { cause },
            },
        }
    }
}

impl From<SeedRefusal> for Stop<CheckCause> {
    ghost use Rattle.mw_causes.specs.CheckCauses.{wrong_stop};

    ghost from_gives = { λ refusal e. e ≡ wrong_stop refusal };

    fn from(refusal: SeedRefusal) -> Self {
        let cause = match refusal {
            SeedRefusal::OtherLinks => CheckCause::OtherLinks,
            SeedRefusal::OtherTables { slot, location } => {
                CheckCause::OtherTables { slot, location }
            }
            SeedRefusal::GoalMissed { slot } => CheckCause::GoalMissed { slot },
            SeedRefusal::LocationMissed { slot, place } => {
                CheckCause::LocationMissed { slot, place }
            }
            SeedRefusal::Wrong { sphere, place } => CheckCause::Wrong { sphere, place },
            SeedRefusal::Missing { sphere, place } => CheckCause::Missing { sphere, place },
            SeedRefusal::Memory => return Stop::Memory,
        };
        Stop::Refused { cause }
    }
}

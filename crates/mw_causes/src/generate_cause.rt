//! Why `generate` makes no seed file.
ghost use Rattle.std.specs.Prelude.{◌≡◌, ◌++◌, IfOk, OnOk, string_bytes};
ghost use Rattle.mw_causes.specs.GenerateCauses.{generate_line, generate_stop};
ghost use Rattle.mw_causes.specs.declared.generate_cause.GenerateCause.TheVariants.{NotBeatable, NotFull, TooManyItems, Exhausted};

use crate::stop::{Cause, Stop};
use crate::table_cause::TableCause;
use mw_base::Memory;
use mw_fill::GenerateError;
use std::alloc::Global;
use std::fmt::Write;

/// Why `generate` makes no seed file.
#[derive(Drop)]
pub enum GenerateCause {
    /// The tables are refused.
    Tables {
        /// The cause.
        cause: TableCause,
    },
    /// A goal doesn't hold with everything in hand.
    NotBeatable {
        /// The first such slot, from 1.
        slot: u16,
    },
    /// A location of a slot that wants all of its world isn't reached with everything in hand.
    NotFull {
        /// The first such slot, from 1.
        slot: u16,
        /// The first such location's index in its world's table.
        place: u32,
    },
    /// Pools and links have more copies than there are locations with an id.
    TooManyItems {
        /// How many copies pools and links have.
        have: u64,
        /// How many locations have an id.
        room: u64,
    },
    /// Each try was stuck.
    Exhausted {
        /// How many tries there were.
        tries: u32,
    },
}

/// The line where a goal can't be met.
fn goal_line(alloc: Global, slot: u16) -> Result<String, Memory>
    ensures { IfOk result (λ t. string_bytes t ≡ generate_line (NotBeatable slot)) }
{
    let slot = u64::from(slot);
    Ok(format!(in alloc; "not beatable: slot {slot}\n")?)
}

/// The line where a location can't be reached.
fn location_line(alloc: Global, slot: u16, place: u32) -> Result<String, Memory>
    ensures { IfOk result (λ t. string_bytes t ≡ generate_line (NotFull slot place)) }
{
    let slot = u64::from(slot);
    let place = u64::from(place);
    Ok(format!(in alloc; "not full: slot {slot} location {place}\n")?)
}

/// Adds the line where there are too many items.
fn add_room(out: &mut String, have: u64, room: u64) -> Result<(), Memory>
    ensures { OnOk result (string_bytes out.new ≡ string_bytes out.old
        ++ generate_line (TooManyItems have room)) }
{
    write!(out, "too many items: {have}")?;
    write!(out, " for {room} places\n")?;
    Ok(())
}

/// The line where there are too many items.
fn room_line(alloc: Global, have: u64, room: u64) -> Result<String, Memory>
    ensures { IfOk result (λ t. string_bytes t ≡ generate_line (TooManyItems have room)) }
{
    let mut out = String::new(alloc);
    add_room(&mut out, have, room)?;
    Ok(out)
}

/// The line where each try is stuck.
fn tries_line(alloc: Global, tries: u32) -> Result<String, Memory>
    ensures { IfOk result (λ t. string_bytes t ≡ generate_line (Exhausted tries)) }
{
    Ok(format!(in alloc; "exhausted after {tries} tries\n")?)
}

impl Cause for GenerateCause {
    ghost use Rattle.mw_causes.specs.GenerateCauses.{generate_status, generate_line};

    ghost status_of = { generate_status };

    ghost line_of = { generate_line };

    fn status(&self) -> u8 {
        match self {
            GenerateCause::Tables { cause } => cause.status(),
            GenerateCause::Exhausted { .. } => 4,
            _ => 3,
        }
    }

    fn line(&self, alloc: Global) -> Result<String, Memory> {
        match self {
            GenerateCause::Tables { cause } => cause.line(alloc),
            GenerateCause::NotBeatable { slot } => goal_line(alloc, *slot),
            GenerateCause::NotFull { slot, place } => location_line(alloc, *slot, *place),
            GenerateCause::TooManyItems { have, room } => room_line(alloc, *have, *room),
            GenerateCause::Exhausted { tries } => tries_line(alloc, *tries),
        }
    }
}

impl From<Stop<TableCause>> for Stop<GenerateCause> {
    ghost use Rattle.mw_causes.specs.Ends.{stop_with};
    ghost use Rattle.mw_causes.specs.declared.generate_cause.GenerateCause.TheVariants.{Tables};

    ghost from_gives = { λ stop e. e ≡ stop_with Tables stop };

    fn from(stop: Stop<TableCause>) -> Self {
        match stop {
            Stop::Fault => Stop::Fault,
            Stop::Memory => Stop::Memory,
            Stop::Refused { cause } => Stop::Refused {
                cause: GenerateCause::Tables { cause },
            },
        }
    }
}

/// A refusal of so many tries as a stop: want of memory is that, and each other one a cause of
/// `generate`'s own.
pub fn refusal_stop(error: GenerateError, tries: u32) -> Stop<GenerateCause>
    ensures { result ≡ generate_stop tries error }
{
    let cause = match error {
        GenerateError::NotBeatable { slot } => GenerateCause::NotBeatable { slot },
        GenerateError::NotFull { slot, place } => GenerateCause::NotFull { slot, place },
        GenerateError::TooManyItems { have, room } => GenerateCause::TooManyItems { have, room },
        GenerateError::Exhausted => GenerateCause::Exhausted { tries },
        GenerateError::Memory => return Stop::Memory,
    };
    Stop::Refused { cause }
}

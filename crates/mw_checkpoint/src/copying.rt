ghost use Rattle.std.specs.Prelude.{◌≡◌, IfOk};
ghost use Rattle.mw_records.specs.Records.{record_view};

use mw_base::{List, LocId, Memory, Text};
use mw_json::copy;
use mw_records::{CheckedLocations, Record, Stored};
use std::alloc::Global;

/// A copy of locations.
fn copy_locations(alloc: Global, locations: &[LocId]) -> Result<List<LocId>, Memory>
    ensures { IfOk result (λ copied. copied ≡ locations.now) }
{
    let mut copied = Vec::with_capacity(alloc, locations.len())?;
    copied.extend_from_slice(locations)?;
    Ok(List::from_vec(copied))
}

/// A copy of what a slot checked.
fn copy_checks(alloc: Global, checked: &CheckedLocations) -> Result<CheckedLocations, Memory>
    ensures { IfOk result (λ copied. copied ≡ checked.now) }
{
    Ok(CheckedLocations {
        team: checked.team,
        slot: checked.slot,
        locations: copy_locations(alloc, checked.locations.as_slice())?,
    })
}

/// A copy of a key and what it holds.
fn copy_stored(alloc: Global, stored: &Stored) -> Result<Stored, Memory>
    ensures { IfOk result (λ copied. copied ≡ stored.now) }
{
    Ok(Stored {
        key: Text::of(alloc, stored.key.as_str())?,
        value: copy(alloc, &stored.value)?,
    })
}

/// A copy of a record.
pub(crate) fn copy_record(alloc: Global, record: &Record) -> Result<Record, Memory>
    ensures { IfOk result (λ copied. record_view copied ≡ record_view record.now) }
{
    match record {
        Record::Checks(checked) => Ok(Record::Checks(copy_checks(alloc, checked)?)),
        Record::Release { team, slot } => Ok(Record::Release {
            team: *team,
            slot: *slot,
        }),
        Record::Collect { team, slot } => Ok(Record::Collect {
            team: *team,
            slot: *slot,
        }),
        Record::Status { team, slot, status } => Ok(Record::Status {
            team: *team,
            slot: *slot,
            status: *status,
        }),
        Record::Hint(hint) => Ok(Record::Hint(*hint)),
        Record::Store(stored) => Ok(Record::Store(copy_stored(alloc, stored)?)),
    }
}

ghost use Rattle.mw_records.specs.Reading.{Gives, checks_at, collect_at, hint_named, kind_named, made_at, marked_at, record_at, release_at, status_at, store_at};
ghost use Rattle.mw_records.specs.Records.{record_view};

use crate::checked::CheckedLocations;
use crate::fields::{byte_of, client_status_of, hint_status_of};
use crate::parts::{locations_of, place_of, target_of, terms_of};
use crate::record::Record;
use crate::stop::Stop;
use crate::stored::Stored;
use crate::texts::{key_of, value_in};
use mw_base::HintRecord;
use std::alloc::Global;

#[tactic(auto, unfolding(crate::specs::Reading::checks_at))]
fn checks_of(alloc: Global, bytes: &mut &[u8]) -> Result<Record, Stop>
    ensures { Gives (λ x. (record_view x, bytes.new.now)) result (checks_at bytes.old.now) }
{
    let (team, slot) = place_of(bytes)?;
    let locations = locations_of(alloc, bytes)?;
    Ok(Record::Checks(CheckedLocations {
        team,
        slot,
        locations,
    }))
}

#[tactic(auto, unfolding(crate::specs::Reading::release_at))]
fn release_of(bytes: &mut &[u8]) -> Result<Record, Stop>
    ensures { Gives (λ x. (record_view x, bytes.new.now)) result (release_at bytes.old.now) }
{
    let (team, slot) = place_of(bytes)?;
    Ok(Record::Release { team, slot })
}

#[tactic(auto, unfolding(crate::specs::Reading::collect_at))]
fn collect_of(bytes: &mut &[u8]) -> Result<Record, Stop>
    ensures { Gives (λ x. (record_view x, bytes.new.now)) result (collect_at bytes.old.now) }
{
    let (team, slot) = place_of(bytes)?;
    Ok(Record::Collect { team, slot })
}

#[tactic(auto, unfolding(crate::specs::Reading::status_at))]
fn status_of(bytes: &mut &[u8]) -> Result<Record, Stop>
    ensures { Gives (λ x. (record_view x, bytes.new.now)) result (status_at bytes.old.now) }
{
    let (team, slot) = place_of(bytes)?;
    let status = client_status_of(bytes)?;
    Ok(Record::Status { team, slot, status })
}

#[tactic(auto, unfolding(crate::specs::Reading::made_at))]
fn made_of(bytes: &mut &[u8]) -> Result<Record, Stop>
    ensures { Gives (λ x. (record_view x, bytes.new.now)) result (made_at bytes.old.now) }
{
    let ((team, finder), loc) = target_of(bytes)?;
    let ((bought, buyer), status) = terms_of(bytes)?;
    Ok(Record::Hint(HintRecord::Made {
        team,
        finder,
        loc,
        bought,
        buyer,
        status,
    }))
}

#[tactic(auto, unfolding(crate::specs::Reading::marked_at))]
fn marked_of(bytes: &mut &[u8]) -> Result<Record, Stop>
    ensures { Gives (λ x. (record_view x, bytes.new.now)) result (marked_at bytes.old.now) }
{
    let ((team, finder), loc) = target_of(bytes)?;
    let status = hint_status_of(bytes)?;
    Ok(Record::Hint(HintRecord::Marked {
        team,
        finder,
        loc,
        status,
    }))
}

#[tactic(auto, unfolding(crate::specs::Reading::store_at))]
fn store_of(alloc: Global, bytes: &mut &[u8]) -> Result<Record, Stop>
    ensures { Gives (λ x. (record_view x, bytes.new.now)) result (store_at bytes.old.now) }
{
    let key = key_of(alloc, bytes)?;
    let value = value_in(alloc, bytes)?;
    Ok(Record::Store(Stored { key, value }))
}

/// Hints and values, by their kinds.
fn hint_by(alloc: Global, kind: u8, bytes: &mut &[u8]) -> Result<Record, Stop>
    ensures { Gives (λ x. (record_view x, bytes.new.now)) result (hint_named kind bytes.old.now) }
{
    match kind {
        5 => made_of(bytes),
        6 => marked_of(bytes),
        7 => store_of(alloc, bytes),
        _ => Err(Stop::Bad),
    }
}

fn kind_by(alloc: Global, kind: u8, bytes: &mut &[u8]) -> Result<Record, Stop>
    ensures { Gives (λ x. (record_view x, bytes.new.now)) result (kind_named kind bytes.old.now) }
{
    match kind {
        1 => checks_of(alloc, bytes),
        2 => release_of(bytes),
        3 => collect_of(bytes),
        4 => status_of(bytes),
        _ => hint_by(alloc, kind, bytes),
    }
}

/// The record whose spelling begins the bytes.
#[tactic(auto, unfolding(crate::specs::Reading::record_at))]
pub(crate) fn record_of(alloc: Global, bytes: &mut &[u8]) -> Result<Record, Stop>
    ensures { Gives (λ x. (record_view x, bytes.new.now)) result (record_at bytes.old.now) }
{
    let kind = byte_of(bytes)?;
    kind_by(alloc, kind, bytes)
}

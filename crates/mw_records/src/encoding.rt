ghost use Rattle.std.specs.Prelude.{◌≡◌, ◌++◌, ◌∷◌, [], ◌<◌, ◌^◌, IsTrue, OnOk, OnErr, length};
ghost use Rattle.std.specs.List.{AllByRecursion};
ghost use Rattle.std.specs.Int.{w16, to_be_bytes};
ghost use Rattle.mw_model.specs.Spelling.{spelling};
ghost use Rattle.mw_model.specs.Statuses.{is_hint_status};
ghost use Rattle.mw_protocol.specs.Spelled.{flag_byte, location_bytes, locations_bytes, place_bytes, record_bytes, target_bytes, text_bytes, AreLocations, IsKey, IsLocation, IsPlace, IsRecord, IsSlot, IsTarget, IsValue};
ghost use Rattle.mw_records.specs.Records.{hint_view, record_view};

use crate::checked::CheckedLocations;
use crate::record::Record;
use crate::stored::Stored;
use mw_base::{Bytes, HintRecord, HintStatus, LocId, Memory, SlotId, TeamId};
use mw_json::compact;
use std::alloc::Global;

/// A team and a slot.
fn put_place(out: &mut Vec<u8>, team: TeamId, slot: SlotId) -> Result<(), Memory>
    ensures bytes { OnOk result (out.new.items ≡ out.old.items ++ place_bytes team slot) }
    ensures place { OnOk result (IsPlace team slot) }
{
    out.push(team.get())?;
    out.extend_from_slice(&slot.get().to_be_bytes())?;
    Ok(())
}

/// A location.
fn put_location(out: &mut Vec<u8>, loc: LocId) -> Result<(), Memory>
    ensures bytes { OnOk result (out.new.items ≡ out.old.items ++ location_bytes loc) }
    ensures location { OnOk result (IsLocation loc) }
{
    let number = loc.get() as u64;
    out.extend_from_slice(&number.to_be_bytes())?;
    Ok(())
}

/// Locations, with their number. More than fit it are refused for want of memory.
fn put_locations(out: &mut Vec<u8>, locations: &[LocId]) -> Result<(), Memory>
    ensures bytes { OnOk result (out.new.items ≡ out.old.items ++ locations_bytes locations.now) }
    ensures few { OnOk result (length locations.now < 2 ^ 32) }
    ensures each { OnOk result (AllByRecursion IsLocation locations.now) }
{
    let count = u32::try_from(locations.len()).ok().ok_or(Memory)?;
    out.extend_from_slice(&count.to_be_bytes())?;
    for location in locations {
        put_location(out, *location)?;
    }
    Ok(())
}

/// A kind, and a location of a finder in a team.
fn put_target(
    out: &mut Vec<u8>,
    kind: u8,
    team: TeamId,
    finder: SlotId,
    loc: LocId,
) -> Result<(), Memory>
    ensures bytes { OnOk result (out.new.items ≡ out.old.items
        ++ kind ∷ target_bytes team finder loc) }
    ensures target { OnOk result (IsTarget team finder loc) }
{
    out.push(kind)?;
    put_place(out, team, finder)?;
    put_location(out, loc)
}

/// Whether a hint was paid for, by whom, and its status.
fn put_terms(
    out: &mut Vec<u8>,
    bought: bool,
    buyer: SlotId,
    status: HintStatus,
) -> Result<(), Memory>
    ensures bytes { OnOk result (out.new.items ≡ out.old.items
        ++ flag_byte bought ∷ to_be_bytes w16 buyer ++ status ∷ []) }
    ensures terms { OnOk result (IsSlot buyer × IsTrue (is_hint_status status)) }
{
    out.push(u8::from(bought))?;
    out.extend_from_slice(&buyer.get().to_be_bytes())?;
    out.push(status.get())?;
    Ok(())
}

/// A text, with its length.
fn put_text(out: &mut Vec<u8>, text: &[u8]) -> Result<(), Memory>
    requires { length text.now < 2 ^ 32 }
    ensures { OnOk result (out.new.items ≡ out.old.items ++ text_bytes text.now) }
{
    let len = text.len() as u32;
    out.extend_from_slice(&len.to_be_bytes())?;
    out.extend_from_slice(text)?;
    Ok(())
}

/// A hint that is made, or marked.
fn put_hint(out: &mut Vec<u8>, entry: &HintRecord) -> Result<(), Memory>
    ensures bytes { OnOk result (out.new.items ≡ out.old.items
        ++ record_bytes (hint_view entry.now)) }
    ensures is_record { OnOk result (IsRecord (hint_view entry.now)) }
{
    match entry {
        HintRecord::Made {
            team,
            finder,
            loc,
            bought,
            buyer,
            status,
        } => {
            put_target(out, 5, *team, *finder, *loc)?;
            put_terms(out, *bought, *buyer, *status)
        }
        HintRecord::Marked {
            team,
            finder,
            loc,
            status,
        } => {
            put_target(out, 6, *team, *finder, *loc)?;
            out.push(status.get())?;
            Ok(())
        }
    }
}

/// What a slot of a team checked.
fn put_checks(out: &mut Vec<u8>, checked: &CheckedLocations) -> Result<(), Memory>
    ensures bytes { OnOk result (out.new.items ≡ out.old.items
        ++ 1 ∷ place_bytes checked.now.team checked.now.slot
        ++ locations_bytes checked.now.locations) }
    ensures place { OnOk result (IsPlace checked.now.team checked.now.slot) }
    ensures locations { OnOk result (AreLocations checked.now.locations) }
{
    out.push(1)?;
    put_place(out, checked.team, checked.slot)?;
    put_locations(out, checked.locations.as_slice())
}

/// A key, and what it holds.
fn put_stored(alloc: Global, out: &mut Vec<u8>, stored: &Stored) -> Result<(), Memory>
    ensures bytes { OnOk result (out.new.items ≡ out.old.items
        ++ 7 ∷ text_bytes stored.now.key ++ text_bytes (spelling stored.now.value)) }
    ensures key { OnOk result (IsKey stored.now.key) }
    ensures value { OnOk result (IsValue stored.now.value) }
{
    let key = stored.key.as_str();
    let value = compact(alloc, &stored.value)?;
    out.push(7)?;
    put_text(out, key.as_bytes())?;
    put_text(out, value.as_slice())
}

/// A kind, and a slot of a team.
fn put_kind(out: &mut Vec<u8>, kind: u8, team: TeamId, slot: SlotId) -> Result<(), Memory>
    ensures bytes { OnOk result (out.new.items ≡ out.old.items ++ kind ∷ place_bytes team slot) }
    ensures place { OnOk result (IsPlace team slot) }
{
    out.push(kind)?;
    put_place(out, team, slot)
}

/// A record.
fn put_record(alloc: Global, out: &mut Vec<u8>, entry: &Record) -> Result<(), Memory>
    ensures bytes { OnOk result (out.new.items ≡ out.old.items
        ++ record_bytes (record_view entry.now)) }
    ensures is_record { OnOk result (IsRecord (record_view entry.now)) }
{
    match entry {
        Record::Checks(checked) => put_checks(out, checked),
        Record::Release { team, slot } => put_kind(out, 2, *team, *slot),
        Record::Collect { team, slot } => put_kind(out, 3, *team, *slot),
        Record::Status { team, slot, status } => {
            put_kind(out, 4, *team, *slot)?;
            out.push(status.get())?;
            Ok(())
        }
        Record::Hint(hint) => put_hint(out, hint),
        Record::Store(stored) => put_stored(alloc, out, stored),
    }
}

/// Puts the spelling of a record at the end of the bytes: its kind and its fields, numbers with
/// their highest byte first. After `Memory`, which also tells of 2^32 locations or more in one
/// record, the bytes are as before.
pub fn encode(alloc: Global, entry: &Record, into: &mut Bytes) -> Result<(), Memory>
    ensures ok { OnOk result (into.new ≡ into.old ++ record_bytes (record_view entry.now)) }
    ensures is_record { OnOk result (IsRecord (record_view entry.now)) }
    ensures err { OnErr result (into.new ≡ into.old) }
{
    let mut spelled = Vec::new(alloc);
    put_record(alloc, &mut spelled, entry)?;
    let mut bytes = std::mem::replace(into, Bytes::new(alloc)).into_vec();
    let grown = bytes.append(&mut spelled);
    *into = Bytes::from_vec(bytes);
    grown?;
    Ok(())
}

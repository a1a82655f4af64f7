ghost use Rattle.std.specs.Prelude.{◌≡◌, ◌++◌, Err, ℕ, List, IfOk, Some};
ghost use Rattle.mw_model.specs.Json.{Json, IsPlain};
ghost use Rattle.mw_model.specs.Spelling.{spelling};
ghost use Rattle.mw_json.specs.KeptReading.{kept_reading};
ghost use Rattle.mw_json.specs.Reading.{reading};
ghost use Rattle.mw_protocol.specs.Records as plain;
ghost use Rattle.mw_protocol.specs.Spelled.{record_bytes, Begins, IsRecord, IsValue, Spells};
ghost use Rattle.mw_records.specs.Records.{record_view};
ghost use Rattle.mw_records.specs.declared.error.RecordError.TheVariants as errors;

use crate::error::RecordError;
use crate::kinds::record_of;
use crate::record::Record;
use crate::stop::Stop;
use std::alloc::Global;

/// The record whose spelling begins at a place of the bytes, and the place after it. `BadRecord`
/// tells that place where no spelling begins there, which is so past the end too.
pub fn decode(alloc: Global, bytes: &[u8], at: u64) -> Result<(Record, u64), RecordError>
    ensures found { IfOk result (λ x. Spells bytes.now at x.1 (record_view x.0)) }
    ensures bad { (p : ℕ) → result ≡ Err (errors.BadRecord p)
        → (p ≡ at) × ((r : plain.Record) → Begins bytes.now at r → ⊥) }
{
    let start = at as usize;
    if start > bytes.len() {
        return Err(RecordError::BadRecord { at });
    }
    let (_, mut rest) = bytes.split_at(start);
    match record_of(alloc, &mut rest) {
        Ok(record) => Ok((record, (bytes.len() - rest.len()) as u64)),
        Err(Stop::Bad) => Err(RecordError::BadRecord { at }),
        Err(Stop::Memory) => Err(RecordError::Memory),
    }
}

/// No record's spelling begins another's. So at one place at most one record begins, and it ends
/// at one place.
pub fn one_spelling()
    ensures { (r s : plain.Record) (x y : List ℕ) → IsRecord r → IsRecord s
        → record_bytes r ++ x ≡ record_bytes s ++ y → (r ≡ s) × (x ≡ y) }
{}

/// The compact text of a value without numerals is read as that value, with numerals or without
/// them: so a journal that holds none means what it means to a reader that knows none.
pub fn plain_values_stay()
    ensures { (value : Json) → IsValue value → IsPlain value
        → (reading (spelling value) ≡ Some value) × (kept_reading (spelling value) ≡ Some value) }
{}

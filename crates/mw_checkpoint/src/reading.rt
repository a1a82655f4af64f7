ghost use Rattle.std.specs.Prelude.{◌≡◌, IfErr, IfOk, map};
ghost use Rattle.mw_protocol.specs.Spelled.{records_bytes};
ghost use Rattle.mw_records.specs.Records.{record_view};
ghost use Rattle.mw_checkpoint.specs.Whole.{AreRecords, RefusesWhole};

use mw_base::{Bytes, List, Memory};
use mw_records::{Record, RecordError, decode, encode};
use std::alloc::Global;

/// The records of a journal's text, one after another. `BadRecord` tells the first place at which
/// none begins.
pub(crate) fn records_of(alloc: Global, text: &[u8]) -> Result<List<Record>, RecordError>
    ensures whole { IfOk result (λ records.
        text.now ≡ records_bytes (map record_view records)) }
    ensures records { IfOk result (λ records. AreRecords (map record_view records)) }
    ensures refused { IfErr result (RefusesWhole text.now) }
{
    let mut records = List::new(alloc);
    let mut at = 0;
    while (at as usize) < text.len() {
        match decode(alloc, text, at) {
            Ok((record, next)) => {
                records.push(record)?;
                at = next;
            }
            Err(error) => return Err(error),
        }
    }
    Ok(records)
}

/// The spellings of records, one after another.
pub(crate) fn spelled(alloc: Global, records: &[Record]) -> Result<Bytes, Memory>
    ensures { IfOk result (λ bytes. bytes ≡ records_bytes (map record_view records.now)) }
{
    let mut bytes = Bytes::new(alloc);
    for record in records {
        encode(alloc, record, &mut bytes)?;
    }
    Ok(bytes)
}

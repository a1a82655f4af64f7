ghost use Rattle.std.specs.Prelude.{◌≡◌, IfOk, map};
ghost use Rattle.mw_records.specs.Records.{record_view};
ghost use Rattle.mw_thinning.specs.Thinning.{thinned};

use crate::copying::copy_record;
use crate::keys::Keys;
use mw_base::{List, Memory};
use mw_records::Record;
use std::alloc::Global;

/// The records without each that stores a value under a key under which a later one does. Each
/// record is looked at once.
pub fn thin(alloc: Global, records: &List<Record>) -> Result<List<Record>, Memory>
    ensures { IfOk result (λ kept. map record_view kept
        ≡ thinned (map record_view records.now)) }
{
    let records = records.as_slice();
    let mut met = Keys::new(alloc);
    let mut kept = Vec::new(alloc);
    let mut left = records.len();
    while left > 0 {
        left -= 1;
        let record = &records[left];
        if met.counts(record)? {
            kept.push(copy_record(alloc, record)?)?;
        }
    }
    kept.reverse();
    Ok(List::from_vec(kept))
}

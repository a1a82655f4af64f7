ghost use Rattle.std.specs.Prelude.{◌≡◌, ◌≤◌, ◌++◌, [], ℕ, List, OnOk, OnErr, None, is_some, map};
ghost use Rattle.mw_protocol.specs.Records as plain;
ghost use Rattle.mw_protocol.specs.Spelled.{records_bytes};
ghost use Rattle.mw_records.specs.Records.{record_view};
ghost use Rattle.mw_journal.specs.Journal.{disk_of};
ghost use Rattle.mw_keep.specs.Appends.{Appends};
ghost use Rattle.mw_keep.specs.Holds.{AreRecords, Holds};

use mw_base::{Bytes, Memory};
use mw_disk::Disk;
use mw_journal::{AppendError, Journal};
use mw_records::{Record, encode};
use std::alloc::Global;
use std::mem;

/// Puts bytes at the end of others. After `Memory` these are as before.
fn put_behind(alloc: Global, pending: &mut Bytes, more: Bytes) -> Result<(), Memory>
    ensures ok { OnOk result (pending.new ≡ pending.old ++ more) }
    ensures err { OnErr result (pending.new ≡ pending.old) }
{
    let mut bytes = mem::replace(pending, Bytes::new(alloc)).into_vec();
    let grown = bytes.append(&mut more.into_vec());
    *pending = Bytes::from_vec(bytes);
    grown?;
    Ok(())
}

/// Puts the spellings of records, one after another, at the end of what is pending, and takes the
/// larger buffer for it. After `Memory` that is as before.
pub fn spell(alloc: Global, records: &[Record], pending: &mut Bytes) -> Result<(), Memory>
    ensures ok { OnOk result (pending.new ≡ pending.old
        ++ records_bytes (map record_view records.now)) }
    ensures records { OnOk result (AreRecords (map record_view records.now)) }
    ensures err { OnErr result (pending.new ≡ pending.old) }
{
    if records.is_empty() {
        return Ok(());
    }
    let mut bytes = Bytes::new(alloc);
    for record in records {
        encode(alloc, record, &mut bytes)?;
    }
    put_behind(alloc, pending, bytes)
}

/// Appends what is pending as one batch, where something is.
pub fn append<D: Disk>(journal: &mut Journal<D>, pending: &Bytes) -> Result<(), AppendError>
    ensures appends { (digest : List ℕ) (kept records : List plain.Record) (place : ℕ)
        → pending.now ≡ records_bytes records
        → Holds D.may_leave digest kept records place None journal.old
        → Appends D.may_leave D.moment D.left_since D.faults digest kept records place
        journal.old result journal.new }
    ensures quiet { pending.now ≡ [] → journal.new ≡ journal.old }
    ensures tells { is_some (D.told (disk_of journal.new))
        ≡ is_some (D.told (disk_of journal.old)) }
    ensures count { D.faults (disk_of journal.old) ≤ D.faults (disk_of journal.new) }
{
    if pending.as_slice().is_empty() {
        return Ok(());
    }
    journal.append_batch(pending)
}

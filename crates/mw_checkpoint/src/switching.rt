ghost use Rattle.std.specs.Prelude.{◌≡◌, ◌≤◌, ◌^◌, ◌++◌, ◌∷◌, [], ◌⊎◌, List, ℕ, IfOk, IfErr, OnOk, Some, is_some};
ghost use Rattle.mw_disk.specs.Crash.{LeavesOnly};
ghost use Rattle.mw_journal.specs.Settled.{IsSettled};
ghost use Rattle.mw_protocol.specs.Records.{Record as PlainRecord};
ghost use Rattle.mw_thinning.specs.Thinning.{thinned};
ghost use Rattle.mw_checkpoint.specs.Chosen.{files_left};
ghost use Rattle.mw_checkpoint.specs.Disks.{disk_then};
ghost use Rattle.mw_checkpoint.specs.Pair.{HasPrepared, HoldsText, IsPrepared, PairStands};
ghost use Rattle.mw_checkpoint.specs.Switching.{IsLength, IsOutsideOrFull, RefusesSwitch};

use crate::appending::append;
use crate::error::{PairError, choice_error, pair_error};
use crate::files::Files;
use crate::prepared::Prepared;
use mw_base::{Bytes, Memory};
use mw_disk::Disk;
use mw_journal::open;
use std::alloc::Global;

/// How many records were kept of how many.
#[derive(Clone, Copy, Debug, PartialEq, Eq)]
pub struct Kept {
    /// The records that still count.
    pub kept: u64,
    /// All records.
    pub of: u64,
}

/// One byte.
fn one_byte(alloc: Global, byte: u8) -> Result<Bytes, Memory>
    ensures { IfOk result (λ bytes. bytes ≡ byte ∷ []) }
{
    let mut bytes = Bytes::new(alloc);
    bytes.push(byte)?;
    Ok(bytes)
}

/// Opens CHOICE, and appends a byte to it.
fn name<D: Disk>(
    alloc: Global,
    choice: D,
    digest: &[u8; 32],
    number: u8,
) -> Result<D, (D, PairError)>
    ensures any_moment { (text : List ℕ) → HoldsText D.may_leave digest.now text choice
        → LeavesOnly D.moment D.left_since choice (disk_then result)
        (λ c. IsSettled c digest.now text (number ∷ [])) }
    ensures ok { IfOk result (λ d. (text : List ℕ) → HoldsText D.may_leave digest.now text choice
        → HoldsText D.may_leave digest.now (text ++ number ∷ []) d) }
    ensures room { OnOk result ((len : ℕ) × (len ≤ 2 ^ 30)
        × IsLength (D.told choice) digest.now len) }
    ensures refused { IfErr result (λ e. RefusesSwitch (D.told choice) digest.now
        (D.faults choice) (D.faults e.0) e.1) }
    ensures settled { IfErr result (λ e. (f text : List ℕ) → D.told choice ≡ Some f
        → HoldsText D.may_leave digest.now text choice → IsOutsideOrFull e.1) }
    ensures tells { is_some (D.told (disk_then result)) ≡ is_some (D.told choice) }
    ensures count { D.faults choice ≤ D.faults (disk_then result) }
{
    let bytes = match one_byte(alloc, number) {
        Ok(bytes) => bytes,
        Err(Memory) => return Err((choice, PairError::Memory)),
    };
    match open(alloc, choice, digest) {
        Ok((journal, _text)) => match append(journal, &bytes) {
            Ok(choice) => Ok(choice),
            Err((choice, error)) => Err((choice, choice_error(error))),
        },
        Err((choice, error)) => Err((choice, pair_error(0, error))),
    }
}

/// Switches to the other journal: opens CHOICE and appends its number to it. The journals aren't
/// touched.
///
/// At each moment of the call a crash leaves of the three files what stands for all records, or for
/// those that count; and after Ok for these.
///
/// `ChoiceFull` comes exactly where CHOICE would pass 1,073,741,824 bytes. `DiskFault` comes only
/// where its disk's count rose. On a disk that tells its bytes there is no other error but
/// `Memory`.
pub fn switch<D: Disk>(
    alloc: Global,
    prepared: Prepared<D>,
) -> Result<(Files<D>, Kept), (Files<D>, PairError)>
    ensures prepared { HasPrepared D.may_leave prepared }
    ensures kept { IfOk result (λ r. (r.1.kept ≡ prepared.kept) × (r.1.of ≡ prepared.of)) }
    ensures journals { ((files_left result).zero ≡ prepared.files.zero)
        × ((files_left result).one ≡ prepared.files.one) }
    ensures any_moment { (text : List ℕ) (records : List PlainRecord)
        → IsPrepared D.may_leave text records prepared
        → LeavesOnly D.moment D.left_since prepared.files.choice (files_left result).choice
        (λ c. IsSettled c prepared.digest text (prepared.other ∷ [])) }
    ensures pairs { (text : List ℕ) (records : List PlainRecord)
        → IsPrepared D.may_leave text records prepared → (c first second : List ℕ)
        → D.left_since (files_left result).choice (D.moment prepared.files.choice) c
        → D.may_leave prepared.files.zero first → D.may_leave prepared.files.one second
        → PairStands c first second prepared.digest records
        ⊎ PairStands c first second prepared.digest (thinned records) }
    ensures ok { IfOk result (λ r. (text : List ℕ) (records : List PlainRecord)
        → IsPrepared D.may_leave text records prepared
        → HoldsText D.may_leave prepared.digest (text ++ prepared.other ∷ []) r.0.choice) }
    ensures switched { IfOk result (λ r. (text : List ℕ) (records : List PlainRecord)
        → IsPrepared D.may_leave text records prepared → (c first second : List ℕ)
        → D.may_leave r.0.choice c → D.may_leave r.0.zero first → D.may_leave r.0.one second
        → PairStands c first second prepared.digest (thinned records)) }

    ensures room { OnOk result ((len : ℕ) × (len ≤ 2 ^ 30)
        × IsLength (D.told prepared.files.choice) prepared.digest len) }
    ensures refused { IfErr result (λ e. RefusesSwitch (D.told prepared.files.choice)
        prepared.digest (D.faults prepared.files.choice) (D.faults e.0.choice) e.1) }
    ensures settled { IfErr result (λ e. (f : List ℕ) → D.told prepared.files.choice ≡ Some f
        → IsOutsideOrFull e.1) }
    ensures tells { is_some (D.told (files_left result).choice)
        ≡ is_some (D.told prepared.files.choice) }
    ensures count { D.faults prepared.files.choice ≤ D.faults (files_left result).choice }
{
    let Prepared {
        files,
        digest,
        other,
        kept,
        of,
    } = prepared;
    let Files { choice, zero, one } = files;
    match name(alloc, choice, &digest, other) {
        Ok(choice) => Ok((Files { choice, zero, one }, Kept { kept, of })),
        Err((choice, error)) => Err((Files { choice, zero, one }, error)),
    }
}

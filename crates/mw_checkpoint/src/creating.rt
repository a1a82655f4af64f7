ghost use Rattle.std.specs.Prelude.{◌≡◌, ◌≤◌, IfOk, IfErr, MatchResult, OnOk, is_some};
ghost use Rattle.mw_checkpoint.specs.Created.{ArePairEmpty, HasNone, IsEmpty, IsStopped, IsUnmade, OnEach};

use crate::error::{PairError, pair_error};
use crate::files::Files;
use mw_disk::Disk;
use mw_journal::create;
use std::alloc::Global;

/// Makes an empty journal on the disk of a place.
fn create_at<D: Disk>(
    alloc: Global,
    place: u8,
    disk: D,
    digest: &[u8; 32],
) -> Result<D, (D, PairError)>
    ensures ok { IfOk result (IsEmpty D.may_leave digest.now) }
    ensures empty { OnOk result (HasNone D.told disk) }
    ensures tells { IfOk result (λ d. is_some (D.told d) ≡ is_some (D.told disk)) }
    ensures unmade { IfErr result (λ e. IsUnmade D.told D.may_leave D.moment D.left_since D.faults
        place disk e.0 e.1) }
    ensures count { MatchResult result (λ d. D.faults disk ≤ D.faults d)
        (λ e. D.faults disk ≤ D.faults e.0) }
{
    match create(alloc, disk, digest) {
        Ok(journal) => Ok(journal.into_disk()),
        Err((disk, error)) => Err((disk, pair_error(place, error))),
    }
}

/// Makes three empty journals of a seed file's digest on three disks without bytes, in the order of
/// the fields. The first one that isn't made is the last that is touched.
///
/// `NotEmpty` comes exactly where a byte stands, and then nothing is written on that disk.
/// `DiskFault` comes only where that disk's count rose.
pub fn create_pair<D: Disk>(
    alloc: Global,
    files: Files<D>,
    digest: &[u8; 32],
) -> Result<Files<D>, (Files<D>, PairError)>
    ensures ok { IfOk result (ArePairEmpty D.may_leave digest.now) }
    ensures empty { IfOk result (OnEach (λ before after. HasNone D.told before) files) }
    ensures tells { IfOk result (OnEach (λ before after.
        is_some (D.told after) ≡ is_some (D.told before)) files) }
    ensures stopped { IfErr result (λ e. IsStopped D.told D.may_leave D.moment D.left_since
        D.faults digest.now files e.0 e.1) }
    ensures count { MatchResult result
        (OnEach (λ before after. D.faults before ≤ D.faults after) files)
        (λ e. OnEach (λ before after. D.faults before ≤ D.faults after) files e.0) }
{
    let Files { choice, zero, one } = files;
    let choice = match create_at(alloc, 0, choice, digest) {
        Ok(choice) => choice,
        Err((choice, error)) => return Err((Files { choice, zero, one }, error)),
    };
    let zero = match create_at(alloc, 1, zero, digest) {
        Ok(zero) => zero,
        Err((zero, error)) => return Err((Files { choice, zero, one }, error)),
    };
    match create_at(alloc, 2, one, digest) {
        Ok(one) => Ok(Files { choice, zero, one }),
        Err((one, error)) => Err((Files { choice, zero, one }, error)),
    }
}

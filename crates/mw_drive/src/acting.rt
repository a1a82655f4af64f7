ghost use Rattle.std.specs.Prelude.{◌≡◌, ◌≤◌, IfOk, IfErr, IfSome, is_some, ◌∷◌, []};
ghost use Rattle.mw_keep.specs.Keeps.{kept_disk};
ghost use Rattle.mw_keep.specs.Views.{call_view, cause_view, reply_view};
ghost use Rattle.mw_drive.specs.Calls.{error_for, failure, Does, IsOutside, StopsAmong};

use crate::error::DriveError;
use mw_disk::Disk;
use mw_keep::{Call, KeptRoom, Reply, StopCause};

/// The error of a room that has stopped.
pub fn stop_error(cause: StopCause) -> DriveError
    ensures is { result ≡ error_for (cause_view cause) }
    ensures own { IsOutside result }
{
    match cause {
        StopCause::DiskFault => DriveError::Fault,
        StopCause::JournalFull { .. } | StopCause::TooManyCalls { .. } => DriveError::Full,
    }
}

/// The error of a reply, if its call isn't done.
fn failure_of(reply: &Reply) -> Option<DriveError>
    ensures is { result ≡ failure (reply_view reply.now) }
    ensures own { IfSome result IsOutside }
{
    match reply {
        Reply::Stopped(cause) => Some(stop_error(*cause)),
        Reply::Memory => Some(DriveError::Memory),
        Reply::Opened(_) | Reply::Done | Reply::Messages(_) | Reply::Gone | Reply::Overrun => None,
    }
}

/// Makes a call, and answers its reply, unless the room has stopped or memory ran out.
pub(crate) fn act<D: Disk>(kept: &mut KeptRoom<D>, call: Call) -> Result<Reply, DriveError>
    ensures ok { IfOk result (λ reply. Does D.may_leave kept.old (call_view call)
        (reply_view reply) kept.new) }
    ensures err { IfErr result (λ error. StopsAmong D.may_leave D.faults kept.old
        (call_view call ∷ []) error kept.new) }
    ensures own { IfErr result IsOutside }
    ensures tells { is_some (D.told (kept_disk kept.new)) ≡ is_some (D.told (kept_disk kept.old)) }
    ensures count { D.faults (kept_disk kept.old) ≤ D.faults (kept_disk kept.new) }
{
    let reply = kept.act(call);
    match failure_of(&reply) {
        Some(error) => Err(error),
        None => Ok(reply),
    }
}

//! The room of `stress`: its calls, made one after the other, and what the sessions take.
ghost use Rattle.std.specs.Prelude.{◌≡◌, ◌<◌, ◌≤◌, ◌++◌, ◌∷◌, [], ℕ, List, IfOk, IfErr, OnOk, None, Some, IsTrue, map};
ghost use Rattle.mw_model.specs.Seed.{Seed};
ghost use Rattle.mw_protocol.specs.Lives.{Life, Reply as Plain};
ghost use Rattle.mw_keep.specs.Keeps.{Keeps, kept_disk};
ghost use Rattle.mw_keep.specs.Views.{call_view, reply_view};
ghost use Rattle.mw_drive.specs.Calls.{Does, IsOutside, StopsAmong, failure};
ghost use Rattle.mw_drive.specs.Drive.{stop};
ghost use Rattle.mw_drive.specs.Left.{IsGoing};
ghost use Rattle.mw_offline.specs.Stressing.{all_calls, all_taken, first_life, taken_by as taken_by_lem, taker as taker_lem, texts_of};

use crate::creating::create_on;
use crate::stress_calls::calls_of;
use mw_base::{Bytes, List, Memory, SessionId, Text};
use mw_disk::{Disk, SteadyDisk};
use mw_drive::{DriveError, stop_error};
use mw_keep::{Call, KeptRoom, Reply, resume};
use mw_multidata::{Multidata, digest, write};
use mw_stress::Taken;
use std::alloc::Global;

/// The session that takes by a call, if one does.
fn taker(call: &Call) -> Option<SessionId>
    ensures { result ≡ taker_lem (call_view call.now) }
{
    match call {
        Call::Take { session } => Some(*session),
        Call::Open { .. }
        | Call::Packet { .. }
        | Call::Bad { .. }
        | Call::Lost { .. }
        | Call::Commit => None,
    }
}

/// The texts of a reply, unless the room has stopped or memory ran out.
fn answered(alloc: Global, reply: Reply) -> Result<List<Text>, DriveError>
    ensures ok { IfOk result (λ texts. texts ≡ texts_of (reply_view reply)) }
    ensures goes { OnOk result (failure (reply_view reply) ≡ None) }
    ensures err { IfErr result (λ error. failure (reply_view reply) ≡ Some error) }
    ensures own { IfErr result IsOutside }
{
    match reply {
        Reply::Messages(texts) => Ok(texts),
        Reply::Stopped(cause) => Err(stop_error(cause)),
        Reply::Memory => Err(DriveError::Memory),
        Reply::Opened(_) | Reply::Done | Reply::Gone | Reply::Overrun => Ok(List::new(alloc)),
    }
}

/// Makes a call, and gives the texts of its reply.
fn act<D: Disk>(alloc: Global, kept: &mut KeptRoom<D>, call: Call) -> Result<List<Text>, DriveError>
    ensures ok { IfOk result (λ texts. (reply : Plain) × (texts ≡ texts_of reply)
        × Does D.may_leave kept.old (call_view call) reply kept.new) }
    ensures err { IfErr result (λ error. StopsAmong D.may_leave D.faults kept.old
        (call_view call ∷ []) error kept.new) }
    ensures own { IfErr result IsOutside }
    ensures count { D.faults (kept_disk kept.old) ≤ D.faults (kept_disk kept.new) }
{
    let reply = kept.act(call);
    answered(alloc, reply)
}

/// Adds the texts that a session takes, if one does.
fn push_taken(
    taken: &mut List<Taken>,
    session: Option<SessionId>,
    texts: List<Text>,
) -> Result<(), Memory>
    ensures { OnOk result (taken.new ≡ taken.old ++ taken_by_lem session texts) }
{
    match session {
        Some(session) => taken.push(Taken { session, texts }),
        None => Ok(()),
    }
}

/// Makes calls one after the other, and gives what is taken by them.
fn act_all<D: Disk>(
    alloc: Global,
    kept: &mut KeptRoom<D>,
    calls: List<Call>,
) -> Result<List<Taken>, DriveError>
    ensures ok { IfOk result (λ taken. (digest : List ℕ) (seed : Seed) (life : Life)
        → Keeps D.may_leave digest life kept.old → IsGoing seed life kept.old
        → taken ≡ all_taken life (map call_view calls)) }
    ensures full { result ≡ Err DriveError.Full → (digest : List ℕ) (seed : Seed) (life : Life)
        → Keeps D.may_leave digest life kept.old → IsGoing seed life kept.old
        → IsTrue (stop life (map call_view calls)) }
    ensures fault { result ≡ Err DriveError.Fault → (digest : List ℕ) (seed : Seed) (life : Life)
        → Keeps D.may_leave digest life kept.old → IsGoing seed life kept.old
        → D.faults (kept_disk kept.old) < D.faults (kept_disk kept.new) }
    ensures own { IfErr result IsOutside }
{
    let mut taken = List::new(alloc);
    for call in calls.into_vec() {
        let session = taker(&call);
        let texts = act(alloc, kept, call)?;
        push_taken(&mut taken, session, texts)?;
    }
    Ok(taken)
}

/// The want of memory that an error is.
fn want_of_memory(error: DriveError) -> Memory
    requires { error ≡ DriveError.Memory }
{
    match error {
        DriveError::Memory => Memory,
        DriveError::Fault
        | DriveError::Full
        | DriveError::Journal { .. }
        | DriveError::Script { .. } => unreachable!(),
    }
}

/// Drives the room of a seed, on a new journal in memory, by the calls of the sessions of so many
/// slots, and gives what these take.
pub(crate) fn drive_sessions(
    alloc: Global,
    multidata: Multidata,
    many: u32,
) -> Result<List<Taken>, Memory>
    requires { many ≤ 64 }
    ensures { IfOk result (λ taken. taken ≡ all_taken (first_life multidata) (all_calls many)) }
{
    let file = write(alloc, &multidata)?;
    let digest = digest(file.as_slice());
    let calls = calls_of(alloc, many)?;
    let disk = SteadyDisk::new(alloc, Bytes::new(alloc))?;
    let (disk, created) = create_on(alloc, disk, &digest);
    // A new journal in memory is refused for want of memory alone.
    let Ok(()) = created else {
        return Err(Memory);
    };
    let Ok(mut kept) = resume(alloc, disk, multidata, &digest) else {
        return Err(Memory);
    };
    match act_all(alloc, &mut kept, calls) {
        Ok(taken) => Ok(taken),
        Err(error) => Err(want_of_memory(error)),
    }
}

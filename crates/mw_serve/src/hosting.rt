//! The room of a disk, served over the links of a gate.
ghost use Rattle.std.specs.Prelude.{◌≡◌, ◌⊎◌, ◌<◌, ◌≤◌, ◌+◌, [], ℕ, List, None, Ok, Err, IfOk};
ghost use Rattle.std.specs.Prelude.{IfErr, IsTrue, Some, is_ok, is_some};
ghost use Rattle.mw_model.specs.Seed.{Seed};
ghost use Rattle.mw_multidata.specs.Digest.{digest_of};
ghost use Rattle.mw_multidata.specs.SeedOf.{SeedOf};
ghost use Rattle.mw_protocol.specs.Lives.{Step, life_after_all};
ghost use Rattle.mw_protocol.specs.Records.{Record};
ghost use Rattle.mw_keep.specs.Keeps.{origin_of};
ghost use Rattle.mw_keep.specs.Left.{IsLeft};
ghost use Rattle.mw_keep.specs.Standing.{Began, HasLived};
ghost use Rattle.mw_session.specs.Desks.{AreAll, IsWithin};
ghost use Rattle.mw_session.specs.Numbers.{all_numbers, NoneTwice};
ghost use Rattle.mw_session.specs.Rooms.{count_all};
ghost use Rattle.mw_drive.specs.Ends.{IsAsRead, IsFound, IsOfJournal, Refuses, StaysSettled};
ghost use Rattle.mw_serve.specs.Hosted.{Finds, HostsShort, HostsToEnd, IsUnserved, ListensAfter, end_of};
ghost use Rattle.mw_serve.specs.Runs.{IsRun};
ghost use Rattle.mw_serve.specs.Sent.{SendsFound};

use mw_base::{List, Text};
use mw_disk::Disk;
use mw_drive::{DriveError, drive_error, stop_error};
use mw_keep::laws::{lives_keep, names_fit, taken_was_owed};
use mw_keep::{KeptRoom, StopCause, resume};
use mw_link::Gate;
use mw_multidata::{Multidata, digest};
use mw_session::{RoomEnd, Served, serve_room};
use std::alloc::Global;
use std::sync::Wait;
use std::thread::Threads;

/// How a room is served: by how many workers, and over how many links.
#[derive(Clone, Copy)]
pub(crate) struct Terms {
    /// At least 1.
    pub workers: u32,
    /// As many links as there are, where it isn't said.
    pub accept: Option<u64>,
}

/// What is left of a room that was served, or could not be.
#[derive(Drop)]
pub(crate) struct Ending<D: Disk, G: Gate> {
    pub disk: D,
    pub gate: G,
    /// For each worker the links that it served, in order.
    pub served: List<List<Served<G::Line>>>,
    /// How many links were accepted, or why that isn't all.
    pub outcome: Result<u64, DriveError>,
}

/// Why a room's end isn't that of its gate, if it isn't: a room that has stopped comes first, then
/// the gate, then memory.
fn judge(
    stopped: Option<StopCause>,
    gate_failed: bool,
    memory: bool,
    accepted: u64,
) -> Result<u64, DriveError>
    ensures { result ≡ end_of stopped gate_failed memory accepted }
{
    match stopped {
        Some(cause) => Err(stop_error(cause)),
        None if gate_failed => Err(DriveError::Fault),
        None if memory => Err(DriveError::Memory),
        None => Ok(accepted),
    }
}

/// Serves a recovered room over the links of a gate, once that listens at an address.
fn host<D: Disk + Send + Drop, G: Gate + Send, R: Threads + Wait + Sync>(
    rt: &R,
    alloc: Global,
    room: KeptRoom<D>,
    bind: &Text,
    terms: Terms,
    mut gate: G,
) -> Ending<D, G>
    requires workers { 1 ≤ terms.workers }
    requires fresh { HasLived D.may_leave D.told D.faults room [] }
    requires faults { G.faults gate ≡ 0 }
    requires given { G.given gate ≡ 0 }
    ensures run { IsRun G.Line.heard G.Line.sent G.Line.faults G.Line.opened G.Line.is_shut
        D.may_leave D.told D.faults terms.accept room result.disk result.served
        (G.faults result.gate) (G.left result.gate) (G.ended result.gate) result.outcome }
    ensures numbers { (digest : List ℕ) (seed : Seed) (journal : List Record) (place : ℕ)
        → Began D.may_leave digest seed journal place (origin_of room)
        → NoneTwice (all_numbers result.served) }
    ensures given { G.given result.gate ≡ count_all result.served }
    ensures within { IsWithin terms.accept (count_all result.served) }
    ensures listened { ListensAfter (Unit {0}) (IsTrue (is_ok result.outcome)) (G.listened gate)
        (G.listened result.gate) bind.now }
{
    if gate.listen(bind).is_err() {
        return Ending {
            disk: room.into_disk(),
            gate,
            served: List::new(alloc),
            outcome: Err(DriveError::Fault),
        };
    }
    let RoomEnd {
        room,
        gate,
        accepted,
        served,
        gate_failed,
        memory,
        stopped,
    } = serve_room(rt, alloc, gate, room, terms.workers, terms.accept);
    Ending {
        disk: room.into_disk(),
        gate,
        served,
        outcome: judge(stopped, gate_failed, memory, accepted),
    }
}

/// Recovers the room of a seed from the journal on a disk, and serves it over the links of a gate
/// that listens at an address. The disk and the gate are handed back. `file` is the bytes that the
/// seed was read from.
///
/// The journal is judged before the gate listens. A room that has stopped is told first, then a gate
/// that failed, and then want of memory.
///
/// Whatever is answered, nothing was served, and what a crash may leave of the disk is as settled as
/// it was; or the run went on from the life that begins with the records that it found, what a crash
/// may then leave is settled for the life that it led to, and what was sent was taken on the way.
pub(crate) fn host_on<D: Disk + Send + Drop, G: Gate + Send, R: Threads + Wait + Sync>(
    rt: &R,
    alloc: Global,
    disk: D,
    multidata: Multidata,
    file: &[u8],
    bind: &Text,
    terms: Terms,
    gate: G,
) -> Ending<D, G>
    requires seed { SeedOf file.now (Ok multidata) }
    requires workers { 1 ≤ terms.workers }
    requires faults { G.faults gate ≡ 0 }
    requires given { G.given gate ≡ 0 }
    ensures done { IfOk result.outcome (λ n. (n ≡ count_all result.served)
        × HostsToEnd G.Line.heard G.Line.sent G.Line.faults G.Line.opened G.Line.is_shut D.may_leave
        (IsFound (D.told disk) (D.may_leave disk) (digest_of file.now) multidata)
        (D.may_leave result.disk) (digest_of file.now) multidata result.served) }
    ensures short { IfErr result.outcome (λ error.
        IsUnserved (Refuses (D.told disk) (digest_of file.now) multidata)
        (StaysSettled (D.may_leave disk) (D.may_leave result.disk) (digest_of file.now))
        (IsAsRead (D.told disk) (D.told result.disk) (D.may_leave disk) (D.may_leave result.disk))
        result.served error
        ⊎ HostsShort G.Line.heard G.Line.sent G.Line.faults G.Line.opened G.Line.is_shut
        D.may_leave (IsFound (D.told disk) (D.may_leave disk) (digest_of file.now) multidata)
        (D.may_leave result.disk) (digest_of file.now) multidata result.served error) }
    ensures found { SendsFound G.Line.sent
        (IsFound (D.told disk) (D.may_leave disk) (digest_of file.now) multidata)
        (StaysSettled (D.may_leave disk) (D.may_leave result.disk) (digest_of file.now))
        (D.may_leave result.disk) (digest_of file.now) multidata result.served }
    ensures accepted { IfErr result.outcome (λ error. (steps : List Step)
        → IsTrue (is_some (D.told disk))
        → IsLeft (D.may_leave disk) (digest_of file.now) (life_after_all multidata steps)
        → IsOfJournal error → ⊥) }
    ensures numbers { NoneTwice (all_numbers result.served) }
    ensures given { G.given result.gate ≡ count_all result.served }
    ensures within { IsWithin terms.accept (count_all result.served) }
    ensures full { IfOk result.outcome
        (λ n. AreAll terms.accept n (G.left result.gate) (G.ended result.gate)) }
    ensures listened { ListensAfter
        (Finds (IsFound (D.told disk) (D.may_leave disk) (digest_of file.now) multidata))
        (IsTrue (is_ok result.outcome)) (G.listened gate) (G.listened result.gate) bind.now }
    ensures fault { result.outcome ≡ Err DriveError.Fault → (D.faults disk < D.faults result.disk)
        ⊎ (0 < G.faults result.gate) }
    ensures tells { is_some (D.told result.disk) ≡ is_some (D.told disk) }
    ensures count { D.faults disk ≤ D.faults result.disk }
{
    // The laws of lives, by which what was settled stays so, and what was sent was taken.
    lives_keep();
    taken_was_owed();
    names_fit(&multidata);
    match resume(alloc, disk, multidata, &digest(file)) {
        Ok(room) => host(rt, alloc, room, bind, terms, gate),
        Err((disk, error)) => Ending {
            disk,
            gate,
            served: List::new(alloc),
            outcome: Err(drive_error(error)),
        },
    }
}

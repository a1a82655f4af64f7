ghost use Rattle.std.specs.Prelude.{◌≡◌, ◌⊎◌, ◌<◌, ◌≤◌, List, IfOk, IfErr, OnOk, Ok, IsTrue, is_some, map};
ghost use Rattle.mw_edges.specs.Causes.{Rose};
ghost use Rattle.mw_multidata.specs.Digest.{digest_of};
ghost use Rattle.mw_multidata.specs.SeedOf.{SeedOf};
ghost use Rattle.mw_protocol.specs.Lives.{Step, life_after_all};
ghost use Rattle.mw_keep.specs.Keeps.{kept_disk};
ghost use Rattle.mw_keep.specs.Left.{IsLeft};
ghost use Rattle.mw_script.specs.Commands.{command_view};
ghost use Rattle.mw_drive.specs.Ends.{Drives, IsAsRead, IsFound, IsOfJournal, Refuses};
ghost use Rattle.mw_drive.specs.Ends.{StaysSettled, StopsWith};
ghost use Rattle.mw_drive.specs.Input.{HasScript, HasNoScript};
ghost use Rattle.mw_drive.specs.Left.{KeepsFound, KeepsShown};
ghost use Rattle.mw_drive.specs.Runs.{HasLife, RunsScript, HaltsScript};

use crate::crash::drive_error;
use crate::error::DriveError;
use crate::input::read_script;
use crate::run::run_all;
use mw_base::List;
use mw_disk::Disk;
use mw_edges::{Sink, Source};
use mw_keep::laws::{lives_keep, names_fit, shown_is_checked, tails_of_the_last_view};
use mw_keep::{KeptRoom, resume};
use mw_multidata::{Multidata, digest};
use mw_script::{Command, judge_script};
use std::alloc::Global;

/// Reads the script of an input to its end, and judges it.
fn read_commands<S: Source>(alloc: Global, input: &mut S) -> Result<List<Command>, DriveError>
    ensures ok { IfOk result (λ commands. HasScript (S.left input.old) (S.left input.new)
        (map command_view commands)) }
    ensures err { IfErr result (HasNoScript (S.left input.old) (S.left input.new)) }
    ensures fault { result ≡ Err DriveError.Fault → Rose (S.faults input.old) (S.faults input.new) }
    ensures later { S.faults input.old ≤ S.faults input.new }
{
    let script = read_script(alloc, input)?;
    Ok(judge_script(alloc, &script)?)
}

/// Runs the script of an input on a room. The disk is handed back.
fn drive_kept<D: Disk, S: Source, O: Sink>(
    alloc: Global,
    kept: KeptRoom<D>,
    file: &[u8],
    input: &mut S,
    out: &mut O,
) -> (D, Result<(), DriveError>)
    ensures done { OnOk result.1 (RunsScript D.may_leave D.told file.now kept
        (S.left input.old) (S.left input.new) (O.held out.old) (O.held out.new) result.0) }
    ensures err { IfErr result.1 (λ error. HaltsScript D.may_leave D.told file.now kept
        (S.left input.old) (S.left input.new) (O.held out.old) (O.held out.new) result.0 error) }
    ensures fault { result.1 ≡ Err DriveError.Fault → HasLife D.may_leave file.now kept
        → (D.faults (kept_disk kept) < D.faults result.0)
        ⊎ (Rose (S.faults input.old) (S.faults input.new)
        ⊎ Rose (O.faults out.old) (O.faults out.new)) }
    ensures tells { is_some (D.told result.0) ≡ is_some (D.told (kept_disk kept)) }
    ensures count { D.faults (kept_disk kept) ≤ D.faults result.0 }
    ensures later { (S.faults input.old ≤ S.faults input.new)
        × (O.faults out.old ≤ O.faults out.new) }
{
    match read_commands(alloc, input) {
        Ok(commands) => run_all(alloc, kept, file, commands, out),
        Err(error) => (kept.into_disk(), Err(error)),
    }
}

/// Recovers the room of a seed from the journal on a disk, runs the script of an input on it, and
/// prints the messages that are taken. The disk is handed back. `file` is the bytes that the seed
/// was read from.
///
/// The journal is judged first, and the input isn't touched where it is refused; what is no journal
/// of the seed's is only read. The script is read
/// to its end and judged whole before its first line runs. What is recorded is pending until a
/// `commit`, or a `take` of a message that shows some of it; a `crash` drops the room with its
/// sessions and what is pending, and recovers it from its journal, and what is pending as the script
/// ends is lost.
///
/// `Journal` comes only where the disk's bytes are no journal of this seed, and once the first line
/// has run only at a `crash`, and never where the disk tells its bytes; `Script` comes only where
/// the script is refused at that line, before any has run; `Full` only where the next batch would
/// pass the journal's limit, or the room has had 2^63 calls, and then all before that line was put.
/// `Fault` comes only where a count of the disk, the input or the out sink rose in this call.
///
/// Whatever is answered, what a crash may then leave of the disk is settled for a life that goes on
/// from the one for which it was settled before, and all that was shown by what was put is checked
/// in that life's journal. So it is by what the run does alone, whatever wrote the records that it
/// found: it goes on from the life that begins with them, and puts only what was taken on the way
/// (`found`).
pub fn drive_on<D: Disk, S: Source, O: Sink>(
    alloc: Global,
    disk: D,
    multidata: Multidata,
    file: &[u8],
    input: &mut S,
    out: &mut O,
) -> (D, Result<(), DriveError>)
    requires { SeedOf file.now (Ok multidata) }
    ensures done { OnOk result.1 (Drives
        (IsFound (D.told disk) (D.may_leave disk) (digest_of file.now) multidata)
        (D.told disk) (D.may_leave result.0) (digest_of file.now) multidata
        (S.left input.old) (S.left input.new) (O.held out.old) (O.held out.new)) }
    ensures stopped { IfErr result.1 (StopsWith S.left
        (IsFound (D.told disk) (D.may_leave disk) (digest_of file.now) multidata)
        (Refuses (D.told disk) (digest_of file.now) multidata)
        (StaysSettled (D.may_leave disk) (D.may_leave result.0) (digest_of file.now))
        (IsAsRead (D.told disk) (D.told result.0) (D.may_leave disk) (D.may_leave result.0))
        (D.told disk) (D.may_leave result.0) (digest_of file.now) multidata
        input.old input.new (O.held out.old) (O.held out.new)) }
    ensures fault { result.1 ≡ Err DriveError.Fault → (D.faults disk < D.faults result.0)
        ⊎ (Rose (S.faults input.old) (S.faults input.new)
        ⊎ Rose (O.faults out.old) (O.faults out.new)) }
    ensures found { IsTrue (is_some (D.told disk)) → KeepsFound
        (IsFound (D.told disk) (D.may_leave disk) (digest_of file.now) multidata)
        (StaysSettled (D.may_leave disk) (D.may_leave result.0) (digest_of file.now))
        (D.may_leave result.0) (digest_of file.now) multidata (O.held out.old) (O.held out.new) }
    ensures kept { (steps : List Step) → IsTrue (is_some (D.told disk))
        → IsLeft (D.may_leave disk) (digest_of file.now) (life_after_all multidata steps)
        → KeepsShown (D.may_leave result.0) (digest_of file.now) multidata steps
        (O.held out.old) (O.held out.new) }
    ensures accepted { IfErr result.1 (λ error. (steps : List Step)
        → IsTrue (is_some (D.told disk))
        → IsLeft (D.may_leave disk) (digest_of file.now) (life_after_all multidata steps)
        → IsOfJournal error → ⊥) }
    ensures tells { is_some (D.told result.0) ≡ is_some (D.told disk) }
    ensures count { D.faults disk ≤ D.faults result.0 }
    ensures later { (S.faults input.old ≤ S.faults input.new)
        × (O.faults out.old ≤ O.faults out.new) }
{
    // The laws of lives, by which what was settled stays so, and what was taken is kept.
    lives_keep();
    shown_is_checked();
    tails_of_the_last_view();
    names_fit(&multidata);
    match resume(alloc, disk, multidata, &digest(file)) {
        Ok(kept) => drive_kept(alloc, kept, file, input, out),
        Err((disk, error)) => (disk, Err(drive_error(error))),
    }
}

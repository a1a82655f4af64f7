ghost use Rattle.std.specs.Prelude.{◌≡◌, ◌≤◌, ◌⊎◌, ◌∷◌, [], IfOk, IfErr, OnOk, OnErr, Err, IsFalse, is_some, map};
ghost use Rattle.std.specs.Io.KnownBytes.{Appends};
ghost use Rattle.mw_edges.specs.Causes.{PutsFront, Rose};
ghost use Rattle.mw_keep.specs.Keeps.{kept_disk};
ghost use Rattle.mw_script.specs.Commands.{command_view};
ghost use Rattle.mw_drive.specs.Calls.{IsOutside};
ghost use Rattle.mw_drive.specs.Crashes.{disk_left};
ghost use Rattle.mw_drive.specs.Drive.{is_crash as is_crash_lem};
ghost use Rattle.mw_drive.specs.Runs.{StepsOn, IsCutOn, FaultShows, StepsAlways, IsCutAlways, HasLife, FaultIsTold, IsOfRun, RunsAlways, HaltsAlways};

use crate::crash::crash;
use crate::error::DriveError;
use crate::performing::perform;
use mw_base::List;
use mw_disk::Disk;
use mw_edges::{Sink, SinkError};
use mw_keep::KeptRoom;
use mw_keep::laws::journals_are_named;
use mw_script::Command;
use std::alloc::Global;

/// Puts a text.
fn put<O: Sink>(out: &mut O, text: &str) -> Result<(), DriveError>
    ensures done { OnOk result (Appends (O.held out.old) (O.held out.new) text.now) }
    ensures front { OnErr result (PutsFront (O.held out.old) (O.held out.new) text.now) }
    ensures own { IfErr result (λ e. (e ≡ DriveError.Fault) ⊎ (e ≡ DriveError.Memory)) }
    ensures fault { result ≡ Err DriveError.Fault → Rose (O.faults out.old) (O.faults out.new) }
    ensures later { O.faults out.old ≤ O.faults out.new }
{
    match out.put(text.as_bytes()) {
        Ok(()) => Ok(()),
        Err(SinkError::Failed) => Err(DriveError::Fault),
        Err(SinkError::Memory) => Err(DriveError::Memory),
    }
}

/// Does a command that isn't a crash, and puts what it prints.
fn perform_and_put<D: Disk, O: Sink>(
    alloc: Global,
    kept: KeptRoom<D>,
    command: Command,
    out: &mut O,
) -> Result<KeptRoom<D>, (D, DriveError)>
    requires { IsFalse (is_crash_lem (command_view command)) }
    ensures ok { IfOk result (λ k. StepsOn D.may_leave kept (command_view command)
        (O.held out.old) (O.held out.new) k) }
    ensures err { IfErr result (λ e. IsCutOn D.may_leave kept (command_view command)
        (O.held out.old) (O.held out.new) e.0 e.1) }
    ensures own { IfErr result (λ e. IsOutside e.1) }
    ensures fault { IfErr result (λ e. e.1 ≡ DriveError.Fault → FaultShows D.may_leave D.faults
        kept e.0 (Rose (O.faults out.old) (O.faults out.new))) }
    ensures tells { is_some (D.told (disk_left result)) ≡ is_some (D.told (kept_disk kept)) }
    ensures count { D.faults (kept_disk kept) ≤ D.faults (disk_left result) }
    ensures later { O.faults out.old ≤ O.faults out.new }
{
    let mut kept = kept;
    let text = match perform(alloc, &mut kept, command) {
        Ok(text) => text,
        Err(error) => return Err((kept.into_disk(), error)),
    };
    match put(out, text.as_str()) {
        Ok(()) => Ok(kept),
        Err(error) => Err((kept.into_disk(), error)),
    }
}

/// Whether a command is a crash.
fn is_crash(command: &Command) -> bool
    ensures { result ≡ is_crash_lem (command_view command.now) }
{
    match command {
        Command::Crash => true,
        Command::Open { .. }
        | Command::Send { .. }
        | Command::Take { .. }
        | Command::Lose { .. }
        | Command::Commit => false,
    }
}

/// Does a command, and puts what it prints.
fn run_one<D: Disk, O: Sink>(
    alloc: Global,
    kept: KeptRoom<D>,
    file: &[u8],
    command: Command,
    out: &mut O,
) -> Result<KeptRoom<D>, (D, DriveError)>
    ensures ok { IfOk result (λ k. StepsAlways D.may_leave D.told file.now kept
        (command_view command) (O.held out.old) (O.held out.new) k) }
    ensures err { IfErr result (λ e. IsCutAlways D.may_leave D.told file.now kept
        (command_view command) (O.held out.old) (O.held out.new) e.0 e.1) }
    ensures ran { IfErr result (λ e. IsOfRun (command_view command ∷ []) e.1) }
    ensures lives { IfOk result (λ k. HasLife D.may_leave file.now kept
        → HasLife D.may_leave file.now k) }
    ensures fault { IfErr result (λ e. e.1 ≡ DriveError.Fault → FaultIsTold D.may_leave D.faults
        file.now kept e.0 (Rose (O.faults out.old) (O.faults out.new))) }
    ensures tells { is_some (D.told (disk_left result)) ≡ is_some (D.told (kept_disk kept)) }
    ensures count { D.faults (kept_disk kept) ≤ D.faults (disk_left result) }
    ensures later { O.faults out.old ≤ O.faults out.new }
{
    if is_crash(&command) {
        return crash(alloc, kept, file);
    }
    perform_and_put(alloc, kept, command, out)
}

/// Runs commands in order, and puts what each prints. The disk is handed back.
pub(crate) fn run_all<D: Disk, O: Sink>(
    alloc: Global,
    kept: KeptRoom<D>,
    file: &[u8],
    commands: List<Command>,
    out: &mut O,
) -> (D, Result<(), DriveError>)
    ensures done { OnOk result.1 (RunsAlways D.may_leave D.told file.now kept
        (map command_view commands) (O.held out.old) (O.held out.new) result.0) }
    ensures err { IfErr result.1 (λ error. HaltsAlways D.may_leave D.told file.now kept
        (map command_view commands) (O.held out.old) (O.held out.new) result.0 error) }
    ensures ran { IfErr result.1 (IsOfRun (map command_view commands)) }
    ensures fault { result.1 ≡ Err DriveError.Fault → FaultIsTold D.may_leave D.faults
        file.now kept result.0 (Rose (O.faults out.old) (O.faults out.new)) }
    ensures tells { is_some (D.told result.0) ≡ is_some (D.told (kept_disk kept)) }
    ensures count { D.faults (kept_disk kept) ≤ D.faults result.0 }
    ensures later { O.faults out.old ≤ O.faults out.new }
{
    // What a room of the seed wrote names only what the seed has.
    journals_are_named();
    let mut kept = kept;
    for command in commands.into_vec() {
        match run_one(alloc, kept, file, command, out) {
            Ok(next) => kept = next,
            Err((disk, error)) => return (disk, Err(error)),
        }
    }
    (kept.into_disk(), Ok(()))
}

//! The command `drive`.
ghost use Rattle.std.specs.Prelude.{◌≡◌, ◌≤◌, ◌⊎◌, [], ℕ, List, MatchOption, None, Some, Ok, IfErr, OnOk, ⊤};
ghost use Rattle.mw_edges.specs.Causes.{Rose};
ghost use Rattle.mw_multidata.specs.Digest.{digest_of};
ghost use Rattle.mw_multidata.specs.SeedOf.{SeedOf};
ghost use Rattle.mw_protocol.specs.Lives.{new_life};
ghost use Rattle.mw_drive.specs.Ends.{Drives, IsOfJournal, StaysSettled, StopsWith};
ghost use Rattle.mw_drive.specs.Left.{KeepsFrom};
ghost use Rattle.mw_causes.specs.Ends.{told_by};
ghost use Rattle.mw_offline.specs.FilesAround.{files_around};
ghost use Rattle.mw_offline.specs.Driving.{NoImages, IsNewJournal, JournalLeaves, JournalRuns};
ghost use Rattle.mw_offline.specs.Driving.{run_of, RunsToEnd, RunsShort};
ghost use Rattle.mw_offline.specs.Driving.{DriveDone, DriveStopped, DriveEnds, DriveKeeps};
ghost use Rattle.mw_offline.specs.PairDriving.{PairDriveEnds, pair_choice};

use crate::creating::create_on;
use crate::drive_pair::drive_pair;
use mw_base::{Bytes, Text};
use mw_causes::{DriveCause, SeedBytes, Stop, end, read_seed_bytes};
use mw_disk::SteadyDisk;
use mw_drive::{DriveError, drive_on};
use mw_edges::{Folder, FolderError, Sink, Source};
use mw_keep::laws::{
    shown_is_checked, shown_is_checked_across, tails_across, tails_of_the_last_view,
};
use mw_multidata::digest;
use mw_words::DriveWords;
use std::alloc::Global;

/// Runs the script on a room that is kept in memory.
fn drive_in_memory<S: Source, O: Sink>(
    alloc: Global,
    seed: SeedBytes,
    input: &mut S,
    out: &mut O,
) -> Result<(), DriveError>
    requires { SeedOf seed.bytes (Ok seed.multidata) }
    ensures done { OnOk result (Drives IsNewJournal (Some []) NoImages (digest_of seed.bytes)
        seed.multidata (S.left input.old) (S.left input.new) (O.held out.old) (O.held out.new)) }
    ensures stopped { IfErr result (StopsWith S.left IsNewJournal (λ _. ⊥)
        (StaysSettled NoImages NoImages (digest_of seed.bytes)) ⊤ (Some []) NoImages
        (digest_of seed.bytes) seed.multidata input.old input.new
        (O.held out.old) (O.held out.new)) }
    ensures accepted { IfErr result (λ error. IsOfJournal error → ⊥) }
    ensures runs { KeepsFrom NoImages (digest_of seed.bytes) (new_life seed.multidata [] 40)
        (O.held out.old) (O.held out.new) }
    ensures fault { result ≡ Err DriveError.Fault
        → Rose (S.faults input.old) (S.faults input.new)
        ⊎ Rose (O.faults out.old) (O.faults out.new) }
{
    let SeedBytes { bytes, multidata } = seed;
    let disk = SteadyDisk::new(alloc, Bytes::new(alloc))?;
    let (disk, created) = create_on(alloc, disk, &digest(bytes.as_slice()));
    match created {
        Ok(()) => drive_on(alloc, disk, multidata, bytes.as_slice(), input, out).1,
        // A disk in memory without bytes refuses nothing but for want of memory.
        Err(_) => Err(DriveError::Memory),
    }
}

/// Runs the script on the room that a file keeps. Its disk is closed again.
fn drive_on_file<F: Folder, S: Source, O: Sink>(
    alloc: Global,
    seed: SeedBytes,
    name: &Text,
    folder: &mut F,
    input: &mut S,
    out: &mut O,
) -> Result<(), DriveError>
    requires { SeedOf seed.bytes (Ok seed.multidata) }
    ensures done { OnOk result (RunsToEnd S.left
        (files_around F.holds F.images F.is_open F.may_fail F.faults folder.old folder.new)
        (Some name.now) (run_of seed.bytes seed.multidata input.old input.new
        (O.held out.old) (O.held out.new))) }
    ensures short { IfErr result (RunsShort S.left
        (files_around F.holds F.images F.is_open F.may_fail F.faults folder.old folder.new)
        (Some name.now) (run_of seed.bytes seed.multidata input.old input.new
        (O.held out.old) (O.held out.new))) }
    ensures runs { JournalRuns
        (files_around F.holds F.images F.is_open F.may_fail F.faults folder.old folder.new)
        (Some name.now) (digest_of seed.bytes) seed.multidata (O.held out.old) (O.held out.new) }
    ensures leaves { JournalLeaves
        (files_around F.holds F.images F.is_open F.may_fail F.faults folder.old folder.new)
        (Some name.now) }
    ensures fault { result ≡ Err DriveError.Fault
        → Rose (F.faults folder.old) (F.faults folder.new)
        ⊎ (Rose (S.faults input.old) (S.faults input.new)
        ⊎ Rose (O.faults out.old) (O.faults out.new)) }
    ensures later { F.faults folder.old ≤ F.faults folder.new }
{
    let SeedBytes { bytes, multidata } = seed;
    let disk = match folder.open_disk(alloc, name) {
        Ok(disk) => disk,
        Err(FolderError::Failed) => return Err(DriveError::Fault),
        Err(FolderError::Memory) => return Err(DriveError::Memory),
    };
    let (disk, outcome) = drive_on(alloc, disk, multidata, bytes.as_slice(), input, out);
    folder.close_disk(name, disk);
    outcome
}

/// Runs the script on the room of a seed.
fn drive_room<F: Folder, S: Source, O: Sink>(
    alloc: Global,
    seed: SeedBytes,
    journal: &Option<Text>,
    folder: &mut F,
    input: &mut S,
    out: &mut O,
) -> Result<(), DriveError>
    requires { SeedOf seed.bytes (Ok seed.multidata) }
    ensures done { OnOk result (RunsToEnd S.left
        (files_around F.holds F.images F.is_open F.may_fail F.faults folder.old folder.new)
        journal.now (run_of seed.bytes seed.multidata input.old input.new
        (O.held out.old) (O.held out.new))) }
    ensures short { IfErr result (RunsShort S.left
        (files_around F.holds F.images F.is_open F.may_fail F.faults folder.old folder.new)
        journal.now (run_of seed.bytes seed.multidata input.old input.new
        (O.held out.old) (O.held out.new))) }
    ensures runs { JournalRuns
        (files_around F.holds F.images F.is_open F.may_fail F.faults folder.old folder.new)
        journal.now (digest_of seed.bytes) seed.multidata (O.held out.old) (O.held out.new) }
    ensures leaves { JournalLeaves
        (files_around F.holds F.images F.is_open F.may_fail F.faults folder.old folder.new)
        journal.now }
    ensures fault { result ≡ Err DriveError.Fault
        → Rose (F.faults folder.old) (F.faults folder.new)
        ⊎ (Rose (S.faults input.old) (S.faults input.new)
        ⊎ Rose (O.faults out.old) (O.faults out.new)) }
    ensures later { F.faults folder.old ≤ F.faults folder.new }
{
    match journal {
        None => drive_in_memory(alloc, seed, input, out),
        Some(name) => drive_on_file(alloc, seed, name, folder, input, out),
    }
}

/// Does all that `drive` does but for its error line.
fn drive<F: Folder, S: Source, O: Sink>(
    alloc: Global,
    words: &DriveWords,
    folder: &mut F,
    input: &mut S,
    out: &mut O,
) -> Result<(), Stop<DriveCause>>
    ensures done { OnOk result (DriveDone S.left
        (files_around F.holds F.images F.is_open F.may_fail F.faults folder.old folder.new)
        words.now input.old input.new (O.held out.old) (O.held out.new)) }
    ensures stopped { IfErr result (DriveStopped S.left
        (files_around F.holds F.images F.is_open F.may_fail F.faults folder.old folder.new)
        words.now input.old input.new (O.held out.old) (O.held out.new)) }
    ensures kept { DriveKeeps
        (files_around F.holds F.images F.is_open F.may_fail F.faults folder.old folder.new)
        words.now (O.held out.old) (O.held out.new) }
    ensures leaves { JournalLeaves
        (files_around F.holds F.images F.is_open F.may_fail F.faults folder.old folder.new)
        words.now.journal }
    ensures fault { result ≡ Err Stop.Fault
        → Rose (F.faults folder.old) (F.faults folder.new)
        ⊎ (Rose (S.faults input.old) (S.faults input.new)
        ⊎ Rose (O.faults out.old) (O.faults out.new)) }
{
    // The laws of runs of lives, by which what was taken is kept.
    shown_is_checked();
    tails_of_the_last_view();
    shown_is_checked_across();
    tails_across();
    let seed = read_seed_bytes(alloc, folder, &words.multidata)?;
    Ok(drive_room(alloc, seed, &words.journal, folder, input, out)?)
}

/// The name of CHOICE, where the words name a pair room.
fn choice_of(words: &DriveWords) -> Option<&Text>
    ensures { MatchOption result (pair_choice words.now ≡ None)
        (λ choice. pair_choice words.now ≡ Some choice.now) }
{
    if !words.pair {
        return None;
    }
    words.journal.as_ref()
}

/// Runs the script of the input on a room of one journal, and tells how it ended.
fn drive_single<F: Folder, S: Source, O: Sink, E: Sink>(
    alloc: Global,
    words: &DriveWords,
    folder: &mut F,
    input: &mut S,
    out: &mut O,
    err: &mut E,
) -> u8
    ensures ends { DriveEnds S.left result
        (files_around F.holds F.images F.is_open F.may_fail F.faults folder.old folder.new)
        words.now input.old input.new (told_by O.held O.faults out.old out.new)
        (told_by E.held E.refusals err.old err.new) }
    ensures fault { result ≡ 5
        → Rose (F.faults folder.old) (F.faults folder.new)
        ⊎ (Rose (S.faults input.old) (S.faults input.new)
        ⊎ Rose (O.faults out.old) (O.faults out.new)) }
{
    let outcome = drive(alloc, words, folder, input, out);
    end(alloc, err, outcome)
}

/// Runs the script of the input on a pair room, and tells how it ended.
fn drive_chosen<F: Folder, S: Source, O: Sink, E: Sink>(
    alloc: Global,
    multidata: &Text,
    choice: &Text,
    folder: &mut F,
    input: &mut S,
    out: &mut O,
    err: &mut E,
) -> u8
    ensures ends { PairDriveEnds S.left result
        (files_around F.holds F.images F.is_open F.may_fail F.faults folder.old folder.new)
        multidata.now choice.now input.old input.new (told_by O.held O.faults out.old out.new)
        (told_by E.held E.refusals err.old err.new) }
    ensures fault { result ≡ 5
        → Rose (F.faults folder.old) (F.faults folder.new)
        ⊎ (Rose (S.faults input.old) (S.faults input.new)
        ⊎ Rose (O.faults out.old) (O.faults out.new)) }
{
    let outcome = drive_pair(alloc, multidata, choice, folder, input, out);
    end(alloc, err, outcome)
}

/// Runs the script of the input on the room of a seed file, and prints the messages that are taken.
/// The room is kept in a journal: in that of a file, or in a new one in memory. With `--pair` the
/// words name CHOICE, and the journal is the one that CHOICE names; without a name `--pair` is
/// ignored.
///
/// The seed file is judged first, then CHOICE, once the three files of a pair room are opened, then
/// the journal, and then the script, which is judged whole before its first line runs. A journal is
/// judged after its first gate that isn't open was written 0.
///
/// The status is 0 where all is done and the input read to its end; 5 where the folder, the journal's
/// disk, the input or the out sink failed; 6 where memory ran out; 7 where the seed file, the journal
/// or the script is refused; 8 where the next batch would pass the journal's limit, or the room has
/// had 2^63 calls. With a status other than 0 the error sink gets that status's line, or a front of
/// it where it refuses.
///
/// Whatever the status is, what a crash may leave of the journal's file stays settled, and keeps all
/// that was shown by what was put: whatever runs, crashes and checkpoints the journal is of, since
/// the run went on from the life that begins with the records that it found, and put only what was
/// taken on the way.
pub fn cmd_drive<F: Folder, S: Source, O: Sink, E: Sink>(
    alloc: Global,
    words: &DriveWords,
    folder: &mut F,
    input: &mut S,
    out: &mut O,
    err: &mut E,
) -> u8
    ensures ends { pair_choice words.now ≡ None → DriveEnds S.left result
        (files_around F.holds F.images F.is_open F.may_fail F.faults folder.old folder.new)
        words.now input.old input.new (told_by O.held O.faults out.old out.new)
        (told_by E.held E.refusals err.old err.new) }
    ensures pair { (choice : List ℕ) → pair_choice words.now ≡ Some choice
        → PairDriveEnds S.left result
        (files_around F.holds F.images F.is_open F.may_fail F.faults folder.old folder.new)
        words.now.multidata choice input.old input.new (told_by O.held O.faults out.old out.new)
        (told_by E.held E.refusals err.old err.new) }
    ensures fault { result ≡ 5
        → Rose (F.faults folder.old) (F.faults folder.new)
        ⊎ (Rose (S.faults input.old) (S.faults input.new)
        ⊎ Rose (O.faults out.old) (O.faults out.new)) }
{
    match choice_of(words) {
        Some(choice) => { drive_chosen(alloc, &words.multidata, choice, folder, input, out, err) }
        None => drive_single(alloc, words, folder, input, out, err),
    }
}

//! The command `drive --pair`.
ghost use Rattle.std.specs.Prelude.{◌≡◌, ◌⊎◌, ◌<◌, Ok, IfErr, IsTrue, List, OnOk, is_some};
ghost use Rattle.mw_edges.specs.Causes.{Rose};
ghost use Rattle.mw_multidata.specs.Digest.{digest_of};
ghost use Rattle.mw_multidata.specs.SeedOf.{SeedOf};
ghost use Rattle.mw_protocol.specs.Lives.{Step, life_after_all};
ghost use Rattle.mw_keep.specs.Left.{IsLeft};
ghost use Rattle.mw_drive.specs.Ends.{Drives, IsAsRead, IsFound, IsOfJournal, Refuses};
ghost use Rattle.mw_drive.specs.Ends.{StaysSettled, StopsWith};
ghost use Rattle.mw_drive.specs.Left.{KeepsFound};
ghost use Rattle.mw_offline.specs.FilesAround.{files_around};
ghost use Rattle.mw_offline.specs.PairDriving.{ChoiceStays, PairDriveDone, PairDriveKeeps};
ghost use Rattle.mw_offline.specs.PairDriving.{PairDriveStopped};
ghost use Rattle.mw_offline.specs.PairFiles.{PairLeaves};

use crate::pair_room::{PairRoom, open_pair_room};
use mw_base::Text;
use mw_causes::{PairDriveCause, SeedBytes, Stop};
use mw_disk::Disk;
use mw_drive::{DriveError, drive_on};
use mw_edges::{Folder, Sink, Source};
use mw_keep::laws::{
    shown_is_checked, shown_is_checked_across, tails_across, tails_of_the_last_view,
};
use mw_pair::{Chosen, close_chosen};
use std::alloc::Global;

/// Runs the script on the journal of a pair room that is played.
fn play<D: Disk, S: Source, O: Sink>(
    alloc: Global,
    room: Chosen<D>,
    seed: SeedBytes,
    input: &mut S,
    out: &mut O,
) -> (Chosen<D>, Result<(), DriveError>)
    requires { SeedOf seed.bytes (Ok seed.multidata) }
    ensures same { result.0 ≡ record {
      choice = room.choice;
      journal = result.0.journal;
      other = room.other;
      named = room.named;
    } }
    ensures done { OnOk result.1 (Drives
        (IsFound (D.told room.journal) (D.may_leave room.journal) (digest_of seed.bytes)
        seed.multidata)
        (D.told room.journal) (D.may_leave result.0.journal) (digest_of seed.bytes) seed.multidata
        (S.left input.old) (S.left input.new) (O.held out.old) (O.held out.new)) }
    ensures stopped { IfErr result.1 (StopsWith S.left
        (IsFound (D.told room.journal) (D.may_leave room.journal) (digest_of seed.bytes)
        seed.multidata)
        (Refuses (D.told room.journal) (digest_of seed.bytes) seed.multidata)
        (StaysSettled (D.may_leave room.journal) (D.may_leave result.0.journal)
        (digest_of seed.bytes))
        (IsAsRead (D.told room.journal) (D.told result.0.journal) (D.may_leave room.journal)
        (D.may_leave result.0.journal))
        (D.told room.journal) (D.may_leave result.0.journal) (digest_of seed.bytes) seed.multidata
        input.old input.new (O.held out.old) (O.held out.new)) }
    ensures fault { result.1 ≡ Err DriveError.Fault
        → (D.faults room.journal < D.faults result.0.journal)
        ⊎ (Rose (S.faults input.old) (S.faults input.new)
        ⊎ Rose (O.faults out.old) (O.faults out.new)) }
    ensures found { IsTrue (is_some (D.told room.journal)) → KeepsFound
        (IsFound (D.told room.journal) (D.may_leave room.journal) (digest_of seed.bytes)
        seed.multidata)
        (StaysSettled (D.may_leave room.journal) (D.may_leave result.0.journal)
        (digest_of seed.bytes))
        (D.may_leave result.0.journal) (digest_of seed.bytes) seed.multidata
        (O.held out.old) (O.held out.new) }
    ensures accepted { IfErr result.1 (λ error. (steps : List Step)
        → IsTrue (is_some (D.told room.journal))
        → IsLeft (D.may_leave room.journal) (digest_of seed.bytes)
        (life_after_all seed.multidata steps) → IsOfJournal error → ⊥) }
    ensures tells { is_some (D.told result.0.journal) ≡ is_some (D.told room.journal) }
{
    let SeedBytes { bytes, multidata } = seed;
    let Chosen {
        choice,
        journal,
        other,
        named,
    } = room;
    let (journal, outcome) = drive_on(alloc, journal, multidata, bytes.as_slice(), input, out);
    let room = Chosen {
        choice,
        journal,
        other,
        named,
    };
    (room, outcome)
}

/// Does all that `drive --pair` with a CHOICE does but for its error line. All three disks are held
/// open while the script runs.
pub(crate) fn drive_pair<F: Folder, S: Source, O: Sink>(
    alloc: Global,
    multidata: &Text,
    choice: &Text,
    folder: &mut F,
    input: &mut S,
    out: &mut O,
) -> Result<(), Stop<PairDriveCause>>
    ensures done { OnOk result (PairDriveDone S.left
        (files_around F.holds F.images F.is_open F.may_fail F.faults folder.old folder.new)
        multidata.now choice.now input.old input.new (O.held out.old) (O.held out.new)) }
    ensures stopped { IfErr result (PairDriveStopped S.left
        (files_around F.holds F.images F.is_open F.may_fail F.faults folder.old folder.new)
        multidata.now choice.now input.old input.new (O.held out.old) (O.held out.new)) }
    ensures leaves { PairLeaves
        (files_around F.holds F.images F.is_open F.may_fail F.faults folder.old folder.new)
        choice.now }
    ensures stays { ChoiceStays
        (files_around F.holds F.images F.is_open F.may_fail F.faults folder.old folder.new)
        multidata.now choice.now }
    ensures kept { PairDriveKeeps
        (files_around F.holds F.images F.is_open F.may_fail F.faults folder.old folder.new)
        multidata.now choice.now (O.held out.old) (O.held out.new) }
    ensures fault { result ≡ Err Stop.Fault → Rose (F.faults folder.old) (F.faults folder.new)
        ⊎ (Rose (S.faults input.old) (S.faults input.new)
        ⊎ Rose (O.faults out.old) (O.faults out.new)) }
{
    // The laws of runs of lives, by which what was taken is kept.
    shown_is_checked();
    tails_of_the_last_view();
    shown_is_checked_across();
    tails_across();
    let PairRoom { seed, names, room } = match open_pair_room(alloc, folder, multidata, choice) {
        Ok(room) => room,
        Err(stop) => return Err(stop),
    };
    let (room, outcome) = play(alloc, room, seed, input, out);
    close_chosen(folder, &names, room);
    match outcome {
        Ok(()) => Ok(()),
        Err(error) => Err(Stop::from(error)),
    }
}

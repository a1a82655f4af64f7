ghost use Rattle.std.specs.Prelude.{◌≡◌, ◌⊎◌, ◌<◌, ◌+◌, [], ℕ, List, None, Some, false, true};
ghost use Rattle.mw_edges.specs.Causes.{Rose};
ghost use Rattle.mw_causes.specs.Ends.{told_by, RefusalEnds};
ghost use Rattle.mw_words.specs.declared.command_line.DriveWords.{DriveWords};
ghost use Rattle.mw_words.specs.declared.command_line.GenerateWords.{GenerateWords};
ghost use Rattle.mw_words.specs.declared.command_line.CheckWords.{CheckWords};
ghost use Rattle.mw_words.specs.declared.command_line.NewRoomWords.{NewRoomWords};
ghost use Rattle.mw_offline.specs.Driving.{DriveEnds};
ghost use Rattle.mw_offline.specs.Reaching.{ReachEnds};
ghost use Rattle.mw_causes.specs.Wrote.{wrote_by};
ghost use Rattle.mw_offline.specs.Generating.{GenerateEnds};
ghost use Rattle.mw_offline.specs.Checking.{CheckEnds};
ghost use Rattle.mw_offline.specs.FilesAround.{files_around};
ghost use Rattle.mw_offline.specs.NewRooms.{NewRoomEnds};
ghost use Rattle.mw_words.specs.declared.command_line.ServeWords.{ServeWords};
ghost use Rattle.mw_words.specs.declared.command_line.StressWords.{StressWords};
ghost use Rattle.mw_words.specs.declared.command_line.ThinWords.{ThinWords};
ghost use Rattle.mw_offline.specs.PairDriving.{PairDriveEnds, pair_choice};
ghost use Rattle.mw_offline.specs.PairRooms.{PairRoomEnds};
ghost use Rattle.mw_offline.specs.Stressing.{StressEnds};
ghost use Rattle.mw_offline.specs.ThinRuns.{ThinEnds};
ghost use Rattle.mw_words.specs.Words.{IsGenerate, IsCheck, IsReach, IsNewRoom, IsDrive, IsServe, IsStress, IsThin};
ghost use Rattle.mw_words.specs.Lines.{IsNoCommand, HasRanges, HasTries};
ghost use Rattle.mw_session.specs.Desks.{AreAll, IsWithin};
ghost use Rattle.mw_session.specs.Numbers.{all_numbers, NoneTwice};
ghost use Rattle.mw_session.specs.Rooms.{count_all};
ghost use Rattle.mw_serve.specs.Hosted.{ListensAfter};
ghost use Rattle.mw_serve.specs.PairServing.{PairJournalFound, PairServeEnds};
ghost use Rattle.mw_serve.specs.Serving.{JournalFound, ServeEnds};
ghost use Rattle.mw_cli.specs.Ends.{around, LineEnds};

use mw_base::{List, Text};
use mw_causes::{end_without_memory, tell};
use mw_edges::{Folder, Sink, Source};
use mw_link::Gate;
use mw_offline::{
    cmd_check, cmd_drive, cmd_generate, cmd_new_room, cmd_reach, cmd_stress, cmd_thin,
};
use mw_serve::cmd_serve;
use mw_session::Served;
use mw_words::{CommandLine, WordsError, read_words};
use std::alloc::Global;
use std::sync::Wait;
use std::thread::Threads;

/// What a run answers: its status, the gate, and for each worker of a room that was served the links
/// that it served, in order.
type Answer<G> = (u8, G, List<List<Served<<G as Gate>::Line>>>);

/// Does what a command line asks for.
fn run_line<F: Folder, G: Gate + Send, S: Source, O: Sink, E: Sink, R: Threads + Wait + Sync>(
    rt: &R,
    alloc: Global,
    line: &CommandLine,
    folder: &mut F,
    gate: G,
    input: &mut S,
    out: &mut O,
    err: &mut E,
) -> Answer<G>
where
    F::Drive: Drop,
    requires tries { HasTries line.now }
    requires ranges { HasRanges line.now }
    requires faults { G.faults gate ≡ 0 }
    requires given { G.given gate ≡ 0 }
    ensures ends { LineEnds line.now result.0
        (around (wrote_by F.holds F.may_fail F.refusals folder.old folder.new)
        (files_around F.holds F.images F.is_open F.may_fail F.faults folder.old folder.new)
        S.left input.old input.new (told_by O.held O.faults out.old out.new)
        (told_by E.held E.refusals err.old err.new)
        (λ status words. ServeEnds G.Line.heard G.Line.sent G.Line.faults G.Line.opened
        G.Line.is_shut F.Drive.may_leave status
        (files_around F.holds F.images F.is_open F.may_fail F.faults folder.old folder.new)
        words result.2 (told_by O.held O.faults out.old out.new)
        (told_by E.held E.refusals err.old err.new))
        (λ status words. PairServeEnds G.Line.heard G.Line.sent G.Line.faults G.Line.opened
        G.Line.is_shut F.Drive.may_leave status
        (files_around F.holds F.images F.is_open F.may_fail F.faults folder.old folder.new)
        words result.2 (told_by O.held O.faults out.old out.new)
        (told_by E.held E.refusals err.old err.new))) }
    ensures input { ((files : DriveWords) → line.now ≡ CommandLine.Drive files → ⊥) → input.new
        ≡ input.old }
    ensures fault { result.0 ≡ 5 → Rose (F.faults folder.old) (F.faults folder.new)
        ⊎ (Rose (S.faults input.old) (S.faults input.new)
        ⊎ (Rose (O.faults out.old) (O.faults out.new) ⊎ (0 < G.faults result.1))) }
    ensures same { ((wanted : GenerateWords) → line.now ≡ CommandLine.Generate wanted → ⊥)
        → ((room : NewRoomWords) → line.now ≡ CommandLine.NewRoom room → ⊥)
        → ((files : DriveWords) → line.now ≡ CommandLine.Drive files → ⊥)
        → ((room : ServeWords) → line.now ≡ CommandLine.Serve room → ⊥)
        → ((room : ThinWords) → line.now ≡ CommandLine.Thin room → ⊥) → (name : List ℕ)
        → F.holds folder.new name ≡ F.holds folder.old name }
    ensures gate { ((room : ServeWords) → line.now ≡ CommandLine.Serve room → ⊥)
        → (result.1 ≡ gate) × (result.2 ≡ []) }
    ensures numbers { NoneTwice (all_numbers result.2) }
    ensures given { G.given result.1 ≡ count_all result.2 }
    ensures full { (room : ServeWords) → line.now ≡ CommandLine.Serve room
        → IsWithin room.accept (count_all result.2) × (result.0 ≡ 0
        → AreAll room.accept (count_all result.2) (G.left result.1) (G.ended result.1)) }
    ensures listened { (room : ServeWords) → line.now ≡ CommandLine.Serve room
        → room.pair ≡ false → ListensAfter (JournalFound
        (files_around F.holds F.images F.is_open F.may_fail F.faults folder.old folder.new) room)
        (result.0 ≡ 0) (G.listened gate) (G.listened result.1) room.bind }
    ensures pair_listened { (room : ServeWords) → line.now ≡ CommandLine.Serve room
        → room.pair ≡ true → ListensAfter (PairJournalFound
        (files_around F.holds F.images F.is_open F.may_fail F.faults folder.old folder.new) room)
        (result.0 ≡ 0) (G.listened gate) (G.listened result.1) room.bind }
{
    match line {
        CommandLine::Generate(words) => {
            (
                cmd_generate(alloc, words, folder, out, err),
                gate,
                List::new(alloc),
            )
        }
        CommandLine::Check(words) => {
            (
                cmd_check(alloc, words, folder, out, err),
                gate,
                List::new(alloc),
            )
        }
        CommandLine::Reach(words) => {
            (
                cmd_reach(alloc, words, folder, out, err),
                gate,
                List::new(alloc),
            )
        }
        CommandLine::NewRoom(words) => {
            (
                cmd_new_room(alloc, words, folder, out, err),
                gate,
                List::new(alloc),
            )
        }
        CommandLine::Drive(words) => {
            (
                cmd_drive(alloc, words, folder, input, out, err),
                gate,
                List::new(alloc),
            )
        }
        CommandLine::Serve(words) => cmd_serve(rt, alloc, words, folder, gate, out, err),
        CommandLine::Stress(words) => {
            (cmd_stress(alloc, words, out, err), gate, List::new(alloc))
        }
        CommandLine::Thin(words) => {
            (
                cmd_thin(alloc, words, folder, out, err),
                gate,
                List::new(alloc),
            )
        }
    }
}

/// Does what the command line's words after the program's name say, and answers the status; beside
/// it the gate, and for each worker of a room that was served the links that it served, in order.
///
/// 0: all is done. 1: the checked seed file is of other tables, or its placement or spheres aren't
/// right. 2: the words are no command. 3: a players file, a world file or their joint is refused,
/// or no fill is tried, since a goal can't be met or there are more items than locations. 4: each
/// try is stuck. 5: the folder, the input, the out sink or the gate failed. 6: memory ran out. 7:
/// the seed file, the journal or the script is refused, or a byte stands where a journal was to be
/// made. 8: the next batch would pass the journal's limit, or the room has had 2^63 calls. With a
/// status other than 0 the error sink gets that status's line, or a front of it where it refuses.
///
/// Of the folder's files `generate` changes one, the seed file that its words name: with 0 it is
/// written; with 5 or 6 it is as it was or is written, or the folder refused to write it; and else
/// it isn't touched. `new-room` changes one, the journal that its words name, and only where no
/// byte stands in it and the seed file is accepted. `drive` and `serve` change one, the journal that
/// their words name, and not where the seed file is refused. With `--pair` these three change the
/// three files of a pair room, and so does `thin`. The others change none. `drive` alone
/// reads the input, and not where the seed file is refused, or the journal as the run begins.
/// `serve` alone uses the gate. `stress` touches neither files nor input.
///
/// Whatever the status of `drive` is, what a crash may then leave of its journal is settled for a
/// life that goes on from the one for which it was settled before; each ReceivedItems that was put
/// is the tail from its index of its slot's list in that life, and each check that was shown is in
/// that life's journal. The same is true of `serve` and of what was sent over its links.
#[tactic(auto, using(mw_words::proofs::Asking::has_tries, mw_words::proofs::Asking::has_ranges))]
pub fn run<F: Folder, G: Gate + Send, S: Source, O: Sink, E: Sink, R: Threads + Wait + Sync>(
    rt: &R,
    alloc: Global,
    words: &[Text],
    folder: &mut F,
    gate: G,
    input: &mut S,
    out: &mut O,
    err: &mut E,
) -> Answer<G>
where
    F::Drive: Drop,
    requires faults { G.faults gate ≡ 0 }
    requires given { G.given gate ≡ 0 }
    ensures generate { (wanted : GenerateWords) → IsGenerate words.now wanted
        → GenerateEnds result.0 (wrote_by F.holds F.may_fail F.refusals folder.old folder.new)
        wanted
        (told_by O.held O.faults out.old out.new) (told_by E.held E.refusals err.old err.new) }
    ensures check { (asked : CheckWords) → IsCheck words.now asked
        → CheckEnds result.0 (F.holds folder.old) (F.may_fail folder.old) asked
        (told_by O.held O.faults out.old out.new) (told_by E.held E.refusals err.old err.new) }
    ensures reach { (players : List ℕ) → IsReach words.now players
        → ReachEnds result.0 (F.holds folder.old) (F.may_fail folder.old) players
        (told_by O.held O.faults out.old out.new) (told_by E.held E.refusals err.old err.new) }
    ensures new_room { (room : NewRoomWords) → IsNewRoom words.now room → room.pair ≡ false
        → NewRoomEnds result.0
        (files_around F.holds F.images F.is_open F.may_fail F.faults folder.old folder.new) room
        (told_by O.held O.faults out.old out.new) (told_by E.held E.refusals err.old err.new) }
    ensures new_pair { (room : NewRoomWords) → IsNewRoom words.now room → room.pair ≡ true
        → PairRoomEnds result.0
        (files_around F.holds F.images F.is_open F.may_fail F.faults folder.old folder.new) room
        (told_by O.held O.faults out.old out.new) (told_by E.held E.refusals err.old err.new) }
    ensures drive { (files : DriveWords) → IsDrive words.now files → pair_choice files ≡ None
        → DriveEnds S.left result.0
        (files_around F.holds F.images F.is_open F.may_fail F.faults folder.old folder.new) files
        input.old input.new (told_by O.held O.faults out.old out.new)
        (told_by E.held E.refusals err.old err.new) }
    ensures drive_pair { (files : DriveWords) (choice : List ℕ) → IsDrive words.now files
        → pair_choice files ≡ Some choice → PairDriveEnds S.left result.0
        (files_around F.holds F.images F.is_open F.may_fail F.faults folder.old folder.new)
        files.multidata choice input.old input.new (told_by O.held O.faults out.old out.new)
        (told_by E.held E.refusals err.old err.new) }
    ensures thin { (room : ThinWords) → IsThin words.now room → ThinEnds result.0
        (files_around F.holds F.images F.is_open F.may_fail F.faults folder.old folder.new) room
        (told_by O.held O.faults out.old out.new) (told_by E.held E.refusals err.old err.new) }
    ensures stress { (asked : StressWords) → IsStress words.now asked
        → StressEnds result.0 asked (told_by O.held O.faults out.old out.new)
        (told_by E.held E.refusals err.old err.new) }
    ensures serve { (room : ServeWords) → IsServe words.now room → room.pair ≡ false
        → ServeEnds G.Line.heard G.Line.sent G.Line.faults G.Line.opened G.Line.is_shut
        F.Drive.may_leave result.0
        (files_around F.holds F.images F.is_open F.may_fail F.faults folder.old folder.new) room
        result.2 (told_by O.held O.faults out.old out.new)
        (told_by E.held E.refusals err.old err.new) }
    ensures serve_pair { (room : ServeWords) → IsServe words.now room → room.pair ≡ true
        → PairServeEnds G.Line.heard G.Line.sent G.Line.faults G.Line.opened G.Line.is_shut
        F.Drive.may_leave result.0
        (files_around F.holds F.images F.is_open F.may_fail F.faults folder.old folder.new) room
        result.2 (told_by O.held O.faults out.old out.new)
        (told_by E.held E.refusals err.old err.new) }
    ensures served { (room : ServeWords) → IsServe words.now room
        → IsWithin room.accept (count_all result.2) × (result.0 ≡ 0
        → AreAll room.accept (count_all result.2) (G.left result.1) (G.ended result.1)) }
    ensures listened { (room : ServeWords) → IsServe words.now room → room.pair ≡ false
        → ListensAfter (JournalFound
        (files_around F.holds F.images F.is_open F.may_fail F.faults folder.old folder.new) room)
        (result.0 ≡ 0) (G.listened gate) (G.listened result.1) room.bind }
    ensures pair_listened { (room : ServeWords) → IsServe words.now room → room.pair ≡ true
        → ListensAfter (PairJournalFound
        (files_around F.holds F.images F.is_open F.may_fail F.faults folder.old folder.new) room)
        (result.0 ≡ 0) (G.listened gate) (G.listened result.1) room.bind }
    ensures numbers { NoneTwice (all_numbers result.2) }
    ensures given { G.given result.1 ≡ count_all result.2 }
    ensures gate { ((room : ServeWords) → IsServe words.now room → ⊥)
        → (result.1 ≡ gate) × (result.2 ≡ []) }

    // Memory may run out before words are seen to be no command.
    ensures other { IsNoCommand words.now → (out.new ≡ out.old) × (folder.new ≡ folder.old)
        × RefusalEnds result.0 (told_by E.held E.refusals err.old err.new) }

    ensures input { ((files : DriveWords) → IsDrive words.now files → ⊥)
        → input.new ≡ input.old }
    ensures fault { result.0 ≡ 5 → Rose (F.faults folder.old) (F.faults folder.new)
        ⊎ (Rose (S.faults input.old) (S.faults input.new)
        ⊎ (Rose (O.faults out.old) (O.faults out.new) ⊎ (0 < G.faults result.1))) }
    ensures same { ((wanted : GenerateWords) → IsGenerate words.now wanted → ⊥)
        → ((room : NewRoomWords) → IsNewRoom words.now room → ⊥)
        → ((files : DriveWords) → IsDrive words.now files → ⊥)
        → ((room : ServeWords) → IsServe words.now room → ⊥)
        → ((room : ThinWords) → IsThin words.now room → ⊥) → (name : List ℕ)
        → F.holds folder.new name ≡ F.holds folder.old name }
{
    match read_words(alloc, words) {
        Ok(line) => run_line(rt, alloc, &line, folder, gate, input, out, err),
        Err(WordsError::BadWords) => {
            tell(err, "bad words\n");
            (2, gate, List::new(alloc))
        }
        Err(WordsError::Memory) => (end_without_memory(err), gate, List::new(alloc)),
    }
}

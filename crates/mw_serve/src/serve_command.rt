//! The command `serve`.
ghost use Rattle.std.specs.Prelude.{◌≡◌, ◌⊎◌, ◌<◌, ◌≤◌, ◌+◌, List, [], Some, Ok, Err, IfOk, IfErr, OnOk, false, true};
ghost use Rattle.std.specs.Io.KnownBytes.{Keeps};
ghost use Rattle.std.specs.Prelude.{IsTrue, is_ok, string_bytes};
ghost use Rattle.mw_edges.specs.Causes.{Rose};
ghost use Rattle.mw_edges.specs.Folders.{opened_bytes};
ghost use Rattle.mw_multidata.specs.Digest.{digest_of};
ghost use Rattle.mw_multidata.specs.SeedOf.{SeedOf};
ghost use Rattle.mw_session.specs.Desks.{AreAll, IsWithin};
ghost use Rattle.mw_session.specs.Numbers.{all_numbers, NoneTwice};
ghost use Rattle.mw_session.specs.Rooms.{count_all};
ghost use Rattle.mw_drive.specs.Ends.{IsFound, StaysSettled};
ghost use Rattle.mw_causes.specs.Ends.{told_by};
ghost use Rattle.mw_offline.specs.Driving.{JournalLeaves};
ghost use Rattle.mw_offline.specs.FilesAround.{files_around};
ghost use Rattle.mw_serve.specs.Hosted.{ListensAfter};
ghost use Rattle.mw_serve.specs.PairServing.{PairJournalFound, PairServeEnds};
ghost use Rattle.mw_serve.specs.Sent.{SendsFound};
ghost use Rattle.mw_serve.specs.Serving.{FileFinds, FileHostsShort, FileHostsToEnd, Finishes};
ghost use Rattle.mw_serve.specs.Serving.{JournalFound, ServeEnds, ServeKeeps};
ghost use Rattle.mw_serve.specs.Serving.{SeedStopped, ServeDone, ServeStopped, sessions_line};

use crate::hosting::{Ending, Terms, host_on};
use crate::serve_pair::serve_pair;
use mw_base::{List, Memory, Text};
use mw_causes::{DriveCause, SeedBytes, Stop, end, put_text, read_seed_bytes};
use mw_drive::DriveError;
use mw_edges::{Folder, FolderError, Sink};
use mw_keep::laws::{
    shown_is_checked, shown_is_checked_across, tails_across, tails_of_the_last_view,
};
use mw_link::Gate;
use mw_session::Served;
use mw_words::ServeWords;
use std::alloc::Global;
use std::sync::Wait;
use std::thread::Threads;

/// What a command that served comes to: how many links were accepted, or why that isn't all; the
/// gate; and for each worker the links that it served, in order.
#[derive(Drop)]
struct Coming<G: Gate> {
    outcome: Result<u64, DriveError>,
    gate: G,
    served: List<List<Served<G::Line>>>,
}

/// Serves the room that a file keeps. Its disk is closed again.
fn serve_on_file<F: Folder, G: Gate + Send, R: Threads + Wait + Sync>(
    rt: &R,
    alloc: Global,
    seed: SeedBytes,
    words: &ServeWords,
    folder: &mut F,
    gate: G,
) -> Coming<G>
where
    F::Drive: Drop,
    requires seed { SeedOf seed.bytes (Ok seed.multidata) }
    requires workers { 1 ≤ words.now.workers }
    requires faults { G.faults gate ≡ 0 }
    requires given { G.given gate ≡ 0 }
    ensures done { IfOk result.outcome (λ n. (n ≡ count_all result.served)
        × FileHostsToEnd G.Line.heard G.Line.sent G.Line.faults G.Line.opened G.Line.is_shut
        F.Drive.may_leave
        (files_around F.holds F.images F.is_open F.may_fail F.faults folder.old folder.new)
        words.now.journal seed.bytes seed.multidata result.served) }
    ensures short { IfErr result.outcome
        (FileHostsShort G.Line.heard G.Line.sent G.Line.faults G.Line.opened G.Line.is_shut
        F.Drive.may_leave
        (files_around F.holds F.images F.is_open F.may_fail F.faults folder.old folder.new)
        words.now.journal seed.bytes seed.multidata result.served) }
    ensures found { SendsFound G.Line.sent
        (IsFound (opened_bytes (F.holds folder.old words.now.journal))
        (F.images folder.old words.now.journal) (digest_of seed.bytes) seed.multidata)
        (StaysSettled (F.images folder.old words.now.journal)
        (F.images folder.new words.now.journal) (digest_of seed.bytes))
        (F.images folder.new words.now.journal) (digest_of seed.bytes) seed.multidata
        result.served }
    ensures leaves { JournalLeaves
        (files_around F.holds F.images F.is_open F.may_fail F.faults folder.old folder.new)
        (Some words.now.journal) }
    ensures numbers { NoneTwice (all_numbers result.served) }
    ensures given { G.given result.gate ≡ count_all result.served }
    ensures within { IsWithin words.now.accept (count_all result.served) }
    ensures full { IfOk result.outcome
        (λ n. AreAll words.now.accept n (G.left result.gate) (G.ended result.gate)) }
    ensures listened { ListensAfter (FileFinds
        (files_around F.holds F.images F.is_open F.may_fail F.faults folder.old folder.new)
        words.now.journal seed.bytes seed.multidata)
        (IsTrue (is_ok result.outcome)) (G.listened gate) (G.listened result.gate) words.now.bind }
    ensures fault { result.outcome ≡ Err DriveError.Fault
        → Rose (F.faults folder.old) (F.faults folder.new) ⊎ (0 < G.faults result.gate) }
    ensures later { F.faults folder.old ≤ F.faults folder.new }
{
    let SeedBytes { bytes, multidata } = seed;
    let disk = match folder.open_disk(alloc, &words.journal) {
        Ok(disk) => disk,
        Err(FolderError::Failed) => return unserved(alloc, gate, DriveError::Fault),
        Err(FolderError::Memory) => return unserved(alloc, gate, DriveError::Memory),
    };
    let terms = Terms {
        workers: words.workers,
        accept: words.accept,
    };
    let Ending {
        disk,
        gate,
        served,
        outcome,
    } = host_on(
        rt,
        alloc,
        disk,
        multidata,
        bytes.as_slice(),
        &words.bind,
        terms,
        gate,
    );
    folder.close_disk(&words.journal, disk);
    Coming {
        outcome,
        gate,
        served,
    }
}

/// A room that wasn't served.
fn unserved<G: Gate>(alloc: Global, gate: G, error: DriveError) -> Coming<G>
    ensures { result ≡ record { outcome = Err error; gate = gate; served = [] } }
{
    Coming {
        outcome: Err(error),
        gate,
        served: List::new(alloc),
    }
}

/// The line for how many links were accepted.
fn sessions_text(alloc: Global, count: u64) -> Result<String, Memory>
    ensures { IfOk result (λ t. string_bytes t ≡ sessions_line count) }
{
    Ok(format!(in alloc; "sessions {count}\n")?)
}

/// Puts how many links were accepted, where that is all.
pub(crate) fn finish<O: Sink>(
    alloc: Global,
    out: &mut O,
    outcome: Result<u64, DriveError>,
) -> Result<(), Stop<DriveCause>>
    ensures finishes { Finishes outcome (O.held out.old) (O.held out.new) result }
    ensures fault { result ≡ Err Stop.Fault → (outcome ≡ Err DriveError.Fault)
        ⊎ Rose (O.faults out.old) (O.faults out.new) }
{
    let count = outcome?;
    let line = sessions_text(alloc, count)?;
    put_text(out, line.as_str())
}

/// Does all that `serve` does but for its error line.
fn serve<F: Folder, G: Gate + Send, O: Sink, R: Threads + Wait + Sync>(
    rt: &R,
    alloc: Global,
    words: &ServeWords,
    folder: &mut F,
    gate: G,
    out: &mut O,
) -> (Result<(), Stop<DriveCause>>, G, List<List<Served<G::Line>>>)
where
    F::Drive: Drop,
    requires workers { 1 ≤ words.now.workers }
    requires faults { G.faults gate ≡ 0 }
    requires given { G.given gate ≡ 0 }
    ensures done { OnOk result.0 (ServeDone G.Line.heard G.Line.sent G.Line.faults G.Line.opened
        G.Line.is_shut F.Drive.may_leave
        (files_around F.holds F.images F.is_open F.may_fail F.faults folder.old folder.new)
        words.now result.2 (O.held out.old) (O.held out.new)) }
    ensures stopped { IfErr result.0 (λ stop. SeedStopped
        (files_around F.holds F.images F.is_open F.may_fail F.faults folder.old folder.new)
        words.now.multidata result.2 (O.held out.old) (O.held out.new) stop
        ⊎ ServeStopped G.Line.heard G.Line.sent G.Line.faults G.Line.opened G.Line.is_shut
        F.Drive.may_leave
        (files_around F.holds F.images F.is_open F.may_fail F.faults folder.old folder.new)
        words.now result.2 (O.held out.old) (O.held out.new) stop) }
    ensures kept { ServeKeeps G.Line.heard G.Line.sent G.Line.faults G.Line.opened G.Line.is_shut
        F.Drive.may_leave
        (files_around F.holds F.images F.is_open F.may_fail F.faults folder.old folder.new)
        words.now result.2 }
    ensures leaves { JournalLeaves
        (files_around F.holds F.images F.is_open F.may_fail F.faults folder.old folder.new)
        (Some words.now.journal) }
    ensures numbers { NoneTwice (all_numbers result.2) }
    ensures given { G.given result.1 ≡ count_all result.2 }
    ensures within { IsWithin words.now.accept (count_all result.2) }
    ensures full { OnOk result.0 (AreAll words.now.accept (count_all result.2) (G.left result.1)
        (G.ended result.1)) }
    ensures listened { ListensAfter (JournalFound
        (files_around F.holds F.images F.is_open F.may_fail F.faults folder.old folder.new)
        words.now) (IsTrue (is_ok result.0)) (G.listened gate) (G.listened result.1)
        words.now.bind }
    ensures fault { result.0 ≡ Err Stop.Fault
        → Rose (F.faults folder.old) (F.faults folder.new)
        ⊎ ((0 < G.faults result.1) ⊎ Rose (O.faults out.old) (O.faults out.new)) }
{
    // The laws of runs of lives, by which what was taken is kept.
    shown_is_checked();
    tails_of_the_last_view();
    shown_is_checked_across();
    tails_across();
    match read_seed_bytes(alloc, folder, &words.multidata) {
        Ok(seed) => {
            let Coming {
                outcome,
                gate,
                served,
            } = serve_on_file(rt, alloc, seed, words, folder, gate);
            (finish(alloc, out, outcome), gate, served)
        }
        Err(stop) => (Err(Stop::from(stop)), gate, List::new(alloc)),
    }
}

/// Hosts a room of one journal, and tells how it ended.
fn serve_single<F: Folder, G: Gate + Send, O: Sink, E: Sink, R: Threads + Wait + Sync>(
    rt: &R,
    alloc: Global,
    words: &ServeWords,
    folder: &mut F,
    gate: G,
    out: &mut O,
    err: &mut E,
) -> (u8, G, List<List<Served<G::Line>>>)
where
    F::Drive: Drop,
    requires workers { 1 ≤ words.now.workers }
    requires faults { G.faults gate ≡ 0 }
    requires given { G.given gate ≡ 0 }
    ensures ends { ServeEnds G.Line.heard G.Line.sent G.Line.faults G.Line.opened G.Line.is_shut
        F.Drive.may_leave result.0
        (files_around F.holds F.images F.is_open F.may_fail F.faults folder.old folder.new)
        words.now result.2 (told_by O.held O.faults out.old out.new)
        (told_by E.held E.refusals err.old err.new) }
    ensures numbers { NoneTwice (all_numbers result.2) }
    ensures given { G.given result.1 ≡ count_all result.2 }
    ensures within { IsWithin words.now.accept (count_all result.2) }
    ensures full { result.0 ≡ 0 → AreAll words.now.accept (count_all result.2) (G.left result.1)
        (G.ended result.1) }
    ensures listened { ListensAfter (JournalFound
        (files_around F.holds F.images F.is_open F.may_fail F.faults folder.old folder.new)
        words.now) (result.0 ≡ 0) (G.listened gate) (G.listened result.1) words.now.bind }
    ensures fault { result.0 ≡ 5
        → Rose (F.faults folder.old) (F.faults folder.new)
        ⊎ ((0 < G.faults result.1) ⊎ Rose (O.faults out.old) (O.faults out.new)) }
{
    let (outcome, gate, served) = serve(rt, alloc, words, folder, gate, out);
    (end(alloc, err, outcome), gate, served)
}

/// Hosts a pair room, and tells how it ended.
fn serve_chosen<F: Folder, G: Gate + Send, O: Sink, E: Sink, R: Threads + Wait + Sync>(
    rt: &R,
    alloc: Global,
    words: &ServeWords,
    folder: &mut F,
    gate: G,
    out: &mut O,
    err: &mut E,
) -> (u8, G, List<List<Served<G::Line>>>)
where
    F::Drive: Drop,
    requires workers { 1 ≤ words.now.workers }
    requires faults { G.faults gate ≡ 0 }
    requires given { G.given gate ≡ 0 }
    ensures ends { PairServeEnds G.Line.heard G.Line.sent G.Line.faults G.Line.opened
        G.Line.is_shut F.Drive.may_leave result.0
        (files_around F.holds F.images F.is_open F.may_fail F.faults folder.old folder.new)
        words.now result.2 (told_by O.held O.faults out.old out.new)
        (told_by E.held E.refusals err.old err.new) }
    ensures numbers { NoneTwice (all_numbers result.2) }
    ensures given { G.given result.1 ≡ count_all result.2 }
    ensures within { IsWithin words.now.accept (count_all result.2) }
    ensures full { result.0 ≡ 0 → AreAll words.now.accept (count_all result.2) (G.left result.1)
        (G.ended result.1) }
    ensures listened { ListensAfter (PairJournalFound
        (files_around F.holds F.images F.is_open F.may_fail F.faults folder.old folder.new)
        words.now) (result.0 ≡ 0) (G.listened gate) (G.listened result.1) words.now.bind }
    ensures fault { result.0 ≡ 5
        → Rose (F.faults folder.old) (F.faults folder.new)
        ⊎ ((0 < G.faults result.1) ⊎ Rose (O.faults out.old) (O.faults out.new)) }
{
    let (outcome, gate, served) = serve_pair(rt, alloc, words, folder, gate, out);
    (end(alloc, err, outcome), gate, served)
}

/// Hosts the room of a seed file, which is kept in a journal: it listens at the address that the
/// words name, and serves each link by a session, as many at once as there are workers. It ends
/// once as many links were accepted as the words say, or where the gate gives no more, and prints
/// how many there were. The gate is handed back, and for each worker the links that it served.
///
/// With `--pair` the words name CHOICE, and the journal is the one that CHOICE names; nobody else
/// opens the three files as disks meanwhile.
///
/// The seed file is judged first, then CHOICE, once the three files of a pair room are opened, and
/// then the journal; all before the gate listens, which it doesn't
/// where one of them is refused. A journal is judged after its first gate that isn't open was
/// written 0.
///
/// The status is 0 where all is done; 5 where the folder, the journal's disk, the gate or the out
/// sink failed; 6 where memory ran out; 7 where the seed file or the journal is refused; 8 where the
/// next batch would pass the journal's limit, or the room has had 2^63 calls. A room that has
/// stopped is told first, then the gate, then memory. A link's fault changes no status. With a
/// status other than 0 the error sink gets that status's line, or a front of it where it refuses.
///
/// Whatever the status is, what a crash may leave of the journal's file stays settled, and keeps all
/// that was sent: whatever runs, crashes and checkpoints the journal is of, since the run went on from
/// the life that begins with the records that it found, and sent only what was taken on the way.
pub fn cmd_serve<F: Folder, G: Gate + Send, O: Sink, E: Sink, R: Threads + Wait + Sync>(
    rt: &R,
    alloc: Global,
    words: &ServeWords,
    folder: &mut F,
    gate: G,
    out: &mut O,
    err: &mut E,
) -> (u8, G, List<List<Served<G::Line>>>)
where
    F::Drive: Drop,
    requires workers { 1 ≤ words.now.workers }
    requires faults { G.faults gate ≡ 0 }
    requires given { G.given gate ≡ 0 }
    ensures ends { words.now.pair ≡ false → ServeEnds G.Line.heard G.Line.sent G.Line.faults
        G.Line.opened G.Line.is_shut F.Drive.may_leave result.0
        (files_around F.holds F.images F.is_open F.may_fail F.faults folder.old folder.new)
        words.now result.2 (told_by O.held O.faults out.old out.new)
        (told_by E.held E.refusals err.old err.new) }
    ensures pair { words.now.pair ≡ true → PairServeEnds G.Line.heard G.Line.sent G.Line.faults
        G.Line.opened G.Line.is_shut F.Drive.may_leave result.0
        (files_around F.holds F.images F.is_open F.may_fail F.faults folder.old folder.new)
        words.now result.2 (told_by O.held O.faults out.old out.new)
        (told_by E.held E.refusals err.old err.new) }
    ensures numbers { NoneTwice (all_numbers result.2) }
    ensures given { G.given result.1 ≡ count_all result.2 }
    ensures within { IsWithin words.now.accept (count_all result.2) }
    ensures full { result.0 ≡ 0 → AreAll words.now.accept (count_all result.2) (G.left result.1)
        (G.ended result.1) }
    ensures listened { words.now.pair ≡ false → ListensAfter (JournalFound
        (files_around F.holds F.images F.is_open F.may_fail F.faults folder.old folder.new)
        words.now) (result.0 ≡ 0) (G.listened gate) (G.listened result.1) words.now.bind }
    ensures pair_listened { words.now.pair ≡ true → ListensAfter (PairJournalFound
        (files_around F.holds F.images F.is_open F.may_fail F.faults folder.old folder.new)
        words.now) (result.0 ≡ 0) (G.listened gate) (G.listened result.1) words.now.bind }
    ensures fault { result.0 ≡ 5
        → Rose (F.faults folder.old) (F.faults folder.new)
        ⊎ ((0 < G.faults result.1) ⊎ Rose (O.faults out.old) (O.faults out.new)) }
{
    if words.pair {
        return serve_chosen(rt, alloc, words, folder, gate, out, err);
    }
    serve_single(rt, alloc, words, folder, gate, out, err)
}

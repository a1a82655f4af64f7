//! The command `serve --pair`.
ghost use Rattle.std.specs.Prelude.{◌≡◌, ◌⊎◌, ◌<◌, ◌≤◌, IfErr, IsTrue, OnOk, is_ok};
ghost use Rattle.mw_edges.specs.Causes.{Rose};
ghost use Rattle.mw_session.specs.Desks.{AreAll, IsWithin};
ghost use Rattle.mw_session.specs.Numbers.{all_numbers, NoneTwice};
ghost use Rattle.mw_session.specs.Rooms.{count_all};
ghost use Rattle.mw_offline.specs.FilesAround.{files_around};
ghost use Rattle.mw_offline.specs.PairDriving.{ChoiceStays};
ghost use Rattle.mw_offline.specs.PairFiles.{PairLeaves};
ghost use Rattle.mw_serve.specs.Hosted.{ListensAfter};
ghost use Rattle.mw_serve.specs.PairServing.{PairJournalFound, PairServeDone, PairServeKeeps};
ghost use Rattle.mw_serve.specs.PairServing.{PairFinishes, PairServeStopped};

use crate::hosting::{Ending, Terms, host_on};
use crate::serve_command::finish;
use mw_base::List;
use mw_causes::{PairDriveCause, SeedBytes, Stop};
use mw_drive::DriveError;
use mw_edges::{Folder, Sink};
use mw_keep::laws::{
    shown_is_checked, shown_is_checked_across, tails_across, tails_of_the_last_view,
};
use mw_link::Gate;
use mw_offline::{PairRoom, open_pair_room};
use mw_pair::{Chosen, close_chosen};
use mw_session::Served;
use mw_words::ServeWords;
use std::alloc::Global;
use std::sync::Wait;
use std::thread::Threads;

/// Puts how many links were accepted, where that is all.
fn finish_pair<O: Sink>(
    alloc: Global,
    out: &mut O,
    outcome: Result<u64, DriveError>,
) -> Result<(), Stop<PairDriveCause>>
    ensures finishes { PairFinishes outcome (O.held out.old) (O.held out.new) result }
    ensures fault { result ≡ Err Stop.Fault → (outcome ≡ Err DriveError.Fault)
        ⊎ Rose (O.faults out.old) (O.faults out.new) }
{
    match finish(alloc, out, outcome) {
        Ok(()) => Ok(()),
        Err(stop) => Err(Stop::from(stop)),
    }
}

/// Does all that `serve --pair` does but for its error line. The three disks are held open while the
/// room is served.
pub(crate) fn serve_pair<F: Folder, G: Gate + Send, O: Sink, R: Threads + Wait + Sync>(
    rt: &R,
    alloc: Global,
    words: &ServeWords,
    folder: &mut F,
    gate: G,
    out: &mut O,
) -> (
    Result<(), Stop<PairDriveCause>>,
    G,
    List<List<Served<G::Line>>>,
)
where
    F::Drive: Drop,
    requires workers { 1 ≤ words.now.workers }
    requires faults { G.faults gate ≡ 0 }
    requires given { G.given gate ≡ 0 }
    ensures done { OnOk result.0 (PairServeDone G.Line.heard G.Line.sent G.Line.faults
        G.Line.opened G.Line.is_shut F.Drive.may_leave
        (files_around F.holds F.images F.is_open F.may_fail F.faults folder.old folder.new)
        words.now result.2 (O.held out.old) (O.held out.new)) }
    ensures stopped { IfErr result.0 (PairServeStopped G.Line.heard G.Line.sent G.Line.faults
        G.Line.opened G.Line.is_shut F.Drive.may_leave
        (files_around F.holds F.images F.is_open F.may_fail F.faults folder.old folder.new)
        words.now result.2 (O.held out.old) (O.held out.new)) }
    ensures kept { PairServeKeeps G.Line.heard G.Line.sent G.Line.faults
        G.Line.opened G.Line.is_shut F.Drive.may_leave
        (files_around F.holds F.images F.is_open F.may_fail F.faults folder.old folder.new)
        words.now result.2 }
    ensures leaves { PairLeaves
        (files_around F.holds F.images F.is_open F.may_fail F.faults folder.old folder.new)
        words.now.journal }
    ensures stays { ChoiceStays
        (files_around F.holds F.images F.is_open F.may_fail F.faults folder.old folder.new)
        words.now.multidata words.now.journal }
    ensures numbers { NoneTwice (all_numbers result.2) }
    ensures given { G.given result.1 ≡ count_all result.2 }
    ensures within { IsWithin words.now.accept (count_all result.2) }
    ensures full { OnOk result.0 (AreAll words.now.accept (count_all result.2) (G.left result.1)
        (G.ended result.1)) }
    ensures listened { ListensAfter (PairJournalFound
        (files_around F.holds F.images F.is_open F.may_fail F.faults folder.old folder.new)
        words.now) (IsTrue (is_ok result.0)) (G.listened gate) (G.listened result.1)
        words.now.bind }
    ensures fault { result.0 ≡ Err Stop.Fault
        → Rose (F.faults folder.old) (F.faults folder.new)
        ⊎ ((0 < G.faults result.1) ⊎ Rose (O.faults out.old) (O.faults out.new)) }
{
    // The laws of runs of lives, by which what was taken is kept.
    shown_is_checked();
    tails_of_the_last_view();
    shown_is_checked_across();
    tails_across();
    let PairRoom { seed, names, room } = match open_pair_room(
        alloc,
        folder,
        &words.multidata,
        &words.journal,
    ) {
        Ok(room) => room,
        Err(stop) => return (Err(stop), gate, List::new(alloc)),
    };
    let SeedBytes { bytes, multidata } = seed;
    let Chosen {
        choice,
        journal,
        other,
        named,
    } = room;
    let terms = Terms {
        workers: words.workers,
        accept: words.accept,
    };
    let Ending {
        disk,
        gate,
        served,
        outcome,
    } = host_on(
        rt,
        alloc,
        journal,
        multidata,
        bytes.as_slice(),
        &words.bind,
        terms,
        gate,
    );
    let room = Chosen {
        choice,
        journal: disk,
        other,
        named,
    };
    close_chosen(folder, &names, room);
    (finish_pair(alloc, out, outcome), gate, served)
}

//! What is true of any two runs, and of all runs on one journal.
ghost use Rattle.mw_offline.specs.Laws.{GenerateIsOne};
ghost use Rattle.mw_offline.specs.WholeLives.{JournalsKeep};

use mw_edges::Folder;
use mw_keep::laws::no_item_twice;

/// Two runs of `generate` on the same files, with the same number and as many tries, write the same
/// bytes and print the same text, where the folder tells its files.
pub fn generate_is_one()
    ensures { GenerateIsOne }
{}

/// From a `new-room` that made a journal on, over any runs of `drive` with the same seed file, each
/// on what a crash may have left of the one before: every check that a run's messages showed is
/// among those of the journal with which each later run begins; every ReceivedItems of any run is
/// the tail from its index of what its session was to receive, and stands at that index in it by
/// each later run's journal; no item is received twice; and what a crash may leave is settled for a
/// life to which the runs led, in which `cmd_drive` refuses no journal (`accepted`).
///
/// It speaks of any folder that tells the journal's file. Of each run it takes what a run keeps,
/// which is the clause `kept` of `cmd_drive` where the run returned. Of one that never did, cut off
/// at any moment, no clause says so as a whole: `act` and `recover` say it of each call.
pub fn journals_keep<F: Folder>()
    ensures { JournalsKeep F.holds F.images }
{
    // No item stands twice, whatever journal a run finds.
    no_item_twice();
}

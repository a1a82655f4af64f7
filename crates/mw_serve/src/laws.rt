//! What is true of all runs on one journal, and on one pair room.
ghost use Rattle.std.specs.Prelude.{List, ℕ};
ghost use Rattle.mw_serve.specs.PairLives.{PairRoomsKeep};
ghost use Rattle.mw_serve.specs.WholeLives.{AllRunsKeep};

use mw_edges::Folder;
use mw_keep::laws::{
    journals_are_named, no_item_twice, shown_is_checked, shown_is_checked_across, tails_across,
    tails_of_the_last_view,
};
use mw_link::Link;

/// From a `new-room` that made a journal on, over any runs of `drive` and of `serve` with the same
/// seed file, each on what a crash may have left of the one before: every check that a run showed is
/// among those of the journal with which each later run begins; every ReceivedItems of any run is
/// the tail from its index of what its session was to receive, and stands at that index in it by
/// each later run's journal; what was sent over a link are the first of all messages that its
/// session was owed; no item is received twice; and what a crash may leave is settled for a life to
/// which the runs led, in which `drive` refuses no journal.
///
/// It speaks of any folder that tells the journal's file, and of any links. Of each run it takes
/// what a run keeps, which are the clauses `kept` of `cmd_drive` and `cmd_serve` where the run
/// returned. Of one that never did, cut off at any moment, no clause says so as a whole: `act` and
/// `recover` say it of each call.
pub fn all_runs_keep<F: Folder, L: Link>()
    ensures { AllRunsKeep F.holds F.images L.sent }
{
    // No item stands twice, whatever journal a run finds.
    no_item_twice();
}

/// From a `new-room --pair` that made the three files on, over any runs of `drive --pair`, of
/// `serve --pair` and of `thin` with the same seed file, in any order, each on what a crash may have
/// left of the one before: every check that a run showed is among those of the journal that each
/// later run finds by CHOICE; every ReceivedItems of any run stands at its index in what its session
/// was to receive by each later run's journal; what was sent over a link are the first of all
/// messages that its session was owed; and no item is received twice. So it is behind every
/// checkpoint, and where one was stopped by an error.
///
/// And no later run is refused for its files (`accepted`). What a crash may leave of CHOICE is
/// settled for bytes 0 and 1, and what it may leave of the journal that CHOICE names, whichever
/// that is, for records which name only what the seed has: then `chosen` and `resume` give no error
/// but a fault or want of memory. So where the three files are there, none of `NotJournal`,
/// `OtherSeed`, `BadChoice` and `BadRecord` is an error of `drive --pair`, of `serve --pair` or of
/// `thin`: no cause of these, as the ends of the commands name it, is so.
///
/// It speaks of any folder that tells the seed file and the three, and of any links. Of each run it
/// takes what a run keeps, which are the clauses `pair` of `cmd_drive` and `cmd_serve` (`kept`) and
/// `ends` of `cmd_thin` (`keeps`) where the run returned. Of one that never did, cut off at any
/// moment, no clause says so as a whole: `act` and `recover` say it of each call, and `chosen`,
/// `prepare` and `switch` of each of theirs.
pub fn pair_rooms_keep<F: Folder, L: Link>()
    ensures { (multidata choice : List ℕ)
        → PairRoomsKeep F.holds F.images F.is_open F.may_fail F.faults L.heard L.sent L.faults
        L.opened L.is_shut F.Drive.may_leave multidata choice }
{
    // No item stands twice, whatever journal a run finds; what was taken is kept; and what records
    // name the seed has.
    no_item_twice();
    shown_is_checked();
    tails_of_the_last_view();
    shown_is_checked_across();
    tails_across();
    journals_are_named();
}

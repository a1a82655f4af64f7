//! What a room owes once its journal was thinned.
ghost use Rattle.mw_thinning.specs.Across.{ClientsAcross, ShownAcross, TailsAcross};
ghost use Rattle.mw_thinning.specs.Checkpoints.{CheckpointsChangeNothing};
ghost use Rattle.mw_thinning.specs.Histories.{HistoriesOweTheSame};
ghost use Rattle.mw_thinning.specs.Same.{ThinnedIsTheSame};

use mw_laws::{clients_apply, lives_keep, shown_is_checked, tails_of_the_last_view};

/// The records of a journal that still count come to the same as all of it: the same checks, items,
/// hints, points and statuses, and the same value under each key.
pub fn thinned_is_the_same()
    ensures { ThinnedIsTheSame }
{}

/// Two lives that begin with journals which come to the same, that have the same calls, of which
/// the same ones lack memory, and none of whose appends fails, answer alike and owe their sessions
/// the same packets. Their journals come to the same again.
pub fn histories_owe_the_same()
    ensures { HistoriesOweTheSame }
{}

/// A run of lives, with crashes and with checkpoints between them, answers each call as the same
/// run without its checkpoints does, and has owed its sessions the same packets; its journal comes
/// to the same. So what holds of every run of lives, as far as it speaks of packets and of what the
/// journal comes to, holds across checkpoints.
pub fn checkpoints_change_nothing()
    ensures { CheckpointsChangeNothing }
{}

/// What the messages that a session takes show to be checked, in any life of any run with crashes
/// and checkpoints, is checked by the journal of each later point of the run.
pub fn shown_is_checked_across()
    ensures { ShownAcross }
{
    lives_keep();
    shown_is_checked();
}

/// The items of each ReceivedItems of a message that a session takes, in any life of any run with
/// crashes and checkpoints, are the tail from its index of what the session's mask kept of what its
/// slot received, and stand at that index in its view by the journal of each later point of the run.
pub fn tails_across()
    ensures { TailsAcross }
{
    lives_keep();
    tails_of_the_last_view();
}

/// A client of the network protocol never asks for Sync, whatever front of what its session was owed
/// it heard, in any life of any run with crashes and checkpoints, as long as the mask stays as it
/// was connected. Its list is a front of the session's view by the journal of each later point of
/// the life, and where it heard what was taken alone, of each later point of the run.
pub fn clients_apply_across()
    ensures { ClientsAcross }
{
    clients_apply();
}

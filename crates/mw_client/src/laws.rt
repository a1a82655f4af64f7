//! What is true of a client over the lives of a room.
ghost use Rattle.mw_client.specs.Lives.{ListsOnlyGrow, ListsStayFronts};

use mw_laws::{clients_apply, events_tell, lives_keep, strangers_hear, whole_views_are_owed};

/// A client that hears one session of its slot after another, each opened after what it heard of
/// the one before was taken, never asks for Sync, and its list is always a front of what its slot
/// received, by the journal of each later point of the run, whatever crashes come.
pub fn lists_stay_fronts()
    ensures { ListsStayFronts }
{
    clients_apply();
}

/// The list of such a client only grows at its end: of two points at which it has heard a message,
/// in one session or in two, in one life of the room or in two, its list at the earlier one is a
/// front of that at the later one, also where it is told its whole list anew.
pub fn lists_only_grow()
    ensures { ListsOnlyGrow }
{
    clients_apply();
    lives_keep();
    events_tell();
    whole_views_are_owed();
    strangers_hear();
}

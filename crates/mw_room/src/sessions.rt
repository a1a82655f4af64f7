ghost use Rattle.std.specs.Prelude.{◌≡◌, Some, map};
ghost use Rattle.std.specs.Option.{option_copied};
ghost use Rattle.mw_room.specs.Fits.{ChangesFit};
ghost use Rattle.mw_room.specs.Known.{leaves, member_at, shown_at, texts_at, emptied_among};
ghost use Rattle.mw_room.specs.Views.{session_view, changed, left, place_in, shown_state};

use crate::session::{Change, Session};
use crate::state::SessionState;
use mw_base::Text;
use mw_effects::Member;
use std::alloc::Global;

/// Makes the changes, each to the session at its index.
pub fn change_all(sessions: &mut [Session], changes: Vec<Change>, length: u64)
    requires { ChangesFit 0 sessions.old changes.items }
    ensures { map session_view sessions.new
        ≡ changed length (map session_view sessions.old) changes.items }
{
    for change in changes {
        let session = &mut sessions[change.at];
        session.change(change, length);
    }
}

/// The member that the first session of a number is, if it is one.
pub fn member_of(sessions: &[Session], number: u64) -> Option<&Member>
    ensures { option_copied result ≡ member_at number (map session_view sessions.now) }
{
    for session in sessions {
        if session.number == number {
            return session.member.as_ref();
        }
    }
    None
}

/// How a session stands.
fn state_of(session: &Session) -> SessionState
    ensures { result ≡ shown_state (Some (session_view session.now)) }
{
    if session.overrun {
        return SessionState::Overrun;
    }
    SessionState::Ready {
        shows: session.shows,
    }
}

/// How the first session of a number stands.
pub fn state_in(sessions: &[Session], number: u64) -> SessionState
    ensures { result ≡ shown_state (shown_at number (map session_view sessions.now)) }
{
    for session in sessions {
        if session.number == number {
            return state_of(session);
        }
    }
    SessionState::Shut
}

/// The index of the first session of a number, or how many there are.
pub fn place_of(sessions: &[Session], number: u64) -> usize
    ensures { result ≡ place_in number (map session_view sessions.now) }
{
    for (at, session) in sessions.iter().enumerate() {
        if session.number == number {
            return at;
        }
    }
    sessions.len()
}

/// Ends the first session of a number.
fn close(sessions: &mut Vec<Session>, number: u64)
    ensures { map session_view sessions.new.items
        ≡ leaves number (map session_view sessions.old.items) }
{
    let at = place_of(sessions, number);
    if at < sessions.len() {
        sessions.remove(at);
    }
}

/// Ends the session that is lost, if one is.
pub fn close_lost(sessions: &mut Vec<Session>, lost: Option<u64>)
    ensures { map session_view sessions.new.items
        ≡ left lost (map session_view sessions.old.items) }
{
    if let Some(number) = lost {
        close(sessions, number);
    }
}

/// Gives the texts of the first session of a number, and leaves it none.
pub fn take_texts(alloc: Global, sessions: &mut [Session], number: u64) -> Vec<Text>
    ensures given { result.items ≡ texts_at number (map session_view sessions.old) }
    ensures left { map session_view sessions.new
        ≡ emptied_among number (map session_view sessions.old) }
{
    let at = place_of(sessions, number);
    if at < sessions.len() {
        return sessions[at].empty(alloc);
    }
    Vec::new(alloc)
}

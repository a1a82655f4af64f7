ghost use Rattle.std.specs.Prelude.{◌≡◌, ◌≢◌, ◌≤◌, ℕ, List, None, Err, IfErr, true, is_some, length, option_map};
ghost use Rattle.mw_protocol.specs.Lives as plain;
ghost use Rattle.mw_protocol.specs.Rooms.{Room as Plain, session_in};
ghost use Rattle.mw_room.specs.Events.{event_view};
ghost use Rattle.mw_room.specs.Represents.{Represents};
ghost use Rattle.mw_keep.specs.Keeps.{IsFresh, IsSameButStopped, Keeps, committed_by, journal_of, kept_disk, origin_of, room_of, stopped_by};
ghost use Rattle.mw_keep.specs.Acts.{Acts, Goes};
ghost use Rattle.mw_keep.specs.Appends.{outcome_view};
ghost use Rattle.mw_keep.specs.Views.{call_view, commit_view, reply_view, stopped_view};

use crate::append::{append, spell};
use crate::call::Call;
use crate::reply::{Reply, StopCause};
use mw_base::{Bytes, SessionId};
use mw_disk::Disk;
use mw_journal::{AppendError, Journal};
use mw_room::{Event, Room, SessionState};
use std::alloc::Global;
use std::snapshot::Snapshot;

/// A room has at most so many calls in a life: 2^63.
const MOST_CALLS: u64 = 0x8000_0000_0000_0000;

/// A room that is kept in a journal on a disk.
///
/// What events record is pending, until a commit, or a take that shows some of it, appends it all
/// as one batch. Contracts see the lives that it stands for: a life has its room with its journal,
/// and how much of that is committed.
#[derive(Drop)]
pub struct KeptRoom<D> {
    pub(crate) alloc: Global,
    pub(crate) room: Room,
    pub(crate) journal: Journal<D>,
    /// The spellings of the records that aren't committed yet.
    pub(crate) pending: Bytes,
    /// How many records are committed.
    pub(crate) committed: u64,
    pub(crate) stopped: Option<StopCause>,
    pub(crate) calls: u64,
    pub(crate) origin: Origin<D>,
}

/// What a kept room's life began with, for contracts alone: its room, and its journal.
#[derive(Drop)]
pub struct Origin<D> {
    pub(crate) room: Snapshot<Room>,
    pub(crate) journal: Snapshot<Journal<D>>,
}

impl<D: Disk> KeptRoom<D> {
    /// A room of a journal, at the beginning of its life.
    pub(crate) fn new(alloc: Global, room: Room, journal: Journal<D>) -> KeptRoom<D>
        ensures room { room_of result ≡ room }
        ensures journal { journal_of result ≡ journal }
        ensures fresh { IsFresh result }
        ensures committed { (r : Plain) → Represents room r
            → committed_by result ≡ length r.journal }
    {
        let origin = Origin {
            room: Snapshot::of(&room),
            journal: Snapshot::of(&journal),
        };
        let committed = room.length();
        KeptRoom {
            alloc,
            room,
            journal,
            pending: Bytes::new(alloc),
            committed,
            stopped: None,
            calls: 0,
            origin,
        }
    }

    /// Its disk. The room is dropped, with what is pending.
    pub fn into_disk(self) -> D
        ensures { result ≡ kept_disk self }
    {
        let KeptRoom {
            alloc: _,
            room: _,
            journal,
            pending: _,
            committed: _,
            stopped: _,
            calls: _,
            origin: _,
        } = self;
        journal.into_disk()
    }

    /// Whether a session is open. It takes no memory, and is no call.
    pub fn is_open(&self, session: SessionId) -> bool
        ensures { (digest : List ℕ) (life : plain.Life) → Keeps D.may_leave digest life self.now
            → result ≡ is_some (session_in life.room.sessions session) }
    {
        match self.room.state(session) {
            SessionState::Shut => false,
            SessionState::Overrun | SessionState::Ready { .. } => true,
        }
    }

    /// The refusal of a call, if it is refused.
    fn refusal(&self, call: &Call) -> Option<Reply>
        ensures { (digest : List ℕ) (life : plain.Life) → Keeps D.may_leave digest life self.now
            → option_map reply_view result ≡ plain.refusal life (call_view call.now) }
    {
        if let Some(cause) = self.stopped {
            return Some(Reply::Stopped(cause));
        }
        if self.calls >= MOST_CALLS {
            return Some(Reply::Stopped(StopCause::TooManyCalls { count: MOST_CALLS }));
        }
        match call {
            Call::Open { .. } | Call::Commit => None,
            Call::Packet { session, .. } | Call::Bad { session, .. } | Call::Take { session } => {
                self.refused_to(*session, false)
            }
            Call::Lost { session } => self.refused_to(*session, true),
        }
    }

    /// The refusal of a call that names a session and ends it or not.
    fn refused_to(&self, session: SessionId, ending: bool) -> Option<Reply>
        ensures { (digest : List ℕ) (life : plain.Life) → Keeps D.may_leave digest life self.now
            → option_map reply_view result
            ≡ plain.refused_to ending (session_in life.room.sessions session) }
    {
        match self.room.state(session) {
            SessionState::Shut => Some(Reply::Gone),
            SessionState::Overrun if !ending => Some(Reply::Overrun),
            SessionState::Overrun | SessionState::Ready { .. } => None,
        }
    }

    /// Counts a call.
    fn count(&mut self)
        ensures kept { (digest : List ℕ) (life : plain.Life)
            → Keeps D.may_leave digest life self.old
            → Keeps D.may_leave digest (plain.counted life) self.new }
        ensures journal { journal_of self.new ≡ journal_of self.old }
        ensures origin { origin_of self.new ≡ origin_of self.old }
    {
        if self.calls < MOST_CALLS {
            self.calls += 1;
        }
    }

    /// Stops, unless memory alone was wanting.
    fn stop(&mut self, error: AppendError) -> Reply
        ensures replies { (r : Plain) (call : plain.Call)
            → reply_view result ≡ plain.reply_of r call (outcome_view (Err error)) }
        ensures fails { reply_view result ≢ plain.done }
        ensures stopped { stopped_view self.new.stopped
            ≡ stopped_by (outcome_view (Err error)) (stopped_view self.old.stopped) }
        ensures same { IsSameButStopped self.old self.new }
    {
        let cause = match error {
            AppendError::Memory => return Reply::Memory,
            AppendError::DiskFault => StopCause::DiskFault,
            AppendError::JournalFull { len } => StopCause::JournalFull { len },
        };
        self.stopped = Some(cause);
        Reply::Stopped(cause)
    }

    /// Appends what is pending as one batch, if anything is; or why that isn't done.
    fn commit(&mut self) -> Result<(), Reply>
        ensures origin { origin_of self.new ≡ origin_of self.old }
        ensures tells { is_some (D.told (kept_disk self.new))
            ≡ is_some (D.told (kept_disk self.old)) }
        ensures count { D.faults (kept_disk self.old) ≤ D.faults (kept_disk self.new) }
        ensures goes { (digest : List ℕ) (life : plain.Life)
            → Keeps D.may_leave digest (plain.counted life) self.old → life.stopped ≡ None
            → Goes D.may_leave D.moment D.left_since D.faults digest life
            plain.commits self.old (commit_view result) self.new }
        ensures fails { IfErr result (λ reply. reply_view reply ≢ plain.done) }
    {
        match append(&mut self.journal, &self.pending) {
            Ok(()) => {
                self.pending = Bytes::new(self.alloc);
                self.committed = self.room.length();
                Ok(())
            }
            Err(error) => Err(self.stop(error)),
        }
    }

    /// Makes an event: puts its records behind what is pending, and then does it.
    fn happen(&mut self, event: &Event) -> Reply
        ensures origin { origin_of self.new ≡ origin_of self.old }
        ensures journal { journal_of self.new ≡ journal_of self.old }
        ensures goes { (digest : List ℕ) (life : plain.Life)
            → Keeps D.may_leave digest (plain.counted life) self.old → life.stopped ≡ None
            → Goes D.may_leave D.moment D.left_since D.faults digest life
            (plain.happens (event_view event.now)) self.old (reply_view result) self.new }
    {
        let Ok(plan) = self.room.plan(event) else {
            return Reply::Memory;
        };
        if let Err(_memory) = spell(self.alloc, plan.records().as_slice(), &mut self.pending) {
            return Reply::Memory;
        }
        let reply = answer_to(&self.room, event);
        self.room.apply(plan);
        reply
    }

    /// Makes an event, and lets it go.
    fn let_happen(&mut self, event: Event) -> Reply
        ensures origin { origin_of self.new ≡ origin_of self.old }
        ensures journal { journal_of self.new ≡ journal_of self.old }
        ensures goes { (digest : List ℕ) (life : plain.Life)
            → Keeps D.may_leave digest (plain.counted life) self.old → life.stopped ≡ None
            → Goes D.may_leave D.moment D.left_since D.faults digest life
            (plain.happens (event_view event)) self.old (reply_view result) self.new }
    {
        self.happen(&event)
    }

    /// Whether a session has an untaken message that carries more than is committed.
    fn shows_pending(&self, session: SessionId) -> bool
        ensures { (digest : List ℕ) (life : plain.Life)
            → Keeps D.may_leave digest (plain.counted life) self.now
            → plain.refusal life (plain.takes session) ≡ None
            → result ≡ plain.shows_pending life session }
    {
        match self.room.state(session) {
            SessionState::Ready { shows } => shows > self.committed,
            SessionState::Shut | SessionState::Overrun => false,
        }
    }

    /// Makes safe what is pending, and takes a session's messages.
    fn commit_and_take(&mut self, session: SessionId) -> Reply
        ensures origin { origin_of self.new ≡ origin_of self.old }
        ensures tells { is_some (D.told (kept_disk self.new))
            ≡ is_some (D.told (kept_disk self.old)) }
        ensures count { D.faults (kept_disk self.old) ≤ D.faults (kept_disk self.new) }
        ensures goes { (digest : List ℕ) (life : plain.Life)
            → Keeps D.may_leave digest (plain.counted life) self.old → life.stopped ≡ None
            → plain.shows_pending life session ≡ true
            → Goes D.may_leave D.moment D.left_since D.faults digest life
            (plain.takes session) self.old (reply_view result) self.new }
    {
        match self.commit() {
            Ok(()) => Reply::Messages(self.room.take(session)),
            Err(reply) => reply,
        }
    }

    /// Takes a session's messages, once what they show is safe.
    fn take(&mut self, session: SessionId) -> Reply
        ensures origin { origin_of self.new ≡ origin_of self.old }
        ensures tells { is_some (D.told (kept_disk self.new))
            ≡ is_some (D.told (kept_disk self.old)) }
        ensures count { D.faults (kept_disk self.old) ≤ D.faults (kept_disk self.new) }
        ensures goes { (digest : List ℕ) (life : plain.Life)
            → Keeps D.may_leave digest (plain.counted life) self.old
            → plain.refusal life (plain.takes session) ≡ None
            → Goes D.may_leave D.moment D.left_since D.faults digest life
            (plain.takes session) self.old (reply_view result) self.new }
    {
        if self.shows_pending(session) {
            return self.commit_and_take(session);
        }
        Reply::Messages(self.room.take(session))
    }

    /// Makes a call that isn't refused.
    fn go(&mut self, call: Call) -> Reply
        ensures origin { origin_of self.new ≡ origin_of self.old }
        ensures tells { is_some (D.told (kept_disk self.new))
            ≡ is_some (D.told (kept_disk self.old)) }
        ensures count { D.faults (kept_disk self.old) ≤ D.faults (kept_disk self.new) }
        ensures goes { (digest : List ℕ) (life : plain.Life)
            → Keeps D.may_leave digest (plain.counted life) self.old
            → plain.refusal life (call_view call) ≡ None
            → Goes D.may_leave D.moment D.left_since D.faults digest life
            (call_view call) self.old (reply_view result) self.new }
    {
        match call {
            Call::Open { time } => self.let_happen(Event::Open { time }),
            Call::Packet { session, packet } => self.let_happen(Event::Packet { session, packet }),
            Call::Bad { session, bad } => self.let_happen(Event::Bad { session, bad }),
            Call::Lost { session } => self.let_happen(Event::Lost { session }),
            Call::Commit => match self.commit() {
                Ok(()) => Reply::Done,
                Err(reply) => reply,
            },
            Call::Take { session } => self.take(session),
        }
    }

    /// Makes a call. What events record is pending until a `Commit`, or a `Take` of a session that
    /// has a message which carries more than is committed: these append all that is pending as one
    /// batch before they are answered. So all that a taken message shows is safe, and what nobody
    /// took and no commit covered is lost at a crash.
    ///
    /// `Stopped` comes exactly where an earlier append of this life failed, this call's append
    /// fails, or the room has had 2^63 calls; `Gone` where the call names a session that isn't
    /// open; `Overrun` where it names one that was owed more than it may keep and doesn't end it.
    /// A call that is refused, and one that answers `Memory`, leaves the room as it was; a `Take`
    /// that appends nothing takes no memory. A disk that tells its bytes goes on to tell them.
    pub fn act(&mut self, call: Call) -> Reply
        ensures acts { (digest : List ℕ) (life : plain.Life)
            → Keeps D.may_leave digest life self.old
            → Acts D.may_leave D.moment D.left_since D.faults digest life
            (call_view call) self.old (reply_view result) self.new }
        ensures tells { is_some (D.told (kept_disk self.new))
            ≡ is_some (D.told (kept_disk self.old)) }
        ensures count { D.faults (kept_disk self.old) ≤ D.faults (kept_disk self.new) }
        ensures origin { origin_of self.new ≡ origin_of self.old }
    {
        let refusal = self.refusal(&call);
        self.count();
        match refusal {
            Some(reply) => reply,
            None => self.go(call),
        }
    }
}

/// What is answered to an event that is done.
fn answer_to(room: &Room, event: &Event) -> Reply
    ensures { (r : Plain) → Represents room.now r
        → reply_view result ≡ plain.answer_to r (event_view event.now) }
{
    match event {
        Event::Open { .. } => Reply::Opened(room.next_session()),
        Event::Packet { .. } | Event::Bad { .. } | Event::Lost { .. } => Reply::Done,
    }
}

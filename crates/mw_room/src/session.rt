ghost use Rattle.std.specs.Prelude.{◌≡◌, ◌+◌, ◌≤◌, length, min};
ghost use Rattle.mw_room.specs.Counted.{bytes_kept};

use mw_base::{Growth, Text};
use mw_effects::Member;
use std::alloc::Global;

/// A session keeps no further message once it has this many untaken ones.
const MOST_MESSAGES: usize = 4_096;

/// A session keeps no further message once its untaken ones have this many bytes together.
const MOST_BYTES: usize = 16_777_216;

/// An open session: its number, whom it plays, its untaken messages with their bytes, counted up to
/// the most that are kept, the greatest length of the journal that one of them carries, and whether
/// it was owed more than it may keep.
pub struct Session {
    pub number: u64,
    pub member: Option<Member>,
    pub untaken: Vec<Text>,
    pub bytes: usize,
    pub shows: u64,
    pub overrun: bool,
    ghost counted: { bytes ≡ bytes_kept untaken.items },
}

/// By hand, so that whoever lets it go calls this, and what it frees is listed once.
impl Drop for Session {
    fn drop(self) {
        let Session {
            number: _,
            member: _,
            untaken: _,
            bytes: _,
            shows: _,
            overrun: _,
        } = self;
    }
}

/// What an event does to the session at an index: the member that it becomes, if it becomes one,
/// and the message that it is owed, if it is owed one.
#[derive(Drop)]
pub struct Change {
    pub at: usize,
    pub made: Option<Member>,
    pub text: Option<Text>,
    pub growth: Growth<Text>,
}

/// A count of bytes with more of them, up to the most that are kept.
pub fn more_bytes(bytes: usize, text: &Text) -> usize
    requires { bytes ≤ 16777216 }
    ensures { result ≡ min (bytes + length text.now) 16777216 }
{
    let more = text.as_str().len();
    if more >= MOST_BYTES - bytes {
        MOST_BYTES
    } else {
        bytes + more
    }
}

impl Session {
    ghost use Rattle.std.specs.Prelude.{◌≡◌};
    ghost use Rattle.mw_base.specs.Space.{HasSpace};
    ghost use Rattle.mw_protocol.specs.Rooms.{is_full as is_full_lem};
    ghost use Rattle.mw_room.specs.Known.{dropped, emptied, with_text, owing};
    ghost use Rattle.mw_room.specs.Views.{session_view, changed_by};

    /// Whether it keeps no further message.
    #[tactic(auto, using(crate::proofs::Messages::bytes_more))]
    fn is_full(&self) -> bool
        ensures { result ≡ is_full_lem self.now.untaken.items }
    {
        self.untaken.len() >= MOST_MESSAGES || self.bytes >= MOST_BYTES
    }

    /// Drops what it hasn't taken, and owes it nothing more.
    fn overrun(&mut self)
        ensures { session_view self.new ≡ dropped (session_view self.old) }
    {
        self.untaken.clear();
        self.bytes = 0;
        self.shows = 0;
        self.overrun = true;
    }

    /// Keeps a message, at a length of the journal.
    #[tactic(auto, using(crate::proofs::Messages::bytes_more))]
    fn keep(&mut self, text: Text, growth: Growth<Text>, length: u64)
        requires { HasSpace self.old.untaken growth 1 }
        ensures { session_view self.new ≡ with_text text length (session_view self.old) }
    {
        self.bytes = more_bytes(self.bytes, &text);
        growth.push(&mut self.untaken, text);
        self.shows = self.shows.max(length);
    }

    /// Owes a message, at a length of the journal, unless the session was or now is owed too many.
    fn owe(&mut self, text: Text, growth: Growth<Text>, length: u64)
        requires { HasSpace self.old.untaken growth 1 }
        ensures { session_view self.new ≡ owing text length (session_view self.old) }
    {
        if self.overrun {
            return;
        }
        if self.is_full() {
            self.overrun();
            return;
        }
        self.keep(text, growth, length);
    }

    /// Gives its untaken messages, and leaves it none.
    pub fn empty(&mut self, alloc: Global) -> Vec<Text>
        ensures given { result.items ≡ self.old.untaken.items }
        ensures left { session_view self.new ≡ emptied (session_view self.old) }
    {
        self.bytes = 0;
        self.shows = 0;
        std::mem::replace(&mut self.untaken, Vec::new(alloc))
    }

    /// Makes a change, at a length of the journal.
    pub fn change(&mut self, change: Change, length: u64)
        requires { HasSpace self.old.untaken change.growth 1 }
        ensures { session_view self.new ≡ changed_by change length (session_view self.old) }
    {
        let Change {
            made,
            text,
            growth,
            ..
        } = change;
        if made.is_some() {
            self.member = made;
        }
        if let Some(text) = text {
            self.owe(text, growth, length);
        }
    }
}

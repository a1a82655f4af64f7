ghost use Rattle.std.specs.Prelude.{◌≡◌, []};
ghost use Rattle.mw_disk.specs.FileLogs.{noted, opened_log};

use crate::file_event::FileEvent;
use crate::history::History;
use crate::seen::Seen;
use std::marker::Model;

/// What a file held when it was opened, and the record of its calls since. Contracts see both; a
/// program keeps whether the file was made then, and a byte or two.
#[derive(Drop)]
pub struct EventLog {
    found: Seen,
    left: History<Seen>,
    fresh: bool,
    events: History<FileEvent<Seen>>,
}

impl Model for EventLog {
    ghost use Rattle.mw_disk.specs.FileLogs.{FileLog};

    ghost Value = { FileLog };

    ghost view = { λ l. record {
      found = l.found;
      left = l.left;
      fresh = l.fresh;
      events = l.events;
    } };
}

impl EventLog {
    /// The record of a file that was opened now, and made then or not. No clause says what it held.
    pub(crate) fn unknown(fresh: bool) -> EventLog
        ensures fresh { result.fresh ≡ fresh }
        ensures events { result.events ≡ [] }
    {
        EventLog {
            found: Seen::of(b""),
            left: History::new(),
            fresh,
            events: History::new(),
        }
    }

    /// The record of a file that holds these bytes, all of them safe from a crash, and was made now or
    /// not.
    pub fn of(found: &[u8], fresh: bool) -> EventLog
        ensures { result ≡ opened_log found.now fresh }
    {
        EventLog {
            found: Seen::of(found),
            left: History::new(),
            fresh,
            events: History::new(),
        }
    }

    /// Notes a call with its answer.
    pub(crate) fn note(&mut self, event: FileEvent<Seen>)
        ensures { self.new ≡ noted event self.old }
    {
        self.events.note(&event);
    }
}

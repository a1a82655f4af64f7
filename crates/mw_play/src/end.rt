//! How `multiplay` ends.
ghost use Rattle.std.specs.Prelude.{◌≡◌};
ghost use Rattle.mw_edges.specs.Causes.{Tells};
ghost use Rattle.mw_play.specs.Ends.{end_line, end_status, save_line as save_line_lem};

use crate::save_error::SaveRefusal;
use mw_base::{Memory, Text};
use mw_edges::Sink;

/// How a run of `multiplay` ends.
#[derive(Drop)]
pub enum PlayEnd {
    /// The room ended the session of a client that had joined.
    Ended,
    /// The room turned the client away.
    TurnedAway {
        /// The line that tells why.
        line: Text,
    },
    /// The room ended the session of a client that hadn't joined.
    EndedEarly,
    /// All turns were taken.
    Spent,
    /// The words or the input aren't as they should be.
    BadWords,
    /// The folder, the dial, the source or the out sink failed.
    Fault,
    /// Memory ran out.
    Memory,
    /// The save file is refused.
    Refused {
        /// Why.
        refusal: SaveRefusal,
    },
    /// The next batch would pass the limit of the save file's journal.
    Full,
}

impl From<Memory> for PlayEnd {
    ghost use Rattle.mw_play.specs.declared.end.PlayEnd.TheVariants.{Memory as OutOfMemory};
    ghost use Rattle.std.specs.Prelude.{◌≡◌};

    ghost from_gives = { λ _ e. e ≡ OutOfMemory };

    fn from(_error: Memory) -> Self {
        PlayEnd::Memory
    }
}

/// The line of a save file that is refused.
fn save_line(refusal: SaveRefusal) -> &'static str
    ensures { result.now ≡ save_line_lem refusal }
{
    match refusal {
        SaveRefusal::NotJournal => "save refused: NotJournal\n",
        SaveRefusal::OtherSeed => "save refused: OtherSeed\n",
        SaveRefusal::BadBody => "save refused: BadBody\n",
    }
}

impl PlayEnd {
    /// The status.
    pub fn status(&self) -> u8
        ensures is { result ≡ end_status self.now }
        ensures fault { result ≡ 5 → self.now ≡ PlayEnd.Fault }
    {
        match self {
            PlayEnd::Ended => 0,
            PlayEnd::TurnedAway { .. } | PlayEnd::EndedEarly => 1,
            PlayEnd::BadWords => 2,
            PlayEnd::Fault => 5,
            PlayEnd::Memory => 6,
            PlayEnd::Refused { .. } => 7,
            PlayEnd::Full => 8,
            PlayEnd::Spent => 9,
        }
    }

    /// The line on the error sink; empty where there is none.
    pub fn line(&self) -> &str
        ensures { result.now ≡ end_line self.now }
    {
        match self {
            PlayEnd::Ended => "",
            PlayEnd::TurnedAway { line } => line.as_str(),
            PlayEnd::EndedEarly => "ended early\n",
            PlayEnd::BadWords => "bad words\n",
            PlayEnd::Fault => "device failed\n",
            PlayEnd::Memory => "no memory\n",
            PlayEnd::Refused { refusal } => save_line(*refusal),
            PlayEnd::Full => "save full\n",
            PlayEnd::Spent => "turns spent\n",
        }
    }
}

/// Tells an end, and answers its status. It takes no memory.
pub(crate) fn tell_end<E: Sink>(err: &mut E, end: &PlayEnd) -> u8
    ensures status { result ≡ end_status end.now }
    ensures fault { result ≡ 5 → end.now ≡ PlayEnd.Fault }
    ensures line { Tells (E.held err.old) (E.held err.new) (E.refusals err.old)
        (E.refusals err.new) (end_line end.now) }
{
    let _ = err.put(end.line().as_bytes());
    end.status()
}

ghost use Rattle.std.specs.Prelude.{◌≡◌, ℕ, List, Bool, true, Ok, Err};
ghost use Rattle.mw_edges.specs.Causes.{HasCause};
ghost use Rattle.mw_link.specs.Tells.{Hears, Sends};

use mw_base::Text;
use thiserror::Error;

/// What came over a link.
#[derive(Drop)]
pub enum Heard {
    /// A text.
    Words(Text),
    /// A message that is no text.
    Binary,
    /// Nothing yet.
    NotYet,
    /// The end: nothing more comes.
    End,
}

/// Why a call over a link, or of a gate, was not done.
#[derive(Clone, Copy, Debug, PartialEq, Eq, Error)]
pub enum LinkError {
    /// The object failed, and its count of faults rose.
    #[error("device failed")]
    Failed,
    /// Memory ran out.
    #[error("no memory")]
    Memory,
}

/// A connection over which texts come and go. It tells what it heard and what it sent.
pub trait Link {
    ghost use Rattle.mw_link.specs.declared.link.Heard.{Heard};

    /// What `recv` answered with Ok.
    ghost heard: { Self → List Heard };

    /// The texts that `send` took with Ok.
    ghost sent: { Self → List (List ℕ) };

    /// How often it has failed.
    ghost faults: { Self → ℕ };

    /// The whole second at which it was accepted.
    ghost opened: { Self → ℕ };

    /// Whether it was shut.
    ghost is_shut: { Self → Bool };

    /// What came next; `NotYet` where nothing has come, and `End` where nothing more comes. A link
    /// that was shut gives `End`.
    ///
    /// `Failed` comes only where the count of faults rose in this call.
    fn recv(&mut self) -> Result<Heard, LinkError>
        ensures heard { Hears (heard self.old) (heard self.new) result }
        ensures sent { sent self.new ≡ sent self.old }
        ensures opened { opened self.new ≡ opened self.old }
        ensures shut { is_shut self.new ≡ is_shut self.old }
        ensures over { is_shut self.old ≡ true → result ≡ Ok Heard.End }
        ensures cause { HasCause (faults self.old) (faults self.new) LinkError.Failed result };

    /// Sends a text. A link that was shut fails.
    ///
    /// `Failed` comes only where the count of faults rose in this call.
    fn send(&mut self, text: &Text) -> Result<(), LinkError>
        ensures heard { heard self.new ≡ heard self.old }
        ensures sent { Sends (sent self.old) (sent self.new) text.now result }
        ensures opened { opened self.new ≡ opened self.old }
        ensures shut { is_shut self.new ≡ is_shut self.old }
        ensures over { is_shut self.old ≡ true → result ≡ Err LinkError.Failed }
        ensures cause { HasCause (faults self.old) (faults self.new) LinkError.Failed result };

    /// The whole second at which a gate accepted it, counted from 1970-01-01T00:00:00Z; 0 where the
    /// gate's clock gave none, and for a link that no gate accepted.
    fn opened(&self) -> u64
        ensures { result ≡ opened self.now };

    /// Ends the connection and gives up its buffers. What it heard and sent stays told.
    fn shut(&mut self)
        ensures heard { heard self.new ≡ heard self.old }
        ensures sent { sent self.new ≡ sent self.old }
        ensures faults { faults self.new ≡ faults self.old }
        ensures opened { opened self.new ≡ opened self.old }
        ensures shut { is_shut self.new ≡ true };
}

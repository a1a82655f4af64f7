ghost use Rattle.std.specs.Prelude.{◌≡◌, ◌<◌, ◌+◌, ◌++◌, ◌∷◌, [], ℕ, List, IfOk};
ghost use Rattle.mw_edges.specs.Causes.{HasCause, PassesOn};
ghost use Rattle.mw_link.specs.Dials.{Exchange, exchange_of};
ghost use Rattle.mw_link.specs.Tells.{IsNew, Sends, lines_after};

use crate::link::{Link, LinkError};
use mw_base::Text;

/// What dials an address, and gives the line to who answers there. It hangs up each line that it
/// gave.
pub trait Dial {
    /// A line that it gives.
    type Line: Link;

    /// The addresses at which it was given a line, in order.
    ghost dialled: { Self → List (List ℕ) };

    /// What was heard and sent over each line that it hung up, in order.
    ghost hung_up: { Self → List Exchange };

    /// How many lines it gave that aren't hung up yet.
    ghost out: { Self → ℕ };

    /// How often it has failed.
    ghost faults: { Self → ℕ };

    /// Dials an address. The line is new.
    ///
    /// `Failed` comes only where the count of faults rose in this call. After an error no line was
    /// given.
    fn dial(&mut self, at: &Text) -> Result<Self::Line, LinkError>
        ensures dialled { Sends (dialled self.old) (dialled self.new) at.now result }
        ensures hung_up { hung_up self.new ≡ hung_up self.old }
        ensures out { out self.new ≡ lines_after (out self.old) result }
        ensures new { IfOk result
            (IsNew Self.Line.heard Self.Line.sent Self.Line.faults Self.Line.is_shut) }
        ensures opened { IfOk result (λ l. Self.Line.opened l ≡ 0) }
        ensures cause { HasCause (faults self.old) (faults self.new) LinkError.Failed result };

    /// Hangs up a line that it gave, of which one at least isn't hung up yet, and takes no memory.
    ///
    /// The count of faults rises exactly where the line has failed.
    fn hang_up(&mut self, line: Self::Line)
        requires { 0 < out self.old }
        ensures dialled { dialled self.new ≡ dialled self.old }
        ensures hung_up { hung_up self.new
            ≡ hung_up self.old ++ exchange_of Self.Line.heard Self.Line.sent line ∷ [] }
        ensures out { out self.old ≡ out self.new + 1 }
        ensures count { PassesOn (Self.Line.faults line) (faults self.old) (faults self.new) };
}

ghost use Rattle.std.specs.Prelude.{◌≡◌, ℕ, Bool, List, OnOk};
ghost use Rattle.std.specs.declared.option.Option.{Option};
ghost use Rattle.mw_edges.specs.Causes.{HasCause, HasFault};
ghost use Rattle.mw_link.specs.Tells.{Gives, IfGiven, IsNew, Sends, ended_after, given_after};

use crate::link::{Link, LinkError};
use mw_base::Text;
use mw_edges::Failed;

/// What links are accepted from.
pub trait Gate {
    /// A link that it accepts.
    type Line: Link + Send + Drop;

    /// How many links it has given.
    ghost given: { Self → ℕ };

    /// The links that are left, where the gate tells.
    ghost left: { Self → Option (List Self.Line) };

    /// Whether it has answered that it gives no more.
    ghost ended: { Self → Bool };

    /// The addresses at which it was made ready, in order.
    ghost listened: { Self → List (List ℕ) };

    /// How often it has failed.
    ghost faults: { Self → ℕ };

    /// Makes it ready at an address.
    ///
    /// `Failed` comes only where the count of faults rose in this call.
    fn listen(&mut self, at: &Text) -> Result<(), Failed>
        ensures given { given self.new ≡ given self.old }
        ensures left { left self.new ≡ left self.old }
        ensures ended { ended self.new ≡ ended self.old }
        ensures listened { Sends (listened self.old) (listened self.new) at.now result }
        ensures ok { OnOk result (faults self.new ≡ faults self.old) }
        ensures cause { HasFault (faults self.old) (faults self.new) result };

    /// The next link, which is new. None is the gate's end.
    ///
    /// `Failed` comes only where the count of faults rose in this call. After an error no link was
    /// given.
    fn accept(&mut self) -> Result<Option<Self::Line>, LinkError>
        ensures given { given self.new ≡ given_after (given self.old) result }
        ensures left { Gives (left self.old) (left self.new) result }
        ensures ended { ended self.new ≡ ended_after (ended self.old) result }
        ensures listened { listened self.new ≡ listened self.old }
        ensures new { IfGiven result
            (IsNew Self.Line.heard Self.Line.sent Self.Line.faults Self.Line.is_shut) }
        ensures cause { HasCause (faults self.old) (faults self.new) LinkError.Failed result };
}

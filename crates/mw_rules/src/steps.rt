ghost use Rattle.std.specs.Prelude.{◌≡◌, ◌+◌, ◌<◌, length};
ghost use Rattle.mw_rules.specs.Rule.{IsWithin};
ghost use Rattle.mw_rules.specs.Holds.{bag_of, places_of, holds};
ghost use Rattle.mw_rules.specs.View.{view};

use crate::judge::eval;
use crate::rule::Rule;
use std::marker::Model;
use std::sync::ledger::{Blank, Book, Ledger, Share};

/// How many rules were asked, for contracts to speak of. It takes no bytes.
#[derive(Drop)]
pub struct Steps<L: Ledger> {
    book: Book<L>,
    share: Share<L>,
}

impl<L: Ledger> Model for Steps<L> {
    ghost use Rattle.std.specs.Prelude.{ℕ, ◌<◌};

    ghost Value = { ℕ };

    ghost view = { λ s. s.book.total };

    ghost invariant = { λ s. 0 < s.share.parts };
}

impl<L: Ledger> Steps<L> {
    /// A counter that stands at 0.
    pub fn new(blank: Blank) -> Steps<L>
        requires name { blank.name ≡ L.name }
        requires parts { blank.parts ≡ L.parts }
        requires some { 0 < L.parts }
        ensures { result ≡ 0 }
    {
        let (book, share) = blank.open();
        Steps { book, share }
    }

    /// Counts one more rule that is asked. Who answers rules in another way than by `eval_counted` calls it.
    pub fn raise(&mut self)
        ensures { self.new ≡ self.old + 1 }
    {
        self.book.add(&mut self.share, 1);
    }
}

/// `eval`, with one more rule counted in `steps`. It takes no memory.
pub fn eval_counted<L: Ledger>(
    rule: &Rule,
    counts: &[u32],
    places: &[bool],
    steps: &mut Steps<L>,
) -> bool
    requires { IsWithin (length counts.now) (length places.now) (view rule.now) }
    ensures answer { result ≡ holds (view rule.now) (bag_of counts.now) (places_of places.now) }
    ensures steps { steps.new ≡ steps.old + 1 }
{
    steps.raise();
    eval(rule, counts, places)
}

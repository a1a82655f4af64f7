ghost use Rattle.std.specs.Prelude.{◌≡◌, ◌+◌, ◌<◌, ◌↔◌, IsTrue};

use std::marker::Model;
use std::snapshot::Snapshot;

/// How often an object of the outside has failed.
///
/// Contracts see the number, which has no upper bound. A program keeps only whether it is 0, in one
/// byte: each mark remembers the marks before it for contracts alone.
#[derive(Drop)]
pub struct Tally {
    marks: Marks,
}

/// A chain of marks.
#[derive(Drop)]
enum Marks {
    Unmarked,
    After(Snapshot<Marks>),
}

impl Model for Tally {
    ghost use Rattle.std.specs.Prelude.{ℕ};
    ghost use Rattle.mw_disk.specs.Tally.{mark_count};

    ghost Value = { ℕ };

    ghost view = { λ t. mark_count t.marks };
}

impl Tally {
    /// A count of 0.
    pub fn new() -> Tally
        ensures { result ≡ 0 }
    {
        Tally {
            marks: Marks::Unmarked,
        }
    }

    /// Counts one fault more.
    pub fn raise(&mut self)
        ensures { self.new ≡ self.old + 1 }
    {
        let before = Snapshot::of(&self.marks);
        self.marks = Marks::After(before);
    }
    /// Whether a fault was counted.
    pub fn has_risen(&self) -> bool
        ensures { IsTrue result ↔ (0 < self.now) }
    {
        match &self.marks {
            Marks::Unmarked => false,
            Marks::After(_) => true,
        }
    }
}

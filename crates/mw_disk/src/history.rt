ghost use Rattle.std.specs.Prelude.{◌≡◌, [], ◌∷◌};

use std::marker::Model;
use std::snapshot::Snapshot;

/// A list that contracts see, the newest item first. A program keeps one byte of it: each mark
/// remembers the marks before it for contracts alone.
#[derive(Drop)]
pub struct History<T> {
    marks: Marks<T>,
}

/// A chain of marks, each with an item.
#[derive(Drop)]
enum Marks<T> {
    Empty,
    After(Snapshot<Marks<T>>, Snapshot<T>),
}

impl<T> Model for History<T> {
    ghost use Rattle.std.specs.Prelude.{List};
    ghost use Rattle.mw_disk.specs.Histories.{listed};

    ghost Value = { List T };

    ghost view = { λ h. listed h.marks };
}

impl<T> History<T> {
    /// An empty list.
    pub fn new() -> History<T>
        ensures { result ≡ [] }
    {
        History {
            marks: Marks::Empty,
        }
    }

    /// Notes an item before those that are there. It stays with the caller.
    pub fn note(&mut self, item: &T)
        ensures { self.new ≡ item.now ∷ self.old }
    {
        let before = Snapshot::of(&self.marks);
        self.marks = Marks::After(before, Snapshot::of(item));
    }
}

ghost use Rattle.std.specs.Prelude.{◌≡◌, [], ◌∷◌, ◌++◌};

use std::marker::Model;
use std::snapshot::Snapshot;

/// A list that contracts see. A program keeps one byte of it: each mark remembers the marks before
/// it for contracts alone.
#[derive(Drop)]
pub struct Log<T> {
    marks: Marks<T>,
}

/// A chain of marks, each with an item.
#[derive(Drop)]
enum Marks<T> {
    Empty,
    After(Snapshot<Marks<T>>, Snapshot<T>),
}

impl<T> Model for Log<T> {
    ghost use Rattle.std.specs.Prelude.{List};
    ghost use Rattle.mw_link.specs.Logs.{logged};

    ghost Value = { List T };

    ghost view = { λ l. logged l.marks };
}

impl<T> Log<T> {
    /// An empty list.
    pub fn new() -> Log<T>
        ensures { result ≡ [] }
    {
        Log {
            marks: Marks::Empty,
        }
    }

    /// Notes an item behind those before. It stays with the caller.
    pub fn note(&mut self, item: &T)
        ensures { self.new ≡ self.old ++ item.now ∷ [] }
    {
        let before = Snapshot::of(&self.marks);
        self.marks = Marks::After(before, Snapshot::of(item));
    }
}

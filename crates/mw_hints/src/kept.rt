ghost use Rattle.std.specs.Prelude.{◌≡◌, ◌<◌, ◌≤◌, ◌+◌, ◌∷◌, ◌++◌, [], None, map, option_map};
ghost use Rattle.indexmap.specs.IndexMap.{spare};
ghost use Rattle.mw_protocol.specs.HintList.{hint_at, marked};
ghost use Rattle.mw_hints.specs.Book.{hint_of};

use indexmap::IndexMap;
use mw_base::{HintStatus, LocId, SlotId, TeamId};

/// Whose location a hint is of: team, finder and location.
pub(crate) type Key = (TeamId, SlotId, LocId);

/// What is kept of a hint.
#[derive(Clone, Copy)]
pub(crate) struct Kept {
    /// Whether it was paid for.
    pub(crate) bought: bool,
    /// The slot that bought or scouted it.
    pub(crate) buyer: SlotId,
    pub(crate) status: HintStatus,
}

/// Hints in the order in which they were made.
pub(crate) type Hints = IndexMap<Key, Kept>;

/// What is kept of a hint, if there is one.
pub(crate) fn find(hints: &Hints, key: &Key) -> Option<Kept>
    ensures { option_map (λ k. hint_of (key.now, k)) result
        ≡ hint_at (map hint_of hints.now.entries) key.now.0 key.now.1 key.now.2 }
{
    hints.get(key).copied()
}

/// Makes a hint, where there is none.
pub(crate) fn insert(hints: &mut Hints, key: Key, kept: Kept)
    requires absent { hint_at (map hint_of hints.old.entries) key.0 key.1 key.2 ≡ None }
    requires room { 1 ≤ spare hints.old }
    ensures entries { map hint_of hints.new.entries
        ≡ map hint_of hints.old.entries ++ hint_of (key, kept) ∷ [] }
    ensures room { spare hints.old ≤ spare hints.new + 1 }
{
    let _old = hints.insert(key, kept).unwrap();
}

/// Gives a hint another status, where there is one.
pub(crate) fn mark(hints: &mut Hints, key: Key, status: HintStatus)
    requires { 1 ≤ spare hints.old }
    ensures entries { map hint_of hints.new.entries
        ≡ marked (map hint_of hints.old.entries) key.0 key.1 key.2 status }
    ensures room { spare hints.old ≤ spare hints.new + 1 }
{
    if let Some(old) = find(hints, &key) {
        let kept = Kept {
            bought: old.bought,
            buyer: old.buyer,
            status,
        };
        let _old = hints.insert(key, kept).unwrap();
    }
}

ghost use Rattle.std.specs.Prelude.{◌≡◌, ◌≤◌, ◌<◌, ◌+◌, ◌^◌, ◌==◌, ◌&&◌, ℕ, if◌then◌else◌};
ghost use Rattle.indexmap.specs.IndexMap.{spare};
ghost use Rattle.mw_hints.specs.Book.{counted};

use indexmap::IndexMap;
use mw_base::{SlotId, TeamId};

/// A slot of a team.
pub(crate) type Buyer = (TeamId, SlotId);

/// How many hints each slot bought that bought one.
pub(crate) type Counts = IndexMap<Buyer, u64>;

/// How many hints a slot of a team bought.
pub(crate) fn count_of(counts: &Counts, team: TeamId, slot: SlotId) -> u64
    ensures { result ≡ counted counts.now team slot }
{
    match counts.get(&(team, slot)) {
        Some(count) => *count,
        None => 0,
    }
}

/// Counts one more hint that a slot of a team bought.
pub(crate) fn count_one(counts: &mut Counts, team: TeamId, slot: SlotId)
    requires room { 1 ≤ spare counts.old }
    requires few { counted counts.old team slot + 1 < 2 ^ 64 }
    ensures counted { (t s : ℕ) → counted counts.new t s
        ≡ counted counts.old t s + (if (team == t) && (slot == s) then 1 else 0) }
    ensures room { spare counts.old ≤ spare counts.new + 1 }
{
    let count = count_of(counts, team, slot);
    let _old = counts.insert((team, slot), count + 1).unwrap();
}

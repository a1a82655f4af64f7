ghost use Rattle.std.specs.Prelude.{◌≡◌, ◌≤◌, ◌+◌, IfOk, MatchOption};
ghost use Rattle.indexmap.specs.IndexMap.{IsEmpty, index_map_len, spare};

use indexmap::IndexMap;
use mw_base::Memory;
use mw_json::Tree;
use std::alloc::Global;

/// Room for more keys, taken ahead: a wider map where the store's own is too small.
#[derive(Drop)]
pub struct StoreGrowth {
    wide: Option<IndexMap<String, Tree>>,
}

impl StoreGrowth {
    /// Room for this many more keys of a map.
    pub(crate) fn of(
        alloc: Global,
        kept: &IndexMap<String, Tree>,
        more: u64,
    ) -> Result<StoreGrowth, Memory>
        ensures { IfOk result (λ g. MatchOption g.wide (more ≤ spare kept.now)
            (λ m. IsEmpty m × (index_map_len kept.now + more ≤ spare m))) }
    {
        let count = kept.len();
        let total = count.checked_add(more as usize).ok_or(Memory)?;
        if total <= kept.capacity() {
            return Ok(StoreGrowth { wide: None });
        }
        let room = total.max(count.saturating_mul(2));
        let wide = IndexMap::with_capacity(alloc, room)?;
        Ok(StoreGrowth { wide: Some(wide) })
    }

    /// Gives a map its room.
    pub(crate) fn widen(self, kept: &mut IndexMap<String, Tree>)
        requires { MatchOption self.wide (1 ≤ spare kept.old)
            (λ m. IsEmpty m × (index_map_len kept.old + 1 ≤ spare m)) }
        ensures entries { kept.new.entries ≡ kept.old.entries }
        ensures room { 1 ≤ spare kept.new }
    {
        if let Some(wide) = self.wide {
            replace(kept, wide);
        }
    }
}

/// A wider map, with these entries.
fn replace(kept: &mut IndexMap<String, Tree>, wide: IndexMap<String, Tree>)
    requires empty { IsEmpty wide }
    requires room { index_map_len kept.old + 1 ≤ spare wide }
    ensures entries { kept.new.entries ≡ kept.old.entries }
    ensures room { 1 ≤ spare kept.new }
{
    let mut wide = wide;
    let _count = kept.len();
    wide.append(kept).unwrap();
    std::mem::swap(kept, &mut wide);
}

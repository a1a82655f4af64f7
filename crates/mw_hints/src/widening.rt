ghost use Rattle.std.specs.Prelude.{◌≡◌, ◌≤◌, ◌+◌, IfOk};
ghost use Rattle.indexmap.specs.IndexMap.{IsEmpty, index_map_len, spare};
ghost use Rattle.mw_hints.specs.Widening.{IsWide};

use indexmap::IndexMap;
use mw_base::Memory;
use std::alloc::Global;
use std::hash::Hash;

/// Room for more keys of a map, taken ahead: a wider map where the map's own is too small.
#[derive(Drop)]
pub(crate) struct Wider<K: Eq + Hash, V> {
    wide: Option<IndexMap<K, V>>,
}

impl<K: Eq + Hash + Drop, V: Drop> Wider<K, V> {
    /// Room for this many more keys.
    pub(crate) fn of(
        alloc: Global,
        map: &IndexMap<K, V>,
        more: usize,
    ) -> Result<Wider<K, V>, Memory>
        ensures { IfOk result (λ w. IsWide w.wide (index_map_len map.now) (spare map.now) more) }
    {
        let count = map.len();
        let total = count.checked_add(more).ok_or(Memory)?;
        if total <= map.capacity() {
            return Ok(Wider { wide: None });
        }
        let room = total.max(count.saturating_mul(2));
        let wide = IndexMap::with_capacity(alloc, room)?;
        Ok(Wider { wide: Some(wide) })
    }

    /// Gives a map the room that was taken for it.
    pub(crate) fn widen(self, map: &mut IndexMap<K, V>, more: usize)
        requires { IsWide self.wide (index_map_len map.old) (spare map.old) more }
        ensures entries { map.new.entries ≡ map.old.entries }
        ensures room { more ≤ spare map.new }
    {
        if let Some(wide) = self.wide {
            replace(map, wide, more);
        }
    }
}

/// A wider map, with these entries.
fn replace<K: Eq + Hash + Drop, V: Drop>(
    map: &mut IndexMap<K, V>,
    wide: IndexMap<K, V>,
    more: usize,
)
    requires empty { IsEmpty wide }
    requires room { index_map_len map.old + more ≤ spare wide }
    ensures entries { map.new.entries ≡ map.old.entries }
    ensures room { more ≤ spare map.new }
{
    let mut wide = wide;
    let _count = map.len();
    let _more = more;
    wide.append(map).unwrap();
    std::mem::swap(map, &mut wide);
}

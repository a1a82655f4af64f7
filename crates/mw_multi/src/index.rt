//! Where names and ids of a table first stand.
ghost use Rattle.std.specs.Prelude.{◌≡◌, ◌≤◌, ℕ, ℤ, List, bytes_eq, length, map, IfOk, OnOk, OnSome};
ghost use Rattle.std.specs.Ordering.{int_eq};
ghost use Rattle.std.specs.HashMap as hash;
ghost use Rattle.mw_multi.specs.WorldKept.{item_name, item_id};
ghost use Rattle.mw_multi.specs.Indexes.{index_of_name, index_of_id, or_here, or_its_place};

use crate::item::Item;
use mw_base::{Memory, Text};
use std::alloc::Global;
use std::collections::HashMap;

/// What has a name.
pub trait Named {
    ghost use Rattle.std.specs.Prelude.{ℕ, List};

    ghost name_of: { Self → List ℕ };

    /// Its name.
    fn name(&self) -> &str
        ensures { result.now ≡ name_of self.now };
}

impl Named for Text {
    ghost name_of = { λ t. t };

    fn name(&self) -> &str {
        self.as_str()
    }
}

impl Named for Item {
    ghost name_of = { item_name };

    fn name(&self) -> &str {
        self.name.as_str()
    }
}

/// What may have an id.
pub trait HasId {
    ghost use Rattle.std.specs.Prelude.{ℤ, Option};

    ghost id_of: { Self → Option ℤ };

    /// Its id, if it has one.
    fn id_number(&self) -> Option<i64>
        ensures { result ≡ id_of self.now };
}

impl HasId for Item {
    ghost id_of = { item_id };

    fn id_number(&self) -> Option<i64> {
        match &self.id {
            Some(id) => Some(id.get()),
            None => None,
        }
    }
}

/// The first place of each name.
pub type NameIndex<'a> = HashMap<&'a str, u32>;

/// Notes a name at a place, unless it stands at an earlier one.
pub(crate) fn note_name<'a>(index: &mut NameIndex<'a>, name: &'a str, at: u32) -> Result<(), Memory>
    ensures { OnOk result ((q : List ℕ)
        → hash.get_by (λ k. bytes_eq q k.now) index.new
        ≡ or_here (hash.get_by (λ k. bytes_eq q k.now) index.old) (bytes_eq name.now q) at) }
{
    if !index.contains_key(name) {
        index.insert(name, at)?;
    }
    Ok(())
}

/// The first place of each name of a table with at most 10,000 entries; `Memory` where memory ran out.
pub fn index_names<'a, T: Named>(alloc: Global, table: &'a [T]) -> Result<NameIndex<'a>, Memory>
    requires { length table.now ≤ 10000 }
    ensures { IfOk result (λ index. (q : List ℕ)
        → hash.get_by (λ k. bytes_eq q k.now) index ≡ index_of_name (map T.name_of table.now) q) }
{
    let mut index = HashMap::new(alloc);
    for (i, entry) in table.iter().enumerate() {
        note_name(&mut index, entry.name(), i as u32)?;
    }
    Ok(index)
}

/// The first place of each id.
pub type IdIndex = HashMap<i64, u32>;

/// Notes an id, if there is one, at a place, unless it stands at an earlier one.
fn note_id(index: &mut IdIndex, id: Option<i64>, at: u32) -> Result<(), Memory>
    ensures { OnOk result ((q : ℤ) → hash.get int_eq index.new q
        ≡ or_its_place (hash.get int_eq index.old q) id q at) }
{
    if let Some(id) = id {
        if !index.contains_key(&id) {
            index.insert(id, at)?;
        }
    }
    Ok(())
}

/// The first place of each id of a table with at most 10,000 entries; `Memory` where memory ran out.
pub fn index_ids<T: HasId>(alloc: Global, table: &[T]) -> Result<IdIndex, Memory>
    requires { length table.now ≤ 10000 }
    ensures { IfOk result (λ index. (q : ℤ)
        → hash.get int_eq index q ≡ index_of_id (map T.id_of table.now) q) }
{
    let mut index = HashMap::new(alloc);
    for (i, entry) in table.iter().enumerate() {
        note_id(&mut index, entry.id_number(), i as u32)?;
    }
    Ok(index)
}

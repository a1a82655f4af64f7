ghost use Rattle.std.specs.Prelude.{◌≡◌, ◌≤◌, [], IfOk, IfSome, OnOk, OnErr, option_map};
ghost use Rattle.mw_model.specs.Json.{depth, IsWritable, IsOrdered};
ghost use Rattle.mw_json.specs.Reading.{max_depth};
ghost use Rattle.mw_json.specs.View.{view};
ghost use Rattle.mw_protocol.specs.Storage.{put, value_of, set_case};
ghost use Rattle.mw_storage.specs.Refusals.{GivesBy, changed_view};
ghost use Rattle.mw_storage.specs.Stored.{HasStoreRoom, IsKeepable};

use crate::apply::{Changed, first_value, is_private, within_limits};
use crate::bytes::{bytes_after, keys_after};
use crate::growth::StoreGrowth;
use crate::keys::{find, insert};
use crate::refusal::StoreRefusal;
use crate::run::run;
use indexmap::IndexMap;
use mw_base::{Memory, Text};
use mw_json::{SetPacket, Tree, copy};
use std::alloc::Global;
use std::marker::Model;

/// The data storage of a room: values under keys, in the order in which the keys came. A value
/// nests at most 64 deep, as deep as what is read.
pub struct Store {
    alloc: Global,
    kept: IndexMap<String, Tree>,
    bytes: Option<u64>,
}

/// By hand, so that whoever lets it go calls this, and what it frees is listed once.
impl Drop for Store {
    fn drop(self) {
        let Store {
            alloc: _,
            kept: _,
            bytes: _,
        } = self;
    }
}

impl Model for Store {
    ghost use Rattle.std.specs.Prelude.{map};
    ghost use Rattle.std.specs.Coded.{codes};
    ghost use Rattle.indexmap.specs.IndexMap.{spare};
    ghost use Rattle.mw_json.specs.TreeCode.{coded_json};
    ghost use Rattle.mw_storage.specs.Stored.{Stored, IsStore, entry_view};

    ghost Value = { Stored };

    ghost coded = { Prim.hlevel (codes, coded_json) };

    ghost view = { λ s. record { kept = map entry_view s.kept.entries; room = spare s.kept } };

    ghost invariant = { λ s. IsStore (map entry_view s.kept.entries) s.bytes };
}

impl Store {
    /// An empty store, which takes no memory yet.
    pub fn new(alloc: Global) -> Store
        ensures { result.kept ≡ [] }
    {
        Store {
            alloc,
            kept: IndexMap::new(alloc),
            bytes: Some(0),
        }
    }

    /// The value of a key; None exactly where the key isn't kept. It takes no memory.
    pub fn get(&self, key: &Text) -> Option<&Tree>
        ensures value { option_map (λ t. view t.now) result ≡ value_of key.now self.now.kept }
        ensures kept { IfSome result (λ t. IsKeepable (view t.now)) }
    {
        find(&self.kept, key.as_str())
    }

    /// Room for this many more keys, which `put_grown` takes.
    pub fn room_for(&self, more: u64) -> Result<StoreGrowth, Memory>
        ensures { IfOk result (λ growth. HasStoreRoom self.now growth more) }
    {
        StoreGrowth::of(self.alloc, &self.kept, more)
    }

    /// Keeps a value under a key, in the room that was taken for it. It takes no memory.
    pub fn put_grown(&mut self, key: Text, value: Tree, growth: StoreGrowth)
        requires room { HasStoreRoom self.old growth 1 }
        requires writable { IsWritable (view value) }
        requires ordered { IsOrdered (view value) }
        requires shallow { depth (view value) ≤ max_depth }
        ensures { self.new.kept ≡ put key (view value) self.old.kept }
    {
        let name = key.as_str();
        let bytes = bytes_after(self.bytes, find(&self.kept, name), name, &value);
        growth.widen(&mut self.kept);
        insert(&mut self.kept, key, value);
        self.bytes = bytes;
    }

    /// Keeps a value under a key. After `Memory` the store is as before.
    pub fn put(&mut self, key: &Text, value: Tree) -> Result<(), Memory>
        requires writable { IsWritable (view value) }
        requires ordered { IsOrdered (view value) }
        requires shallow { depth (view value) ≤ max_depth }
        ensures ok { OnOk result (self.new.kept ≡ put key.now (view value) self.old.kept) }
        ensures err { OnErr result (self.new ≡ self.old) }
    {
        let growth = self.room_for(1)?;
        let key = Text::of(self.alloc, key.as_str())?;
        self.put_grown(key, value, growth);
        Ok(())
    }

    /// What a change makes of its key's value, or why it is refused, judged in this order: a
    /// private key, the first operation that fails, what would stand. The store stays as it is.
    ///
    /// The operations are those of Archipelago's network protocol for data storage, but `pow`.
    pub fn apply(&self, set: &SetPacket) -> Result<Changed, StoreRefusal>
        ensures answer { GivesBy changed_view result (set_case self.now.kept set.now) }
        ensures kept { IfOk result (λ c. IsKeepable (view c.old) × IsKeepable (view c.new)) }
    {
        let key = set.key.as_str();
        if is_private(key) {
            return Err(StoreRefusal::PrivateKey);
        }
        let found = find(&self.kept, key);
        let old = first_value(self.alloc, found, &set.default)?;
        let start = copy(self.alloc, &old)?;
        let new = run(self.alloc, set.operations.as_slice(), start)?;
        let bytes = bytes_after(self.bytes, found, key, &new);
        let keys = keys_after(self.kept.len(), found);
        within_limits(bytes, keys, Changed { old, new })
    }
}

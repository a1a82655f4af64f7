ghost use Rattle.std.specs.Prelude.{◌≡◌, ◌∷◌, [], List, IfOk, OnOk, not};
ghost use Rattle.mw_protocol.specs.Records as plain;
ghost use Rattle.mw_records.specs.Records.{record_view};
ghost use Rattle.mw_thinning.specs.Thinning.{is_outdone};
ghost use Rattle.mw_checkpoint.specs.Keys.{AreKeysOf, has_key, with_key};

use indexmap::IndexSet;
use mw_base::Memory;
use mw_records::Record;
use std::alloc::Global;
use std::marker::Model;

/// Keys of the data storage that were met.
#[derive(Drop)]
pub(crate) struct Keys<'a> {
    names: IndexSet<&'a str>,
}

impl<'a> Model for Keys<'a> {
    ghost use Rattle.std.specs.Prelude.{ℕ, List, map};

    ghost Value = { List (List ℕ) };

    ghost view = { λ s. map (λ k. k.now) s.names.keys };
}

impl<'a> Keys<'a> {
    /// None yet.
    pub(crate) fn new(alloc: Global) -> Keys<'a>
        ensures { result ≡ [] }
    {
        Keys {
            names: IndexSet::new(alloc),
        }
    }

    /// Whether a key is new, which is then met.
    fn note(&mut self, key: &'a str) -> Result<bool, Memory>
        ensures added { IfOk result (λ added. added ≡ not (has_key self.old key.now)) }
        ensures grown { OnOk result (self.new ≡ with_key self.old key.now) }
    {
        Ok(self.names.insert(key)?)
    }

    /// Whether a record still counts before those whose keys were met. Its own key is then met.
    pub(crate) fn counts(&mut self, record: &'a Record) -> Result<bool, Memory>
        ensures counts { IfOk result (λ counts. (later : List plain.Record)
            → AreKeysOf self.old later
            → counts ≡ not (is_outdone (record_view record.now) later)) }
        ensures keys { OnOk result ((later : List plain.Record) → AreKeysOf self.old later
            → AreKeysOf self.new (record_view record.now ∷ later)) }
    {
        match record {
            Record::Store(stored) => self.note(stored.key.as_str()),
            Record::Checks(_)
            | Record::Release { .. }
            | Record::Collect { .. }
            | Record::Status { .. }
            | Record::Hint(_) => Ok(true),
        }
    }
}

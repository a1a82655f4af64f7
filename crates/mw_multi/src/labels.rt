ghost use Rattle.std.specs.Prelude.{◌≡◌, ◌<◌, ◌≤◌, ℕ, List, IfOk, OnOk, Some, None, length, bytes_eq};
ghost use Rattle.std.specs.HashMap as hashed;
ghost use Rattle.mw_multi.specs.Indexes.{or_here};
ghost use Rattle.mw_multi.specs.Labels.{LabelsDiffer, is_called, index_of};

use crate::index::{NameIndex, note_name};
use mw_base::{List, Memory};
use std::alloc::Global;
use std::collections::HashMap;
use std::marker::Model;

/// The name of an entry of a table, None where the entry has no id.
#[derive(Drop)]
pub(crate) struct Label<'a> {
    name: Option<&'a str>,
}

impl<'a> Model for Label<'a> {
    ghost use Rattle.std.specs.Prelude.{ℕ, List, Option, option_map};

    ghost Value = { Option (List ℕ) };

    ghost view = { λ l. option_map (λ s. s.now) l.name };
}

impl<'a> Label<'a> {
    /// The label of an entry with an id.
    pub(crate) fn named(name: &'a str) -> Label<'a>
        ensures { result ≡ Some name.now }
    {
        Label { name: Some(name) }
    }

    /// The label of an entry without id.
    pub(crate) fn none() -> Label<'a>
        ensures { result ≡ None }
    {
        Label { name: None }
    }
}

/// The labels of a table by index, with a way to find a name's index.
#[derive(Drop)]
pub(crate) struct Labels<'a> {
    labels: List<Label<'a>>,
    places: NameIndex<'a>,
}

impl<'a> Model for Labels<'a> {
    ghost use Rattle.std.specs.Prelude.{◌≡◌, ℕ, List, Option, bytes_eq};
    ghost use Rattle.std.specs.HashMap as hashed;
    ghost use Rattle.mw_multi.specs.Labels.{LabelsDiffer, index_of};

    ghost Value = { List (Option (List ℕ)) };

    ghost view = { λ t. t.labels };

    ghost invariant = { λ t. LabelsDiffer t.labels
        × ((q : List ℕ) → hashed.get_by (λ k. bytes_eq q k.now) t.places ≡ index_of t.labels q) };
}

/// Notes the index of a label's name, unless the name has one.
fn note_label<'a>(places: &mut NameIndex<'a>, label: &Label<'a>, at: u32) -> Result<(), Memory>
    ensures { OnOk result ((q : List ℕ)
        → hashed.get_by (λ k. bytes_eq q k.now) places.new
        ≡ or_here (hashed.get_by (λ k. bytes_eq q k.now) places.old) (is_called q label.now) at) }
{
    match label.name {
        Some(name) => note_name(places, name, at),
        None => Ok(()),
    }
}

/// The index of each name.
fn places_of<'a>(alloc: Global, labels: &[Label<'a>]) -> Result<NameIndex<'a>, Memory>
    requires { length labels.now ≤ 10000 }
    ensures { IfOk result (λ places. (q : List ℕ)
        → hashed.get_by (λ k. bytes_eq q k.now) places ≡ index_of labels.now q) }
{
    let mut places = HashMap::new(alloc);
    for (i, label) in labels.iter().enumerate() {
        note_label(&mut places, label, i as u32)?;
    }
    Ok(places)
}

impl<'a> Labels<'a> {
    /// The labels with a way to find each.
    pub(crate) fn of(alloc: Global, labels: List<Label<'a>>) -> Result<Labels<'a>, Memory>
        requires few { length labels ≤ 10000 }
        requires differ { LabelsDiffer labels }
        ensures { IfOk result (λ t. t ≡ labels.entry) }
    {
        let places = places_of(alloc, labels.as_slice())?;
        Ok(Labels { labels, places })
    }

    /// How many entries there are.
    pub(crate) fn len(&self) -> usize
        ensures { result ≡ length self.now }
    {
        self.labels.len()
    }

    /// The index of the entry of a name; None exactly where there is none.
    pub(crate) fn find(&self, name: &str) -> Option<u32>
        ensures index { result ≡ index_of self.now name.now }
        ensures differ { LabelsDiffer self.now }
    {
        self.places.get(name).copied()
    }
}

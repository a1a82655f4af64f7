ghost use Rattle.std.specs.Prelude.{◌≡◌, IfOk};
ghost use Rattle.mw_multi.specs.WorldKept.{IsWorld};
ghost use Rattle.mw_multi.specs.Labels.{item_label, location_label, item_labels, location_labels};

use crate::item::Item;
use crate::labels::{Label, Labels};
use crate::location::Location;
use crate::world::World;
use mw_base::{List, Memory};
use std::alloc::Global;
use std::marker::Model;

/// A world's tables, with ways to find the items and locations that options may name.
#[derive(Drop)]
pub(crate) struct Names<'a> {
    world: &'a World,
    items: Labels<'a>,
    locations: Labels<'a>,
}

impl<'a> Model for Names<'a> {
    ghost use Rattle.std.specs.Prelude.{◌≡◌};
    ghost use Rattle.std.specs.Coded.{codes};
    ghost use Rattle.mw_multi.specs.RuleCode.{coded_rule};
    ghost use Rattle.mw_multi.specs.World as plain;
    ghost use Rattle.mw_multi.specs.WorldKept.{IsWorld};
    ghost use Rattle.mw_multi.specs.Labels.{item_labels, location_labels};

    ghost Value = { plain.World };

    ghost coded = { Prim.hlevel (codes, coded_rule) };

    ghost view = { λ n. n.world.now };

    ghost invariant = { λ n. IsWorld n.world.now × (n.items ≡ item_labels n.world.now.items)
        × (n.locations ≡ location_labels n.world.now.locations) };
}

/// The label of an item.
fn label_of_item<'a>(item: &'a Item) -> Label<'a>
    ensures { result ≡ item_label item.now }
{
    match item.id {
        Some(_) => Label::named(item.name.as_str()),
        None => Label::none(),
    }
}

/// The label of a location.
fn label_of_location<'a>(location: &'a Location) -> Label<'a>
    ensures { result ≡ location_label location.now }
{
    match location.id {
        Some(_) => Label::named(location.name.as_str()),
        None => Label::none(),
    }
}

/// The labels of items.
fn labels_of_items<'a>(alloc: Global, items: &'a [Item]) -> Result<List<Label<'a>>, Memory>
    ensures { IfOk result (λ labels. labels ≡ item_labels items.now) }
{
    let mut labels = List::new(alloc);
    for item in items {
        labels.push(label_of_item(item))?;
    }
    Ok(labels)
}

/// The labels of locations.
fn labels_of_locations<'a>(
    alloc: Global,
    locations: &'a [Location],
) -> Result<List<Label<'a>>, Memory>
    ensures { IfOk result (λ labels. labels ≡ location_labels locations.now) }
{
    let mut labels = List::new(alloc);
    for location in locations {
        labels.push(label_of_location(location))?;
    }
    Ok(labels)
}

/// The labels of a world's items, with a way to find each.
pub(crate) fn labels_of_world<'a>(alloc: Global, world: &'a World) -> Result<Labels<'a>, Memory>
    ensures { IfOk result (λ labels. labels ≡ item_labels world.now.items) }
{
    let items = labels_of_items(alloc, world.items.as_slice())?;
    Labels::of(alloc, items)
}

impl<'a> Names<'a> {
    /// The names of a world.
    pub(crate) fn of(alloc: Global, world: &'a World) -> Result<Names<'a>, Memory>
        ensures { IfOk result (λ names. names ≡ world.now) }
    {
        let items = labels_of_items(alloc, world.items.as_slice())?;
        let items = Labels::of(alloc, items)?;
        let locations = labels_of_locations(alloc, world.locations.as_slice())?;
        let locations = Labels::of(alloc, locations)?;
        Ok(Names {
            world,
            items,
            locations,
        })
    }

    /// The tables.
    pub(crate) fn world(&self) -> &'a World
        ensures value { result.now ≡ self.now }
        ensures kept { IsWorld result.now }
    {
        self.world
    }

    /// The labels of the items.
    pub(crate) fn items(&self) -> &Labels<'a>
        ensures { result.now ≡ item_labels self.now.items }
    {
        &self.items
    }

    /// The labels of the locations.
    pub(crate) fn locations(&self) -> &Labels<'a>
        ensures { result.now ≡ location_labels self.now.locations }
    {
        &self.locations
    }
}

ghost use Rattle.std.specs.Prelude.{◌≡◌, map, IfOk};
ghost use Rattle.mw_multi.specs.WorldKept.{item_name, item_id};
ghost use Rattle.mw_multi.specs.Indexes.{index_of_name, index_of_id};
ghost use Rattle.mw_tables.specs.RuleNames.{raw_location_name, place_of_location};
ghost use Rattle.mw_tables.specs.WorldNames.{raw_entrance_name, raw_location_id};
ghost use Rattle.mw_tables.specs.Small.{IsSmall};
ghost use Rattle.mw_tables.specs.Tables.{IndexesNames, IndexesIds};

use crate::raw::RawWorld;
use mw_base::Memory;
use mw_multi::{IdIndex, NameIndex, index_ids, index_names};
use std::alloc::Global;
use std::marker::Model;

/// A world as it is written, with the first places of its names and ids.
#[derive(Drop)]
pub(crate) struct Tables<'a> {
    world: &'a RawWorld,
    regions: NameIndex<'a>,
    items: NameIndex<'a>,
    entrances: NameIndex<'a>,
    locations: NameIndex<'a>,
    item_ids: IdIndex,
    location_ids: IdIndex,
}

impl<'a> Model for Tables<'a> {
    ghost use Rattle.std.specs.Prelude.{map};
    ghost use Rattle.std.specs.Coded.{codes};
    ghost use Rattle.mw_multi.specs.WorldKept.{item_name, item_id};
    ghost use Rattle.mw_tables.specs.RawCode.{coded_raw_rule};
    ghost use Rattle.mw_tables.specs.Raw as plain;
    ghost use Rattle.mw_tables.specs.RuleNames.{raw_location_name};
    ghost use Rattle.mw_tables.specs.WorldNames.{raw_entrance_name, raw_location_id};
    ghost use Rattle.mw_tables.specs.Small.{IsSmall};
    ghost use Rattle.mw_tables.specs.Tables.{IndexesNames, IndexesIds};

    ghost Value = { plain.RawWorld };

    ghost coded = { Prim.hlevel (codes, coded_raw_rule) };

    ghost view = { λ t. t.world.now };

    ghost invariant = { λ t. IsSmall t.world.now
        × IndexesNames t.regions t.world.now.regions
        × IndexesNames t.items (map item_name t.world.now.items)
        × IndexesNames t.entrances (map raw_entrance_name t.world.now.entrances)
        × IndexesNames t.locations (map raw_location_name t.world.now.locations)
        × IndexesIds t.item_ids (map item_id t.world.now.items)
        × IndexesIds t.location_ids (map raw_location_id t.world.now.locations) };
}

impl<'a> Tables<'a> {
    /// The tables of a world.
    #[tactic(auto, using(mw_multi::proofs::Indexing::names_as_they_are))]
    pub(crate) fn of(alloc: Global, world: &'a RawWorld) -> Result<Tables<'a>, Memory>
        requires { IsSmall world.now }
        ensures { IfOk result (λ t. t ≡ world.now) }
    {
        let regions = index_names(alloc, world.regions.as_slice());
        let items = index_names(alloc, world.items.as_slice());
        let entrances = index_names(alloc, world.entrances.as_slice());
        let locations = index_names(alloc, world.locations.as_slice());
        let item_ids = index_ids(alloc, world.items.as_slice());
        let location_ids = index_ids(alloc, world.locations.as_slice());
        match (regions, items, entrances, locations, item_ids, location_ids) {
            (
                Ok(regions),
                Ok(items),
                Ok(entrances),
                Ok(locations),
                Ok(item_ids),
                Ok(location_ids),
            ) => Ok(Tables {
                world,
                regions,
                items,
                entrances,
                locations,
                item_ids,
                location_ids,
            }),
            _ => Err(Memory),
        }
    }

    /// The region of a name; None exactly where there is none.
    pub(crate) fn region(&self, name: &str) -> Option<u32>
        ensures { result ≡ index_of_name self.now.regions name.now }
    {
        self.regions.get(name).copied()
    }

    /// The item of a name; None exactly where there is none.
    pub(crate) fn item(&self, name: &str) -> Option<u32>
        ensures { result ≡ index_of_name (map item_name self.now.items) name.now }
    {
        self.items.get(name).copied()
    }

    /// The entrance of a name; None exactly where there is none.
    pub(crate) fn entrance(&self, name: &str) -> Option<u32>
        ensures { result ≡ index_of_name (map raw_entrance_name self.now.entrances) name.now }
    {
        self.entrances.get(name).copied()
    }

    /// The location of a name; None exactly where there is none.
    pub(crate) fn location(&self, name: &str) -> Option<u32>
        ensures { result ≡ index_of_name (map raw_location_name self.now.locations) name.now }
    {
        self.locations.get(name).copied()
    }

    /// The place of the location of a name, after those of the regions; None where there is none.
    #[tactic(auto, using(mw_multi::proofs::Indexing::place_is_small))]
    pub(crate) fn location_place(&self, name: &str) -> Option<u32>
        ensures { result ≡ place_of_location self.now name.now }
    {
        let world = self.world;
        let regions = world.regions.len() as u32;
        match self.location(name) {
            Some(location) => Some(regions + location),
            None => None,
        }
    }

    /// The first item of an id; None exactly where there is none.
    pub(crate) fn item_of_id(&self, id: i64) -> Option<u32>
        ensures { result ≡ index_of_id (map item_id self.now.items) id }
    {
        self.item_ids.get(&id).copied()
    }

    /// The first location of an id; None exactly where there is none.
    pub(crate) fn location_of_id(&self, id: i64) -> Option<u32>
        ensures { result ≡ index_of_id (map raw_location_id self.now.locations) id }
    {
        self.location_ids.get(&id).copied()
    }

    /// The world as it is written.
    pub(crate) fn world(&self) -> &'a RawWorld
        ensures { result.now ≡ self.now }
    {
        self.world
    }
}

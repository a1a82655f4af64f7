use crate::raw::{RawEntrance, RawEntry, RawLocation};
use mw_base::{List, Text};
use mw_multi::Item;

/// What a world is made of: its game, the region where a player begins, its regions and its items.
#[derive(Drop)]
pub(crate) struct WorldParts {
    pub game: Text,
    pub origin: Text,
    pub regions: List<Text>,
    pub items: List<Item>,
}

/// What stands in a world: its entrances, its locations, its pool and its filler.
#[derive(Drop)]
pub(crate) struct WorldRows {
    pub entrances: List<RawEntrance>,
    pub locations: List<RawLocation>,
    pub pool: List<RawEntry>,
    pub filler: Text,
}

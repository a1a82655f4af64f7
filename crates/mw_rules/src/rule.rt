use mw_base::List;

/// When an entrance may be taken, a location be reached or a goal be met.
/// Items and places are numbers of one slot, from 0; its places are its regions and then its locations.
#[derive(Drop)]
pub enum Rule {
    /// It always holds.
    Always,
    /// It never holds.
    Never,
    /// There are at least this many of the item.
    Has { item: u32, count: u32 },
    /// There is one of each of the items; with no items it holds.
    HasAll(List<u32>),
    /// There is one of some of the items; with no items it doesn't hold.
    HasAny(List<u32>),
    /// The counts of the items add up to at least this many.
    Count { items: List<u32>, at_least: u32 },
    /// The place is in the list of places.
    CanReach { place: u32 },
    /// All of the rules hold; with no rules it holds.
    And(List<Rule>),
    /// Some of the rules hold; with no rules it doesn't hold.
    Or(List<Rule>),
}

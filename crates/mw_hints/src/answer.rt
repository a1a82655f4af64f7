use mw_base::{HintRecord, Text};

/// What a player wants to know.
#[derive(Drop)]
pub enum Wanted {
    /// Where the slot's item of this name is.
    Item(Text),
    /// What stands at the slot's location of this name.
    Location(Text),
}

/// What a player is answered who wants to buy a hint.
#[derive(Clone, Copy, PartialEq, Eq)]
pub enum HintAnswer {
    /// The hint to record, which is paid for.
    Bought(HintRecord),
    /// The slot's game has no such name, or the slot has no such location.
    NoSuchName,
    /// No location that isn't checked and has no hint yet fits.
    Nothing,
    /// The points don't reach.
    TooDear {
        /// What a hint costs, at least 1.
        cost: u64,
        /// The points that are left.
        points: u64,
    },
}

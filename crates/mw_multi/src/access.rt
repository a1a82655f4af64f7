/// How much of a player's own world has to be reachable.
#[derive(Clone, Copy, Debug, PartialEq, Eq)]
pub enum Access {
    /// Every location, and what wins.
    Full,
    /// What wins; an item for which a rule may ask stands where it is reached without that item.
    Items,
    /// What wins alone.
    Minimal,
}

use mw_base::List;
use mw_multi::{Entrance, Location, PoolEntry};

/// What the names in a world's rows stand for.
#[derive(Drop)]
pub(crate) struct NamedRows {
    pub entrances: List<Entrance>,
    pub locations: List<Location>,
    pub pool: List<PoolEntry>,
}

ghost use Rattle.std.specs.Prelude.{◌≡◌};
ghost use Rattle.mw_protocol.specs.Checks.{found_item, start_item};

use mw_base::NetItem;
use mw_multidata::{Held, StartItem};

/// The item that stands at a location, as it is found.
pub(crate) fn item_of(held: &Held) -> NetItem
    ensures { result ≡ found_item held.now }
{
    NetItem {
        item: held.item.get(),
        location: held.location.get(),
        player: held.slot.get(),
        flags: held.flags,
    }
}

/// An item to start with.
pub(crate) fn start_of(start: &StartItem) -> NetItem
    ensures { result ≡ start_item start.now }
{
    NetItem {
        item: start.item.get(),
        location: -2,
        player: 0,
        flags: start.flags,
    }
}

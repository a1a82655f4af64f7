use mw_base::{ItemId, LocId, SlotId};
use std::marker::Model;

/// A hint as it is told: who receives what from whose location.
#[derive(Clone, Copy, PartialEq, Eq)]
pub struct Hint {
    /// The slot or group that receives the item, 1 to 1,024.
    pub receiving_player: u16,
    /// The slot that finds it.
    pub finding_player: SlotId,
    /// The location.
    pub location: LocId,
    /// The item.
    pub item: ItemId,
    /// Whether the location is checked.
    pub found: bool,
    /// Progression 1, useful 2, trap 4, else 0.
    pub item_flags: u8,
    /// Unspecified 0, no priority 10, avoid 20, priority 30, found 40.
    pub status: u8,
}

impl Model for Hint {
    ghost use Rattle.mw_protocol.specs.Hints as plain;

    ghost Value = { plain.ToldHint };

    ghost view = { λ h. record {
      receiving_player = h.receiving_player;
      finding_player = h.finding_player;
      location = h.location;
      item = h.item;
      found = h.found;
      item_flags = h.item_flags;
      status = h.status;
    } };

    ghost inverse = { λ h. record {
      receiving_player = h.receiving_player;
      finding_player = h.finding_player;
      location = h.location;
      item = h.item;
      found = h.found;
      item_flags = h.item_flags;
      status = h.status;
    } };
}

use std::marker::Model;

/// An item as the protocol shows it.
#[derive(Clone, Copy, PartialEq, Eq)]
pub struct NetItem {
    /// The item's number.
    pub item: i64,
    /// Where it was found: a location's number, or -2 for a starting item.
    pub location: i64,
    /// The slot whose world held it, or 0 for a starting item.
    pub player: u16,
    /// Progression 1, useful 2, trap 4, else 0.
    pub flags: u8,
}

impl Model for NetItem {
    ghost use Rattle.mw_model.specs.Items as plain;

    ghost Value = { plain.NetItem };

    ghost view = { λ i. record {
      item = i.item;
      location = i.location;
      player = i.player;
      flags = i.flags;
    } };

    ghost inverse = { λ i. record {
      item = i.item;
      location = i.location;
      player = i.player;
      flags = i.flags;
    } };
}

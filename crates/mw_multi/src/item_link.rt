use mw_base::{List, SlotId, Text};
use std::marker::Model;

/// Items that some players share: what any of them finds of these, each of them receives.
#[derive(Drop)]
pub struct ItemLink {
    /// 1 to 16 characters, none below U+0020. No player and no other link has it.
    pub name: Text,
    /// At least two slots that are there, in ascending order.
    pub members: List<SlotId>,
    /// The shared items, each name as it was written: 1 to 128 characters, none below U+0020. A repeated one counts once.
    pub items: List<Text>,
}

impl Model for ItemLink {
    ghost use Rattle.mw_multi.specs.Players as plain;

    ghost Value = { plain.ItemLink };

    ghost view = { λ l. record { name = l.name; members = l.members; items = l.items } };
}

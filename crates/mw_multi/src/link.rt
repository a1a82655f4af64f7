use crate::item_link::ItemLink;
use crate::world::PoolEntry;
use mw_base::List;
use std::marker::Model;

/// Items that some slots of a joint share. A copy of one is received by each member.
#[derive(Drop)]
pub struct Link<'a> {
    /// The link, with its members' numbers.
    pub link: &'a ItemLink,
    /// The shared items, each with how many copies there are for all members together. An item is the index in the one world
    /// that the members play.
    pub copies: List<PoolEntry>,
}

impl<'a> Model for Link<'a> {
    ghost use Rattle.mw_multi.specs.Joint as plain;

    ghost Value = { plain.Link };

    ghost view = { λ l. record {
      name = l.link.now.name;
      members = l.link.now.members;
      copies = l.copies;
    } };
}

use mw_base::List;
use std::marker::Model;

/// An item at a location.
#[derive(Clone, Copy, PartialEq, Eq)]
pub struct Put {
    /// The location's number over all slots.
    pub place: u32,
    /// The receiver's number, from 1.
    pub receiver: u16,
    /// The item's index in the receiver's world, from 0.
    pub item: u32,
}

impl Model for Put {
    ghost use Rattle.mw_multi.specs.Placement as plain;

    ghost Value = { plain.Put };

    ghost view = { λ p. record { place = p.place; receiver = p.receiver; item = p.item } };

    ghost inverse = { λ p. record { place = p.place; receiver = p.receiver; item = p.item } };
}

/// Items at locations, in ascending order of places.
pub type Placement = List<Put>;

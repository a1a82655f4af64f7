use crate::list::List;
use std::marker::Model;

/// A location in a sphere: its slot, 1 to 1,024, and its index in its world's table, 0 to 9,999.
#[derive(Clone, Copy, Debug, PartialEq, Eq)]
pub struct Spot {
    /// The slot's number.
    pub slot: u16,
    /// The location's index.
    pub index: u32,
}

impl Model for Spot {
    ghost use Rattle.mw_model.specs.Seed as plain;

    ghost Value = { plain.Spot };

    ghost view = { λ s. record { slot = s.slot; index = s.index } };

    ghost inverse = { λ s. record { slot = s.slot; index = s.index } };
}

/// The spheres of a seed, the first one first.
pub type SphereList = List<List<Spot>>;

use crate::error::FillError;
use crate::locality::Locality;
use crate::opening::Opening;
use mw_multi::Put;
use std::marker::Model;

/// A copy of an item of a pool or of a link.
#[derive(Clone, Copy)]
pub(crate) struct ItemCopy {
    /// The receiver's number, from 1.
    pub receiver: u16,
    /// The item's index in the receiver's world, from 0.
    pub item: u32,
    /// Where it may stand.
    pub locality: Locality,
}

impl Model for ItemCopy {
    ghost use Rattle.mw_fill.specs.Copies as plain;

    ghost Value = { plain.ItemCopy };

    ghost view = { λ c. record {
      receiver = c.receiver;
      item = c.item;
      locality = c.locality;
    } };

    ghost inverse = { λ c. record {
      receiver = c.receiver;
      item = c.item;
      locality = c.locality;
    } };
}

impl ItemCopy {
    ghost use Rattle.std.specs.Prelude.{◌≡◌};
    ghost use Rattle.mw_fill.specs.Fill.{put_of};
    ghost use Rattle.mw_fill.specs.declared.error.FillError.TheVariants.{Stuck};

    /// The copy at a location.
    pub fn put_at(&self, opening: &Opening) -> Put
        ensures { result ≡ put_of self.now opening.now }
    {
        Put {
            place: opening.place,
            receiver: self.receiver,
            item: self.item,
        }
    }

    /// The error where it finds no location.
    pub fn stuck(&self) -> FillError
        ensures { result ≡ Stuck self.now.receiver self.now.item }
    {
        FillError::Stuck {
            slot: self.receiver,
            item: self.item,
        }
    }
}

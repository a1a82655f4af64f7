use crate::item_copy::ItemCopy;
use mw_multi::LocKind;
use std::marker::Model;

/// A location with an id.
#[derive(Clone, Copy)]
pub(crate) struct Opening {
    /// Its number over all slots.
    pub place: u32,
    /// Its slot's number, from 1.
    pub slot: u16,
    /// How it is filled.
    pub kind: LocKind,
    /// The item of its slot's world that fills it where nothing else does, by its index from 0.
    pub filler: u32,
}

impl Model for Opening {
    ghost use Rattle.mw_fill.specs.Openings as plain;

    ghost Value = { plain.Opening };

    ghost view = { λ s. record {
      place = s.place;
      slot = s.slot;
      kind = s.kind;
      filler = s.filler;
    } };

    ghost inverse = { λ s. record {
      place = s.place;
      slot = s.slot;
      kind = s.kind;
      filler = s.filler;
    } };
}

impl Opening {
    ghost use Rattle.std.specs.Prelude.{◌≡◌};
    ghost use Rattle.mw_fill.specs.Openings.{accepts, has_kind};

    /// Whether it is of the kind.
    pub(crate) fn has_kind(&self, kind: LocKind) -> bool
        ensures { result ≡ has_kind kind self.now }
    {
        match (kind, self.kind) {
            (LocKind::Default, LocKind::Default) => true,
            (LocKind::Priority, LocKind::Priority) => true,
            (LocKind::Excluded, LocKind::Excluded) => true,
            _ => false,
        }
    }

    /// Whether the copy may stand there.
    pub(crate) fn accepts(&self, copy: &ItemCopy) -> bool
        ensures { result ≡ accepts copy.now self.now }
    {
        copy.locality.may_stand(copy.receiver == self.slot)
    }
}

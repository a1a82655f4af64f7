ghost use Rattle.std.specs.Prelude.{◌≡◌};
ghost use Rattle.mw_fill.specs.Copies.{locality_of};
ghost use Rattle.mw_fill.specs.Openings.{may_stand};

/// In which slots' worlds an item may stand.
#[derive(Clone, Copy)]
pub enum Locality {
    /// In each.
    Anywhere,
    /// In its receiver's own alone.
    AtHome,
    /// In all others.
    Abroad,
}

impl Locality {
    /// That of an item which is among the local ones or not, and among the non-local ones or not;
    /// `many` says whether there is more than one slot.
    pub(crate) fn of(many: bool, local: bool, non_local: bool) -> Locality
        ensures { result ≡ locality_of many local non_local }
    {
        if local {
            Locality::AtHome
        } else if many && non_local {
            Locality::Abroad
        } else {
            Locality::Anywhere
        }
    }

    /// Whether the item may stand at a location that is its receiver's own or not.
    pub(crate) fn may_stand(self, own: bool) -> bool
        ensures { result ≡ may_stand self own }
    {
        match self {
            Locality::Anywhere => true,
            Locality::AtHome => own,
            Locality::Abroad => !own,
        }
    }
}

ghost use Rattle.std.specs.Prelude.{◌≡◌};
ghost use Rattle.mw_fill.specs.Copies.{is_of};

use mw_multi::Class;

/// Items that are placed together.
#[derive(Clone, Copy)]
pub enum Group {
    /// Those of class progression, which rules ask for.
    Asked,
    /// The useful ones.
    Helping,
    /// Fillers and traps.
    Filling,
}

impl Group {
    /// Whether items of the class are of the group.
    pub(crate) fn has(self, class: Class) -> bool
        ensures { result ≡ is_of self class }
    {
        match (self, class) {
            (Group::Asked, Class::Progression) => true,
            (Group::Helping, Class::Useful) => true,
            (Group::Filling, Class::Filler) => true,
            (Group::Filling, Class::Trap) => true,
            _ => false,
        }
    }
}

use mw_base::{ItemId, Text};
use std::marker::Model;

/// What an item is good for.
#[derive(Clone, Copy, PartialEq, Eq)]
pub enum Class {
    /// A rule may ask for it.
    Progression,
    /// It helps, but no rule asks for it.
    Useful,
    /// It fills a location.
    Filler,
    /// It harms its receiver.
    Trap,
}

/// An item of a world.
#[derive(Drop)]
pub struct Item {
    /// 1 to 128 characters, none below U+0020.
    pub name: Text,
    /// None for an event, which stands in no pool.
    pub id: Option<ItemId>,
    /// Its class; an event is of class progression.
    pub class: Class,
}

impl Model for Item {
    ghost use Rattle.mw_multi.specs.World as plain;

    ghost Value = { plain.Item };

    ghost view = { λ i. record { name = i.name; id = i.id; class = i.class } };
}

impl Item {
    ghost use Rattle.std.specs.Prelude.{◌≡◌};
    ghost use Rattle.mw_multi.specs.RulesKept.{is_progression};

    /// Whether it is of class progression.
    pub fn is_progression(&self) -> bool
        ensures { result ≡ is_progression self.now.class }
    {
        matches!(self.class, Class::Progression)
    }
}

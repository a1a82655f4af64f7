ghost use Rattle.std.specs.Prelude.{◌≡◌};

use mw_base::Memory;
use std::fmt;
use thiserror::Error;

/// An option of a player that lists names.
#[derive(Clone, Copy, Debug, PartialEq, Eq)]
pub enum OptionName {
    /// Items that stay in the player's own world.
    LocalItems,
    /// Items that stand in other players' worlds.
    NonLocalItems,
    /// Locations that hold no item of class progression or useful.
    ExcludeLocations,
    /// Locations that are filled first.
    PriorityLocations,
    /// Items to begin with.
    StartInventory,
}

impl OptionName {
    ghost use Rattle.mw_multi.specs.OptionNames.{option_text};

    /// The option's name in a players file.
    pub fn name(self) -> &'static str
        ensures { result.now ≡ option_text self }
    {
        match self {
            OptionName::LocalItems => "local_items",
            OptionName::NonLocalItems => "non_local_items",
            OptionName::ExcludeLocations => "exclude_locations",
            OptionName::PriorityLocations => "priority_locations",
            OptionName::StartInventory => "start_inventory",
        }
    }
}

impl fmt::Display for OptionName {
    fn fmt<W: fmt::Write>(&self, f: &mut fmt::Formatter<W>) -> fmt::Result {
        f.write_str(self.name())
    }
}

/// Why worlds and players make no joint, in the order of judging.
#[derive(Clone, Copy, Debug, PartialEq, Eq, Error)]
pub enum JointRefusal {
    /// An earlier world file has the game of this one.
    #[error("GameTwice {world}")]
    GameTwice {
        /// The first such file, counted from 0 in first-named order.
        world: u64,
    },
    /// An option names no item, or no location, with an id in the slot's world.
    #[error("UnknownName {slot} {option} {place}")]
    UnknownName {
        /// The slot's number, from 1.
        slot: u16,
        /// The option.
        option: OptionName,
        /// The name's index in the option's list, from 0.
        place: u64,
    },
    /// The members of a link don't all play one game.
    #[error("LinkGame {link}")]
    LinkGame {
        /// The link's index in the players file, from 0.
        link: u64,
    },
    /// A link names no item with an id in its members' world.
    #[error("LinkName {link} {place}")]
    LinkName {
        /// The link's index in the players file, from 0.
        link: u64,
        /// The name's index in the link's list, from 0.
        place: u64,
    },
    /// There are more than 200,000 places, counted for each slot.
    #[error("TooManyPlaces {have}")]
    TooManyPlaces {
        /// How many there are.
        have: u64,
    },
    /// The names of all world files have more than 16,777,216 bytes, with 24 more for each name and each file once.
    #[error("TooMuchText {have}")]
    TooMuchText {
        /// How much there is.
        have: u64,
    },
    /// Memory ran out.
    #[error("no memory")]
    Memory,
}

impl From<Memory> for JointRefusal {
    ghost use Rattle.mw_multi.specs.declared.refusal.JointRefusal.TheVariants.{Memory as OutOfMemory};

    ghost from_gives = { λ _ e. e ≡ OutOfMemory };

    fn from(_error: Memory) -> Self {
        JointRefusal::Memory
    }
}

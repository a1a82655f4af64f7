ghost use Rattle.std.specs.Prelude.{◌≡◌};

use mw_base::{List, Memory, Text};

/// Why a JSON file is refused.
#[derive(Clone, Copy)]
pub enum Kind {
    /// The file is no JSON.
    NoJson,
    /// Its lists and objects nest deeper than 64.
    TooDeep,
    /// A member that has to be there isn't.
    MissingField,
    /// A number has a fraction or an exponent, or is outside -2^63 to 2^64 - 1.
    NotWhole,
    /// A value of another kind or range than the format states.
    WrongKind,
    /// A list, or a sum of counts, is over its limit.
    TooMany,
    /// A name or a text is over its limit.
    NameTooLong,
    /// A rule has too many nodes, or is too deep.
    RuleTooLarge,
    /// The file is of another format.
    OtherFormat,
    /// A name stands twice.
    DuplicateName,
    /// An id stands twice.
    DuplicateId,
    /// A name, a slot or an id that isn't there.
    UnknownName,
    /// A rule names an item that is no progression item.
    RuleItemNotProgression,
    /// An entry doesn't come after the one before it.
    WrongOrder,
}

/// A step from a value to one inside it.
#[derive(Drop)]
pub enum Step {
    /// To the member of this name.
    Name(Text),
    /// To the element at this index, from 0.
    Index(u64),
}

/// The way from a value outward to the whole text: its first step is the innermost.
pub type Path = List<Step>;

/// The first refusal of a file, or want of memory.
#[derive(Drop)]
pub enum Refusal {
    /// Memory ran out.
    Memory,
    /// The file is refused for this cause, at this value or absent member.
    Named {
        /// The cause.
        kind: Kind,
        /// Where it stands.
        path: Path,
    },
}

impl From<Memory> for Refusal {
    ghost use Rattle.mw_json.specs.declared.refusal.Refusal.TheVariants.{Memory as OutOfMemory};

    ghost from_gives = { λ _ e. e ≡ OutOfMemory };

    fn from(_error: Memory) -> Self {
        Refusal::Memory
    }
}

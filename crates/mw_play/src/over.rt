use mw_base::Memory;

/// How turns over a line ended.
#[derive(Clone, Copy)]
pub enum Over {
    /// The line's end was heard by a client that had joined.
    Ended,
    /// The line's end was heard by a client that hadn't.
    EndedEarly,
    /// The client was turned away.
    TurnedAway,
    /// All turns were taken.
    Spent,
}

/// What a turn over a line came to.
#[derive(Clone, Copy)]
pub(crate) enum Came {
    /// There may be more.
    More,
    /// The client was turned away.
    TurnedAway,
    /// The line's end was heard.
    AtEnd,
}

/// Why turns over a line were cut short.
#[derive(Clone, Copy)]
pub enum CutShort {
    /// The line failed, or the save file's disk.
    Fault,
    /// The next batch would pass the limit of the save file's journal.
    Full,
    /// Memory ran out.
    Memory,
}

impl From<Memory> for CutShort {
    ghost use Rattle.mw_play.specs.declared.over.CutShort.TheVariants.{Memory as OutOfMemory};
    ghost use Rattle.std.specs.Prelude.{◌≡◌};

    ghost from_gives = { λ _ e. e ≡ OutOfMemory };

    fn from(_error: Memory) -> Self {
        CutShort::Memory
    }
}

ghost use Rattle.mw_numerals.specs.Laws.{ChangesInOneWay, ComesBack, StaysApart, StaysText, TellsNumerals};
ghost use Rattle.mw_numerals.specs.Values.{IsReadMarked};

/// What holds of any text and its marks.
pub fn marks_are_undone()
    ensures one_way { ChangesInOneWay }
    ensures back { ComesBack }
    ensures apart { StaysApart }
    ensures text { StaysText }
{}

/// The marked text of a JSON text is one of the marked value.
pub fn marks_are_read()
    ensures { IsReadMarked }
{}

/// What a numeral is that is kept as its characters.
pub fn numerals_are_told()
    ensures { TellsNumerals }
{}

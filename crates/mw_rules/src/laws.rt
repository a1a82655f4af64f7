//! What is true of rules whatever the counts and the list of places are.
ghost use Rattle.mw_rules.specs.Laws.{StaysTrue, HangsOnNames, NamesLieWithin};

/// With greater counts and more places a true answer stays true.
pub fn stays_true()
    ensures { StaysTrue }
{}

/// The answer hangs on the items and the places that the rule names alone.
pub fn hangs_on_names()
    ensures { HangsOnNames }
{}

/// Each item and each place that a rule names is within the numbers that the rule is within.
pub fn names_lie_within()
    ensures { NamesLieWithin }
{}

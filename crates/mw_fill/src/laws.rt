//! What is true of every fill.
ghost use Rattle.mw_fill.specs.Laws.{HasOneOutcome};

/// A try comes to one thing: a placement, or the copy that finds no location.
pub fn has_one_outcome()
    ensures { HasOneOutcome }
{}

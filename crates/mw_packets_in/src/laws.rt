//! What a packet has of its message's text, whatever the text is.
ghost use Rattle.mw_packets_in.specs.AsRead.{BouncesStay, GetsStay, SetsStay};

/// Whom a Bounce reaches is told the members of its object as the message's text was read, but for
/// the command: each numeral by its characters.
pub fn bounces_stay()
    ensures { BouncesStay }
{}

/// A Get has its keys and its other members as the message's text was read.
pub fn gets_stay()
    ensures { GetsStay }
{}

/// A Set has its key, its default, its operands and its other members as the message's text was
/// read.
pub fn sets_stay()
    ensures { SetsStay }
{}

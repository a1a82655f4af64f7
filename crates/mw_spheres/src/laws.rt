//! What is true of spheres and playthroughs, whatever the joint and the placement are.
ghost use Rattle.mw_spheres.specs.Laws.{SpheresAreOne, SpheresShow, PlaythroughsAreOne};

/// A placement has one list of spheres.
pub fn spheres_are_one()
    ensures { SpheresAreOne }
{}

/// The spheres of a placement that can be beaten show it: with the starting items and what their
/// locations hold, and with nothing found on the way, each goal holds, and each location is reached
/// of each slot that wants all of its world.
pub fn spheres_show()
    ensures { SpheresShow }
{}

/// A placement with its spheres has one playthrough.
pub fn playthroughs_are_one()
    ensures { PlaythroughsAreOne }
{}

ghost use Rattle.mw_multi.specs.Bags.{start_count, IsBagOf};
ghost use Rattle.mw_reach.specs.Reached.{IsPlacedFor, IsMadeFor, KeepsRules};
ghost use Rattle.mw_spheres.specs.Lacking.{IsFirstLack};

use mw_multi::{Bag, Joint, Placed};
use mw_reach::{Lack, Reached, first_lack, reach};

/// The first slot whose goal the starting items and this table don't reach, or else the first location that they don't reach
/// of a slot that wants all of its world.
pub(crate) fn lack_of(
    joint: &Joint,
    start: &Bag,
    table: &Placed,
    reached: &mut Reached,
) -> Option<Lack>
    requires start { IsBagOf joint.now.slots (start_count joint.now.slots) start.now }
    requires table { IsPlacedFor joint.now table.now }
    requires reached { IsMadeFor joint.now reached.old }
    requires rules { KeepsRules joint.now reached.old }
    ensures reached { IsMadeFor joint.now reached.new }
    ensures rules { KeepsRules joint.now reached.new }
    ensures lack { IsFirstLack joint.now table.now result }
{
    reach(joint, start, table, reached);
    first_lack(joint, reached)
}

ghost use Rattle.mw_json.specs.View.{view};
ghost use Rattle.mw_json.specs.Grammar.{Gives};
ghost use Rattle.mw_tables.specs.WorldShape.{entrance_at};

use crate::parts::long_name_in;
use crate::raw::RawEntrance;
use crate::rules::rule_of;
use mw_json::{Refusal, Tree, field_in, field_seen, object_of};
use std::alloc::Global;

/// An entrance of a world.
#[tactic(auto, unfolding(crate::specs::WorldShape::entrance_at))]
pub(crate) fn entrance_of(alloc: Global, tree: &Tree) -> Result<RawEntrance, Refusal>
    ensures { Gives result (entrance_at (view tree.now)) }
{
    let members = object_of(alloc, tree)?;
    let name = field_in(alloc, members, "name", long_name_in)?;
    let from = field_in(alloc, members, "from", long_name_in)?;
    let to = field_in(alloc, members, "to", long_name_in)?;
    let rule = field_seen(alloc, members, "rule", rule_of)?;
    Ok(RawEntrance {
        name,
        from,
        to,
        rule,
    })
}

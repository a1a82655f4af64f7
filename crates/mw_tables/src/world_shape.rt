ghost use Rattle.mw_json.specs.View.{view};
ghost use Rattle.mw_json.specs.Grammar.{Gives};
ghost use Rattle.mw_tables.specs.WorldShape.{world_shape_at};

use crate::format::judge_format;
use crate::raw::RawWorld;
use crate::rules::rule_of;
use crate::world_parts::{parts_in, rows_in};
use mw_json::{Refusal, Tree, field_seen, object_of};
use std::alloc::Global;

/// What stands in a world file, before its names are judged.
#[tactic(auto, unfolding(crate::specs::WorldShape::world_shape_at))]
pub(crate) fn world_shape(alloc: Global, tree: &Tree) -> Result<RawWorld, Refusal>
    ensures { Gives result (world_shape_at (view tree.now)) }
{
    let members = object_of(alloc, tree)?;
    judge_format(alloc, members, "mw-world-1")?;
    let parts = parts_in(alloc, members)?;
    let rows = rows_in(alloc, members)?;
    let goal = field_seen(alloc, members, "goal", rule_of)?;
    Ok(RawWorld {
        game: parts.game,
        origin: parts.origin,
        regions: parts.regions,
        items: parts.items,
        entrances: rows.entrances,
        locations: rows.locations,
        pool: rows.pool,
        filler: rows.filler,
        goal,
    })
}

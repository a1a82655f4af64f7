ghost use Rattle.mw_json.specs.View.{view};
ghost use Rattle.mw_json.specs.Grammar.{Gives};
ghost use Rattle.mw_multidata.specs.Shape.{server_at};

use mw_base::RoomOptions;
use mw_json::{
    Refusal, Tree, field_in, field_seen, hint_cost_in, object_of, password_in, permission_in,
    points_in, remaining_in,
};
use std::alloc::Global;

/// The settings of the room.
#[tactic(auto, unfolding(crate::specs::Shape::server_at))]
pub(crate) fn server_of(alloc: Global, tree: &Tree) -> Result<RoomOptions, Refusal>
    ensures { Gives result (server_at (view tree.now)) }
{
    let members = object_of(alloc, tree)?;
    let password = field_in(alloc, members, "password", |a, t| password_in(a, t))?;
    let hint_cost = field_in(alloc, members, "hint_cost", |a, t| hint_cost_in(a, t))?;
    let location_check_points = field_in(
        alloc,
        members,
        "location_check_points",
        |a, t| points_in(a, t),
    )?;
    let release = field_seen(alloc, members, "release", |a, t| permission_in(a, t))?;
    let collect = field_seen(alloc, members, "collect", |a, t| permission_in(a, t))?;
    let remaining = field_seen(alloc, members, "remaining", |a, t| remaining_in(a, t))?;
    Ok(RoomOptions {
        password,
        hint_cost,
        location_check_points,
        release,
        collect,
        remaining,
    })
}

ghost use Rattle.std.specs.Prelude.{◌≡◌, ℕ, List, IfOk};
ghost use Rattle.mw_base.specs.Permissions.{permission_number};
ghost use Rattle.mw_json.specs.View.{view, members_view};
ghost use Rattle.mw_json.specs.Grammar.{Gives, GivesBy};
ghost use Rattle.mw_json.specs.Readers.{field_or_at};
ghost use Rattle.mw_json.specs.Settings.{permission_at};
ghost use Rattle.mw_tables.specs.PlayersShape.{room_at, usual_room as usual_settings};

use mw_base::{Memory, Permission, RoomOptions, Text};
use mw_json::{
    Member, Refusal, Tree, field_or, field_or_seen, hint_cost_in, object_of, password_in,
    permission_in, points_in, remaining_in,
};
use std::alloc::Global;

/// The settings of a room that says none.
pub(crate) fn usual_room(alloc: Global) -> Result<RoomOptions, Memory>
    ensures { IfOk result (λ o. o ≡ usual_settings) }
{
    Ok(RoomOptions {
        password: Text::of(alloc, "")?,
        hint_cost: 10,
        location_check_points: 1,
        release: Permission::Auto,
        collect: Permission::Auto,
        remaining: Permission::Goal,
    })
}

/// The permission under a name, `auto` where it is absent.
fn permission_or_auto(alloc: Global, members: &[Member], name: &str) -> Result<Permission, Refusal>
    ensures { (called : List ℕ) → called ≡ name.now → GivesBy permission_number result
        (field_or_at called 6 permission_at (members_view members.now)) }
{
    let auto = Permission::Auto;
    field_or_seen(alloc, members, name, auto, |a, t| permission_in(a, t))
}

/// The settings of a room, each of which may be absent.
#[tactic(auto, unfolding(crate::specs::PlayersShape::room_at))]
pub(crate) fn room_of(alloc: Global, tree: &Tree) -> Result<RoomOptions, Refusal>
    ensures { Gives result (room_at (view tree.now)) }
{
    let members = object_of(alloc, tree)?;
    let password = field_or(
        alloc,
        members,
        "password",
        Text::of(alloc, "")?,
        |a, t| password_in(a, t),
    )?;
    let hint_cost = field_or(alloc, members, "hint_cost", 10, |a, t| hint_cost_in(a, t))?;
    let location_check_points = field_or(
        alloc,
        members,
        "location_check_points",
        1,
        |a, t| points_in(a, t),
    )?;
    let release = permission_or_auto(alloc, members, "release")?;
    let collect = permission_or_auto(alloc, members, "collect")?;
    let remaining = field_or_seen(
        alloc,
        members,
        "remaining",
        Permission::Goal,
        |a, t| remaining_in(a, t),
    )?;
    Ok(RoomOptions {
        password,
        hint_cost,
        location_check_points,
        release,
        collect,
        remaining,
    })
}

//! The players of `stress`.
ghost use Rattle.std.specs.Prelude.{◌≡◌, ◌+◌, ◌≤◌, ◌<◌, IfOk};
ghost use Rattle.mw_stress.specs.Stress as plain;
ghost use Rattle.mw_stress.specs.Stress.{IsCrowd};

use mw_base::{List, Memory, Permission, RoomOptions, Text};
use mw_multi::{Access, Options, Player, Players};
use std::alloc::Global;

/// The usual settings of a room, but that nothing is released or collected.
fn room(alloc: Global) -> Result<RoomOptions, Memory>
    ensures { IfOk result (λ room. room ≡ plain.room) }
{
    Ok(RoomOptions {
        password: Text::of(alloc, "")?,
        hint_cost: 10,
        location_check_points: 1,
        release: Permission::Disabled,
        collect: Permission::Disabled,
        remaining: Permission::Goal,
    })
}

/// The name of the player of a slot.
pub(crate) fn player_name(alloc: Global, slot: u32) -> Result<Text, Memory>
    ensures { IfOk result (λ t. t ≡ plain.player_name slot) }
{
    Ok(Text::from_string(format!(in alloc; "P{slot}")?))
}

/// A player without wishes.
fn no_wishes(alloc: Global) -> Options
    ensures { result ≡ plain.no_wishes }
{
    Options {
        local_items: List::new(alloc),
        non_local_items: List::new(alloc),
        exclude_locations: List::new(alloc),
        priority_locations: List::new(alloc),
        start_inventory: List::new(alloc),
        accessibility: Access::Items,
    }
}

/// The player behind so many.
fn player_behind(alloc: Global, number: u32) -> Result<Player, Memory>
    requires { number < 64 }
    ensures { IfOk result (λ p. p ≡ plain.player number) }
{
    let mut names = List::new(alloc);
    names.push(player_name(alloc, number + 1)?)?;
    let world = Text::of(alloc, "stress.json")?;
    Ok(Player {
        names,
        world,
        options: no_wishes(alloc),
    })
}

/// So many players.
#[tactic(auto, using(crate::proofs::Growing::players_more))]
fn player_list(alloc: Global, many: u32) -> Result<List<Player>, Memory>
    requires { many ≤ 64 }
    ensures { IfOk result (λ list. list ≡ plain.players_below many) }
{
    let mut list = List::new(alloc);
    for i in 0..many {
        list.push(player_behind(alloc, i)?)?;
    }
    Ok(list)
}

/// The players of `stress`, 1 to 64: `P1`, `P2` and so on, all in one team, without wishes and
/// links.
pub fn stress_players(alloc: Global, many: u32) -> Result<Players, Memory>
    requires { IsCrowd many }
    ensures { IfOk result (λ p. p ≡ plain.players many) }
{
    let room = room(alloc)?;
    let players = player_list(alloc, many)?;
    Ok(Players {
        teams: 1,
        room,
        players,
        links: List::new(alloc),
    })
}

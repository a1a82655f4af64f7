ghost use Rattle.std.specs.Prelude.{◌≡◌, ◌≤◌, ◌+◌, ◌++◌, IfOk, OnOk, length, map, filter, not};
ghost use Rattle.mw_model.specs.Games.{checksum_of};
ghost use Rattle.mw_protocol.specs.Players.{games_played as games_played_lem, room_info_of};
ghost use Rattle.mw_protocol.specs.Players.{connected_of, group_infos, slot_infos};
ghost use Rattle.mw_protocol.specs.Players.{name_in as name_in_lem, team_players};
ghost use Rattle.mw_protocol.specs.Players.{players_of as players_of_lem};
ghost use Rattle.mw_protocol.specs.Standing.{is_checked};
ghost use Rattle.mw_effects.specs.Parts.{standing_of};
ghost use Rattle.mw_effects.specs.Playable.{IsPlayable};

use mw_base::{List, Memory, SlotId, TeamId, Text};
use mw_datapack::{checksum_of_game, is_played};
use mw_effects::{Member, Standing, playable};
use mw_multidata::{Game, Group, Held, Multidata, Slot};
use mw_owed::points_of;
use mw_packets_out::{Connected, GameSum, NetworkPlayer, NetworkSlot, RoomInfo};
use std::alloc::Global;

fn game_sum(alloc: Global, game: &Game) -> Result<GameSum, Memory>
    ensures { IfOk result (λ g. g
        ≡ record { game = game.now.name; checksum = checksum_of game.now }) }
{
    let checksum = checksum_of_game(alloc, game)?;
    let game = Text::of(alloc, game.name.as_str())?;
    Ok(GameSum { game, checksum })
}

/// The games that a slot plays, each with its checksum.
fn games_played(alloc: Global, slots: &[Slot], games: &[Game]) -> Result<List<GameSum>, Memory>
    ensures { IfOk result (λ gs. gs ≡ games_played_lem slots.now games.now) }
{
    let mut found = List::new(alloc);
    for game in games {
        if is_played(slots, game.name.as_str()) {
            found.push(game_sum(alloc, game)?)?;
        }
    }
    Ok(found)
}

/// The games that a slot of a seed plays, each with its checksum.
pub fn games_of(alloc: Global, seed: &Multidata) -> Result<List<GameSum>, Memory>
    ensures { IfOk result (λ gs. gs ≡ games_played_lem seed.now.slots seed.now.games) }
{
    games_played(alloc, seed.slots.as_slice(), seed.games.as_slice())
}

/// Copies of games with their checksums.
fn copied(alloc: Global, games: &[GameSum]) -> Result<List<GameSum>, Memory>
    ensures { IfOk result (λ gs. gs ≡ games.now) }
{
    let mut copies = List::new(alloc);
    for sum in games {
        let game = Text::of(alloc, sum.game.as_str())?;
        let checksum = Text::of(alloc, sum.checksum.as_str())?;
        copies.push(GameSum { game, checksum })?;
    }
    Ok(copies)
}

/// What a session is told when it is opened at a time, of the games that are played.
pub fn room_info(
    alloc: Global,
    seed: &Multidata,
    games: &[GameSum],
    time: u64,
) -> Result<RoomInfo, Memory>
    requires { games.now ≡ games_played_lem seed.now.slots seed.now.games }
    ensures { IfOk result (λ r. r ≡ room_info_of seed.now time) }
{
    let server = &seed.server;
    let games = copied(alloc, games)?;
    let seed_name = Text::of(alloc, seed.seed_name.as_str())?;
    Ok(RoomInfo {
        password: server.password.as_str().len() != 0,
        release: server.release,
        collect: server.collect,
        remaining: server.remaining,
        hint_cost: server.hint_cost,
        location_check_points: server.location_check_points,
        games,
        seed_name,
        time,
    })
}

fn name_in(slot: &Slot, team: u8) -> &str
    ensures { result.now ≡ name_in_lem team slot.now }
{
    match slot.names.get(usize::from(team)) {
        Some(name) => name.as_str(),
        None => "",
    }
}

/// Adds the players of a team, by slot.
fn add_team(
    alloc: Global,
    found: &mut List<NetworkPlayer>,
    team: TeamId,
    slots: &[Slot],
) -> Result<(), Memory>
    requires { length slots.now ≤ 1024 }
    ensures { OnOk result (found.new ≡ found.old ++ team_players team 1 slots.now) }
{
    for (before, slot) in slots.iter().enumerate() {
        let name = Text::of(alloc, name_in(slot, team.get()))?;
        found.push(NetworkPlayer {
            team,
            slot: SlotId::new(before as u16 + 1).unwrap(),
            name,
        })?;
    }
    Ok(())
}

/// The players, by team, then slot.
fn players_of(alloc: Global, teams: u8, slots: &[Slot]) -> Result<List<NetworkPlayer>, Memory>
    requires few { length slots.now ≤ 1024 }
    requires teams { teams ≤ 8 }
    ensures { IfOk result (λ ps. ps ≡ players_of_lem teams slots.now) }
{
    let mut found = List::new(alloc);
    for team in 0..teams {
        add_team(alloc, &mut found, TeamId::new(team).unwrap(), slots)?;
    }
    Ok(found)
}

/// Adds the slots with their names in a team.
fn add_slots(
    alloc: Global,
    found: &mut List<NetworkSlot>,
    team: u8,
    slots: &[Slot],
) -> Result<(), Memory>
    requires { length slots.now ≤ 1024 }
    ensures { OnOk result (found.new ≡ found.old ++ slot_infos team 1 slots.now) }
{
    for (before, slot) in slots.iter().enumerate() {
        let name = Text::of(alloc, name_in(slot, team))?;
        let game = Text::of(alloc, slot.game.as_str())?;
        found.push(NetworkSlot {
            slot: SlotId::new(before as u16 + 1).unwrap(),
            name,
            game,
            members: List::new(alloc),
        })?;
    }
    Ok(())
}

/// A copy of a group's members.
fn copied_members(alloc: Global, members: &[SlotId]) -> Result<List<SlotId>, Memory>
    ensures { IfOk result (λ ms. ms ≡ members.now) }
{
    let mut copies = List::new(alloc);
    for member in members {
        copies.push(*member)?;
    }
    Ok(copies)
}

/// Adds the groups, which are numbered on from so many slots.
fn add_groups(
    alloc: Global,
    found: &mut List<NetworkSlot>,
    slots: usize,
    groups: &[Group],
) -> Result<(), Memory>
    requires { slots + length groups.now ≤ 1024 }
    ensures { OnOk result (found.new ≡ found.old ++ group_infos (slots + 1) groups.now) }
{
    for (before, group) in groups.iter().enumerate() {
        let name = Text::of(alloc, group.name.as_str())?;
        let game = Text::of(alloc, group.game.as_str())?;
        let members = copied_members(alloc, group.members.as_slice())?;
        found.push(NetworkSlot {
            slot: SlotId::new((slots + before) as u16 + 1).unwrap(),
            name,
            game,
            members,
        })?;
    }
    Ok(())
}

/// The slots with their names in a team, and then the groups.
fn infos_of(alloc: Global, team: u8, seed: &Multidata) -> Result<List<NetworkSlot>, Memory>
    requires { IsPlayable seed.now }
    ensures { IfOk result (λ ss. ss ≡ slot_infos team 1 seed.now.slots
        ++ group_infos (length seed.now.slots + 1) seed.now.groups) }
{
    let slots = seed.slots.as_slice();
    let mut found = List::new(alloc);
    add_slots(alloc, &mut found, team, slots)?;
    add_groups(alloc, &mut found, slots.len(), seed.groups.as_slice())?;
    Ok(found)
}

/// Of the locations of the member's slot those that aren't checked, by id.
fn missing_locations(
    alloc: Global,
    locations: &[Held],
    standing: &Standing,
    member: &Member,
) -> Result<List<i64>, Memory>
    ensures { IfOk result (λ ls. ls
        ≡ filter (λ l. not (is_checked (standing_of standing.now)
        member.now.team member.now.slot l)) (map (λ h. h.location) locations.now)) }
{
    let mut found = List::new(alloc);
    for held in locations {
        let location = held.location;
        if !standing.log.is_checked(member.team, member.slot, location) {
            found.push(location.get())?;
        }
    }
    Ok(found)
}

/// Of the locations of the member's slot those that are checked, by id.
fn checked_locations(
    alloc: Global,
    locations: &[Held],
    standing: &Standing,
    member: &Member,
) -> Result<List<i64>, Memory>
    ensures { IfOk result (λ ls. ls
        ≡ filter (λ l. is_checked (standing_of standing.now) member.now.team member.now.slot l)
        (map (λ h. h.location) locations.now)) }
{
    let mut found = List::new(alloc);
    for held in locations {
        let location = held.location;
        if standing.log.is_checked(member.team, member.slot, location) {
            found.push(location.get())?;
        }
    }
    Ok(found)
}

/// What a session is told when it becomes a member.
pub fn connected(alloc: Global, standing: &Standing, member: &Member) -> Result<Connected, Memory>
    ensures { IfOk result (λ r. r
        ≡ connected_of standing.now.log.seed (standing_of standing.now) member.now) }
{
    let seed = standing.seed();
    playable(seed);
    let slots = seed.slots.as_slice();
    let locations = seed.locations_of(member.slot);
    let players = players_of(alloc, seed.teams, slots);
    let missing = missing_locations(alloc, locations, standing, member);
    let checked = checked_locations(alloc, locations, standing, member);
    let infos = infos_of(alloc, member.team.get(), seed);
    let hint_points = points_of(standing, member);
    match (players, missing, checked, infos) {
        (Ok(players), Ok(missing_locations), Ok(checked_locations), Ok(slot_info)) => Ok(
            Connected {
                team: member.team,
                slot: member.slot,
                players,
                missing_locations,
                checked_locations,
                slot_info,
                hint_points,
            },
        ),
        _ => Err(Memory),
    }
}

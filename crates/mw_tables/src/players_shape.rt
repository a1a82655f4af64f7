ghost use Rattle.mw_json.specs.View.{view};
ghost use Rattle.mw_json.specs.Grammar.{Gives, name_at, number_at};
ghost use Rattle.mw_tables.specs.PlayersShape.{team_names_at, player_at, player_list_at, form_of, form_at, players_shape_at};

use crate::links_shape::links_in;
use crate::parts::long_name_in;
use crate::player_options::{no_options, options_of};
use crate::room_options::{room_of, usual_room};
use mw_base::{List, RoomOptions, Text};
use mw_json::{
    Kind, Refusal, Tree, each, field_in, field_or, list_of_at_most, list_with, name_in,
    number_between, object_of, refuse, some_of, text_of,
};
use mw_multi::{ItemLink, Player};
use std::alloc::Global;
use std::marker::Model;

/// What stands in a players file, before its names are judged.
#[derive(Drop)]
pub(crate) struct RawPlayers {
    pub teams: u8,
    pub room: RoomOptions,
    pub players: List<Player>,
    pub links: List<ItemLink>,
}

impl Model for RawPlayers {
    ghost use Rattle.mw_multi.specs.Players as plain;

    ghost Value = { plain.Players };

    ghost view = { λ p. record {
      teams = p.teams;
      room = p.room;
      players = p.players;
      links = p.links;
    } };
}

/// A name of at most 16 characters.
pub(crate) fn short_name_in(alloc: Global, tree: &Tree) -> Result<Text, Refusal>
    ensures { Gives result (name_at 16 (view tree.now)) }
{
    name_in(alloc, tree, 16)
}

/// A name for each team.
#[tactic(auto, unfolding(crate::specs::PlayersShape::team_names_at))]
fn team_names_of(alloc: Global, tree: &Tree, teams: u8) -> Result<List<Text>, Refusal>
    ensures { Gives result (team_names_at teams (view tree.now)) }
{
    let trees = list_with(alloc, tree, teams as usize)?;
    each(alloc, trees, short_name_in)
}

#[tactic(auto, unfolding(crate::specs::PlayersShape::player_at))]
fn player_of(alloc: Global, tree: &Tree, second: bool, teams: u8) -> Result<Player, Refusal>
    ensures { Gives result (player_at second teams (view tree.now)) }
{
    let members = object_of(alloc, tree)?;
    let names = field_in(alloc, members, "names", |a, t| team_names_of(a, t, teams))?;
    let world = field_in(alloc, members, "world", long_name_in)?;
    let options = field_or(
        alloc,
        members,
        "options",
        no_options(alloc),
        |a, t| options_of(a, t, second),
    )?;
    Ok(Player {
        names,
        world,
        options,
    })
}

/// 1 to 1,024 players.
#[tactic(auto, unfolding(crate::specs::PlayersShape::player_list_at))]
fn player_list_of(
    alloc: Global,
    tree: &Tree,
    second: bool,
    teams: u8,
) -> Result<List<Player>, Refusal>
    ensures { Gives result (player_list_at second teams (view tree.now)) }
{
    let trees = list_of_at_most(alloc, tree, 1024)?;
    let trees = some_of(alloc, trees)?;
    each(alloc, trees, |a, t| player_of(a, t, second, teams))
}

/// A count from 1 to 8.
fn teams_in(alloc: Global, tree: &Tree) -> Result<u8, Refusal>
    ensures { Gives result (number_at 1 8 (view tree.now)) }
{
    let number = number_between(alloc, tree, 1, 8)?;
    Ok(number as u8)
}

/// Whether it is the second form.
fn judge_form(alloc: Global, word: &str) -> Result<bool, Refusal>
    ensures { Gives result (form_of word.now) }
{
    if word == "mw-players-1" {
        Ok(false)
    } else if word == "mw-players-2" {
        Ok(true)
    } else {
        refuse(alloc, Kind::OtherFormat)
    }
}

#[tactic(auto, unfolding(crate::specs::PlayersShape::form_at))]
fn form_in(alloc: Global, tree: &Tree) -> Result<bool, Refusal>
    ensures { Gives result (form_at (view tree.now)) }
{
    let word = text_of(alloc, tree)?;
    judge_form(alloc, word)
}

/// What stands in a players file, before its names are judged.
#[tactic(auto, unfolding(crate::specs::PlayersShape::players_shape_at))]
pub(crate) fn players_shape(alloc: Global, tree: &Tree) -> Result<RawPlayers, Refusal>
    ensures { Gives result (players_shape_at (view tree.now)) }
{
    let members = object_of(alloc, tree)?;
    let second = field_in(alloc, members, "format", form_in)?;
    let teams = field_or(alloc, members, "teams", 1, teams_in)?;
    let room = field_or(alloc, members, "room", usual_room(alloc)?, room_of)?;
    let players = field_in(
        alloc,
        members,
        "players",
        |a, t| player_list_of(a, t, second, teams),
    )?;
    let links = links_in(alloc, members, second, players.len())?;
    Ok(RawPlayers {
        teams,
        room,
        players,
        links,
    })
}

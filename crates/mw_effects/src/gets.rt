ghost use Rattle.std.specs.Prelude.{◌≡◌, IfOk, Some, bytes_eq, decimal, map};
ghost use Rattle.mw_model.specs.Json.{IsWritable, many, members, no_members, null};
ghost use Rattle.mw_model.specs.Trees.{items_of};
ghost use Rattle.mw_protocol.specs.Operations.{set_member as set_member_lem};
ghost use Rattle.mw_protocol.specs.Reading.{hint_json, hints_of as hints_of_lem, numbered as numbered_lem, or_null, player_at as player_at_lem, player_with, private_value as private_value_lem, read_value as read_value_lem, reading as reading_lem, status_of as status_of_lem, with_values};
ghost use Rattle.mw_protocol.specs.Storage.{value_of};
ghost use Rattle.mw_json.specs.View.{view, members_view};
ghost use Rattle.mw_packets_out.specs.Kept.{IsSound};
ghost use Rattle.mw_effects.specs.Parts.{IsQuiet, standing_of};
ghost use Rattle.mw_effects.specs.Reading.{AreRead};
ghost use Rattle.mw_effects.specs.Views.{effect_view};

use crate::effect::{Effect, answering};
use crate::player::Player;
use crate::standing::Standing;
use mw_base::{List, Memory, SlotId, TeamId, Text};
use mw_hints::Hint;
use mw_json::{Field, Member, Tree, copy, copy_members, find, number_tree, object, push_tree};
use mw_multidata::Multidata;
use mw_packets_in::Get;
use mw_packets_out::{Retrieved, ServerPacket};
use mw_storage::{Store, is_private, set_member};
use std::alloc::Global;

/// Whether a text is a number in decimal.
fn is_spelled(alloc: Global, number: u16, text: &str) -> Result<bool, Memory>
    ensures { IfOk result (λ b. b ≡ bytes_eq (decimal number) text.now) }
{
    let spelled = format!(in alloc; "{number}")?;
    Ok(spelled.as_str() == text)
}

/// The number below 65,536 that a text says in decimal, without leading zeros.
fn numbered(alloc: Global, text: &str) -> Result<Option<u16>, Memory>
    ensures { IfOk result (λ n. n ≡ numbered_lem text.now) }
{
    let Ok(number) = text.parse::<u16>() else {
        return Ok(None);
    };
    let spelled = is_spelled(alloc, number, text)?;
    if spelled {
        return Ok(Some(number));
    }
    Ok(None)
}

/// The player of a team and a slot, where both are there.
fn player_of(seed: &Multidata, team: u16, slot: u16) -> Option<Player>
    ensures { result ≡ player_with seed.now (Some team) (Some slot) }
{
    if team >= u16::from(seed.teams) {
        return None;
    }
    let team = TeamId::new(team as u8)?;
    let slot = SlotId::new(slot)?;
    match seed.slot(slot) {
        Some(_) => Some(Player { team, slot }),
        None => None,
    }
}

/// The player that a text names.
fn player_at(alloc: Global, seed: &Multidata, text: &str) -> Result<Option<Player>, Memory>
    ensures { IfOk result (λ p. p ≡ player_at_lem seed.now text.now) }
{
    let Some((team, slot)) = text.split_once('_') else {
        return Ok(None);
    };
    let (team, slot) = (numbered(alloc, team)?, numbered(alloc, slot)?);
    match (team, slot) {
        (Some(team), Some(slot)) => Ok(player_of(seed, team, slot)),
        _ => Ok(None),
    }
}

/// A hint as an object.
fn hint_tree(alloc: Global, hint: &Hint) -> Result<Tree, Memory>
    ensures value { IfOk result (λ t. view t ≡ hint_json hint.now) }
    ensures writable { IfOk result (λ t. IsWritable (view t)) }
{
    object(
        alloc,
        &mut [
            ("class", Field::Words("Hint")),
            ("entrance", Field::Words("")),
            (
                "finding_player",
                Field::Number(u64::from(hint.finding_player.get())),
            ),
            ("found", Field::Flag(hint.found)),
            ("item", Field::Id(hint.item.get())),
            ("item_flags", Field::Number(u64::from(hint.item_flags))),
            ("location", Field::Id(hint.location.get())),
            (
                "receiving_player",
                Field::Number(u64::from(hint.receiving_player)),
            ),
            ("status", Field::Number(u64::from(hint.status))),
        ],
    )
}

/// Hints as a list.
fn hints_tree(alloc: Global, hints: &[Hint]) -> Result<Tree, Memory>
    ensures value { IfOk result (λ t. view t ≡ many (items_of (map hint_json hints.now))) }
    ensures writable { IfOk result (λ t. IsWritable (view t)) }
{
    let mut trees = List::new(alloc);
    for hint in hints {
        push_tree(&mut trees, hint_tree(alloc, hint)?)?;
    }
    Ok(Tree::Many(trees))
}

/// The hints of a player.
#[tactic(auto, using(crate::proofs::Values::hints_sound))]
fn hints_of(alloc: Global, standing: &Standing, player: Option<Player>) -> Result<Tree, Memory>
    ensures value { IfOk result (λ t. view t
        ≡ hints_of_lem standing.now.log.seed (standing_of standing.now) player) }
    ensures sound { IfOk result (λ t. IsSound (view t)) }
{
    let Some(Player { team, slot }) = player else {
        return Ok(Tree::Null);
    };
    let hints = standing.hints.list(team, slot, &standing.log)?;
    let tree = hints_tree(alloc, hints.as_slice())?;
    Ok(tree)
}

/// The status of a player.
fn status_of(standing: &Standing, player: Option<Player>) -> Tree
    ensures value { view result ≡ status_of_lem (standing_of standing.now) player }
    ensures sound { IsSound (view result) }
{
    match player {
        Some(Player { team, slot }) => number_tree(u64::from(standing.status_of(team, slot))),
        None => Tree::Null,
    }
}

/// What is read where there is nothing.
fn no_value() -> Tree
    ensures value { view result ≡ null }
    ensures sound { IsSound (view result) }
{
    Tree::Null
}

/// What a key is read as that is read alone.
#[tactic(auto, using(crate::proofs::Values::prefix_is))]
fn private_value(alloc: Global, standing: &Standing, key: &str) -> Result<Tree, Memory>
    ensures value { IfOk result (λ t. view t
        ≡ private_value_lem standing.now.log.seed (standing_of standing.now) key.now) }
    ensures sound { IfOk result (λ t. IsSound (view t)) }
{
    let seed = standing.seed();
    if let Some(text) = key.strip_prefix("_read_hints_") {
        let player = player_at(alloc, seed, text)?;
        return hints_of(alloc, standing, player);
    }
    if let Some(text) = key.strip_prefix("_read_client_status_") {
        let player = player_at(alloc, seed, text)?;
        return Ok(status_of(standing, player));
    }
    Ok(no_value())
}

/// What is kept under a key, or null.
fn kept_value(alloc: Global, store: &Store, key: &Text) -> Result<Tree, Memory>
    ensures value { IfOk result (λ t. view t ≡ or_null (value_of key.now store.now.kept)) }
    ensures sound { IfOk result (λ t. IsSound (view t)) }
{
    match store.get(key) {
        Some(value) => copy(alloc, value),
        None => Ok(Tree::Null),
    }
}

/// What a key is read as.
fn read_value(alloc: Global, standing: &Standing, key: &Text) -> Result<Tree, Memory>
    ensures value { IfOk result (λ t. view t
        ≡ read_value_lem standing.now.log.seed (standing_of standing.now) key.now) }
    ensures sound { IfOk result (λ t. IsSound (view t)) }
{
    if is_private(key.as_str()) {
        return private_value(alloc, standing, key.as_str());
    }
    kept_value(alloc, &standing.store, key)
}

/// Values with that of a key more, which isn't read anew where it is among them.
fn with_value(
    alloc: Global,
    standing: &Standing,
    values: List<Member>,
    key: &Text,
) -> Result<List<Member>, Memory>
    requires read { AreRead (read_value_lem standing.now.log.seed (standing_of standing.now))
        (members_view values) }
    requires sound { IsSound (members (members_view values)) }
    ensures value { IfOk result (λ ms. members_view ms ≡ set_member_lem key.now
        (read_value_lem standing.now.log.seed (standing_of standing.now) key.now)
        (members_view values)) }
    ensures read { IfOk result (λ ms. AreRead
        (read_value_lem standing.now.log.seed (standing_of standing.now)) (members_view ms)) }
    ensures sound { IfOk result (λ ms. IsSound (members (members_view ms))) }
{
    if find(values.as_slice(), key.as_str()).is_some() {
        return Ok(values);
    }
    let value = read_value(alloc, standing, key)?;
    let name = Text::of(alloc, key.as_str())?;
    let values = set_member(values, name, value)?;
    Ok(values)
}

/// Each key with its value, in byte order.
fn values_of(alloc: Global, standing: &Standing, keys: &[Text]) -> Result<List<Member>, Memory>
    ensures value { IfOk result (λ ms. members_view ms ≡ with_values standing.now.log.seed
        (standing_of standing.now) no_members keys.now) }
    ensures sound { IfOk result (λ ms. IsSound (members (members_view ms))) }
{
    let mut values = List::new(alloc);
    for key in keys {
        values = with_value(alloc, standing, values, key)?;
    }
    Ok(values)
}

/// The effect of a question for what keys hold.
pub fn reading(alloc: Global, standing: &Standing, get: &Get) -> Result<Effect, Memory>
    ensures quiet { IfOk result (λ e. IsQuiet e) }
    ensures is { IfOk result (λ e. effect_view e ≡ reading_lem standing.now.log.seed
        (standing_of standing.now) get.now.keys get.now.further) }
{
    let keys = values_of(alloc, standing, get.keys.as_slice())?;
    let further = copy_members(alloc, get.further.as_slice())?;
    answering(alloc, ServerPacket::Retrieved(Retrieved { keys, further }))
}

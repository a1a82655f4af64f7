ghost use Rattle.std.specs.Prelude.{◌≡◌, ◌≤◌, ◌-◌, ◌++◌, length, IfOk, OnOk, []};
ghost use Rattle.std.specs.Option.{option_copied};
ghost use Rattle.mw_protocol.specs.Connecting.{connect_errors as connect_errors_lem, error_where, is_game_of as is_game_of_lem, is_old as is_old_lem, is_wrong_password as is_wrong_password_lem, looks_on as looks_on_lem, member_by as member_by_lem, player_named as player_named_lem, slot_played as slot_played_lem, team_named as team_named_lem, text_or_empty};
ghost use Rattle.mw_room.specs.Joining.{errors_with, mask_asked, member_where as member_where_lem};
ghost use Rattle.mw_effects.specs.Playable.{IsPlayable};

use mw_base::{List, Memory, SlotId, TeamId, Text, copy_texts};
use mw_effects::{Member, Player, playable, tags_or};
use mw_multidata::{Multidata, Slot};
use mw_packets_in::{Connect, Version, has_tag};
use std::alloc::Global;

/// The team whose name for a slot this is.
fn team_named(names: &[Text], name: &str) -> Option<TeamId>
    requires { length names.now ≤ 8 }
    ensures { result ≡ team_named_lem name.now 0 names.now }
{
    for (team, first) in names.iter().enumerate() {
        if first.as_str() == name {
            return TeamId::new(team as u8);
        }
    }
    None
}

/// The player of a name.
pub(crate) fn player_named(seed: &Multidata, name: &str) -> Option<Player>
    requires { IsPlayable seed.now }
    ensures { result ≡ player_named_lem seed.now name.now }
{
    let slots = seed.slots.as_slice();
    for (before, slot) in slots.iter().enumerate() {
        if let Some(team) = team_named(slot.names.as_slice(), name) {
            let slot = SlotId::new(before as u16 + 1)?;
            return Some(Player { team, slot });
        }
    }
    None
}

fn or_empty(text: &Option<Text>) -> &str
    ensures { result.now ≡ text_or_empty text.now }
{
    match text {
        Some(text) => text.as_str(),
        None => "",
    }
}

/// Whether a session may look on without a game.
fn looks_on(game: &Option<Text>, tags: &Option<List<Text>>) -> bool
    ensures { result ≡ looks_on_lem game.now tags.now }
{
    or_empty(game).len() == 0 && (has_tag(tags, "Tracker") || has_tag(tags, "TextOnly"))
}

fn is_game_of(game: &Option<Text>, tags: &Option<List<Text>>, slot: Option<&Slot>) -> bool
    ensures { result ≡ is_game_of_lem game.now tags.now (option_copied slot.entry) }
{
    match slot {
        Some(slot) => slot.game.as_str() == or_empty(game) || looks_on(game, tags),
        None => true,
    }
}

/// Whether a client is of a version before 0.4.0.
fn is_old(version: &Version) -> bool
    ensures { result ≡ is_old_lem version.now }
{
    version.major < 0
        || version.major == 0 && (version.minor < 4 || version.minor == 4 && version.build < 0)
}

fn is_wrong_password(seed: &Multidata, password: &Option<Text>) -> bool
    ensures { result ≡ is_wrong_password_lem seed.now password.now }
{
    let wanted = seed.server.password.as_str();
    wanted.len() != 0 && wanted != or_empty(password)
}

/// The mask that is asked for; None where it is none of 0, 1, 3, 5 and 7.
fn mask_in(items_handling: &Option<i128>) -> Option<u8>
    ensures { result ≡ mask_asked items_handling.now }
{
    match items_handling {
        None | Some(0) => Some(0),
        Some(1) => Some(1),
        Some(3) => Some(3),
        Some(5) => Some(5),
        Some(7) => Some(7),
        Some(_) => None,
    }
}

/// The slot that a player has.
fn slot_played<'a>(seed: &'a Multidata, player: &Option<Player>) -> Option<&'a Slot>
    ensures { option_copied result ≡ slot_played_lem seed.now player.now }
{
    match player {
        Some(player) => seed.slot(player.slot),
        None => None,
    }
}

/// Adds a word where something holds.
fn push_where(alloc: Global, errors: &mut List<Text>, holds: bool, word: &str) -> Result<(), Memory>
    ensures { OnOk result (errors.new ≡ errors.old ++ error_where holds word.now) }
{
    if holds {
        errors.push(Text::of(alloc, word)?)?;
    }
    Ok(())
}

/// Why a Connect that names this player is refused, a word for each cause.
fn errors_of(
    alloc: Global,
    seed: &Multidata,
    fields: &Connect,
    player: &Option<Player>,
) -> Result<List<Text>, Memory>
    ensures { IfOk result (λ es. es ≡ errors_with seed.now fields.now player.now) }
{
    let wrong = is_wrong_password(seed, &fields.password);
    let other = !is_game_of(&fields.game, &fields.tags, slot_played(seed, player));
    let odd = mask_in(&fields.items_handling).is_none();
    let mut errors = List::new(alloc);
    push_where(alloc, &mut errors, wrong, "InvalidPassword")?;
    push_where(alloc, &mut errors, player.is_none(), "InvalidSlot")?;
    push_where(alloc, &mut errors, other, "InvalidGame")?;
    push_where(
        alloc,
        &mut errors,
        is_old(&fields.version),
        "IncompatibleVersion",
    )?;
    push_where(alloc, &mut errors, odd, "InvalidItemsHandling")?;
    Ok(errors)
}

/// Why a Connect is refused: a word for each cause, those of the password, the name, the game, the
/// version and the mask in this order; none where it isn't refused. Memory is its only error.
pub fn connect_errors(
    alloc: Global,
    seed: &Multidata,
    fields: &Connect,
) -> Result<List<Text>, Memory>
    ensures { IfOk result (λ es. es ≡ connect_errors_lem seed.now fields.now) }
{
    playable(seed);
    let player = player_named(seed, fields.name.as_str());
    let errors = errors_of(alloc, seed, fields, &player)?;
    Ok(errors)
}

/// The member of a player with a mask and tags, where nothing refuses it.
fn member_where(
    alloc: Global,
    errors: &[Text],
    player: Option<Player>,
    mask: Option<u8>,
    tags: &[Text],
) -> Result<Option<Member>, Memory>
    ensures { IfOk result (λ m. m ≡ member_where_lem errors.now player mask tags.now) }
{
    match (player, mask) {
        (Some(player), Some(mask)) if errors.len() == 0 => Ok(Some(Member {
            team: player.team,
            slot: player.slot,
            mask,
            tags: copy_texts(alloc, tags)?,
            keys: List::new(alloc),
        })),
        _ => Ok(None),
    }
}

/// The member that a Connect makes; None where it is refused. Memory is its only error.
#[tactic(auto, using(crate::proofs::Joined::member_is))]
pub fn member_by(
    alloc: Global,
    seed: &Multidata,
    fields: &Connect,
) -> Result<Option<Member>, Memory>
    ensures { IfOk result (λ m. m ≡ member_by_lem seed.now fields.now) }
{
    playable(seed);
    let player = player_named(seed, fields.name.as_str());
    let errors = errors_of(alloc, seed, fields, &player)?;
    let mask = mask_in(&fields.items_handling);
    let tags = tags_or(&fields.tags, &[]);
    let member = member_where(alloc, errors.as_slice(), player, mask, tags)?;
    Ok(member)
}

ghost use Rattle.std.specs.Prelude.{◌≡◌, IfOk, unwrap_or, []};
ghost use Rattle.std.specs.Option.{option_copied};
ghost use Rattle.mw_protocol.specs.Bouncing.{bouncing as bouncing_lem, named_by as named_by_lem};
ghost use Rattle.mw_protocol.specs.Heard.{has_number as has_number_lem, is_game_among as is_game_among_lem, is_named as is_named_lem, share_text as share_text_lem};
ghost use Rattle.mw_protocol.specs.Messages.{bounced};
ghost use Rattle.mw_effects.specs.Parts.{IsQuiet};
ghost use Rattle.mw_effects.specs.Views.{effect_view};

use crate::effect::{Audience, Effect, announcing, one_told};
use crate::member::Member;
use mw_base::{List, Memory, Text, copy_texts, has_text};
use mw_json::copy_members;
use mw_multidata::{Multidata, Slot};
use mw_packets_in::Bounce;
use mw_packets_out::{Bounced, ServerPacket};
use std::alloc::Global;
use std::marker::Model;

/// Whom a message is for: those who play one of the games or slots, or have one of the tags.
#[derive(Drop)]
pub struct Named {
    /// Games.
    pub games: List<Text>,
    /// Slots, some of which may not be there.
    pub slots: List<i128>,
    /// Tags.
    pub tags: List<Text>,
}

impl Model for Named {
    ghost use Rattle.mw_protocol.specs.Heard as plain;

    ghost Value = { plain.Named };

    ghost view = { λ n. record { games = n.games; slots = n.slots; tags = n.tags } };
}

/// Whether a number is among these.
fn has_number(numbers: &[i128], number: i128) -> bool
    ensures { result ≡ has_number_lem numbers.now number }
{
    for first in numbers {
        if *first == number {
            return true;
        }
    }
    false
}

/// Whether one of the texts is among others.
fn share_text(texts: &[Text], others: &[Text]) -> bool
    ensures { result ≡ share_text_lem texts.now others.now }
{
    for text in texts {
        if has_text(others, text.as_str()) {
            return true;
        }
    }
    false
}

/// Whether a slot's game is among these.
fn is_game_among(games: &[Text], slot: Option<&Slot>) -> bool
    ensures { result ≡ is_game_among_lem games.now (option_copied slot.entry) }
{
    match slot {
        Some(slot) => has_text(games, slot.game.as_str()),
        None => false,
    }
}

/// Whether a message is for a member.
pub fn is_named(seed: &Multidata, named: &Named, member: &Member) -> bool
    ensures { result ≡ is_named_lem seed.now named.now member.now }
{
    is_game_among(named.games.as_slice(), seed.slot(member.slot))
        || has_number(named.slots.as_slice(), i128::from(member.slot.get()))
        || share_text(named.tags.as_slice(), member.tags.as_slice())
}

/// Copies of texts, where they are given.
fn copy_given(alloc: Global, texts: &Option<List<Text>>) -> Result<Option<List<Text>>, Memory>
    ensures { IfOk result (λ ts. ts ≡ texts.now) }
{
    match texts {
        Some(texts) => Ok(Some(copy_texts(alloc, texts.as_slice())?)),
        None => Ok(None),
    }
}

/// Copies of texts; none where they aren't given.
fn texts_or_none(alloc: Global, texts: &Option<List<Text>>) -> Result<List<Text>, Memory>
    ensures { IfOk result (λ ts. ts ≡ unwrap_or texts.now []) }
{
    match texts {
        Some(texts) => copy_texts(alloc, texts.as_slice()),
        None => Ok(List::new(alloc)),
    }
}

/// Copies of numbers.
fn copy_numbers(alloc: Global, numbers: &[i128]) -> Result<List<i128>, Memory>
    ensures { IfOk result (λ ns. ns ≡ numbers.now) }
{
    let mut copies = List::new(alloc);
    for number in numbers {
        copies.push(*number)?;
    }
    Ok(copies)
}

/// Copies of numbers, where they are given.
fn numbers_given(alloc: Global, numbers: &Option<List<i128>>) -> Result<Option<List<i128>>, Memory>
    ensures { IfOk result (λ ns. ns ≡ numbers.now) }
{
    match numbers {
        Some(numbers) => Ok(Some(copy_numbers(alloc, numbers.as_slice())?)),
        None => Ok(None),
    }
}

/// Copies of numbers; none where they aren't given.
fn numbers_or_none(alloc: Global, numbers: &Option<List<i128>>) -> Result<List<i128>, Memory>
    ensures { IfOk result (λ ns. ns ≡ unwrap_or numbers.now []) }
{
    match numbers {
        Some(numbers) => copy_numbers(alloc, numbers.as_slice()),
        None => Ok(List::new(alloc)),
    }
}

/// Whom a Bounce is for.
fn named_by(alloc: Global, bounce: &Bounce) -> Result<Named, Memory>
    ensures { IfOk result (λ n. n ≡ named_by_lem bounce.now) }
{
    Ok(Named {
        games: texts_or_none(alloc, &bounce.games)?,
        slots: numbers_or_none(alloc, &bounce.slots)?,
        tags: texts_or_none(alloc, &bounce.tags)?,
    })
}

/// A Bounce's members under another command.
fn bounced_of(alloc: Global, bounce: &Bounce) -> Result<Bounced, Memory>
    ensures { IfOk result (λ b. b ≡ bounce.now) }
{
    let games = copy_given(alloc, &bounce.games)?;
    let tags = copy_given(alloc, &bounce.tags)?;
    let slots = numbers_given(alloc, &bounce.slots)?;
    let further = copy_members(alloc, bounce.further.as_slice())?;
    Ok(Bounced {
        games,
        tags,
        slots,
        further,
    })
}

/// The effect of a Bounce.
pub fn bouncing(alloc: Global, member: &Member, bounce: &Bounce) -> Result<Effect, Memory>
    ensures quiet { IfOk result (λ e. IsQuiet e) }
    ensures is { IfOk result (λ e. effect_view e ≡ bouncing_lem member.now bounce.now) }
{
    let audience = Audience::Named {
        team: member.team,
        named: named_by(alloc, bounce)?,
    };
    let packet = ServerPacket::Bounced(bounced_of(alloc, bounce)?);
    let announced = one_told(alloc, audience, packet)?;
    Ok(announcing(alloc, announced))
}

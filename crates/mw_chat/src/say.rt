ghost use Rattle.std.specs.Prelude.{◌≡◌, IfOk};
ghost use Rattle.mw_protocol.specs.Sayings.{command_named, hint_named, is_command as is_command_lem, rest_of, said_of, word_of};
ghost use Rattle.mw_chat.specs.View.{said_view};

use mw_base::{Memory, Text};
use std::alloc::Global;

/// What a client says.
#[derive(Drop)]
pub enum Said {
    /// A text for all.
    Chat(Text),
    /// The commands are asked for.
    Help,
    /// The connected players of the team are asked for.
    Players,
    /// The locations that the slot hasn't checked are asked for.
    Missing,
    /// The locations that the slot has checked are asked for.
    Checked,
    /// The items that the slot doesn't have yet are asked for.
    Remaining,
    /// The slot gives all that its world holds.
    Release,
    /// The slot gets all that other worlds hold for it.
    Collect,
    /// A hint of the item of this name is wanted, or what a hint costs where the name is empty.
    Hint(Text),
    /// A hint of the slot's location of this name is wanted, which may be empty.
    HintLocation(Text),
    /// There is no such command.
    UnknownCommand,
}

/// What asks for hints.
fn hint_by(alloc: Global, word: &str, rest: &str) -> Result<Said, Memory>
    ensures { IfOk result (λ s. said_view s ≡ hint_named word.now rest.now) }
{
    match word {
        "!hint" => Ok(Said::Hint(Text::of(alloc, rest)?)),
        "!hint_location" => Ok(Said::HintLocation(Text::of(alloc, rest)?)),
        _ => Ok(Said::UnknownCommand),
    }
}

/// A command, by its word.
fn command_by(alloc: Global, word: &str, rest: &str) -> Result<Said, Memory>
    ensures { IfOk result (λ s. said_view s ≡ command_named word.now rest.now) }
{
    match word {
        "!help" => Ok(Said::Help),
        "!players" => Ok(Said::Players),
        "!missing" => Ok(Said::Missing),
        "!checked" => Ok(Said::Checked),
        "!remaining" => Ok(Said::Remaining),
        "!release" => Ok(Said::Release),
        "!collect" => Ok(Said::Collect),
        _ => hint_by(alloc, word, rest),
    }
}

/// The word up to the first space, and what follows that space.
fn split_word(text: &str) -> (&str, &str)
    ensures word { result.0.now ≡ word_of text.now }
    ensures rest { result.1.now ≡ rest_of text.now }
{
    match text.split_once(' ') {
        Some((word, rest)) => (word, rest),
        None => (text, ""),
    }
}

fn is_command(text: &str) -> bool
    ensures { result ≡ is_command_lem text.now }
{
    match text.as_bytes() {
        [first, ..] => *first == b'!',
        [] => false,
    }
}

/// What a text says. One that begins with `!` is a command: the word up to the first space, and for
/// hints the name, which is all that follows that space. Other texts are chat. `Memory` is its only
/// error.
pub fn parse_say(alloc: Global, text: &Text) -> Result<Said, Memory>
    ensures { IfOk result (λ s. said_view s ≡ said_of text.now) }
{
    let text = text.as_str();
    if is_command(text) {
        let (word, rest) = split_word(text);
        command_by(alloc, word, rest)
    } else {
        Ok(Said::Chat(Text::of(alloc, text)?))
    }
}

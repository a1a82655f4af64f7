ghost use Rattle.std.specs.Prelude.{◌≡◌, is_some, option_map};
ghost use Rattle.mw_script.specs.Lines.{line_view, is_skipped as is_skipped_lem, line_of_word, text_of, line_with as line_with_lem, line_in as line_in_lem, line_of as line_of_lem};

use crate::numbers::number_of;

/// What a line of a script says.
#[derive(Clone, Copy)]
pub(crate) enum Line<'a> {
    /// It is empty or a comment.
    Nothing,
    /// A session is opened at a time.
    Open(u64),
    /// A session sends a message.
    Text(u64, &'a str),
    /// The untaken messages of a session are taken.
    Take(u64),
    /// A session is lost.
    Lost(u64),
    /// What is pending is committed.
    Commit,
    /// The room is dropped with what is pending, and recovered.
    Crash,
}

fn is_skipped(text: &str) -> bool
    ensures { result ≡ is_skipped_lem text.now }
{
    text.len() == 0 || text.as_bytes()[0] == b'#'
}

/// A line of one word.
fn line_alone<'a>(word: &str) -> Option<Line<'a>>
    ensures { option_map line_view result ≡ line_of_word word.now }
{
    if word == "open" {
        return Some(Line::Open(0));
    }
    if word == "commit" {
        return Some(Line::Commit);
    }
    if word == "crash" {
        return Some(Line::Crash);
    }
    None
}

/// A session's number and its message.
fn message_in(rest: &str) -> Option<Line>
    ensures { option_map line_view result ≡ text_of rest.now }
{
    let (session, message) = rest.split_once(' ')?;
    let session = number_of(session.as_bytes())?;
    if message.len() > 524_288 {
        return None;
    }
    Some(Line::Text(session, message))
}

/// A line of a word and more.
fn line_with<'a>(word: &str, rest: &'a str) -> Option<Line<'a>>
    ensures { option_map line_view result ≡ line_with_lem word.now rest.now }
{
    if word == "open" {
        return Some(Line::Open(number_of(rest.as_bytes())?));
    }
    if word == "text" {
        return message_in(rest);
    }
    if word == "take" {
        return Some(Line::Take(number_of(rest.as_bytes())?));
    }
    if word == "lost" {
        return Some(Line::Lost(number_of(rest.as_bytes())?));
    }
    None
}

fn line_in(text: &str) -> Option<Line>
    ensures { option_map line_view result ≡ line_in_lem text.now }
{
    if is_skipped(text) {
        return Some(Line::Nothing);
    }
    match text.split_once(' ') {
        None => line_alone(text),
        Some((word, rest)) => line_with(word, rest),
    }
}

/// Whether the grammar has a line.
pub(crate) fn is_line(bytes: &[u8]) -> bool
    ensures { result ≡ is_some (line_of_lem bytes.now) }
{
    line_of(bytes).is_some()
}

/// What a line says; None where the grammar refuses it.
#[tactic(auto, using(crate::proofs::Texts::texts))]
pub(crate) fn line_of(bytes: &[u8]) -> Option<Line>
    ensures { option_map line_view result ≡ line_of_lem bytes.now }
{
    match str::from_utf8(bytes) {
        Ok(text) => line_in(text),
        Err(_) => None,
    }
}

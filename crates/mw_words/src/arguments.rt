//! What `clap` finds in words.
ghost use Rattle.std.specs.Prelude.{◌≡◌, ◌≢◌, ◌≤◌, ℕ, List, [], Bool, true, Option, Some, None, IfOk, IfSome, decimal};
ghost use Rattle.clap.specs.Words.{app_of, is_simple_and_free, found_of, first_value};
ghost use Rattle.clap.specs.Walk.{texts};
ghost use Rattle.mw_words.specs.Words.{faults, given};
ghost use Rattle.mw_words.specs.Numbers.{said, spelt};

use crate::error::WordsError;
use crate::number::number_of;
use clap::error::ErrorKind;
use clap::{ArgMatches, Command};
use mw_base::Text;
use std::alloc::Global;

/// What a command finds in words, of which the first is its name.
pub(crate) fn parse<'a>(
    command: Command<'a>,
    words: &'a [&'a str],
) -> Result<ArgMatches<'a>, WordsError>
    requires { is_simple_and_free (app_of command) ≡ true }
    ensures faultless { IfOk result (λ _. faults (app_of command.entry) (texts words.entry.now)
        ≡ []) }
    ensures values { IfOk result (λ m. (id : List ℕ) → first_value (found_of m) id
        ≡ given (app_of command.entry) (texts words.entry.now) id) }
    ensures bad { result ≡ Err WordsError.BadWords
        → faults (app_of command.entry) (texts words.entry.now) ≢ [] }
{
    match command.try_get_matches_from(words) {
        Ok(matches) => Ok(matches),
        Err(error) => match error.kind() {
            ErrorKind::OutOfMemory => Err(WordsError::Memory),
            _ => Err(WordsError::BadWords),
        },
    }
}

/// What was given for an argument.
pub(crate) fn text(alloc: Global, matches: &ArgMatches, id: &str) -> Result<Text, WordsError>
    ensures ok { IfOk result (λ t. first_value (found_of matches.now) id.now ≡ Some t) }
    ensures bad { result ≡ Err WordsError.BadWords → first_value (found_of matches.now) id.now
        ≡ None }
{
    match matches.get_str(id) {
        Some(value) => Ok(Text::of(alloc, value)?),
        None => Err(WordsError::BadWords),
    }
}

/// What was given for an argument that may be missing.
pub(crate) fn text_or_none(
    alloc: Global,
    matches: &ArgMatches,
    id: &str,
) -> Result<Option<Text>, WordsError>
    ensures ok { IfOk result (λ t. first_value (found_of matches.now) id.now ≡ t) }
    ensures bad { result ≢ Err WordsError.BadWords }
{
    match matches.get_str(id) {
        Some(value) => Ok(Some(Text::of(alloc, value)?)),
        None => Ok(None),
    }
}

/// The number from `least` to `most` that was given for an argument.
pub(crate) fn number(
    matches: &ArgMatches,
    id: &str,
    least: u64,
    most: u64,
) -> Result<u64, WordsError>
    ensures ok { IfOk result (λ n. first_value (found_of matches.now) id.now ≡ Some (decimal n)) }
    ensures range { IfOk result (λ n. (least ≤ n) × (n ≤ most)) }
    ensures bad { result ≡ Err WordsError.BadWords → (n : ℕ) → least ≤ n → n ≤ most
        → first_value (found_of matches.now) id.now ≢ Some (decimal n) }
{
    let Some(value) = matches.get_str(id) else {
        return Err(WordsError::BadWords);
    };
    match number_of(value, least, most) {
        Some(number) => Ok(number),
        None => Err(WordsError::BadWords),
    }
}

/// The number from `least` to `most` that was given for an argument that may be missing.
pub(crate) fn number_or_none(
    matches: &ArgMatches,
    id: &str,
    least: u64,
    most: u64,
) -> Result<Option<u64>, WordsError>
    ensures ok { IfOk result (λ o. first_value (found_of matches.now) id.now ≡ spelt o) }
    ensures range { IfOk result (λ o. IfSome o (λ n. (least ≤ n) × (n ≤ most))) }
    ensures bad { result ≡ Err WordsError.BadWords → (o : Option ℕ)
        → IfSome o (λ n. (least ≤ n) × (n ≤ most))
        → first_value (found_of matches.now) id.now ≢ spelt o }
{
    let Some(value) = matches.get_str(id) else {
        return Ok(None);
    };
    match number_of(value, least, most) {
        Some(number) => Ok(Some(number)),
        None => Err(WordsError::BadWords),
    }
}

/// Whether a flag was given.
pub(crate) fn flag(matches: &ArgMatches, id: &str) -> Result<bool, WordsError>
    ensures ok { IfOk result (λ b. first_value (found_of matches.now) id.now ≡ Some (said b)) }
    ensures bad { result ≡ Err WordsError.BadWords → (b : Bool)
        → first_value (found_of matches.now) id.now ≢ Some (said b) }
{
    let Some(value) = matches.get_str(id) else {
        return Err(WordsError::BadWords);
    };
    match value {
        "true" => Ok(true),
        "false" => Ok(false),
        _ => Err(WordsError::BadWords),
    }
}

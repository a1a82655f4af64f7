ghost use Rattle.std.specs.Prelude.{◌≡◌, ◌<◌, ◌≤◌, ◌++◌, ℕ, length, take, slice_index, true, false, MatchOption};
ghost use Rattle.std.specs.List.{prefix_len};
ghost use Rattle.mw_numerals.specs.Numerals.{is_numeral_byte as is_numeral_byte_lem};
ghost use Rattle.mw_numerals.specs.Pieces.{piece_text, begins_run, closes as closes_lem, escapes as escapes_lem, has_no_end, escaped_after, IsPiece, EndsBefore};
ghost use Rattle.mw_numerals.specs.View.{view};

use crate::numeral::is_numeral_byte;

/// A piece of a text.
#[derive(Clone, Copy)]
pub(crate) enum Piece<'a> {
    /// What stands between the quotes of a string.
    Quoted(&'a [u8]),
    /// What follows the opening quote of a string that the text's end cuts off.
    Cut(&'a [u8]),
    /// Characters of numerals, as many as follow one another.
    Run(&'a [u8]),
    /// Any other byte.
    Other(u8),
}

/// The first piece of a text, and what follows it.
pub(crate) fn first_piece(text: &[u8]) -> (Piece<'_>, &[u8])
    requires { 0 < length text.now }
    ensures whole { piece_text (view result.0) ++ result.1.now ≡ text.now }
    ensures piece { IsPiece (view result.0) }
    ensures ends { EndsBefore result.1.now (view result.0) }
{
    let first = text[0];
    if first == b'"' {
        first_string(text)
    } else if is_numeral_byte(first) {
        let end = run_len(text);
        (Piece::Run(&text[..end]), &text[end..])
    } else {
        (Piece::Other(first), &text[1..])
    }
}

/// The string that a text begins with, and what follows it.
fn first_string(text: &[u8]) -> (Piece<'_>, &[u8])
    requires some { 0 < length text.now }
    requires quote { slice_index text.now 0 ≡ 34 }
    ensures whole { piece_text (view result.0) ++ result.1.now ≡ text.now }
    ensures piece { IsPiece (view result.0) }
    ensures ends { EndsBefore result.1.now (view result.0) }
{
    let inner = &text[1..];
    match closing_quote(inner) {
        Some(end) => (Piece::Quoted(&inner[..end]), &inner[end + 1..]),
        None => (Piece::Cut(inner), &inner[inner.len()..]),
    }
}

/// Whether a byte ends a string.
fn closes(escaped: bool, byte: u8) -> bool
    ensures { result ≡ closes_lem escaped byte }
{
    !escaped && byte == b'"'
}

/// Whether the byte after this one is escaped.
fn escapes(escaped: bool, byte: u8) -> bool
    ensures { result ≡ escapes_lem escaped byte }
{
    !escaped && byte == b'\\'
}

/// Where the first quote that isn't escaped stands.
fn closing_quote(text: &[u8]) -> Option<usize>
    ensures { MatchOption result (has_no_end false text.now ≡ true)
        (λ end. (end < length text.now) × (slice_index text.now end ≡ 34)
        × (has_no_end false (take end text.now) ≡ true)
        × (escaped_after false (take end text.now) ≡ false)) }
{
    let mut escaped = false;
    for (at, byte) in text.iter().enumerate() {
        if closes(escaped, *byte) {
            return Some(at);
        }
        escaped = escapes(escaped, *byte);
    }
    None
}

/// How many characters of numerals a text begins with.
fn run_len(text: &[u8]) -> usize
    ensures value { result ≡ prefix_len is_numeral_byte_lem text.now }
    ensures within { result ≤ length text.now }
{
    for (at, byte) in text.iter().enumerate() {
        if !is_numeral_byte(*byte) {
            return at;
        }
    }
    text.len()
}

ghost use Rattle.std.specs.Prelude.{◌≡◌, MatchOption, false, true};
ghost use Rattle.std.specs.Str.Parse.{signed_digits_value};
ghost use Rattle.std.specs.List.{list_all};
ghost use Rattle.mw_numerals.specs.Numerals.{is_numeral_byte as is_numeral_byte_lem, is_in_range as is_in_range_lem, is_written as is_written_lem, is_whole as is_whole_lem, is_kept as is_kept_lem};

use itoa::Buffer;
use json::is_number;

/// Whether numerals are made of this byte.
pub(crate) fn is_numeral_byte(byte: u8) -> bool
    ensures { result ≡ is_numeral_byte_lem byte }
{
    byte.is_ascii_digit()
        || byte == b'+'
        || byte == b'-'
        || byte == b'.'
        || byte == b'e'
        || byte == b'E'
}

fn is_in_range(number: i128) -> bool
    ensures { result ≡ is_in_range_lem number }
{
    -0x8000_0000_0000_0000 <= number && number <= 0xffff_ffff_ffff_ffff
}

/// Whether a number is in range and written like this.
fn is_written(number: i128, text: &str) -> bool
    ensures { result ≡ is_written_lem number text.now }
{
    is_in_range(number) && Buffer::new().format(number) == text
}

/// The whole number from -2^63 to 2^64 - 1 that is written like this, if one is.
pub fn whole_of(text: &str) -> Option<i128>
    ensures { MatchOption result (is_whole_lem text.now ≡ false)
        (λ z. (is_whole_lem text.now ≡ true) × (z ≡ signed_digits_value 10 text.now)) }
{
    match text.parse::<i128>() {
        Ok(number) if is_written(number, text) => Some(number),
        Ok(_) => None,
        Err(_) => None,
    }
}

/// Whether a whole number from -2^63 to 2^64 - 1 is written like this.
fn is_whole(text: &str) -> bool
    ensures { result ≡ is_whole_lem text.now }
{
    whole_of(text).is_some()
}

/// Whether a text is a numeral of JSON that no whole number from -2^63 to 2^64 - 1 is written as:
/// it is `-0`, has a fraction or an exponent, or lies outside that range.
pub fn is_kept(text: &str) -> bool
    ensures { result ≡ is_kept_lem text.now }
{
    is_number(text) && !is_whole(text)
}

/// The same of a run of numerals' characters.
pub(crate) fn is_kept_run(run: &[u8]) -> bool
    requires { list_all is_numeral_byte_lem run.now ≡ true }
    ensures { result ≡ is_kept_lem run.now }
{
    match std::str::from_utf8(run) {
        Ok(text) => is_kept(text),
        Err(_) => false,
    }
}

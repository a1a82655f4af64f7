ghost use Rattle.std.specs.Prelude.{◌≡◌};
ghost use Rattle.mw_script.specs.Lines.{number_of as number_of_lem, with_digit as with_digit_lem};

/// A number with one digit more; None where that is no digit, or where 2^64 is reached.
fn with_digit(value: u64, byte: u8) -> Option<u64>
    ensures { result ≡ with_digit_lem value byte }
{
    if !byte.is_ascii_digit() {
        return None;
    }
    value.checked_mul(10)?.checked_add(u64::from(byte - b'0'))
}

/// The number that digits write; None where they are none, or other bytes, or write 2^64 or more.
#[tactic(auto, using(crate::proofs::Digits::numbers))]
pub fn number_of(digits: &[u8]) -> Option<u64>
    ensures { result ≡ number_of_lem digits.now }
{
    if digits.is_empty() {
        return None;
    }
    let mut value: u64 = 0;
    for byte in digits {
        value = with_digit(value, *byte)?;
    }
    Some(value)
}

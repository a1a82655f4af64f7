ghost use Rattle.std.specs.Prelude.{◌≡◌, ◌≤◌, ◌↔◌, ℕ, IfSome, IfNone, IsTrue, decimal};
ghost use Rattle.mw_words.specs.Numbers.{BeginsAmiss};

/// Whether a word begins with a sign, or with a 0 before more.
fn begins_amiss(word: &str) -> bool
    ensures { IsTrue result ↔ BeginsAmiss word.now }
{
    match word.as_bytes() {
        [b'+', ..] => true,
        [b'0', rest @ ..] => !rest.is_empty(),
        _ => false,
    }
}

/// The number from `least` to `most` that a word is in decimal; None exactly where it is none, as where a 0 stands
/// before other digits.
pub fn number_of(word: &str, least: u64, most: u64) -> Option<u64>
    ensures some { IfSome result (λ n. word.now ≡ decimal n) }
    ensures range { IfSome result (λ n. (least ≤ n) × (n ≤ most)) }
    ensures none { IfNone result ((n : ℕ) → least ≤ n → n ≤ most → word.now ≡ decimal n → ⊥) }
{
    if begins_amiss(word) {
        return None;
    }
    let Ok(number) = word.parse::<u64>() else {
        return None;
    };
    if number < least || most < number {
        return None;
    }
    Some(number)
}

//! The number of gears.
ghost use Rattle.std.specs.Prelude.{ℕ, IfSome, IfNone};
ghost use Rattle.mw_clock.specs.Words.{HasGears};

use mw_base::Text;
use mw_words::number_of;

/// The number of gears: the second word. None exactly where there is none or it isn't digits for a
/// number from 1 to 20.
pub fn gears_of(words: &[Text]) -> Option<u32>
    ensures some { IfSome result (HasGears words.now) }
    ensures none { IfNone result ((gears : ℕ) → HasGears words.now gears → ⊥) }
{
    let [_, word, ..] = words else {
        return None;
    };
    match number_of(word.as_str(), 1, 20) {
        Some(gears) => Some(gears as u32),
        None => None,
    }
}

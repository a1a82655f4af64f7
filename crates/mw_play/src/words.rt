ghost use Rattle.std.specs.Prelude.{◌≡◌, ◌≤◌, IfOk, Err, length, option_to_list};
ghost use Rattle.mw_play.specs.Words.{IsPlay};

use mw_base::{Memory, Text};
use mw_client::Who;
use mw_words::{WordsError, number_of};
use std::alloc::Global;

/// What the words of `multiplay` ask for.
#[derive(Drop)]
pub struct PlayWords {
    /// The address that is dialled.
    pub address: Text,
    /// Who plays.
    pub who: Who,
    /// The name of the save file.
    pub save: Text,
    /// How many turns there may be, 1 to 1,000,000.
    pub turns: u32,
}

/// The last word, if there is one more than five.
fn password_in(alloc: Global, rest: &[Text]) -> Result<Option<Text>, WordsError>
    ensures ok { IfOk result (λ p. option_to_list p ≡ rest.now) }
    ensures bad { result ≡ Err WordsError.BadWords → 2 ≤ length rest.now }
{
    match rest {
        [] => Ok(None),
        [password] => Ok(Some(Text::of(alloc, password.as_str())?)),
        _ => Err(WordsError::BadWords),
    }
}

/// Reads the words after the program's name.
///
/// `BadWords` exactly where they aren't an address, a slot's name, its game, the name of a save
/// file, a number from 1 to 1,000,000 in decimal, and a password or none.
pub fn read_play_words(alloc: Global, words: &[Text]) -> Result<PlayWords, WordsError>
    ensures ok { IfOk result (IsPlay words.now) }
    ensures bad { result ≡ Err WordsError.BadWords
        → (asked : PlayWords) → IsPlay words.now asked → ⊥ }
{
    let [address, name, game, save, turns, rest @ ..] = words else {
        return Err(WordsError::BadWords);
    };
    let Some(turns) = number_of(turns.as_str(), 1, 1_000_000) else {
        return Err(WordsError::BadWords);
    };
    let password = password_in(alloc, rest)?;
    Ok(PlayWords {
        address: Text::of(alloc, address.as_str())?,
        who: Who {
            name: Text::of(alloc, name.as_str())?,
            game: Text::of(alloc, game.as_str())?,
            password,
        },
        save: Text::of(alloc, save.as_str())?,
        turns: turns as u32,
    })
}

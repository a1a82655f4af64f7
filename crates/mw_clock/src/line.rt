//! What a command line asks for.
ghost use Rattle.std.specs.Prelude.{◌≡◌, [], ◌∷◌, IfOk, OnOk, codes, decimal};
ghost use Rattle.mw_clock.specs.Clockwork.{IsSize};
ghost use Rattle.mw_clock.specs.Words.{IsFileName, IsNoCommand};
ghost use Rattle.mw_clock.specs.Lines.{AsksFor};

use crate::number::gears_of;
use mw_base::Text;
use mw_json::{Refusal, copy_name};
use mw_words::{WordsError, number_of};
use std::alloc::Global;

/// What a command line asks for.
pub(crate) enum ClockLine<'a> {
    /// A seed is to be made.
    Generate {
        /// How many gears, 1 to 20.
        gears: u32,
        /// The seed's number.
        seed: u64,
        /// The name under which the seed file is written.
        out_name: &'a Text,
    },
    /// The tables are to be written.
    Tables {
        /// How many gears, 1 to 20.
        gears: u32,
        /// The world file's name.
        world_name: &'a Text,
        /// The players file's name.
        players_name: &'a Text,
    },
}

/// Whether a players file can name this file.
fn judge_name(alloc: Global, name: &Text) -> Result<(), WordsError>
    ensures ok { OnOk result (IsFileName name.now) }
    ensures bad { result ≡ Err WordsError.BadWords → IsFileName name.now → ⊥ }
{
    match copy_name(alloc, name.as_str(), 128) {
        Ok(_) => Ok(()),
        Err(Refusal::Memory) => Err(WordsError::Memory),
        Err(Refusal::Named { .. }) => Err(WordsError::BadWords),
    }
}

/// The words of `tables`.
fn read_tables<'a>(
    alloc: Global,
    gears: u32,
    world_name: &'a Text,
    players_name: &'a Text,
) -> Result<ClockLine<'a>, WordsError>
    requires { IsSize gears }
    ensures ok { IfOk result (AsksFor (codes "tables" ∷ decimal gears ∷ world_name.entry.now
        ∷ players_name.entry.now ∷ [])) }
    ensures bad { result ≡ Err WordsError.BadWords → IsNoCommand (codes "tables"
        ∷ decimal gears ∷ world_name.entry.now ∷ players_name.entry.now ∷ []) }
{
    if world_name.as_str() == players_name.as_str() {
        return Err(WordsError::BadWords);
    }
    judge_name(alloc, world_name)?;
    Ok(ClockLine::Tables {
        gears,
        world_name,
        players_name,
    })
}

/// The words of `generate`.
fn read_generate<'a>(
    gears: u32,
    seed: &str,
    out_name: &'a Text,
) -> Result<ClockLine<'a>, WordsError>
    requires { IsSize gears }
    ensures ok { IfOk result (AsksFor (codes "generate" ∷ decimal gears ∷ seed.now
        ∷ out_name.entry.now ∷ [])) }
    ensures bad { result ≡ Err WordsError.BadWords → IsNoCommand (codes "generate"
        ∷ decimal gears ∷ seed.now ∷ out_name.entry.now ∷ []) }
{
    match number_of(seed, 0, u64::MAX) {
        Some(seed) => Ok(ClockLine::Generate {
            gears,
            seed,
            out_name,
        }),
        None => Err(WordsError::BadWords),
    }
}

/// What the command line's words after the program's name ask for; `BadWords` where they are no
/// command.
pub(crate) fn read_line<'a>(alloc: Global, words: &'a [Text]) -> Result<ClockLine<'a>, WordsError>
    ensures ok { IfOk result (AsksFor words.entry.now) }
    ensures bad { result ≡ Err WordsError.BadWords → IsNoCommand words.entry.now }
{
    let Some(gears) = gears_of(words) else {
        return Err(WordsError::BadWords);
    };
    let [command, _, third, fourth] = words else {
        return Err(WordsError::BadWords);
    };
    match command.as_str() {
        "generate" => read_generate(gears, third.as_str(), fourth),
        "tables" => read_tables(alloc, gears, third, fourth),
        _ => Err(WordsError::BadWords),
    }
}

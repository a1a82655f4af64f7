//! Why a file of a pair room is refused.
ghost use Rattle.std.specs.Prelude.{◌≡◌, IfOk, string_bytes};
ghost use Rattle.mw_causes.specs.PairCauses.{pair_line as pair_line_lem, pair_word as pair_word_lem};

use mw_base::Memory;
use std::alloc::Global;

/// Why a file of a pair room is refused.
#[derive(Clone, Copy)]
pub enum PairRefusal {
    /// A byte stands where a journal was to be made.
    NotEmpty,
    /// CHOICE, or the journal that it names, is no journal.
    NotJournal,
    /// It belongs to another seed file.
    OtherSeed,
    /// A byte of CHOICE is neither 0 nor 1.
    BadChoice,
    /// The journal that CHOICE names isn't whole records.
    BadRecord,
}

/// The word for why a file of a pair room is refused.
fn pair_word(refusal: PairRefusal) -> &'static str
    ensures { result.now ≡ pair_word_lem refusal }
{
    match refusal {
        PairRefusal::NotEmpty => "NotEmpty",
        PairRefusal::NotJournal => "NotJournal",
        PairRefusal::OtherSeed => "OtherSeed",
        PairRefusal::BadChoice => "BadChoice",
        PairRefusal::BadRecord => "BadRecord",
    }
}

/// The line for a file of a pair room that is refused.
pub(crate) fn pair_line(alloc: Global, refusal: PairRefusal) -> Result<String, Memory>
    ensures { IfOk result (λ t. string_bytes t ≡ pair_line_lem refusal) }
{
    let word = pair_word(refusal);
    Ok(format!(in alloc; "journal refused: {word}\n")?)
}

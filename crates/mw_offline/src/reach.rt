//! The command `reach`.
ghost use Rattle.std.specs.Prelude.{◌≡◌, ◌≤◌, ◌⊎◌, ℕ, List, IfOk, IfErr, OnOk, string_bytes};
ghost use Rattle.std.specs.Io.KnownBytes.{Keeps};
ghost use Rattle.mw_edges.specs.Causes.{Rose};
ghost use Rattle.mw_causes.specs.Ends.{HasLeft, told_by};
ghost use Rattle.mw_causes.specs.Tables.{HasTableCause};
ghost use Rattle.mw_offline.specs.Reaching.{ReachText, Prints, PutsFrontOfReach, ReachEnds};

use crate::reaching::reach_text;
use mw_base::Text;
use mw_causes::{Stop, TableCause, end, join, put_text, read_tables};
use mw_edges::{Folder, Sink};
use mw_words::ReachWords;
use std::alloc::Global;

/// Reads the tables, and gives the text.
#[tactic(auto, using(mw_causes::proofs::TableCauses::unjoined_cause, crate::proofs::Counted::reach_text))]
fn text_of<F: Folder>(
    alloc: Global,
    words: &ReachWords,
    folder: &mut F,
) -> Result<String, Stop<TableCause>>
    ensures ok { IfOk result
        (λ t. ReachText (F.holds folder.old) words.now.players (string_bytes t)) }
    ensures err { IfErr result
        (HasTableCause (F.holds folder.old) (F.may_fail folder.old) words.now.players) }
    ensures fault { result ≡ Err Stop.Fault → Rose (F.faults folder.old) (F.faults folder.new) }
    ensures later { F.faults folder.old ≤ F.faults folder.new }
    ensures same { (n : List ℕ) → F.holds folder.new n ≡ F.holds folder.old n }
{
    let tables = read_tables(alloc, folder, &words.players)?;
    let joint = join(alloc, &tables)?;
    Ok(reach_text(alloc, &joint)?)
}

/// Does all that `reach` does but for its error line.
fn print_reach<F: Folder, O: Sink>(
    alloc: Global,
    words: &ReachWords,
    folder: &mut F,
    out: &mut O,
) -> Result<(), Stop<TableCause>>
    ensures done { OnOk result (Prints (F.holds folder.old) words.now.players (O.held out.old)
        (O.held out.new)) }
    ensures left { IfErr result
        (HasLeft (HasTableCause (F.holds folder.old) (F.may_fail folder.old) words.now.players)
        (Keeps (O.held out.old) (O.held out.new))
        (PutsFrontOfReach (F.holds folder.old) words.now.players (O.held out.old)
        (O.held out.new))
        (Rose (O.faults out.old) (O.faults out.new))) }
    ensures fault { result ≡ Err Stop.Fault
        → Rose (F.faults folder.old) (F.faults folder.new)
        ⊎ Rose (O.faults out.old) (O.faults out.new) }
    ensures same { (n : List ℕ) → F.holds folder.new n ≡ F.holds folder.old n }
{
    let text = text_of(alloc, words, folder)?;
    put_text(out, text.as_str())
}

/// Prints how much each slot reaches: with what it starts with and the events alone, and with all
/// items of the pools and the links too.
///
/// The status is 0 where all is done; 3 where a file or the joint is refused; 5 where the folder or
/// the out sink failed; 6 where memory ran out. With a status other than 0 the error sink gets that
/// status's line, or a front of it where it refuses.
pub fn cmd_reach<F: Folder, O: Sink, E: Sink>(
    alloc: Global,
    words: &ReachWords,
    folder: &mut F,
    out: &mut O,
    err: &mut E,
) -> u8
    ensures ends { ReachEnds result (F.holds folder.old) (F.may_fail folder.old)
        words.now.players (told_by O.held O.faults out.old out.new)
        (told_by E.held E.refusals err.old err.new) }
    ensures fault { result ≡ 5
        → Rose (F.faults folder.old) (F.faults folder.new)
        ⊎ Rose (O.faults out.old) (O.faults out.new) }
    ensures same { (n : List ℕ) → F.holds folder.new n ≡ F.holds folder.old n }
{
    let outcome = print_reach(alloc, words, folder, out);
    end(alloc, err, outcome)
}

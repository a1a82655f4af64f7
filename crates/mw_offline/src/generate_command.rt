//! The command `generate`.
ghost use Rattle.std.specs.Prelude.{◌≡◌, ◌≢◌, ◌≤◌, ◌⊎◌, ℕ, List, Ok, IfOk, IfErr, OnOk, length, string_bytes};
ghost use Rattle.mw_edges.specs.Causes.{Rose};
ghost use Rattle.mw_multi.specs.Files.{world_files};
ghost use Rattle.mw_multi.specs.JointOf.{joint_of};
ghost use Rattle.mw_causes.specs.Ends.{HasLeft, told_by};
ghost use Rattle.mw_causes.specs.Tables.{AreUnjoined};
ghost use Rattle.mw_offline.specs.Laws.{GenerateIsOne};
ghost use Rattle.mw_causes.specs.Wrote.{wrote_by, Untouched, HasFailed};
ghost use Rattle.mw_offline.specs.Generating.{IsTextFor, IsUntextFor, GeneratedText, HasGenerateCause, IsGenerated, WritesSome, GenerateEnds};

use mw_base::Text;
use mw_causes::{
    GenerateCause, Stop, Tables, end, join, put_file, put_text, read_tables, refusal_stop,
};
use mw_edges::{Folder, Sink};
use mw_seeds::{MadeSeed, make_seed};
use mw_words::GenerateWords;
use std::alloc::Global;

/// The seed file of tables that are read, and the text beside it.
#[tactic(auto, using(crate::proofs::Generated::unjoined_for, crate::proofs::Generated::refused_for, crate::proofs::Generated::text_for))]
fn made_from(
    alloc: Global,
    tables: &Tables,
    words: &GenerateWords,
) -> Result<MadeSeed, Stop<GenerateCause>>
    requires tries { (1 ≤ words.now.tries) × (words.now.tries ≤ 1000) }
    requires number { length tables.now.worlds ≡ length (world_files tables.now.players) }
    ensures ok { IfOk result
        (λ m. IsTextFor (λ joint. joint_of tables.now.worlds tables.now.players ≡ Ok joint)
        words.now m.bytes (string_bytes m.text)) }
    ensures err { IfErr result
        (IsUntextFor (λ joint. joint_of tables.now.worlds tables.now.players ≡ Ok joint)
        (AreUnjoined tables.now.worlds tables.now.players) words.now) }
    ensures fault { result ≢ Err Stop.Fault }
{
    let joint = join(alloc, tables)?;
    match make_seed(alloc, &tables.players, &joint, words.seed, words.tries) {
        Ok(made) => Ok(made),
        Err(error) => Err(refusal_stop(error, words.tries)),
    }
}

/// Reads the tables, and makes the seed file and the text beside it.
#[tactic(auto, using(crate::proofs::Generated::generated_text, crate::proofs::Generated::generate_cause, crate::proofs::Generated::table_cause))]
fn prepare<F: Folder>(
    alloc: Global,
    words: &GenerateWords,
    folder: &mut F,
) -> Result<MadeSeed, Stop<GenerateCause>>
    requires tries { (1 ≤ words.now.tries) × (words.now.tries ≤ 1000) }
    ensures ok { IfOk result (λ m. GeneratedText (F.holds folder.old) words.now m.bytes
        (string_bytes m.text)) }
    ensures err { IfErr result
        (HasGenerateCause (F.holds folder.old) (F.may_fail folder.old) words.now) }
    ensures fault { result ≡ Err Stop.Fault → Rose (F.faults folder.old) (F.faults folder.new) }
    ensures later { F.faults folder.old ≤ F.faults folder.new }
    ensures same { (n : List ℕ) → F.holds folder.new n ≡ F.holds folder.old n }
    ensures unrefused { F.refusals folder.new ≡ F.refusals folder.old }
{
    let tables = read_tables(alloc, folder, &words.players)?;
    made_from(alloc, &tables, words)
}

/// Does all that `generate` does but for its error line.
fn write_and_print<F: Folder, O: Sink>(
    alloc: Global,
    words: &GenerateWords,
    folder: &mut F,
    out: &mut O,
) -> Result<(), Stop<GenerateCause>>
    requires tries { (1 ≤ words.now.tries) × (words.now.tries ≤ 1000) }
    ensures done { OnOk result
        (IsGenerated (wrote_by F.holds F.may_fail F.refusals folder.old folder.new)
        words.now (O.held out.old) (O.held out.new)) }
    ensures left { IfErr result
        (HasLeft (HasGenerateCause (F.holds folder.old) (F.may_fail folder.old)
        words.now)
        (Untouched (wrote_by F.holds F.may_fail F.refusals folder.old folder.new) (O.held out.old)
        (O.held out.new))
        (WritesSome (wrote_by F.holds F.may_fail F.refusals folder.old folder.new)
        words.now
        (O.held out.old) (O.held out.new))
        (HasFailed (wrote_by F.holds F.may_fail F.refusals folder.old folder.new)
        (told_by O.held O.faults out.old out.new))) }
    ensures fault { result ≡ Err Stop.Fault
        → Rose (F.faults folder.old) (F.faults folder.new)
        ⊎ Rose (O.faults out.old) (O.faults out.new) }
{
    let made = prepare(alloc, words, folder)?;
    put_file::<GenerateCause, F>(alloc, folder, &words.out_name, made.bytes.as_slice())?;
    put_text(out, made.text.as_str())
}

/// Writes the seed file of the first of so many tries that gives a placement, and prints the try's
/// number, how many spheres there are, and the playthrough. Tries are from 1 to 1,000.
///
/// The status is 0 where all is done; 3 where a file or the joint is refused, where with everything
/// in hand a goal can't be met or a location of a slot that is to be reached in full can't be, or
/// where there are more items than locations; 4 where each try is stuck; 5 where the folder or the
/// out sink failed; 6 where memory ran out. With 3 or 4 no file is touched; with 5 or 6 the named
/// file is as it was or holds the seed file, or the folder refused to write it and it holds what
/// that left. With a status other than 0 the error sink gets that status's line, or a front of it
/// where it refuses. What is due is one: of the same files, number and tries there are no two seed
/// files or texts.
pub fn cmd_generate<F: Folder, O: Sink, E: Sink>(
    alloc: Global,
    words: &GenerateWords,
    folder: &mut F,
    out: &mut O,
    err: &mut E,
) -> u8
    requires tries { (1 ≤ words.now.tries) × (words.now.tries ≤ 1000) }
    ensures ends { GenerateEnds result
        (wrote_by F.holds F.may_fail F.refusals folder.old folder.new) words.now
        (told_by O.held O.faults out.old out.new) (told_by E.held E.refusals err.old err.new) }
    ensures fault { result ≡ 5
        → Rose (F.faults folder.old) (F.faults folder.new)
        ⊎ Rose (O.faults out.old) (O.faults out.new) }
    ensures one { GenerateIsOne }
{
    let outcome = write_and_print(alloc, words, folder, out);
    end(alloc, err, outcome)
}

//! The command `check`.
ghost use Rattle.std.specs.Prelude.{◌≡◌, ◌≤◌, ◌⊎◌, ℕ, List, Ok, IfOk, IfErr, OnOk, length, string_bytes};
ghost use Rattle.std.specs.Io.KnownBytes.{Keeps};
ghost use Rattle.mw_edges.specs.Causes.{Rose};
ghost use Rattle.mw_multi.specs.Files.{world_files};
ghost use Rattle.mw_multi.specs.JointOf.{joint_of};
ghost use Rattle.mw_multi.specs.Placement.{IsPlacement};
ghost use Rattle.mw_spheres.specs.Spheres.{IsSpheres};
ghost use Rattle.mw_causes.specs.Ends.{HasLeft, told_by};
ghost use Rattle.mw_causes.specs.Tables.{AreUnjoined};
ghost use Rattle.mw_offline.specs.Checking.{right_line, HasPlaythrough, CheckedText, IsTextFor, IsUntextFor, HasCheckCause, PrintsChecked, PutsFrontOfChecked, CheckEnds};

use mw_base::{Memory, SphereList, Text};
use mw_causes::{CheckCause, Stop, Tables, end, join, put_text, read_seed, read_tables};
use mw_edges::{Folder, Sink};
use mw_multi::{Joint, Placement};
use mw_seeds::{check_seed, with_played};
use mw_spheres::playthrough;
use mw_words::CheckWords;
use std::alloc::Global;

/// The line of a seed file that is right.
fn first_line(alloc: Global, many: u64) -> Result<String, Memory>
    ensures { IfOk result (λ t. string_bytes t ≡ right_line many) }
{
    Ok(format!(in alloc; "ok spheres {many}\n")?)
}

/// The line of a seed file that is right, and those of its playthrough.
fn text_of(
    alloc: Global,
    joint: &Joint,
    placement: &Placement,
    spheres: &SphereList,
) -> Result<String, Memory>
    requires placement { IsPlacement joint.now placement.now }
    requires spheres { IsSpheres joint.now placement.now spheres.now }
    ensures { IfOk result
        (λ t. HasPlaythrough joint.now placement.now spheres.now (string_bytes t)) }
{
    let played = playthrough(alloc, joint, placement, spheres)?;
    let text = first_line(alloc, spheres.len() as u64)?;
    Ok(with_played(alloc, text, joint, placement, &played)?)
}

/// The text of tables that are read, and a seed file.
#[tactic(auto, using(crate::proofs::Checked::unjoined_for, crate::proofs::Checked::unread_for, crate::proofs::Checked::wrong_for, crate::proofs::Checked::text_for))]
fn text_for<F: Folder>(
    alloc: Global,
    tables: &Tables,
    folder: &mut F,
    name: &Text,
) -> Result<String, Stop<CheckCause>>
    requires { length tables.now.worlds ≡ length (world_files tables.now.players) }
    ensures ok { IfOk result
        (λ t. IsTextFor (λ joint. joint_of tables.now.worlds tables.now.players ≡ Ok joint)
        (F.holds folder.old name.now) (string_bytes t)) }
    ensures err { IfErr result
        (IsUntextFor (λ joint. joint_of tables.now.worlds tables.now.players ≡ Ok joint)
        (AreUnjoined tables.now.worlds tables.now.players) (F.holds folder.old name.now)
        (F.may_fail folder.old)) }
    ensures fault { result ≡ Err Stop.Fault → Rose (F.faults folder.old) (F.faults folder.new) }
    ensures later { F.faults folder.old ≤ F.faults folder.new }
    ensures same { (n : List ℕ) → F.holds folder.new n ≡ F.holds folder.old n }
{
    let joint = join(alloc, tables)?;
    let file = read_seed(alloc, folder, name)?;
    let placement = check_seed(alloc, &joint, &file)?;
    Ok(text_of(alloc, &joint, &placement, &file.spheres)?)
}

/// Reads the tables and the seed file, and gives the text.
#[tactic(auto, using(crate::proofs::Checked::checked_text))]
fn prepare<F: Folder>(
    alloc: Global,
    words: &CheckWords,
    folder: &mut F,
) -> Result<String, Stop<CheckCause>>
    ensures ok { IfOk result
        (λ t. CheckedText (F.holds folder.old) words.now (string_bytes t)) }
    ensures err { IfErr result
        (HasCheckCause (F.holds folder.old) (F.may_fail folder.old) words.now) }
    ensures fault { result ≡ Err Stop.Fault → Rose (F.faults folder.old) (F.faults folder.new) }
    ensures later { F.faults folder.old ≤ F.faults folder.new }
    ensures same { (n : List ℕ) → F.holds folder.new n ≡ F.holds folder.old n }
{
    let tables = read_tables(alloc, folder, &words.players)?;
    text_for(alloc, &tables, folder, &words.multidata)
}

/// Does all that `check` does but for its error line.
fn print_checked<F: Folder, O: Sink>(
    alloc: Global,
    words: &CheckWords,
    folder: &mut F,
    out: &mut O,
) -> Result<(), Stop<CheckCause>>
    ensures done { OnOk result
        (PrintsChecked (F.holds folder.old) words.now (O.held out.old)
        (O.held out.new)) }
    ensures left { IfErr result
        (HasLeft (HasCheckCause (F.holds folder.old) (F.may_fail folder.old) words.now)
        (Keeps (O.held out.old) (O.held out.new))
        (PutsFrontOfChecked (F.holds folder.old) words.now (O.held out.old)
        (O.held out.new))
        (Rose (O.faults out.old) (O.faults out.new))) }
    ensures fault { result ≡ Err Stop.Fault
        → Rose (F.faults folder.old) (F.faults folder.new)
        ⊎ Rose (O.faults out.old) (O.faults out.new) }
    ensures same { (n : List ℕ) → F.holds folder.new n ≡ F.holds folder.old n }
{
    let text = prepare(alloc, words, folder)?;
    put_text(out, text.as_str())
}

/// Checks that a seed file is of the tables, that its placement reaches each goal and each location
/// of a slot that is to be reached in full, and that its spheres are those of the placement, and
/// prints how many spheres there are and the playthrough.
///
/// The status is 0 where all is right; 1 where the file's groups, locations, items or flags aren't
/// those of the tables, a goal or such a location isn't reached or a sphere is wrong; 3 where a
/// players file, a world file or their joint is refused; 5 where the folder or the out sink failed;
/// 6 where memory ran out; 7 where the seed file is refused, which is read only where the tables
/// are joined. With a status other than 0 the error sink gets that status's line, or a front of it
/// where it refuses. No file changes.
pub fn cmd_check<F: Folder, O: Sink, E: Sink>(
    alloc: Global,
    words: &CheckWords,
    folder: &mut F,
    out: &mut O,
    err: &mut E,
) -> u8
    ensures ends { CheckEnds result (F.holds folder.old) (F.may_fail folder.old)
        words.now (told_by O.held O.faults out.old out.new)
        (told_by E.held E.refusals err.old err.new) }
    ensures fault { result ≡ 5
        → Rose (F.faults folder.old) (F.faults folder.new)
        ⊎ Rose (O.faults out.old) (O.faults out.new) }
    ensures same { (n : List ℕ) → F.holds folder.new n ≡ F.holds folder.old n }
{
    let outcome = print_checked(alloc, words, folder, out);
    end(alloc, err, outcome)
}

//! The command `thin`.
ghost use Rattle.std.specs.Prelude.{◌≡◌, ◌≤◌, ◌⊎◌, IfErr, IfOk, OnErr, OnOk, string_bytes};
ghost use Rattle.std.specs.Io.KnownBytes.{Appends};
ghost use Rattle.mw_edges.specs.Causes.{PutsFront, Rose};
ghost use Rattle.mw_causes.specs.Ends.{told_by};
ghost use Rattle.mw_offline.specs.FilesAround.{files_around};
ghost use Rattle.mw_offline.specs.PairFiles.{PairOthersStay};
ghost use Rattle.mw_offline.specs.ThinRuns.{IsThinnedIn, ThinDone, ThinEnds, ThinFails, ThinKeeps};
ghost use Rattle.mw_offline.specs.ThinRuns.{ThinStopped, kept_text as kept_text_lem};

use mw_base::Memory;
use mw_causes::{Stop, ThinCause, end, put_text, read_digest, thin_stop};
use mw_checkpoint::Kept;
use mw_edges::{Folder, Sink};
use mw_pair::{PairNames, thin_pair};
use mw_words::ThinWords;
use std::alloc::Global;

/// What `thin` prints.
fn kept_text(alloc: Global, kept: Kept) -> Result<String, Memory>
    ensures { IfOk result (λ t. string_bytes t ≡ kept_text_lem kept) }
{
    let Kept { kept, of } = kept;
    Ok(format!(in alloc; "kept {kept} of {of} records\n")?)
}

/// Reads the seed file, and makes a checkpoint of the three files.
fn thin_files<F: Folder>(
    alloc: Global,
    words: &ThinWords,
    folder: &mut F,
) -> Result<Kept, Stop<ThinCause>>
    ensures thinned { IfOk result (IsThinnedIn
        (files_around F.holds F.images F.is_open F.may_fail F.faults folder.old folder.new)
        words.now) }
    ensures fails { IfErr result (ThinFails
        (files_around F.holds F.images F.is_open F.may_fail F.faults folder.old folder.new)
        words.now) }
    ensures keeps { ThinKeeps
        (files_around F.holds F.images F.is_open F.may_fail F.faults folder.old folder.new)
        words.now }
    ensures others { PairOthersStay
        (files_around F.holds F.images F.is_open F.may_fail F.faults folder.old folder.new)
        words.now.choice }
    ensures fault { result ≡ Err Stop.Fault → Rose (F.faults folder.old) (F.faults folder.new) }
    ensures later { F.faults folder.old ≤ F.faults folder.new }
{
    let digest = read_digest(alloc, folder, &words.multidata)?;
    let names = PairNames::of(alloc, &words.choice)?;
    match thin_pair(alloc, folder, &names, &digest) {
        Ok(kept) => Ok(kept),
        Err(error) => Err(thin_stop(error)),
    }
}

/// Prints what was kept.
fn print_kept<O: Sink>(alloc: Global, kept: Kept, out: &mut O) -> Result<(), Stop<ThinCause>>
    ensures done { OnOk result (Appends (O.held out.old) (O.held out.new) (kept_text_lem kept)) }
    ensures front { OnErr result
        (PutsFront (O.held out.old) (O.held out.new) (kept_text_lem kept)) }
    ensures late { IfErr result (λ stop. (stop ≡ Stop.Fault) ⊎ (stop ≡ Stop.Memory)) }
    ensures fault { result ≡ Err Stop.Fault → Rose (O.faults out.old) (O.faults out.new) }
{
    let text = kept_text(alloc, kept)?;
    put_text(out, text.as_str())
}

/// Does all that `thin` does but for its error line.
fn thin<F: Folder, O: Sink>(
    alloc: Global,
    words: &ThinWords,
    folder: &mut F,
    out: &mut O,
) -> Result<(), Stop<ThinCause>>
    ensures done { OnOk result (ThinDone
        (files_around F.holds F.images F.is_open F.may_fail F.faults folder.old folder.new)
        words.now (O.held out.old) (O.held out.new)) }
    ensures stopped { IfErr result (ThinStopped
        (files_around F.holds F.images F.is_open F.may_fail F.faults folder.old folder.new)
        words.now (O.held out.old) (O.held out.new)) }
    ensures keeps { ThinKeeps
        (files_around F.holds F.images F.is_open F.may_fail F.faults folder.old folder.new)
        words.now }
    ensures others { PairOthersStay
        (files_around F.holds F.images F.is_open F.may_fail F.faults folder.old folder.new)
        words.now.choice }
    ensures fault { result ≡ Err Stop.Fault → Rose (F.faults folder.old) (F.faults folder.new)
        ⊎ Rose (O.faults out.old) (O.faults out.new) }
{
    let kept = thin_files(alloc, words, folder)?;
    print_kept(alloc, kept, out)
}

/// Keeps in the other journal of a pair room what still counts of the one that CHOICE names, names
/// the other one, and prints how many records that are of how many.
///
/// The seed file is judged first; then the three files are opened, and made where they aren't there;
/// then CHOICE is judged, and then the journal that it names, whose records must be whole. The
/// status is 0 where all is done: each three images of the files then stand for what counts of the
/// records that were read. It is 5 where the folder, a disk or the out sink failed; 6 where memory
/// ran out; 7 where the seed file or a file of the pair room is refused; 8 where CHOICE would pass
/// its limit. With a status other than 0 the error sink gets that status's line, or a front of it
/// where it refuses.
///
/// Whatever the status is, where what a crash might have left of the files was settled, each three
/// images of them stand for records for which they might have stood, or for what counts of such; and
/// what it may leave is settled so.
pub fn cmd_thin<F: Folder, O: Sink, E: Sink>(
    alloc: Global,
    words: &ThinWords,
    folder: &mut F,
    out: &mut O,
    err: &mut E,
) -> u8
    ensures ends { ThinEnds result
        (files_around F.holds F.images F.is_open F.may_fail F.faults folder.old folder.new)
        words.now (told_by O.held O.faults out.old out.new)
        (told_by E.held E.refusals err.old err.new) }
    ensures fault { result ≡ 5 → Rose (F.faults folder.old) (F.faults folder.new)
        ⊎ Rose (O.faults out.old) (O.faults out.new) }
{
    let outcome = thin(alloc, words, folder, out);
    end(alloc, err, outcome)
}

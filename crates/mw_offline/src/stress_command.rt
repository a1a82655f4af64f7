//! The command `stress`.
ghost use Rattle.std.specs.Prelude.{◌≡◌, IfOk, IfErr, OnOk, string_bytes};
ghost use Rattle.std.specs.Io.KnownBytes.{Keeps};
ghost use Rattle.mw_edges.specs.Causes.{Rose};
ghost use Rattle.mw_causes.specs.Ends.{HasLeft, told_by};
ghost use Rattle.mw_stress.specs.Stress.{IsCrowd};
ghost use Rattle.mw_stress.specs.Made.{IsStressSeed};
ghost use Rattle.mw_offline.specs.Stressing.{HasStressCause, PutsFrontOfStress, PutsStress, StressEnds, StressText};

use crate::stress_room::drive_sessions;
use mw_base::Memory;
use mw_causes::{GenerateCause, Stop, end, put_text};
use mw_edges::Sink;
use mw_stress::{StressError, StressSeed, made_seed, text};
use mw_words::StressWords;
use std::alloc::Global;

/// The text of a seed and of what the sessions of its slots take.
fn text_for(alloc: Global, words: &StressWords, made: StressSeed) -> Result<String, Memory>
    requires crowd { IsCrowd words.now.players }
    requires made { IsStressSeed words.now.players words.now.seed made.stream made.spheres
        made.multidata }
    ensures { IfOk result (λ t. StressText words.now (string_bytes t)) }
{
    let StressSeed {
        multidata,
        stream,
        spheres,
    } = made;
    let taken = drive_sessions(alloc, multidata, words.players)?;
    text(alloc, words.players, words.seed, stream, spheres, &taken)
}

/// The text of `stress`.
fn text_of(alloc: Global, words: &StressWords) -> Result<String, Stop<GenerateCause>>
    requires { IsCrowd words.now.players }
    ensures ok { IfOk result (λ t. StressText words.now (string_bytes t)) }
    ensures err { IfErr result (HasStressCause words.now) }
{
    match made_seed(alloc, words.players, words.seed) {
        Ok(made) => Ok(text_for(alloc, words, made)?),
        Err(StressError::Exhausted) => Err(Stop::Refused {
            cause: GenerateCause::Exhausted { tries: 100 },
        }),
        Err(StressError::Memory) => Err(Stop::Memory),
    }
}

/// Does all that `stress` does but for its error line.
fn print_stress<O: Sink>(
    alloc: Global,
    words: &StressWords,
    out: &mut O,
) -> Result<(), Stop<GenerateCause>>
    requires { IsCrowd words.now.players }
    ensures done { OnOk result (PutsStress words.now (O.held out.old) (O.held out.new)) }
    ensures left { IfErr result
        (HasLeft (HasStressCause words.now) (Keeps (O.held out.old) (O.held out.new))
        (PutsFrontOfStress words.now (O.held out.old) (O.held out.new))
        (Rose (O.faults out.old) (O.faults out.new))) }
    ensures fault { result ≡ Err Stop.Fault → Rose (O.faults out.old) (O.faults out.new) }
{
    let text = text_of(alloc, words)?;
    put_text(out, text.as_str())
}

/// Drives a world that 1 to 64 players play through generator and room: it generates a seed in a
/// hundred tries, makes its spheres, and runs its room on a new journal in memory. The session of
/// each slot connects, all slots check all their locations, and all sessions take. It prints the
/// try, how many spheres there are, and how many items each slot's session received, with the id of
/// the last.
///
/// The status is 0 where all is done; 4 where each of a hundred tries is stuck; 5 where the out sink
/// failed; 6 where memory ran out.
/// With a status other than 0 the error sink gets that status's line, or a front of it where it
/// refuses.
pub fn cmd_stress<O: Sink, E: Sink>(
    alloc: Global,
    words: &StressWords,
    out: &mut O,
    err: &mut E,
) -> u8
    requires { IsCrowd words.now.players }
    ensures ends { StressEnds result words.now (told_by O.held O.faults out.old out.new)
        (told_by E.held E.refusals err.old err.new) }
    ensures fault { result ≡ 5 → Rose (O.faults out.old) (O.faults out.new) }
{
    let outcome = print_stress(alloc, words, out);
    end(alloc, err, outcome)
}

//! The closure that answers the rules, and what the command line asks for, done with it.
ghost use Rattle.std.specs.Prelude.{◌≡◌, ◌⊎◌, ℕ};
ghost use Rattle.mw_edges.specs.Causes.{Rose};
ghost use Rattle.mw_causes.specs.Ends.{told_by};
ghost use Rattle.mw_causes.specs.Wrote.{wrote_by};
ghost use Rattle.mw_clock.specs.Clockwork.{IsSize};
ghost use Rattle.mw_clock.specs.Words.{HasGears};
ghost use Rattle.mw_clock.specs.Runs.{RunEnds};
ghost use Rattle.mw_clockwork.specs.Agreement.{SeedsAgree};

use mw_base::Text;
use mw_causes::end_without_memory;
use mw_clock::{clock_named, clock_rule, clock_told, gears_of, run_clockwork};
use mw_edges::{Folder, Sink};
use std::alloc::Global;

/// How many gears the words ask for, and 1 where they ask for nothing.
fn size_of(words: &[Text]) -> u32
    ensures size { IsSize result }
    ensures asked { (gears : ℕ) → HasGears words.now gears → gears ≡ result }
{
    match gears_of(words) {
        Some(gears) => gears,
        None => 1,
    }
}

/// Does what the command line's words after the program's name say, with the rules asked of a
/// closure, and answers the status, as `run_clockwork` does. What `generate` writes and prints is
/// what `multiworld generate` writes and prints on the tables.
pub(crate) fn run<F: Folder, O: Sink, E: Sink>(
    alloc: Global,
    words: &[Text],
    folder: &mut F,
    out: &mut O,
    err: &mut E,
) -> u8
    ensures ends { RunEnds words.now result
        (wrote_by F.holds F.may_fail F.refusals folder.old folder.new)
        (told_by O.held O.faults out.old out.new) (told_by E.held E.refusals err.old err.new) }
    ensures fault { result ≡ 5
        → Rose (F.faults folder.old) (F.faults folder.new)
        ⊎ Rose (O.faults out.old) (O.faults out.new) }
    ensures agree { SeedsAgree }
{
    let gears = size_of(words);
    let Ok(named) = clock_named(alloc, gears) else {
        return end_without_memory(err);
    };
    let rules = clock_told(gears, named, |number, counts, places| {
        clock_rule(gears, number, counts, places)
    });
    run_clockwork(alloc, words, &rules, folder, out, err)
}

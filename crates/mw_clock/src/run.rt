//! The program's command line, done.
ghost use Rattle.std.specs.Prelude.{◌≡◌, ◌⊎◌, ℕ};
ghost use Rattle.mw_edges.specs.Causes.{Rose};
ghost use Rattle.mw_causes.specs.Ends.{told_by};
ghost use Rattle.mw_causes.specs.Wrote.{wrote_by};
ghost use Rattle.mw_clock.specs.Clockwork.{clock_rules};
ghost use Rattle.mw_clock.specs.Words.{HasGears};
ghost use Rattle.mw_clock.specs.Runs.{RunEnds};

use crate::line::{ClockLine, read_line};
use crate::seed::generate;
use crate::tables::tables;
use mw_base::Text;
use mw_causes::{end_without_memory, tell};
use mw_edges::{Folder, Sink};
use mw_rules::Ruling;
use mw_words::WordsError;
use std::alloc::Global;

/// Does what the command line's words after the program's name say, and answers the status. Where
/// they have a number of gears, `rules` answers the rules of the world with so many.
///
/// 0: all is done. 2: the words are no command. 4: each of a hundred tries of `generate` is stuck.
/// 5: the folder or the out sink failed. 6: memory ran out. With a status other than 0 the error
/// sink gets that status's line, or a front of it where it refuses.
///
/// `generate` writes the very seed file, and prints the very text, that the generator's definitions
/// give for the joint of the world and its player in a hundred tries. `tables` writes the texts of a
/// world file and of a players file that stand for that world and that player, so that `multiworld
/// generate` has the same joint to make a seed of.
pub fn run_clockwork<R: Ruling, F: Folder, O: Sink, E: Sink>(
    alloc: Global,
    words: &[Text],
    rules: &R,
    folder: &mut F,
    out: &mut O,
    err: &mut E,
) -> u8
    requires { (gears : ℕ) → HasGears words.now gears
        → R.stands_for rules.now (clock_rules gears) }
    ensures ends { RunEnds words.now result
        (wrote_by F.holds F.may_fail F.refusals folder.old folder.new)
        (told_by O.held O.faults out.old out.new) (told_by E.held E.refusals err.old err.new) }
    ensures fault { result ≡ 5
        → Rose (F.faults folder.old) (F.faults folder.new)
        ⊎ Rose (O.faults out.old) (O.faults out.new) }
{
    match read_line(alloc, words) {
        Ok(
            ClockLine::Generate {
                gears,
                seed,
                out_name,
            },
        ) => generate(alloc, rules, gears, seed, out_name, folder, out, err),
        Ok(
            ClockLine::Tables {
                gears,
                world_name,
                players_name,
            },
        ) => tables(alloc, gears, world_name, players_name, folder, out, err),
        Err(WordsError::BadWords) => {
            tell(err, "bad words\n");
            2
        }
        Err(WordsError::Memory) => end_without_memory(err),
    }
}

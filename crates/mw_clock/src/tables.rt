//! The command `tables`.
ghost use Rattle.std.specs.Prelude.{◌≡◌, ◌≢◌, ◌≤◌, ◌⊎◌, ℕ, List, IfOk, IfErr, OnOk, OnErr};
ghost use Rattle.mw_edges.specs.Causes.{Rose};
ghost use Rattle.mw_causes.specs.Ends.{HasLeft, told_by};
ghost use Rattle.mw_causes.specs.Wrote.{wrote_by, Untouched, HasFailed};
ghost use Rattle.mw_clock.specs.Clockwork.{IsSize};
ghost use Rattle.mw_clock.specs.Words.{IsFileName};
ghost use Rattle.mw_clock.specs.Tabled.{AreTables, SameButBoth, HasBoth, IsUntabled, WritesSomeTables, AreWritten, TablesEnd};

use crate::trees::{players_file, world_file};
use mw_base::{Bytes, Memory, Text};
use mw_causes::{GenerateCause, Stop, end, put_file, put_text};
use mw_edges::{Folder, Sink};
use std::alloc::Global;

/// The texts of the two files.
#[derive(Drop)]
struct TableTexts {
    world: Bytes,
    players: Bytes,
}

/// The texts of the tables of so many gears, where this is the world file's name.
fn texts_of(alloc: Global, gears: u32, world_name: &Text) -> Result<TableTexts, Memory>
    requires size { IsSize gears }
    requires named { IsFileName world_name.now }
    ensures { IfOk result (λ t. (players_name : List ℕ) → AreTables record {
      gears = gears;
      world_name = world_name.now;
      players_name = players_name;
    } t.world t.players) }
{
    let world = world_file(alloc, gears)?;
    let players = players_file(alloc, world_name)?;
    Ok(TableTexts { world, players })
}

/// Writes the two files.
fn write_both<F: Folder>(
    alloc: Global,
    texts: &TableTexts,
    world_name: &Text,
    players_name: &Text,
    folder: &mut F,
) -> Result<(), Stop<GenerateCause>>
    requires { world_name.now ≢ players_name.now }
    ensures done { (gears : ℕ) → OnOk result
        (HasBoth (wrote_by F.holds F.may_fail F.refusals folder.old folder.new)
        record { gears = gears; world_name = world_name.now; players_name = players_name.now }
        texts.now.world texts.now.players) }
    ensures others { (gears : ℕ) → SameButBoth
        record { gears = gears; world_name = world_name.now; players_name = players_name.now }
        (F.holds folder.old) (F.holds folder.new) }
    ensures late { IfErr result (λ stop. (stop ≡ Stop.Fault) ⊎ (stop ≡ Stop.Memory)) }
    ensures fault { result ≡ Err Stop.Fault → Rose (F.faults folder.old) (F.faults folder.new) }
    ensures later { F.faults folder.old ≤ F.faults folder.new }
    ensures refused { OnErr result (Rose (F.refusals folder.old) (F.refusals folder.new)) }
    ensures counted { F.refusals folder.old ≤ F.refusals folder.new }
{
    put_file::<GenerateCause, F>(alloc, folder, world_name, texts.world.as_slice())?;
    put_file(alloc, folder, players_name, texts.players.as_slice())
}

/// Does all that `tables` does but for its error line.
fn write_and_print<F: Folder, O: Sink>(
    alloc: Global,
    gears: u32,
    world_name: &Text,
    players_name: &Text,
    folder: &mut F,
    out: &mut O,
) -> Result<(), Stop<GenerateCause>>
    requires size { IsSize gears }
    requires named { IsFileName world_name.now }
    requires differ { world_name.now ≢ players_name.now }
    ensures done { OnOk result
        (AreWritten (wrote_by F.holds F.may_fail F.refusals folder.old folder.new)
        record { gears = gears; world_name = world_name.now; players_name = players_name.now }
        (O.held out.old) (O.held out.new)) }
    ensures left { IfErr result
        (HasLeft IsUntabled
        (Untouched (wrote_by F.holds F.may_fail F.refusals folder.old folder.new) (O.held out.old)
        (O.held out.new))
        (WritesSomeTables (wrote_by F.holds F.may_fail F.refusals folder.old folder.new)
        record { gears = gears; world_name = world_name.now; players_name = players_name.now }
        (O.held out.old) (O.held out.new))
        (HasFailed (wrote_by F.holds F.may_fail F.refusals folder.old folder.new)
        (told_by O.held O.faults out.old out.new))) }
    ensures fault { result ≡ Err Stop.Fault
        → Rose (F.faults folder.old) (F.faults folder.new)
        ⊎ Rose (O.faults out.old) (O.faults out.new) }
{
    let texts = texts_of(alloc, gears, world_name)?;
    write_both(alloc, &texts, world_name, players_name, folder)?;
    put_text(out, "tables made\n")
}

/// Writes the world file of so many gears and the players file that names it, and prints that they
/// are made.
///
/// The status is 0 where all is done; 5 where the folder or the out sink failed; 6 where memory ran
/// out. With 5 or 6 nothing is touched, or both files are written, or the folder refused to write
/// one of them.
pub(crate) fn tables<F: Folder, O: Sink, E: Sink>(
    alloc: Global,
    gears: u32,
    world_name: &Text,
    players_name: &Text,
    folder: &mut F,
    out: &mut O,
    err: &mut E,
) -> u8
    requires size { IsSize gears }
    requires named { IsFileName world_name.now }
    requires differ { world_name.now ≢ players_name.now }
    ensures ends { TablesEnd result
        (wrote_by F.holds F.may_fail F.refusals folder.old folder.new)
        record { gears = gears; world_name = world_name.now; players_name = players_name.now }
        (told_by O.held O.faults out.old out.new) (told_by E.held E.refusals err.old err.new) }
    ensures fault { result ≡ 5
        → Rose (F.faults folder.old) (F.faults folder.new)
        ⊎ Rose (O.faults out.old) (O.faults out.new) }
{
    let outcome = write_and_print(alloc, gears, world_name, players_name, folder, out);
    end(alloc, err, outcome)
}

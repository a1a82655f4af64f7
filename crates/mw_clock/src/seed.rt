//! The command `generate`.
ghost use Rattle.std.specs.Prelude.{◌≡◌, ◌≢◌, ◌⊎◌, ◌<◌, [], ◌∷◌, List, IfOk, IfErr, OnOk, codes, string_bytes};
ghost use Rattle.mw_edges.specs.Causes.{Rose};
ghost use Rattle.mw_causes.specs.Ends.{HasLeft, told_by};
ghost use Rattle.mw_causes.specs.Wrote.{wrote_by, Untouched, HasFailed};
ghost use Rattle.mw_tables.specs.PlayersShape.{usual_room as usual_settings};
ghost use Rattle.mw_clock.specs.Clockwork.{IsSize, clockwork, clock_rules, player as clock_player, players as clock_players};
ghost use Rattle.mw_clock.specs.Seeds.{IsClockSeed, IsSeedless, WritesSomeSeed, IsSeedWritten, SeedEnds};

use crate::world::world_of;
use mw_base::{List, Memory, Permission, RoomOptions, Text};
use mw_causes::{GenerateCause, Stop, end, put_file, put_text, refusal_stop};
use mw_edges::{Folder, Sink};
use mw_multi::{Access, Joint, Options, Player, Players, World};
use mw_rules::Ruling;
use mw_seeds::{MadeSeed, make_seed_by};
use std::alloc::Global;

/// The usual settings of a room.
fn usual_room(alloc: Global) -> Result<RoomOptions, Memory>
    ensures { IfOk result (λ room. room ≡ usual_settings) }
{
    Ok(RoomOptions {
        password: Text::of(alloc, "")?,
        hint_cost: 10,
        location_check_points: 1,
        release: Permission::Auto,
        collect: Permission::Auto,
        remaining: Permission::Goal,
    })
}

/// The player, whose world is in the file `clockwork.json`.
fn player(alloc: Global) -> Result<Player, Memory>
    ensures { IfOk result (λ p. p ≡ clock_player (codes "clockwork.json")) }
{
    let mut names = List::new(alloc);
    names.push(Text::of(alloc, "Player")?)?;
    let world = Text::of(alloc, "clockwork.json")?;
    let options = Options {
        local_items: List::new(alloc),
        non_local_items: List::new(alloc),
        exclude_locations: List::new(alloc),
        priority_locations: List::new(alloc),
        start_inventory: List::new(alloc),
        accessibility: Access::Items,
    };
    Ok(Player {
        names,
        world,
        options,
    })
}

/// The one player.
fn player_list(alloc: Global) -> Result<List<Player>, Memory>
    ensures { IfOk result (λ ps. ps ≡ clock_player (codes "clockwork.json") ∷ []) }
{
    let mut list = List::new(alloc);
    list.push(player(alloc)?)?;
    Ok(list)
}

/// One team in the usual room.
fn players_of(alloc: Global) -> Result<Players, Memory>
    ensures { IfOk result (λ p. p ≡ clock_players (codes "clockwork.json")) }
{
    let room = usual_room(alloc)?;
    let players = player_list(alloc)?;
    Ok(Players {
        teams: 1,
        room,
        players,
        links: List::new(alloc),
    })
}

/// The one world.
fn world_list(alloc: Global, gears: u32) -> Result<List<World>, Memory>
    requires { IsSize gears }
    ensures { IfOk result (λ worlds. worlds ≡ clockwork gears ∷ []) }
{
    let mut worlds = List::new(alloc);
    worlds.push(world_of(alloc, gears)?)?;
    Ok(worlds)
}

/// The seed file and the text beside it, with the joint's rules asked of `rules`.
fn made_from<R: Ruling>(
    alloc: Global,
    worlds: &List<World>,
    players: &Players,
    rules: &R,
    gears: u32,
    seed: u64,
) -> Result<MadeSeed, Stop<GenerateCause>>
    requires size { IsSize gears }
    requires rules { R.stands_for rules.now (clock_rules gears) }
    requires worlds { worlds.now ≡ clockwork gears ∷ [] }
    requires players { players.now ≡ clock_players (codes "clockwork.json") }
    ensures ok { IfOk result (λ m. IsClockSeed gears seed m.bytes (string_bytes m.text)) }
    ensures err { IfErr result (IsSeedless gears seed) }
    ensures fault { result ≢ Err Stop.Fault }
{
    // The tables can be joined, so that memory alone may be wanting.
    let Ok(joint) = Joint::build(alloc, worlds, players) else {
        return Err(Stop::Memory);
    };
    match make_seed_by(alloc, players, &joint, rules, seed, 100) {
        Ok(made) => Ok(made),
        Err(error) => Err(refusal_stop(error, 100)),
    }
}

/// The seed file of so many gears and the text beside it.
fn prepare<R: Ruling>(
    alloc: Global,
    rules: &R,
    gears: u32,
    seed: u64,
) -> Result<MadeSeed, Stop<GenerateCause>>
    requires size { IsSize gears }
    requires rules { R.stands_for rules.now (clock_rules gears) }
    ensures ok { IfOk result (λ m. IsClockSeed gears seed m.bytes (string_bytes m.text)) }
    ensures err { IfErr result (IsSeedless gears seed) }
    ensures fault { result ≢ Err Stop.Fault }
{
    let worlds = world_list(alloc, gears)?;
    let players = players_of(alloc)?;
    made_from(alloc, &worlds, &players, rules, gears, seed)
}

/// Does all that `generate` does but for its error line.
fn write_and_print<R: Ruling, F: Folder, O: Sink>(
    alloc: Global,
    rules: &R,
    gears: u32,
    seed: u64,
    out_name: &Text,
    folder: &mut F,
    out: &mut O,
) -> Result<(), Stop<GenerateCause>>
    requires size { IsSize gears }
    requires rules { R.stands_for rules.now (clock_rules gears) }
    ensures done { OnOk result
        (IsSeedWritten (wrote_by F.holds F.may_fail F.refusals folder.old folder.new)
        record { gears = gears; seed = seed; out_name = out_name.now }
        (O.held out.old) (O.held out.new)) }
    ensures left { IfErr result
        (HasLeft (IsSeedless gears seed)
        (Untouched (wrote_by F.holds F.may_fail F.refusals folder.old folder.new) (O.held out.old)
        (O.held out.new))
        (WritesSomeSeed (wrote_by F.holds F.may_fail F.refusals folder.old folder.new)
        record { gears = gears; seed = seed; out_name = out_name.now }
        (O.held out.old) (O.held out.new))
        (HasFailed (wrote_by F.holds F.may_fail F.refusals folder.old folder.new)
        (told_by O.held O.faults out.old out.new))) }
    ensures fault { result ≡ Err Stop.Fault
        → Rose (F.faults folder.old) (F.faults folder.new)
        ⊎ Rose (O.faults out.old) (O.faults out.new) }
{
    let made = prepare(alloc, rules, gears, seed)?;
    put_file::<GenerateCause, F>(alloc, folder, out_name, made.bytes.as_slice())?;
    put_text(out, made.text.as_str())
}

/// Writes the seed file of so many gears with this number, and prints the line of its try and its
/// playthrough. The rules are asked of `rules`.
///
/// The status is 0 where all is done; 4 where each of a hundred tries is stuck; 5 where the folder
/// or the out sink failed; 6 where memory ran out. With 4 no file is touched; with 5 or 6 the named
/// file is as it was or holds the seed file, or the folder refused to write it and it holds what
/// that left.
pub(crate) fn generate<R: Ruling, F: Folder, O: Sink, E: Sink>(
    alloc: Global,
    rules: &R,
    gears: u32,
    seed: u64,
    out_name: &Text,
    folder: &mut F,
    out: &mut O,
    err: &mut E,
) -> u8
    requires size { IsSize gears }
    requires rules { R.stands_for rules.now (clock_rules gears) }
    ensures ends { SeedEnds result
        (wrote_by F.holds F.may_fail F.refusals folder.old folder.new)
        record { gears = gears; seed = seed; out_name = out_name.now }
        (told_by O.held O.faults out.old out.new) (told_by E.held E.refusals err.old err.new) }
    ensures fault { result ≡ 5
        → Rose (F.faults folder.old) (F.faults folder.new)
        ⊎ Rose (O.faults out.old) (O.faults out.new) }
{
    let outcome = write_and_print(alloc, rules, gears, seed, out_name, folder, out);
    end(alloc, err, outcome)
}

ghost use Rattle.std.specs.Prelude.{◌≡◌, ◌≢◌, ◌⊎◌, ◌≤◌, ℕ, List, Ok, IfOk, IfErr, IsTrue, length};
ghost use Rattle.mw_edges.specs.Causes.{Rose};
ghost use Rattle.mw_edges.specs.Folders.{GivesFile};
ghost use Rattle.mw_edges.specs.declared.folder.FileRead.TheVariants.{Whole};
ghost use Rattle.mw_multi.specs.Files.{world_files};
ghost use Rattle.mw_multi.specs.JointOf.{joint_of};
ghost use Rattle.mw_tables.specs.WorldOf.{WorldOf};
ghost use Rattle.mw_tables.specs.PlayersOf.{PlayersOf};
ghost use Rattle.mw_causes.specs.Tables.{max_table_file, max_world_files, world_limit, WorldsOf, TablesOf, IsUnread, IsRefusedWorld, ArePlayersRefused, IsWorldStopped, ArePlayersStopped, AreWorldsStopped, AreUnjoined, HasTableCause};

use crate::stop::Stop;
use crate::table_cause::TableCause;
use mw_base::{Bytes, List, Memory, Text};
use mw_edges::{FileRead, Folder, FolderError};
use mw_json::{Kind, Path};
use mw_multi::{Joint, Players, World};
use mw_tables::{TableRefusal, read_players, read_world};
use std::alloc::Global;

/// The greatest length of a players file or of a world file, in bytes.
const MAX_TABLE_FILE: u64 = 16_777_216;

/// The greatest length of all world files together, in bytes.
const MAX_WORLD_FILES: u64 = 268_435_456;

/// The tables of a players file and of the world files that it names, in first-named order.
#[derive(Drop)]
pub struct Tables {
    /// What the players file says.
    pub players: Players,
    /// The worlds that it names, each once.
    pub worlds: List<World>,
}

/// A copy of a file's name, for a cause.
fn name_of(alloc: Global, name: &Text) -> Result<Text, Memory>
    ensures { IfOk result (λ t. t ≡ name.now) }
{
    Text::of(alloc, name.as_str())
}

fn too_long(alloc: Global, name: &Text) -> Stop<TableCause>
    ensures { (result ≡ Stop.Refused (TableCause.TooLong name.now)) ⊎ (result ≡ Stop.Memory) }
{
    match name_of(alloc, name) {
        Ok(file) => Stop::Refused {
            cause: TableCause::TooLong { file },
        },
        Err(_) => Stop::Memory,
    }
}

/// Reads a file that has at most this length.
fn read_table<F: Folder>(
    alloc: Global,
    folder: &mut F,
    name: &Text,
    limit: u64,
) -> Result<Bytes, Stop<TableCause>>
    ensures ok { IfOk result (λ b. GivesFile (F.holds folder.old name.now) limit (Whole b)) }
    ensures err { IfErr result
        (IsUnread (F.holds folder.old name.now) (F.may_fail folder.old) limit name.now) }
    ensures fault { result ≡ Err Stop.Fault → Rose (F.faults folder.old) (F.faults folder.new) }
    ensures later { F.faults folder.old ≤ F.faults folder.new }
    ensures same { (n : List ℕ) → F.holds folder.new n ≡ F.holds folder.old n }
    ensures sound { IsTrue (F.may_fail folder.new) → IsTrue (F.may_fail folder.old) }
    ensures unrefused { F.refusals folder.new ≡ F.refusals folder.old }
{
    match folder.read_file(alloc, name, limit) {
        Ok(FileRead::Whole(bytes)) => Ok(bytes),
        Ok(FileRead::Longer) => Err(too_long(alloc, name)),
        Err(FolderError::Failed) => Err(Stop::Fault),
        Err(FolderError::Memory) => Err(Stop::Memory),
    }
}

/// A file that is refused for this cause, at this value or absent member.
fn refused_file(alloc: Global, name: &Text, kind: Kind, path: Path) -> Stop<TableCause>
    ensures { (result ≡ Stop.Refused (TableCause.File name.now kind path))
        ⊎ (result ≡ Stop.Memory) }
{
    match name_of(alloc, name) {
        Ok(file) => Stop::Refused {
            cause: TableCause::File { file, kind, path },
        },
        Err(_) => Stop::Memory,
    }
}

/// The players of a file's bytes.
fn players_of(alloc: Global, name: &Text, bytes: &[u8]) -> Result<Players, Stop<TableCause>>
    ensures ok { IfOk result (λ p. PlayersOf bytes.now (Ok p)) }
    ensures err { IfErr result (ArePlayersRefused name.now bytes.now) }
{
    match read_players(alloc, bytes) {
        Ok(players) => Ok(players),
        Err(TableRefusal::Memory) => Err(Stop::Memory),
        Err(TableRefusal::Named { kind, path }) => Err(refused_file(alloc, name, kind, path)),
    }
}

/// The world of a file's bytes.
fn world_of(alloc: Global, name: &Text, bytes: &[u8]) -> Result<World, Stop<TableCause>>
    ensures ok { IfOk result (λ w. WorldOf bytes.now (Ok w)) }
    ensures err { IfErr result (IsRefusedWorld name.now bytes.now) }
{
    match read_world(alloc, bytes) {
        Ok(world) => Ok(world),
        Err(TableRefusal::Memory) => Err(Stop::Memory),
        Err(TableRefusal::Named { kind, path }) => Err(refused_file(alloc, name, kind, path)),
    }
}

/// Reads a players file.
fn players_in<F: Folder>(
    alloc: Global,
    folder: &mut F,
    name: &Text,
) -> Result<Players, Stop<TableCause>>
    ensures ok { IfOk result
        (λ p. (bytes : List ℕ) × GivesFile (F.holds folder.old name.now) max_table_file
        (Whole bytes) × PlayersOf bytes (Ok p)) }
    ensures err { IfErr result
        (ArePlayersStopped (F.holds folder.old name.now) (F.may_fail folder.old) max_table_file
        name.now) }
    ensures fault { result ≡ Err Stop.Fault → Rose (F.faults folder.old) (F.faults folder.new) }
    ensures later { F.faults folder.old ≤ F.faults folder.new }
    ensures same { (n : List ℕ) → F.holds folder.new n ≡ F.holds folder.old n }
    ensures sound { IsTrue (F.may_fail folder.new) → IsTrue (F.may_fail folder.old) }
    ensures unrefused { F.refusals folder.new ≡ F.refusals folder.old }
{
    let bytes = read_table(alloc, folder, name, MAX_TABLE_FILE)?;
    players_of(alloc, name, bytes.as_slice())
}

/// A world, and the length of its file.
struct WorldFile {
    world: World,
    length: u64,
}

/// Reads a world file, where this much is left for world files.
fn world_in<F: Folder>(
    alloc: Global,
    folder: &mut F,
    name: &Text,
    left: u64,
) -> Result<WorldFile, Stop<TableCause>>
    ensures ok { IfOk result (λ f. (bytes : List ℕ) × (f.length ≡ length bytes)
        × GivesFile (F.holds folder.old name.now) (world_limit left) (Whole bytes)
        × WorldOf bytes (Ok f.world)) }
    ensures short { IfOk result (λ f. f.length ≤ left) }
    ensures err { IfErr result
        (IsWorldStopped (F.holds folder.old name.now) (F.may_fail folder.old) (world_limit left)
        name.now) }
    ensures fault { result ≡ Err Stop.Fault → Rose (F.faults folder.old) (F.faults folder.new) }
    ensures later { F.faults folder.old ≤ F.faults folder.new }
    ensures same { (n : List ℕ) → F.holds folder.new n ≡ F.holds folder.old n }
    ensures sound { IsTrue (F.may_fail folder.new) → IsTrue (F.may_fail folder.old) }
    ensures unrefused { F.refusals folder.new ≡ F.refusals folder.old }
{
    let bytes = read_table(alloc, folder, name, left.min(MAX_TABLE_FILE))?;
    let world = world_of(alloc, name, bytes.as_slice())?;
    Ok(WorldFile {
        world,
        length: bytes.len() as u64,
    })
}

/// Reads world files in order.
fn worlds_in<F: Folder>(
    alloc: Global,
    folder: &mut F,
    files: &[Text],
) -> Result<List<World>, Stop<TableCause>>
    ensures ok { IfOk result (WorldsOf (F.holds folder.old) max_world_files files.now) }
    ensures err { IfErr result (λ stop. (stop ≡ Stop.Memory)
        ⊎ AreWorldsStopped (F.holds folder.old) (F.may_fail folder.old) max_world_files files.now
        stop) }
    ensures fault { result ≡ Err Stop.Fault → Rose (F.faults folder.old) (F.faults folder.new) }
    ensures later { F.faults folder.old ≤ F.faults folder.new }
    ensures same { (n : List ℕ) → F.holds folder.new n ≡ F.holds folder.old n }
    ensures sound { IsTrue (F.may_fail folder.new) → IsTrue (F.may_fail folder.old) }
    ensures unrefused { F.refusals folder.new ≡ F.refusals folder.old }
{
    let mut worlds = List::new(alloc);
    let mut left = MAX_WORLD_FILES;
    for file in files {
        let read = world_in(alloc, folder, file, left)?;
        let WorldFile { world, length } = read;
        worlds.push(world)?;
        left -= length;
    }
    Ok(worlds)
}

/// Reads a players file and the world files that it names, in first-named order.
///
/// `Fault` where the folder failed, `Memory` where memory ran out, and else a refusal: of the first
/// file that is too long, or of what stands in it.
pub fn read_tables<F: Folder>(
    alloc: Global,
    folder: &mut F,
    name: &Text,
) -> Result<Tables, Stop<TableCause>>
    ensures ok { IfOk result (λ t. TablesOf (F.holds folder.old) name.now t.players t.worlds) }
    ensures number { IfOk result (λ t. length t.worlds ≡ length (world_files t.players)) }
    ensures err { IfErr result
        (HasTableCause (F.holds folder.old) (F.may_fail folder.old) name.now) }
    ensures fault { result ≡ Err Stop.Fault → Rose (F.faults folder.old) (F.faults folder.new) }
    ensures later { F.faults folder.old ≤ F.faults folder.new }
    ensures same { (n : List ℕ) → F.holds folder.new n ≡ F.holds folder.old n }
    ensures sound { IsTrue (F.may_fail folder.new) → IsTrue (F.may_fail folder.old) }
    ensures unrefused { F.refusals folder.new ≡ F.refusals folder.old }
{
    let players = players_in(alloc, folder, name)?;
    let files = players.world_files(alloc)?;
    let worlds = worlds_in(alloc, folder, files.as_slice())?;
    Ok(Tables { players, worlds })
}

/// The tables joined. `Memory` where memory ran out, and else a refusal of the joint; it is no fault.
#[tactic(auto, using(crate::proofs::TableCauses::unjoined_exit))]
pub fn join<'a>(alloc: Global, tables: &'a Tables) -> Result<Joint<'a>, Stop<TableCause>>
    requires { length tables.now.worlds ≡ length (world_files tables.now.players) }
    ensures ok { IfOk result (λ joint. joint_of tables.now.worlds tables.now.players ≡ Ok joint) }
    ensures err { IfErr result (AreUnjoined tables.now.worlds tables.now.players) }
    ensures fault { result ≢ Err Stop.Fault }
{
    Ok(Joint::build(alloc, &tables.worlds, &tables.players)?)
}

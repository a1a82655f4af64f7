//! `multiplay`: plays over a line, and keeps the list that was received in a save file.
ghost use Rattle.std.specs.Prelude.{◌≡◌, ◌≢◌, ◌<◌, ◌≤◌, ◌⊎◌, ◌++◌, ◌∷◌, [], ℕ, List, Err, IfErr, IfOk, None, OnOk, ⊤};
ghost use Rattle.std.specs.declared.option.Option.{Option};
ghost use Rattle.std.specs.Io.KnownBytes.{Appends};
ghost use Rattle.mw_edges.specs.Causes.{Rose, Tells};
ghost use Rattle.mw_edges.specs.Folders.{opened_bytes};
ghost use Rattle.mw_journal.specs.Journal.{disk_of, state_of};
ghost use Rattle.mw_play.specs.Ids.{HasIds, HasNoIds};
ghost use Rattle.mw_play.specs.Printing.{list_text as list_text_lem};
ghost use Rattle.mw_play.specs.Runs.{EndsWith, Finishes, LeavesFile, LeavesFiles, LeavesSave, NobodyPlays, PlaysFrom};
ghost use Rattle.mw_play.specs.Runs.{RunEnds, StopsFrom};
ghost use Rattle.mw_play.specs.Words.{IsPlay};
ghost use Rattle.mw_play.specs.Runs.{WasList, digest_for, end_of_cut, end_of_save, run_of};
ghost use Rattle.mw_play.specs.Saves.{KeepsList};

use crate::end::{PlayEnd, tell_end};
use crate::input::{InputError, read_ids};
use crate::over::{CutShort, Over};
use crate::player::Player;
use crate::printing::{list_text, refusal_line};
use crate::save_error::SaveError;
use crate::save_file::{open_save, save_digest};
use crate::turns::{Played, play_on};
use crate::words::{PlayWords, read_play_words};
use mw_base::{List as Items, Memory, NetItem, Text};
use mw_client::Play;
use mw_disk::Disk;
use mw_edges::{Folder, FolderError, Sink, SinkError, Source};
use mw_journal::{Journal, JournalState};
use mw_link::Dial;
use mw_words::WordsError;
use std::alloc::Global;

/// The end for why a save file gives no list.
fn save_end(error: SaveError) -> PlayEnd
    ensures { result ≡ end_of_save error }
{
    match error {
        SaveError::DiskFault => PlayEnd::Fault,
        SaveError::Refused { refusal } => PlayEnd::Refused { refusal },
        SaveError::Memory => PlayEnd::Memory,
    }
}

/// The end for why turns were cut short.
fn cut_end(cut: CutShort) -> PlayEnd
    ensures { result ≡ end_of_cut cut }
{
    match cut {
        CutShort::Fault => PlayEnd::Fault,
        CutShort::Full => PlayEnd::Full,
        CutShort::Memory => PlayEnd::Memory,
    }
}

/// Plays with a save file that is open and keeps a list. Its disk is handed back.
fn play_on_journal<D: Disk, L: Dial>(
    alloc: Global,
    journal: Journal<D>,
    list: &Items<NetItem>,
    player: &Player,
    dial: &mut L,
) -> (D, Result<Played, PlayEnd>)
    requires { state_of journal ≡ JournalState.Whole }
    ensures done { (digest : List ℕ) (told : Option (List ℕ))
        → KeepsList D.may_leave digest journal list.now → WasList told digest list.now
        → IfOk result.1 (λ p. PlaysFrom told (D.may_leave result.0) digest player.now
        (L.hung_up dial.old) (L.hung_up dial.new) p.over p.play) }
    ensures stopped { (digest : List ℕ) (told : Option (List ℕ))
        → KeepsList D.may_leave digest journal list.now → WasList told digest list.now
        → IfErr result.1 (StopsFrom told (D.may_leave result.0) digest
        (L.hung_up dial.old) (L.hung_up dial.new)) }
    ensures left { (digest : List ℕ) (told : Option (List ℕ))
        → KeepsList D.may_leave digest journal list.now → WasList told digest list.now
        → LeavesSave told (D.may_leave result.0) digest
        (L.hung_up dial.old) (L.hung_up dial.new) }
    ensures dialled { OnOk result.1
        (L.dialled dial.new ≡ L.dialled dial.old ++ player.now.words.address ∷ []) }
    ensures fault { result.1 ≡ Err PlayEnd.Fault
        → (D.faults (disk_of journal) < D.faults result.0)
        ⊎ Rose (L.faults dial.old) (L.faults dial.new) }
    ensures later { L.faults dial.old ≤ L.faults dial.new }
    ensures later_disk { D.faults (disk_of journal) ≤ D.faults result.0 }
{
    let mut journal = journal;
    match play_on(alloc, &mut journal, list, player, dial) {
        Ok(played) => (journal.into_disk(), Ok(played)),
        Err(cut) => (journal.into_disk(), Err(cut_end(cut))),
    }
}

/// Plays with the save file on a disk, which is handed back.
fn play_on_disk<D: Disk, L: Dial>(
    alloc: Global,
    disk: D,
    digest: &[u8; 32],
    player: &Player,
    dial: &mut L,
) -> (D, Result<Played, PlayEnd>)
    ensures done { IfOk result.1 (λ p. PlaysFrom (D.told disk) (D.may_leave result.0) digest.now
        player.now (L.hung_up dial.old) (L.hung_up dial.new) p.over p.play) }
    ensures stopped { IfErr result.1 (StopsFrom (D.told disk) (D.may_leave result.0) digest.now
        (L.hung_up dial.old) (L.hung_up dial.new)) }
    ensures left { LeavesSave (D.told disk) (D.may_leave result.0) digest.now
        (L.hung_up dial.old) (L.hung_up dial.new) }
    ensures dialled { OnOk result.1
        (L.dialled dial.new ≡ L.dialled dial.old ++ player.now.words.address ∷ []) }
    ensures fault { result.1 ≡ Err PlayEnd.Fault → (D.faults disk < D.faults result.0)
        ⊎ Rose (L.faults dial.old) (L.faults dial.new) }
    ensures later { L.faults dial.old ≤ L.faults dial.new }
    ensures later_disk { D.faults disk ≤ D.faults result.0 }
{
    match open_save(alloc, disk, digest) {
        Ok((journal, list)) => play_on_journal(alloc, journal, &list, player, dial),
        Err((disk, error)) => (disk, Err(save_end(error))),
    }
}

/// Plays with the save file of a folder. Its disk is closed again.
fn play_saved<F: Folder, L: Dial>(
    alloc: Global,
    player: &Player,
    folder: &mut F,
    dial: &mut L,
) -> Result<Played, PlayEnd>
    ensures done { IfOk result (λ p. PlaysFrom
        (opened_bytes (F.holds folder.old player.now.words.save))
        (F.images folder.new player.now.words.save) (digest_for player.now.words) player.now
        (L.hung_up dial.old) (L.hung_up dial.new) p.over p.play) }
    ensures stopped { IfErr result (StopsFrom
        (opened_bytes (F.holds folder.old player.now.words.save))
        (F.images folder.new player.now.words.save) (digest_for player.now.words)
        (L.hung_up dial.old) (L.hung_up dial.new)) }
    ensures left { LeavesSave (opened_bytes (F.holds folder.old player.now.words.save))
        (F.images folder.new player.now.words.save) (digest_for player.now.words)
        (L.hung_up dial.old) (L.hung_up dial.new) }
    ensures dialled { OnOk result
        (L.dialled dial.new ≡ L.dialled dial.old ++ player.now.words.address ∷ []) }
    ensures others { (n : List ℕ) → n ≢ player.now.words.save
        → F.holds folder.new n ≡ F.holds folder.old n }
    ensures fault { result ≡ Err PlayEnd.Fault → Rose (F.faults folder.old) (F.faults folder.new)
        ⊎ Rose (L.faults dial.old) (L.faults dial.new) }
{
    let who = &player.words.who;
    let digest = save_digest(alloc, &who.game, &who.name)?;
    let name = &player.words.save;
    let disk = match folder.open_disk(alloc, name) {
        Ok(disk) => disk,
        Err(FolderError::Failed) => return Err(PlayEnd::Fault),
        Err(FolderError::Memory) => return Err(PlayEnd::Memory),
    };
    let (disk, outcome) = play_on_disk(alloc, disk, &digest, player, dial);
    folder.close_disk(name, disk);
    outcome
}

/// The end of a client that was turned away.
fn away_end(alloc: Global, play: &Play) -> Result<PlayEnd, Memory>
    requires { play.now.refusal ≢ None }
    ensures ends { IfOk result (Finishes Over.TurnedAway play.now ⊤) }
    ensures own { IfOk result (λ e. e ≢ PlayEnd.Fault) }
{
    match play.refusal() {
        Some(errors) => Ok(PlayEnd::TurnedAway {
            line: refusal_line(alloc, errors.as_slice())?,
        }),
        None => unreachable!(),
    }
}

/// The end of a client whose turns have ended.
fn over_end(alloc: Global, played: &Played) -> Result<PlayEnd, Memory>
    requires { played.now.over ≡ Over.TurnedAway → played.now.play.refusal ≢ None }
    ensures ends { IfOk result (Finishes played.now.over played.now.play ⊤) }
    ensures own { IfOk result (λ e. e ≢ PlayEnd.Fault) }
{
    match played.over {
        Over::Ended => Ok(PlayEnd::Ended),
        Over::EndedEarly => Ok(PlayEnd::EndedEarly),
        Over::TurnedAway => away_end(alloc, &played.play),
        Over::Spent => Ok(PlayEnd::Spent),
    }
}

/// Prints a list.
fn print<O: Sink>(alloc: Global, out: &mut O, list: &Items<NetItem>) -> Result<(), PlayEnd>
    ensures shown { OnOk result (Appends (O.held out.old) (O.held out.new)
        (list_text_lem list.now)) }
    ensures own { IfErr result (λ e. (e ≡ PlayEnd.Fault) ⊎ (e ≡ PlayEnd.Memory)) }
    ensures fault { result ≡ Err PlayEnd.Fault → Rose (O.faults out.old) (O.faults out.new) }
{
    let text = list_text(alloc, list.as_slice())?;
    match out.put(text.as_bytes()) {
        Ok(()) => Ok(()),
        Err(SinkError::Failed) => Err(PlayEnd::Fault),
        Err(SinkError::Memory) => Err(PlayEnd::Memory),
    }
}

/// Prints the list of a client whose turns have ended, and gives the end.
fn finish<O: Sink>(alloc: Global, played: &Played, out: &mut O) -> PlayEnd
    requires { played.now.over ≡ Over.TurnedAway → played.now.play.refusal ≢ None }
    ensures finishes { Finishes played.now.over played.now.play
        (Appends (O.held out.old) (O.held out.new) (list_text_lem played.now.play.list)) result }
    ensures fault { result ≡ PlayEnd.Fault → Rose (O.faults out.old) (O.faults out.new) }
{
    let Ok(end) = over_end(alloc, played) else {
        return PlayEnd::Memory;
    };
    match print(alloc, out, played.play.list()) {
        Ok(()) => end,
        Err(stop) => stop,
    }
}

/// Plays as a player, and prints the list.
fn play_as<F: Folder, L: Dial, O: Sink>(
    alloc: Global,
    player: &Player,
    folder: &mut F,
    dial: &mut L,
    out: &mut O,
) -> PlayEnd
    ensures ends { (words : List (List ℕ)) (before after : Option (List ℕ))
        → IsPlay words player.now.words → HasIds before after player.now.locations
        → EndsWith (run_of F.holds F.images L.dialled L.hung_up words before after
        folder.old folder.new dial.old dial.new (O.held out.old) (O.held out.new)) result }
    ensures leaves { (words : List (List ℕ)) (before after : Option (List ℕ))
        → LeavesFile (run_of F.holds F.images L.dialled L.hung_up words before after
        folder.old folder.new dial.old dial.new (O.held out.old) (O.held out.new))
        player.now.words }
    ensures fault { result ≡ PlayEnd.Fault → Rose (F.faults folder.old) (F.faults folder.new)
        ⊎ (Rose (L.faults dial.old) (L.faults dial.new)
        ⊎ Rose (O.faults out.old) (O.faults out.new)) }
{
    match play_saved(alloc, player, folder, dial) {
        Ok(played) => finish(alloc, &played, out),
        Err(end) => end,
    }
}

/// Who plays, by the words and the input.
fn player_of<S: Source>(alloc: Global, words: &[Text], input: &mut S) -> Result<Player, PlayEnd>
    ensures ok { IfOk result (λ p. IsPlay words.now p.words
        × HasIds (S.left input.old) (S.left input.new) p.locations) }
    ensures nobody { IfErr result (λ e. NobodyPlays e
        (((asked : PlayWords) → IsPlay words.now asked → ⊥)
        ⊎ HasNoIds (S.left input.old) (S.left input.new))) }
    ensures fault { result ≡ Err PlayEnd.Fault → Rose (S.faults input.old) (S.faults input.new) }
{
    let words = match read_play_words(alloc, words) {
        Ok(words) => words,
        Err(WordsError::BadWords) => return Err(PlayEnd::BadWords),
        Err(WordsError::Memory) => return Err(PlayEnd::Memory),
    };
    match read_ids(alloc, input) {
        Ok(locations) => Ok(Player { words, locations }),
        Err(InputError::Bad) => Err(PlayEnd::BadWords),
        Err(InputError::Fault) => Err(PlayEnd::Fault),
        Err(InputError::Memory) => Err(PlayEnd::Memory),
    }
}

/// Does all that `multiplay` does but for its error line, and gives its end.
fn play<F: Folder, L: Dial, S: Source, O: Sink>(
    alloc: Global,
    words: &[Text],
    folder: &mut F,
    dial: &mut L,
    input: &mut S,
    out: &mut O,
) -> PlayEnd
    ensures ends { EndsWith (run_of F.holds F.images L.dialled L.hung_up words.now
        (S.left input.old) (S.left input.new) folder.old folder.new dial.old dial.new
        (O.held out.old) (O.held out.new)) result }
    ensures leaves { LeavesFiles (run_of F.holds F.images L.dialled L.hung_up words.now
        (S.left input.old) (S.left input.new) folder.old folder.new dial.old dial.new
        (O.held out.old) (O.held out.new)) }
    ensures fault { result ≡ PlayEnd.Fault → Rose (F.faults folder.old) (F.faults folder.new)
        ⊎ (Rose (L.faults dial.old) (L.faults dial.new)
        ⊎ (Rose (S.faults input.old) (S.faults input.new)
        ⊎ Rose (O.faults out.old) (O.faults out.new))) }
{
    match player_of(alloc, words, input) {
        Ok(player) => play_as(alloc, &player, folder, dial, out),
        Err(end) => end,
    }
}

/// Plays in a room as the words say, keeps the list of the items that were received in a save file,
/// prints it, and answers the status. The input is the ids of the locations that are checked once the
/// session has joined, one a line, in digits.
///
/// The words are `ADDRESS NAME GAME SAVE TURNS [PASSWORD]`. The save file is opened, or made where it
/// has no byte, and then the address is dialled. Each turn hears once, and what a text makes of the
/// list is saved and what it asks for is sent before the next turn: a Connect at the first RoomInfo,
/// the locations at the first Connected, and a Sync at each ReceivedItems whose index is neither 0
/// nor the list's length. Each end hangs up and closes.
///
/// The status is 0 where the room ended the session of a client that had joined; 1 where it turned
/// the client away, or ended its session before; 2 where the words or the input aren't as they
/// should be; 5 where the folder, the dial, the source or the out sink failed, the line counted with
/// the dial and the save file's disk with the folder; 6 where memory ran out; 7 where the save file
/// is no journal of bodies of that game and name; 8 where the next batch would pass its limit; 9
/// where all turns were taken. With a status other than 0 the error sink gets that status's line, or
/// a front of it where it refuses.
///
/// Whatever the status is, a crash leaves the save file, once it was opened, standing for the list
/// that it stood for before, or for that list once some front of the texts was heard that came over
/// the line; with 0, 1 and 9 for all of them.
pub fn run_play<F: Folder, L: Dial, S: Source, O: Sink, E: Sink>(
    alloc: Global,
    words: &[Text],
    folder: &mut F,
    dial: &mut L,
    input: &mut S,
    out: &mut O,
    err: &mut E,
) -> u8
    ensures ends { RunEnds (run_of F.holds F.images L.dialled L.hung_up words.now
        (S.left input.old) (S.left input.new) folder.old folder.new dial.old dial.new
        (O.held out.old) (O.held out.new)) result
        (Tells (E.held err.old) (E.held err.new) (E.refusals err.old) (E.refusals err.new)) }
    ensures fault { result ≡ 5 → Rose (F.faults folder.old) (F.faults folder.new)
        ⊎ (Rose (L.faults dial.old) (L.faults dial.new)
        ⊎ (Rose (S.faults input.old) (S.faults input.new)
        ⊎ Rose (O.faults out.old) (O.faults out.new))) }
{
    let end = play(alloc, words, folder, dial, input, out);
    tell_end(err, &end)
}

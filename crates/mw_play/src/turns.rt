//! Turns over a line: what comes is heard, saved and answered.
ghost use Rattle.std.specs.Prelude.{◌≡◌, ◌⊎◌, ◌<◌, ◌≤◌, ◌++◌, ◌∷◌, [], ℕ, List, None, Err, IfOk, OnOk};
ghost use Rattle.mw_disk.specs.Crash.{LeavesOnly};
ghost use Rattle.mw_edges.specs.Causes.{Rose};
ghost use Rattle.mw_journal.specs.Journal.{disk_of, state_of};
ghost use Rattle.mw_model.specs.Items.{NetItem};
ghost use Rattle.mw_client.specs.Hearing.{news_in as news_in_lem};
ghost use Rattle.mw_client.specs.Playing.{answers_all, begun, next_all};
ghost use Rattle.mw_client.specs.Sending.{answer_texts};
ghost use Rattle.mw_play.specs.Saves.{HoldsList, KeepsList};
ghost use Rattle.mw_play.specs.Turns.{EndsSo, Follows, HasCome, HasEnded, HeardFull, HearsMore, HoldsFront, HoldsLast};
ghost use Rattle.mw_play.specs.Turns.{HoldsHeard, IsCame, IsFull, LeavesLast, Overfills, PlaysOver, messages_of, texts_in};

use crate::over::{Came, CutShort, Over};
use crate::player::Player;
use crate::saving::save;
use mw_base::{List as Items, NetItem as Item, Text};
use mw_client::{Answer, Play, answer_text, news_in};
use mw_disk::Disk;
use mw_journal::{Journal, JournalState};
use mw_link::{Dial, Heard, Link, LinkError};
use std::alloc::Global;

/// The cause for an error of the line.
fn line_cause(error: LinkError) -> CutShort
    ensures fault { result ≡ CutShort.Fault → error ≡ LinkError.Failed }
    ensures own { result ≡ CutShort.Full → ⊥ }
{
    match error {
        LinkError::Failed => CutShort::Fault,
        LinkError::Memory => CutShort::Memory,
    }
}

/// Sends the message of an answer.
fn answer<L: Link>(
    alloc: Global,
    line: &mut L,
    player: &Player,
    wanted: Answer,
) -> Result<(), CutShort>
    ensures sent { OnOk result (L.sent line.new
        ≡ L.sent line.old ++ answer_texts player.now.words.who player.now.locations wanted) }
    ensures heard { L.heard line.new ≡ L.heard line.old }
    ensures fault { result ≡ Err CutShort.Fault → Rose (L.faults line.old) (L.faults line.new) }
    ensures own { result ≡ Err CutShort.Full → ⊥ }
    ensures later { L.faults line.old ≤ L.faults line.new }
{
    let locations = player.locations.as_slice();
    match answer_text(alloc, &player.words.who, locations, wanted)? {
        Some(text) => match line.send(&text) {
            Ok(()) => Ok(()),
            Err(error) => Err(line_cause(error)),
        },
        None => Ok(()),
    }
}

/// Sends the messages of answers, in order.
fn answer_all<L: Link>(
    alloc: Global,
    line: &mut L,
    player: &Player,
    answers: &[Answer],
) -> Result<(), CutShort>
    ensures sent { OnOk result (L.sent line.new
        ≡ L.sent line.old ++ messages_of player.now answers.now) }
    ensures heard { L.heard line.new ≡ L.heard line.old }
    ensures fault { result ≡ Err CutShort.Fault → Rose (L.faults line.old) (L.faults line.new) }
    ensures own { result ≡ Err CutShort.Full → ⊥ }
    ensures later { L.faults line.old ≤ L.faults line.new }
{
    for wanted in answers {
        answer(alloc, line, player, *wanted)?;
    }
    Ok(())
}

/// Hears a text: saves what it makes of the list, and sends what it asks for.
///
/// At each moment a crash leaves the list before the text or the one after it, and after Ok that
/// one.
fn hear_text<L: Link, D: Disk>(
    alloc: Global,
    line: &mut L,
    journal: &mut Journal<D>,
    play: &mut Play,
    player: &Player,
    text: &Text,
) -> Result<(), CutShort>
    requires { state_of journal.old ≡ JournalState.Whole }
    ensures knows { OnOk result (play.new ≡ next_all play.old (news_in_lem text.now)) }
    ensures heard { L.heard line.new ≡ L.heard line.old }
    ensures sent { OnOk result (L.sent line.new ≡ L.sent line.old
        ++ messages_of player.now (answers_all play.old (news_in_lem text.now))) }
    ensures keeps { (digest : List ℕ) → KeepsList D.may_leave digest journal.old play.old.list
        → OnOk result (KeepsList D.may_leave digest journal.new play.new.list) }
    ensures moments { (digest : List ℕ) → KeepsList D.may_leave digest journal.old play.old.list
        → LeavesOnly D.moment D.left_since (disk_of journal.old) (disk_of journal.new)
        (λ c. HoldsList c digest play.old.list
        ⊎ HoldsList c digest (next_all play.old (news_in_lem text.now)).list) }
    ensures whole { OnOk result (state_of journal.new ≡ JournalState.Whole) }
    ensures fault { result ≡ Err CutShort.Fault → Rose (L.faults line.old) (L.faults line.new)
        ⊎ Rose (D.faults (disk_of journal.old)) (D.faults (disk_of journal.new)) }
    ensures full { (digest : List ℕ) → KeepsList D.may_leave digest journal.old play.old.list
        → result ≡ Err CutShort.Full → Overfills (D.may_leave (disk_of journal.new)) digest
        play.old.list (next_all play.old (news_in_lem text.now)).list }
    ensures later { L.faults line.old ≤ L.faults line.new }
    ensures later_disk { D.faults (disk_of journal.old) ≤ D.faults (disk_of journal.new) }
{
    let news = news_in(alloc, text)?;
    let turn = play.hear(news.as_slice())?;
    save(journal, &turn.bodies)?;
    answer_all(alloc, line, player, turn.answers.as_slice())
}

/// What a turn came to that heard no end.
fn came(play: &Play) -> Came
    ensures { HasCome result play.now }
{
    match play.refusal() {
        None => Came::More,
        Some(_) => Came::TurnedAway,
    }
}

/// Takes a turn: hears once, and does what that asks for.
fn take_turn<L: Link, D: Disk>(
    alloc: Global,
    line: &mut L,
    journal: &mut Journal<D>,
    play: &mut Play,
    player: &Player,
) -> Result<Came, CutShort>
    requires whole { state_of journal.old ≡ JournalState.Whole }
    requires going { play.old.refusal ≡ None }
    ensures follows { (list : List NetItem)
        → Follows L.heard L.sent player.now list line.old play.old
        → OnOk result (Follows L.heard L.sent player.now list line.new play.new) }
    ensures grows { HearsMore (L.heard line.old) (L.heard line.new) }
    ensures came { IfOk result (λ c. IsCame c (L.heard line.old) (L.heard line.new) play.new) }
    ensures keeps { (digest : List ℕ) → KeepsList D.may_leave digest journal.old play.old.list
        → OnOk result (KeepsList D.may_leave digest journal.new play.new.list) }
    ensures moments { (digest : List ℕ) (list : List NetItem)
        → Follows L.heard L.sent player.now list line.old play.old
        → KeepsList D.may_leave digest journal.old play.old.list
        → LeavesOnly D.moment D.left_since (disk_of journal.old) (disk_of journal.new)
        (HoldsFront digest list (texts_in (L.heard line.new))) }
    ensures last { (digest : List ℕ) (list : List NetItem)
        → Follows L.heard L.sent player.now list line.old play.old
        → KeepsList D.may_leave digest journal.old play.old.list
        → (c : List ℕ) → D.may_leave (disk_of journal.new) c
        → HoldsLast digest list (texts_in (L.heard line.new)) c }
    ensures whole { OnOk result (state_of journal.new ≡ JournalState.Whole) }
    ensures fault { result ≡ Err CutShort.Fault → Rose (L.faults line.old) (L.faults line.new)
        ⊎ Rose (D.faults (disk_of journal.old)) (D.faults (disk_of journal.new)) }
    ensures full { (digest : List ℕ) (list : List NetItem)
        → Follows L.heard L.sent player.now list line.old play.old
        → KeepsList D.may_leave digest journal.old play.old.list
        → result ≡ Err CutShort.Full
        → IsFull (D.may_leave (disk_of journal.new)) digest list (L.heard line.new) }
    ensures later { L.faults line.old ≤ L.faults line.new }
    ensures later_disk { D.faults (disk_of journal.old) ≤ D.faults (disk_of journal.new) }
{
    match line.recv() {
        Ok(Heard::Words(text)) => {
            hear_text(alloc, line, journal, play, player, &text)?;
            Ok(came(play))
        }
        Ok(Heard::Binary) | Ok(Heard::NotYet) => Ok(Came::More),
        Ok(Heard::End) => Ok(Came::AtEnd),
        Err(error) => Err(line_cause(error)),
    }
}

/// How turns ended at whose last the end was heard.
fn ended(play: &Play) -> Over
    ensures { HasEnded result play.now }
{
    if play.has_joined() {
        Over::Ended
    } else {
        Over::EndedEarly
    }
}

/// Plays over a new line for so many turns at most. Each turn hears once; what is heard is saved
/// and answered before the next.
fn play_over<L: Link, D: Disk>(
    alloc: Global,
    line: &mut L,
    journal: &mut Journal<D>,
    play: &mut Play,
    player: &Player,
) -> Result<Over, CutShort>
    requires whole { state_of journal.old ≡ JournalState.Whole }
    requires begun { play.old ≡ begun play.old.list }
    requires unheard { L.heard line.old ≡ [] }
    requires unsent { L.sent line.old ≡ [] }
    ensures follows { OnOk result
        (Follows L.heard L.sent player.now play.old.list line.new play.new) }
    ensures ends { IfOk result
        (λ over. EndsSo over player.now.words.turns (L.heard line.new) play.new) }
    ensures keeps { (digest : List ℕ) → KeepsList D.may_leave digest journal.old play.old.list
        → OnOk result (KeepsList D.may_leave digest journal.new play.new.list) }
    ensures moments { (digest : List ℕ) → KeepsList D.may_leave digest journal.old play.old.list
        → LeavesOnly D.moment D.left_since (disk_of journal.old) (disk_of journal.new)
        (HoldsFront digest play.old.list (texts_in (L.heard line.new))) }
    ensures last { (digest : List ℕ) → KeepsList D.may_leave digest journal.old play.old.list
        → (c : List ℕ) → D.may_leave (disk_of journal.new) c
        → HoldsLast digest play.old.list (texts_in (L.heard line.new)) c }
    ensures fault { result ≡ Err CutShort.Fault → Rose (L.faults line.old) (L.faults line.new)
        ⊎ Rose (D.faults (disk_of journal.old)) (D.faults (disk_of journal.new)) }
    ensures full { (digest : List ℕ) → KeepsList D.may_leave digest journal.old play.old.list
        → result ≡ Err CutShort.Full
        → IsFull (D.may_leave (disk_of journal.new)) digest play.old.list (L.heard line.new) }
    ensures later { L.faults line.old ≤ L.faults line.new }
    ensures later_disk { D.faults (disk_of journal.old) ≤ D.faults (disk_of journal.new) }
{
    for _ in 0..player.words.turns {
        match take_turn(alloc, line, journal, play, player)? {
            Came::More => {}
            Came::TurnedAway => return Ok(Over::TurnedAway),
            Came::AtEnd => return Ok(ended(play)),
        }
    }
    Ok(Over::Spent)
}

/// What a client knows once its turns over a line have ended, and how they did.
#[derive(Drop)]
pub struct Played {
    /// What it knows.
    pub play: Play,
    /// How they ended.
    pub over: Over,
}

/// Plays over a line that is dialled, and hangs it up, with a save file that is open and keeps a
/// list.
///
/// What is heard is saved before the next is: once the call is over, whatever it answers, a crash
/// leaves the save file standing for that list once all texts were heard, or all but the last. At
/// each moment it leaves it standing for that list once some front of the texts was heard that
/// came over the line, and after Ok for all of them. `Fault` comes only where the dial's count
/// rose or that of the save file's disk; `Full` exactly where the next batch would pass the limit
/// of the save file's journal.
pub fn play_on<D: Disk, L: Dial>(
    alloc: Global,
    journal: &mut Journal<D>,
    list: &Items<Item>,
    player: &Player,
    dial: &mut L,
) -> Result<Played, CutShort>
    requires { state_of journal.old ≡ JournalState.Whole }
    ensures plays { IfOk result (λ p. PlaysOver player.now list.now
        (L.hung_up dial.old) (L.hung_up dial.new) p.over p.play) }
    ensures keeps { (digest : List ℕ) → KeepsList D.may_leave digest journal.old list.now
        → IfOk result (λ p. KeepsList D.may_leave digest journal.new p.play.list) }
    ensures moments { (digest : List ℕ) → KeepsList D.may_leave digest journal.old list.now
        → LeavesOnly D.moment D.left_since (disk_of journal.old) (disk_of journal.new)
        (HoldsHeard digest list.now (L.hung_up dial.old) (L.hung_up dial.new)) }
    ensures last { (digest : List ℕ) → KeepsList D.may_leave digest journal.old list.now
        → LeavesLast (D.may_leave (disk_of journal.new)) digest list.now
        (L.hung_up dial.old) (L.hung_up dial.new) }
    ensures fault { result ≡ Err CutShort.Fault → Rose (L.faults dial.old) (L.faults dial.new)
        ⊎ Rose (D.faults (disk_of journal.old)) (D.faults (disk_of journal.new)) }
    ensures full { (digest : List ℕ) → KeepsList D.may_leave digest journal.old list.now
        → result ≡ Err CutShort.Full
        → HeardFull (D.may_leave (disk_of journal.new)) digest list.now
        (L.hung_up dial.old) (L.hung_up dial.new) }
    ensures dialled { IfOk result (λ p.
        L.dialled dial.new ≡ L.dialled dial.old ++ player.now.words.address ∷ []) }
    ensures later { L.faults dial.old ≤ L.faults dial.new }
    ensures later_disk { D.faults (disk_of journal.old) ≤ D.faults (disk_of journal.new) }
{
    let mut play = Play::new(alloc, list)?;
    let mut line = match dial.dial(&player.words.address) {
        Ok(line) => line,
        Err(error) => return Err(line_cause(error)),
    };
    let over = play_over(alloc, &mut line, journal, &mut play, player);
    dial.hang_up(line);
    match over {
        Ok(over) => Ok(Played { play, over }),
        Err(cut) => Err(cut),
    }
}

ghost use Rattle.std.specs.Prelude.{◌≡◌, ◌+◌, ◌∷◌, ◌≤◌, ◌^◌, ℕ, [], IfOk, IsErr, map, length};
ghost use Rattle.mw_protocol.specs.Rooms as plain;
ghost use Rattle.mw_packets_in.specs.View.{packet_view, bad_view};
ghost use Rattle.mw_room.specs.Fits.{Fits, ChangesFit};
ghost use Rattle.mw_room.specs.Known.{greeted, texts_at, known_affected, known_taken};
ghost use Rattle.mw_room.specs.Represents.{Represents, Plans, IsPlan};
ghost use Rattle.mw_room.specs.Events.{event_view};
ghost use Rattle.mw_room.specs.States.{state_of};
ghost use Rattle.mw_effects.specs.Parts.{IsLogged};
ghost use Rattle.mw_effects.specs.Views.{effect_view};
ghost use Rattle.mw_room.specs.Views.{room_view, session_view, planned, plan_records, made};

use crate::changes::changes_for;
use crate::entering::parting;
use crate::event::Event;
use crate::packets::{bad_effect, effect_of};
use crate::people::{games_of, room_info};
use crate::plan::Plan;
use crate::room::Room;
use crate::session::{Change, Session, more_bytes};
use crate::sessions::{change_all, close_lost, member_of, state_in, take_texts};
use crate::state::SessionState;
use mw_base::{List, Memory, SessionId, Text};
use mw_effects::{Effect, Standing, nothing, put_stored, set_status};
use mw_multidata::RoomTables;
use mw_packets_in::{Bad, Packet};
use mw_packets_out::{ServerPacket, write_message};
use std::alloc::Global;

/// At most so many sessions are ever opened: 2^63.
const MOST_OPENED: u64 = 0x8000_0000_0000_0000;

/// A list of one session.
fn only(alloc: Global, session: Session) -> Result<Vec<Session>, Memory>
    ensures { IfOk result (λ v. v.items ≡ session ∷ []) }
{
    let mut sessions = Vec::new(alloc);
    sessions.push(session)?;
    Ok(sessions)
}

/// A list of one text.
fn first_text(alloc: Global, text: Text) -> Result<Vec<Text>, Memory>
    ensures { IfOk result (λ v. v.items ≡ text ∷ []) }
{
    let mut texts = Vec::new(alloc);
    texts.push(text)?;
    Ok(texts)
}

impl Room {
    /// A room that nobody has entered, before its first record.
    pub fn new(alloc: Global, tables: RoomTables) -> Result<Room, Memory>
        ensures { IfOk result (λ room. Represents room (plain.empty_room tables)) }
    {
        let standing = Standing::new(alloc, tables)?;
        let games = games_of(alloc, standing.seed())?;
        Ok(Room {
            alloc,
            standing,
            games,
            recorded: 0,
            opened: 0,
            sessions: Vec::new(alloc),
        })
    }

    /// Decides what an event records and owes, and takes the memory for it. Once 2^63 sessions were
    /// opened, an `Open` is answered `Memory`.
    pub fn plan(&self, event: &Event) -> Result<Plan, Memory>
        ensures fits { IfOk result (λ p. Fits self.now p) }
        ensures plans { IfOk result (λ p. (r : plain.Room) → Represents self.now r
            → Plans p r (event_view event.now)) }
        ensures full { (r : plain.Room) (time : ℕ) → Represents self.now r → 2 ^ 63 ≤ r.opened
            → event_view event.now ≡ plain.opened time → IsErr result }
    {
        let plan = self.plan_known(event)?;
        Ok(plan)
    }

    fn plan_known(&self, event: &Event) -> Result<Plan, Memory>
        ensures fits { IfOk result (λ p. Fits self.now p) }
        ensures known { IfOk result (λ p. IsPlan p (room_view self.now) (event_view event.now)) }
    {
        match event {
            Event::Open { time } => self.plan_open(*time),
            Event::Packet { session, packet } => self.plan_packet(session.get(), packet),
            Event::Bad { session, bad } => self.plan_bad(session.get(), bad),
            Event::Lost { session } => self.plan_lost(session.get()),
        }
    }

    /// A session that is opened at a time.
    fn new_session(&self, number: u64, time: u64) -> Result<Session, Memory>
        requires { number ≡ self.now.opened + 1 }
        ensures { IfOk result (λ s. session_view s ≡ greeted (room_view self.now) time) }
    {
        let alloc = self.alloc;
        let info = room_info(alloc, self.standing.seed(), self.games.as_slice(), time)?;
        let mut packets = List::new(alloc);
        packets.push(ServerPacket::RoomInfo(info))?;
        let text = write_message(alloc, &packets)?;
        Ok(Session {
            number,
            member: None,
            bytes: more_bytes(0, &text),
            untaken: first_text(alloc, text)?,
            shows: self.recorded,
            overrun: false,
        })
    }

    fn plan_open(&self, time: u64) -> Result<Plan, Memory>
        ensures fits { IfOk result (λ p. Fits self.now p) }
        ensures known { IfOk result (λ p. IsPlan p (room_view self.now) (plain.opened time)) }
    {
        let alloc = self.alloc;
        let sessions = only(alloc, self.new_session(self.opened + 1, time)?)?;
        let plan = self.finish(nothing(alloc), Vec::new(alloc), None, sessions)?;
        Ok(plan)
    }

    fn plan_packet(&self, sender: u64, packet: &Packet) -> Result<Plan, Memory>
        ensures fits { IfOk result (λ p. Fits self.now p) }
        ensures known { IfOk result (λ p. IsPlan p (room_view self.now) (plain.sent sender
            (packet_view packet.now))) }
    {
        let member = member_of(&self.sessions, sender);
        let effect = effect_of(self.alloc, &self.standing, &self.sessions, member, packet)?;
        let plan = self.plan_effect(sender, effect)?;
        Ok(plan)
    }

    fn plan_bad(&self, sender: u64, bad: &Bad) -> Result<Plan, Memory>
        ensures fits { IfOk result (λ p. Fits self.now p) }
        ensures known { IfOk result (λ p. IsPlan p (room_view self.now) (plain.failed sender
            (bad_view bad.now))) }
    {
        let effect = bad_effect(self.alloc, bad)?;
        let plan = self.plan_effect(sender, effect)?;
        Ok(plan)
    }

    fn plan_lost(&self, number: u64) -> Result<Plan, Memory>
        ensures fits { IfOk result (λ p. Fits self.now p) }
        ensures known { IfOk result (λ p. IsPlan p (room_view self.now) (plain.lost number)) }
    {
        let alloc = self.alloc;
        let member = member_of(&self.sessions, number);
        let effect = parting(alloc, self.standing.log.tables(), member)?;
        let changes = changes_for(alloc, &self.standing, &effect, number, &self.sessions)?;
        let plan = self.finish(effect, changes, Some(number), Vec::new(alloc))?;
        Ok(plan)
    }

    /// The plan of a sender's effect.
    fn plan_effect(&self, sender: u64, effect: Effect) -> Result<Plan, Memory>
        requires { IsLogged self.now.standing effect }
        ensures fits { IfOk result (λ p. Fits self.now p) }
        ensures records { IfOk result (λ p. plan_records p ≡ (effect_view effect).records) }
        ensures after { IfOk result (λ p. planned p (room_view self.now)
            ≡ known_affected (room_view self.now) sender (effect_view effect)) }
    {
        let alloc = self.alloc;
        let changes = changes_for(alloc, &self.standing, &effect, sender, &self.sessions)?;
        let plan = self.finish(effect, changes, None, Vec::new(alloc))?;
        Ok(plan)
    }

    /// How many records there are after so many more, and how many sessions were ever opened.
    fn counts_after(&self, records: usize, sessions: usize) -> Result<(u64, u64), Memory>
        ensures { IfOk result (λ (counts : ℕ × ℕ). (counts.0 ≡ self.now.recorded + records)
            × (counts.1 ≡ self.now.opened + sessions) × (counts.1 ≤ 2 ^ 63)) }
    {
        let length = self.recorded.checked_add(records as u64).ok_or(Memory)?;
        let opened = self.opened.checked_add(sessions as u64).ok_or(Memory)?;
        if opened > MOST_OPENED {
            return Err(Memory);
        }
        Ok((length, opened))
    }

    /// Takes the memory for these parts of a plan.
    fn finish(
        &self,
        effect: Effect,
        changes: Vec<Change>,
        lost: Option<u64>,
        new_sessions: Vec<Session>,
    ) -> Result<Plan, Memory>
        requires fit { ChangesFit 0 self.now.sessions.items changes.items }
        requires logged { IsLogged self.now.standing effect }
        ensures fits { IfOk result (λ p. Fits self.now p) }
        ensures records { IfOk result (λ p. plan_records p ≡ (effect_view effect).records) }
        ensures made { IfOk result (λ p. planned p (room_view self.now)
            ≡ made (room_view self.now) effect changes.items lost new_sessions.items) }
    {
        let (length, opened) = self.counts_after(effect.records.len(), new_sessions.len())?;
        let growths = self.growths_for(&effect, new_sessions.len())?;
        Ok(Plan {
            effect,
            length,
            opened,
            changes,
            lost,
            new_sessions,
            growths,
        })
    }

    /// Does what a plan of this room says. It takes no memory.
    pub fn apply(&mut self, plan: Plan)
        requires { Fits self.old plan }
        ensures stands { (r : plain.Room) (e : plain.Event) → Represents self.old r
            → Plans plan r e → Represents self.new (plain.next r e) }
    {
        self.apply_known(plan);
    }

    fn apply_known(&mut self, plan: Plan)
        requires { Fits self.old plan }
        ensures { room_view self.new ≡ planned plan (room_view self.old) }
    {
        let Plan {
            mut effect,
            length,
            opened,
            changes,
            lost,
            mut new_sessions,
            growths,
        } = plan;
        self.standing
            .log
            .add_grown(effect.team, effect.new.as_slice(), growths.log);
        self.standing
            .hints
            .add_grown(effect.hints.as_slice(), growths.hints);
        set_status(&mut self.standing.statuses, effect.status, growths.statuses);
        put_stored(
            &mut self.standing.store,
            effect.stored.take(),
            growths.store,
        );
        self.recorded = length;
        self.opened = opened;
        change_all(&mut self.sessions, changes, length);
        growths.sessions.fill(&mut self.sessions, &mut new_sessions);
        close_lost(&mut self.sessions, lost);
    }

    /// Gives a session's untaken messages, and leaves it none. It takes no memory.
    pub fn take(&mut self, session: SessionId) -> List<Text>
        ensures given { (r : plain.Room) → Represents self.old r
            → result ≡ map plain.text_of (plain.untaken_of (plain.session_in r.sessions session)) }
        ensures left { (r : plain.Room) → Represents self.old r
            → Represents self.new (plain.taken r session) }
    {
        List::from_vec(self.take_known(session.get()))
    }

    fn take_known(&mut self, number: u64) -> Vec<Text>
        ensures given { result.items ≡ texts_at number (room_view self.old).sessions }
        ensures left { room_view self.new ≡ known_taken (room_view self.old) number }
    {
        take_texts(self.alloc, &mut self.sessions, number)
    }

    /// How a session stands.
    pub fn state(&self, session: SessionId) -> SessionState
        ensures { (r : plain.Room) → Represents self.now r
            → result ≡ state_of (plain.session_in r.sessions session) }
    {
        state_in(&self.sessions, session.get())
    }

    /// The number that the next session gets.
    pub fn next_session(&self) -> SessionId
        ensures { (r : plain.Room) → Represents self.now r → result ≡ r.opened + 1 }
    {
        SessionId::new(self.opened + 1).unwrap()
    }

    /// How many records the journal has.
    pub fn length(&self) -> u64
        ensures { (r : plain.Room) → Represents self.now r → result ≡ length r.journal }
    {
        self.recorded
    }
}

ghost use Rattle.std.specs.Prelude.{◌≡◌, ◌∷◌, [], IfOk, map};
ghost use Rattle.mw_protocol.specs.Effect.{answering as answering_lem, nothing as nothing_lem, recording as recording_lem, telling as telling_lem};
ghost use Rattle.mw_packets_out.specs.View.{packet_view};
ghost use Rattle.mw_effects.specs.Parts.{IsQuiet};
ghost use Rattle.mw_effects.specs.Views.{announced_view, audience_view, effect_view};

use crate::bounces::Named;
use crate::member::Member;
use crate::news::Pair;
use crate::status::SlotStatus;
use crate::told::Told;
use mw_base::{HintRecord, List, Memory, SlotId, TeamId, Text};
use mw_chat::command_result;
use mw_json::Tree;
use mw_packets_out::ServerPacket;
use mw_records::Record;
use std::alloc::Global;
use std::marker::Model;

/// Who hears what is told to several.
#[derive(Drop)]
pub enum Audience {
    /// Of a print: everybody of a team.
    Team(TeamId),
    /// Of a print: in a team, those who play either slot.
    Slots {
        team: TeamId,
        finder: SlotId,
        receiver: u16,
    },
    /// Of a print: who sent the packet.
    Sender,
    /// Those who watch a key, and who sent the packet, where it asks for that.
    Watchers {
        key: Text,
        replies: bool,
    },
    /// In a team, those whom a message is for.
    Named {
        team: TeamId,
        named: Named,
    },
}

/// What is told beside who hears it.
pub struct Announced {
    pub audience: Audience,
    pub told: Told,
}

/// By hand, so that whoever lets it go calls this, and what it frees is listed once.
impl Drop for Announced {
    fn drop(self) {
        let Announced {
            audience: _,
            told: _,
        } = self;
    }
}

/// A key of the data storage with its new value.
#[derive(Drop)]
pub struct NewValue {
    pub key: Text,
    pub value: Tree,
}

impl Model for NewValue {
    ghost use Rattle.std.specs.Coded.{codes};
    ghost use Rattle.mw_protocol.specs.Storage as plain;
    ghost use Rattle.mw_json.specs.TreeCode.{coded_json};
    ghost use Rattle.mw_json.specs.View.{view as tree_view};
    ghost use Rattle.mw_storage.specs.Stored.{IsKeepable};

    ghost Value = { plain.Kept };

    ghost coded = { Prim.hlevel (codes, coded_json) };

    ghost view = { λ n. record { key = n.key; value = tree_view n.value } };

    ghost invariant = { λ n. IsKeepable (tree_view n.value) };
}

/// What an event does: what it records; what this comes to, all in one team: checks, a status,
/// hints, the slot that pays for one, and a key's value; its answers to the sender, whether the
/// sender is owed its whole view, the member that it becomes, if it becomes one, and what is told
/// to several.
pub struct Effect {
    pub records: List<Record>,
    pub team: TeamId,
    pub new: List<Pair>,
    pub status: Option<SlotStatus>,
    pub hints: List<HintRecord>,
    pub payer: Option<SlotId>,
    pub stored: Option<NewValue>,
    pub answers: List<ServerPacket>,
    pub whole: bool,
    pub member: Option<Member>,
    pub announced: List<Announced>,
}

/// By hand, so that whoever lets it go calls this, and what it frees is listed once.
impl Drop for Effect {
    fn drop(self) {
        let Effect {
            records: _,
            team: _,
            new: _,
            status: _,
            hints: _,
            payer: _,
            stored: _,
            answers: _,
            whole: _,
            member: _,
            announced: _,
        } = self;
    }
}

/// An effect that records nothing.
#[tactic(auto, using(crate::proofs::Effects::quiet_is))]
pub fn quiet(
    alloc: Global,
    answers: List<ServerPacket>,
    whole: bool,
    member: Option<Member>,
    announced: List<Announced>,
) -> Effect
    ensures quiet { IsQuiet result }
    ensures is { effect_view result ≡ record {
      records = [];
      answers = map packet_view answers;
      whole = whole;
      member = member;
      announced = map announced_view announced;
    } }
{
    Effect {
        records: List::new(alloc),
        team: TeamId::new(0).unwrap(),
        new: List::new(alloc),
        status: None,
        hints: List::new(alloc),
        payer: None,
        stored: None,
        answers,
        whole,
        member,
        announced,
    }
}

/// No effect.
pub fn nothing(alloc: Global) -> Effect
    ensures quiet { IsQuiet result }
    ensures is { effect_view result ≡ nothing_lem }
{
    quiet(alloc, List::new(alloc), false, None, List::new(alloc))
}

/// The effect that is an answer alone.
pub fn answering(alloc: Global, packet: ServerPacket) -> Result<Effect, Memory>
    ensures quiet { IfOk result (λ e. IsQuiet e) }
    ensures is { IfOk result (λ e. effect_view e ≡ answering_lem (packet_view packet)) }
{
    let mut answers = List::new(alloc);
    answers.push(packet)?;
    Ok(quiet(alloc, answers, false, None, List::new(alloc)))
}

/// The effect that several are told of alone.
pub fn announcing(alloc: Global, announced: List<Announced>) -> Effect
    ensures quiet { IsQuiet result }
    ensures is { effect_view result ≡ recording_lem [] (map announced_view announced) }
{
    quiet(alloc, List::new(alloc), false, None, announced)
}

/// One packet for an audience.
pub fn one_told(
    alloc: Global,
    audience: Audience,
    packet: ServerPacket,
) -> Result<List<Announced>, Memory>
    ensures { IfOk result (λ ps. map announced_view ps
        ≡ record { audience = audience_view audience; packet = packet_view packet } ∷ []) }
{
    let mut announced = List::new(alloc);
    announced.push(Announced {
        audience,
        told: Told::Packet(packet),
    })?;
    Ok(announced)
}

/// The sender is told a text.
pub fn telling(alloc: Global, text: &str) -> Result<Effect, Memory>
    ensures quiet { IfOk result (λ e. IsQuiet e) }
    ensures is { IfOk result (λ e. effect_view e ≡ telling_lem text.now) }
{
    let print = command_result(alloc, text)?;
    let announced = one_told(alloc, Audience::Sender, print)?;
    Ok(announcing(alloc, announced))
}

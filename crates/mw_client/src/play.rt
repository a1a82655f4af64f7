//! A client that plays.
ghost use Rattle.std.specs.Prelude.{◌≡◌, ◌++◌, List, IfOk, OnErr, OnOk, Some, true, map};
ghost use Rattle.mw_model.specs.Items.{NetItem};
ghost use Rattle.mw_client.specs.Bodies.{Leads};
ghost use Rattle.mw_client.specs.Playing.{answers, answers_all, begun, first_of, next, next_all, saved_bytes, sync_of};
ghost use Rattle.mw_client.specs.Views.{news_view};

use crate::answer::Answer;
use crate::client::Client;
use crate::news::{News, Received};
use crate::step::Step;
use mw_base::{Bytes, List, Memory, NetItem, Text, copy_texts};
use std::alloc::Global;
use std::marker::Model;

/// What a client that plays knows: its list, whether it was greeted and has joined, why it was
/// first turned away, and whether memory ran out as it heard something.
#[derive(Drop)]
pub struct Play {
    alloc: Global,
    client: Client,
    greeted: bool,
    joined: bool,
    refusal: Option<List<Text>>,
    failed: bool,
}

impl Model for Play {
    ghost use Rattle.mw_client.specs.Playing as plain;

    ghost Value = { plain.Play };

    ghost view = { λ p. record {
      list = p.client;
      greeted = p.greeted;
      joined = p.joined;
      refusal = p.refusal;
      failed = p.failed;
    } };
}

/// What is to be done once a text was heard.
#[derive(Drop)]
pub struct Turn {
    /// The bodies that lead to the new list, one behind the other; none where it stays.
    pub bodies: Bytes,
    /// What is to be sent, in order.
    pub answers: List<Answer>,
}

/// Puts bytes behind others.
fn add(alloc: Global, bytes: &mut Bytes, more: Bytes) -> Result<(), Memory>
    ensures { OnOk result (bytes.new ≡ bytes.old ++ more) }
{
    let mut all = std::mem::replace(bytes, Bytes::new(alloc)).into_vec();
    let mut more = more.into_vec();
    all.append(&mut more)?;
    *bytes = Bytes::from_vec(all);
    Ok(())
}

impl Turn {
    /// Notes what a step asks for.
    fn note(&mut self, alloc: Global, step: Step) -> Result<(), Memory>
        ensures bodies { OnOk result (self.new.bodies ≡ self.old.bodies ++ saved_bytes step) }
        ensures answers { OnOk result (self.new.answers ≡ self.old.answers ++ sync_of step) }
    {
        match step {
            Step::Same => Ok(()),
            Step::Save(body) => add(alloc, &mut self.bodies, body),
            Step::AskSync => self.answers.push(Answer::Sync),
        }
    }
}

impl Play {
    /// A client that begins with a list, and has heard nothing.
    pub fn new(alloc: Global, list: &List<NetItem>) -> Result<Play, Memory>
        ensures { IfOk result (λ p. p ≡ begun list.now) }
    {
        Ok(Play {
            alloc,
            client: Client::new(alloc, list)?,
            greeted: false,
            joined: false,
            refusal: None,
            failed: false,
        })
    }

    /// Its list.
    pub fn list(&self) -> &List<NetItem>
        ensures { result.now ≡ self.now.list }
    {
        self.client.list()
    }

    /// Whether it has joined.
    pub fn has_joined(&self) -> bool
        ensures { result ≡ self.now.joined }
    {
        self.joined
    }

    /// Why it was first turned away, if it was.
    pub fn refusal(&self) -> &Option<List<Text>>
        ensures { result.now ≡ self.now.refusal }
    {
        &self.refusal
    }

    /// Hears a ReceivedItems.
    #[tactic(auto, using(crate::proofs::Stepping::step_leads, crate::proofs::Stepping::step_asks))]
    fn receive(&mut self, received: &Received, turn: &mut Turn) -> Result<(), Memory>
        ensures play { OnOk result (self.new ≡ next self.old
            (news_view (News.Received received.now))) }
        ensures answers { OnOk result (turn.new.answers ≡ turn.old.answers
            ++ answers self.old (news_view (News.Received received.now))) }
        ensures bodies { OnOk result ((before : List NetItem)
            → Leads before turn.old.bodies self.old.list
            → Leads before turn.new.bodies self.new.list) }
    {
        let step = self.client.heard(received.index, &received.items)?;
        turn.note(self.alloc, step)
    }

    /// Hears that it is turned away.
    fn turn_away(&mut self, errors: &[Text]) -> Result<(), Memory>
        ensures { OnOk result (self.new ≡ record self.old {
          refusal = Some (first_of self.old.refusal errors.now);
        }) }
    {
        if self.refusal.is_none() {
            self.refusal = Some(copy_texts(self.alloc, errors)?);
        }
        Ok(())
    }

    /// Hears what one packet tells.
    fn hear_one(&mut self, news: &News, turn: &mut Turn) -> Result<(), Memory>
        ensures play { OnOk result (self.new ≡ next self.old (news_view news.now)) }
        ensures answers { OnOk result (turn.new.answers ≡ turn.old.answers
            ++ answers self.old (news_view news.now)) }
        ensures bodies { OnOk result ((before : List NetItem)
            → Leads before turn.old.bodies self.old.list
            → Leads before turn.new.bodies self.new.list) }
    {
        match news {
            News::Greeted => {
                if !self.greeted {
                    turn.answers.push(Answer::Connect)?;
                }
                self.greeted = true;
                Ok(())
            }
            News::Joined => {
                if !self.joined {
                    turn.answers.push(Answer::Checks)?;
                }
                self.joined = true;
                Ok(())
            }
            News::TurnedAway(errors) => self.turn_away(errors.as_slice()),
            News::Received(received) => self.receive(received, turn),
            News::Nothing => Ok(()),
        }
    }

    /// Hears what the packets of a text tell, in order. After `Memory` some of them were heard.
    fn hear_all(&mut self, news: &[News]) -> Result<Turn, Memory>
        ensures play { OnOk result (self.new ≡ next_all self.old (map news_view news.now)) }
        ensures answers { IfOk result (λ turn. turn.answers
            ≡ answers_all self.old (map news_view news.now)) }
        ensures bodies { IfOk result (λ turn. Leads self.old.list turn.bodies self.new.list) }
    {
        let mut turn = Turn {
            bodies: Bytes::new(self.alloc),
            answers: List::new(self.alloc),
        };
        for one in news {
            self.hear_one(one, &mut turn)?;
        }
        Ok(turn)
    }

    /// Hears what the packets of a text tell, in order, and gives what is then to be done. `Memory`
    /// is its only error: it may have heard some of them, and each later call gives `Memory` too.
    pub fn hear(&mut self, news: &[News]) -> Result<Turn, Memory>
        ensures play { OnOk result (self.new ≡ next_all self.old (map news_view news.now)) }
        ensures answers { IfOk result (λ turn. turn.answers
            ≡ answers_all self.old (map news_view news.now)) }
        ensures bodies { IfOk result (λ turn. Leads self.old.list turn.bodies self.new.list) }
        ensures memory { OnErr result (self.new.failed ≡ true) }
        ensures over { self.old.failed ≡ true → OnOk result ⊥ }
    {
        if self.failed {
            return Err(Memory);
        }
        match self.hear_all(news) {
            Ok(turn) => Ok(turn),
            Err(error) => {
                self.failed = true;
                Err(error)
            }
        }
    }
}

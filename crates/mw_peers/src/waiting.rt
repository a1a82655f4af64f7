ghost use Rattle.std.specs.Prelude.{◌≡◌};
ghost use Rattle.mw_peers.specs.Peers.{new_peer};

use mw_base::{List, Text};
use mw_edges::Tally;
use mw_link::{Heard, Link, LinkError, Log};
use std::alloc::Global;
use std::collections::VecDeque;
use std::marker::Model;
use std::sync::Arc;
use std::sync::atomic::{AtomicU32, Ordering};

/// How often a link says that nothing came before it fails.
const MOST_TURNS: u32 = 10_000;

/// How often it looks for the signs each time.
const LOOKS: u32 = 1_000;

/// What comes over a link: a list, then nothing until so many signs were given, then another list,
/// and then the end.
#[derive(Drop)]
pub struct Coming {
    /// What comes at once.
    pub first: VecDeque<Heard>,
    /// How many signs it then waits for.
    pub wanted: u32,
    /// What comes after them.
    pub then: VecDeque<Heard>,
}

/// A link that waits for signs that others give. Where it has a word, it gives a sign itself for
/// each text with that word that is sent over it. After 10,000 turns without the signs that it
/// waits for it fails.
///
/// Contracts see what it heard and sent, how often it has failed, and whether it was shut.
#[derive(Drop)]
pub struct WaitingLink {
    coming: Coming,
    signs: Arc<AtomicU32>,
    word: Option<&'static str>,
    turns: u32,
    heard: Log<Heard>,
    sent: List<Text>,
    alloc: Global,
    faults: Tally,
    shut: bool,
}

impl Model for WaitingLink {
    ghost use Rattle.mw_peers.specs.Peers.{Peer};

    ghost Value = { Peer };

    ghost view = { λ l. record {
      heard = l.heard;
      sent = l.sent;
      faults = l.faults;
      shut = l.shut;
    } };
}

impl WaitingLink {
    /// A link over which this comes. Its signs are counted here.
    pub fn new(
        alloc: Global,
        coming: Coming,
        signs: Arc<AtomicU32>,
        word: Option<&'static str>,
    ) -> WaitingLink
        ensures { result ≡ new_peer }
    {
        WaitingLink {
            coming,
            signs,
            word,
            turns: 0,
            heard: Log::new(),
            sent: List::new(alloc),
            alloc,
            faults: Tally::new(),
            shut: false,
        }
    }

    /// The texts that were sent, in order.
    pub fn sent(&self) -> &[Text]
        ensures { result.now ≡ self.now.sent }
    {
        self.sent.as_slice()
    }

    /// Whether the signs that it waits for were given, after some looks.
    fn sees_signs(&self) -> bool {
        for _ in 0..LOOKS {
            if self.signs.load(Ordering::SeqCst) >= self.coming.wanted {
                return true;
            }
        }
        false
    }

    /// What comes next, where it need not wait.
    fn next(&mut self) -> Option<Heard>
        ensures { self.new ≡ self.old }
    {
        if let Some(next) = self.coming.first.pop_front() {
            return Some(next);
        }
        if !self.sees_signs() {
            return None;
        }
        match self.coming.then.pop_front() {
            Some(next) => Some(next),
            None => Some(Heard::End),
        }
    }
}

impl Link for WaitingLink {
    ghost heard = { λ l. l.heard };

    ghost sent = { λ l. l.sent };

    ghost faults = { λ l. l.faults };

    ghost opened = { λ _. 0 };

    ghost is_shut = { λ l. l.shut };

    fn recv(&mut self) -> Result<Heard, LinkError> {
        if self.shut {
            self.heard.note(&Heard::End);
            return Ok(Heard::End);
        }
        if let Some(next) = self.next() {
            self.heard.note(&next);
            return Ok(next);
        }
        if self.turns >= MOST_TURNS {
            self.faults.raise();
            return Err(LinkError::Failed);
        }
        self.turns += 1;
        self.heard.note(&Heard::NotYet);
        Ok(Heard::NotYet)
    }

    fn send(&mut self, text: &Text) -> Result<(), LinkError> {
        if self.shut {
            self.faults.raise();
            return Err(LinkError::Failed);
        }
        let Ok(copy) = Text::of(self.alloc, text.as_str()) else {
            return Err(LinkError::Memory);
        };
        if self.sent.push(copy).is_err() {
            return Err(LinkError::Memory);
        }
        if let Some(word) = self.word {
            if text.as_str().contains(word) {
                let _ = self.signs.fetch_add(1, Ordering::SeqCst);
            }
        }
        Ok(())
    }

    fn opened(&self) -> u64 {
        0
    }

    fn shut(&mut self) {
        self.shut = true;
    }
}

//! The gate that workers share: it lies under a lock, with what is to be known of it at the end.
ghost use Rattle.std.specs.Prelude.{◌≡◌, ◌+◌, ◌*◌, ◌<◌, ◌||◌, ◌⊎◌, ℕ, [], None, true, false};
ghost use Rattle.mw_link.specs.Tells.{IsNew};
ghost use Rattle.mw_session.specs.Desks.{HasNone, IfLine, IsWithin, is_reached, link_weight, weight_of};

use mw_link::{Gate, Link, LinkError};
use std::marker::Brand;
use std::sync::ledger::{Book, Ledger, Share};

/// What holds of a gate while links are taken from it, which contracts alone see.
pub trait Limit {
    ghost use Rattle.std.specs.Prelude.{List};
    ghost use Rattle.std.specs.declared.option.Option.{Option};

    /// How many links may be taken in all, where that is limited.
    ghost most: { Option ℕ };

    /// The addresses at which it was made ready.
    ghost listened: { List (List ℕ) };
}

impl Limit for Brand {
    ghost most = { None };

    ghost listened = { [] };
}

/// What a worker is given.
#[derive(Drop)]
pub enum Next<T> {
    /// A link.
    Line(T),
    /// No link any more.
    Over,
    /// Memory ran out.
    Memory,
}

/// A gate, how many links may be taken from it and how many were, whether a call of it failed or
/// gave none, and how many workers were told that no link is left. The ledger's total counts both:
/// a link as 2^32, and such an answer as 1.
#[derive(Drop)]
pub struct Desk<G: Gate, L: Ledger + Limit> {
    gate: G,
    limit: Option<u64>,
    taken: u64,
    failed: bool,
    ended: bool,
    told: u32,
    book: Book<L>,
    ghost limited: { limit ≡ L.most },
    ghost counted: { book.total ≡ link_weight * taken + told },
    ghost given: { G.given gate ≡ taken },
    ghost within: { IsWithin limit taken },
    ghost faulty: { failed ≡ true → 0 < G.faults gate },
    ghost empty: { ended ≡ true → HasNone (G.left gate) (G.ended gate) },
    ghost ready: { G.listened gate ≡ L.listened },
    ghost over: { 0 < told → (is_reached limit taken || (failed || ended)) ≡ true },
}

/// What a link counts in a worker's share.
const LINK_WEIGHT: u64 = 0x1_0000_0000;

impl<G: Gate, L: Ledger + Limit> Desk<G, L> {
    /// A gate from which nothing was taken, and from which this many links may be.
    pub(crate) fn new(gate: G, limit: Option<u64>, book: Book<L>) -> Desk<G, L>
        requires limit { limit ≡ L.most }
        requires gate { G.given gate ≡ 0 }
        requires ready { G.listened gate ≡ L.listened }
        requires book { book.total ≡ 0 }
    {
        Desk {
            gate,
            limit,
            taken: 0,
            failed: false,
            ended: false,
            told: 0,
            book,
        }
    }

    /// Whether no link may be taken any more.
    fn is_over(&self) -> bool
        ensures { result ≡ (is_reached self.now.limit self.now.taken
            || (self.now.failed || self.now.ended)) }
    {
        let reached = match self.limit {
            Some(limit) => limit <= self.taken,
            None => false,
        };
        reached | (self.failed | self.ended)
    }

    /// The next link, or that none is left, which the worker's share then counts.
    pub(crate) fn next(&mut self, mine: &mut Share<L>) -> Next<G::Line>
        requires part { 0 < mine.old.parts }
        ensures parts { mine.new.parts ≡ mine.old.parts }
        ensures amount { mine.new.amount ≡ mine.old.amount + weight_of result }
        ensures new { IfLine result (IsNew G.Line.heard G.Line.sent G.Line.faults G.Line.is_shut) }
    {
        if self.is_over() {
            return self.tell_over(mine);
        }
        if self.taken == u64::MAX {
            return Next::Memory;
        }
        match self.gate.accept() {
            Ok(Some(line)) => {
                self.book.add(mine, LINK_WEIGHT);
                self.taken += 1;
                Next::Line(line)
            }
            Ok(None) => {
                self.ended = true;
                self.tell_over(mine)
            }
            Err(LinkError::Failed) => {
                self.failed = true;
                self.tell_over(mine)
            }
            Err(LinkError::Memory) => Next::Memory,
        }
    }

    /// Tells a worker that no link is left.
    fn tell_over(&mut self, mine: &mut Share<L>) -> Next<G::Line>
        requires part { 0 < mine.old.parts }
        requires over { (is_reached self.old.limit self.old.taken
            || (self.old.failed || self.old.ended)) ≡ true }
        ensures parts { mine.new.parts ≡ mine.old.parts }
        ensures amount { mine.new.amount ≡ mine.old.amount + weight_of result }
        ensures none { IfLine result (λ _. ⊥) }
    {
        if self.told == u32::MAX {
            return Next::Memory;
        }
        self.book.add(mine, 1);
        self.told += 1;
        Next::Over
    }

    /// The gate, how many links it has given, and whether it failed. Whoever holds all shares
    /// learns that they count these links, and whether the gate gave all that it might.
    pub(crate) fn end(self, mut all: Share<L>) -> (G, u64, bool)
        requires all { all.parts ≡ L.parts }
        ensures given { G.given result.0 ≡ result.1 }
        ensures failed { result.2 ≡ true → 0 < G.faults result.0 }
        ensures ready { G.listened result.0 ≡ L.listened }
        ensures within { IsWithin L.most result.1 }
        ensures amount { (told : ℕ) × (told < link_weight)
            × (all.amount ≡ link_weight * result.1 + told)
            × (0 < told → result.2 ≡ false → (is_reached L.most result.1 ≡ true)
            ⊎ HasNone (G.left result.0) (G.ended result.0)) }
    {
        let Desk {
            gate,
            limit: _,
            taken,
            failed,
            ended: _,
            told: _,
            mut book,
        } = self;
        book.audit(&mut all);
        (gate, taken, failed)
    }
}

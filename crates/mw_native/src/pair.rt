ghost use Rattle.std.specs.Prelude.{◌≡◌, ◌+◌, ◌<◌, ◌≤◌, ◌^◌, ◌++◌, List, IfErr, MatchResult, length};
ghost use Rattle.mw_rules.specs.Rule as plain;

use mw_rules::{Named, Ruling, Steps};
use std::sync::ledger::Ledger;

/// The rules of two who answer rules: those of the first, then those of the second.
#[derive(Drop)]
pub struct Pair<A: Ruling, B: Ruling> {
    first: A,
    second: B,
    first_count: u32,
    count: u32,
}

impl<A: Ruling, B: Ruling> Pair<A, B> {
    /// The numbers from 0 are those of the first one's rules, and then come those of the second one's. Both are handed
    /// back exactly where they have more than 4,294,967,295 rules together.
    pub fn new(first: A, second: B) -> Result<Pair<A, B>, (A, B)>
        ensures rules { (firsts seconds : List plain.Rule) → A.stands_for first firsts
            → B.stands_for second seconds → MatchResult result
            (λ pair. (length firsts + length seconds < 2 ^ 32)
            × ⟦<Pair<A, B> as Ruling>⟧.stands_for pair (firsts ++ seconds))
            (λ _. 2 ^ 32 ≤ length firsts + length seconds) }
        ensures back { IfErr result (λ both. (both.0 ≡ first) × (both.1 ≡ second)) }
    {
        let first_count = first.count();
        match first_count.checked_add(second.count()) {
            Some(count) => Ok(Pair {
                first,
                second,
                first_count,
                count,
            }),
            None => Err((first, second)),
        }
    }
}

impl<A: Ruling, B: Ruling> Ruling for Pair<A, B> {
    ghost stands_for = { λ p rules. (firsts : List plain.Rule) × (seconds : List plain.Rule)
        × A.stands_for p.first firsts × B.stands_for p.second seconds × (rules ≡ firsts ++ seconds)
        × (p.first_count ≡ length firsts) × (p.count ≡ length rules) };

    fn count(&self) -> u32 {
        self.count
    }

    fn ask<L: Ledger>(
        &self,
        number: u32,
        counts: &[u32],
        places: &[bool],
        steps: &mut Steps<L>,
    ) -> bool {
        if number < self.first_count {
            self.first.ask(number, counts, places, steps)
        } else {
            self.second
                .ask(number - self.first_count, counts, places, steps)
        }
    }

    fn named(&self, number: u32) -> &Named {
        if number < self.first_count {
            self.first.named(number)
        } else {
            self.second.named(number - self.first_count)
        }
    }
}

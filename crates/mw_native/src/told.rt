ghost use Rattle.std.specs.Prelude.{◌<◌, ◌^◌, List, length};
ghost use Rattle.mw_rules.specs.Rule as plain;
ghost use Rattle.mw_native.specs.Told.{AreTold};

use mw_base::List;
use mw_rules::{Named, Ruling, Steps};
use std::sync::ledger::Ledger;

/// Rules that a closure answers by their numbers, with what each of them names.
#[derive(Drop)]
pub struct Told<F: Fn(u32, &[u32], &[bool]) -> bool> {
    named: List<Named>,
    ask: F,
    ghost few: { length named < 2 ^ 32 },
}

impl<F: Fn(u32, &[u32], &[bool]) -> bool> Told<F> {
    /// The rules that `ask` answers: given a rule's number, the counts of the items of the slot that owns it and the flags
    /// of the slot's places, whether the rule holds. `named` has what each rule names, in the order of their numbers.
    ///
    /// There are fewer than 2^32 rules, and some list of rules is the one that `named` names and `ask` answers.
    pub fn new(named: List<Named>, ask: F) -> Told<F>
        requires few { length named < 2 ^ 32 }
        requires told { (rules : List plain.Rule) × AreTold (F.pre ask) (F.post ask) named rules }
        ensures { (rules : List plain.Rule) → AreTold (F.pre ask) (F.post ask) named rules
            → ⟦<Told<F> as Ruling>⟧.stands_for result rules }
    {
        Told { named, ask }
    }
}

impl<F: Fn(u32, &[u32], &[bool]) -> bool> Ruling for Told<F> {
    ghost stands_for = { λ t rules. AreTold (F.pre t.ask) (F.post t.ask) t.named rules };

    fn count(&self) -> u32 {
        self.named.len() as u32
    }

    fn ask<L: Ledger>(
        &self,
        number: u32,
        counts: &[u32],
        places: &[bool],
        steps: &mut Steps<L>,
    ) -> bool {
        steps.raise();
        (self.ask)(number, counts, places)
    }

    fn named(&self, number: u32) -> &Named {
        &self.named.as_slice()[number as usize]
    }
}

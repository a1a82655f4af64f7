ghost use Rattle.std.specs.Prelude.{[], IfOk};
ghost use Rattle.mw_fill.specs.Kept.{IsHeldFor};

use crate::allowed::first_allowed;
use crate::anywhere::first_accepting;
use crate::error::FillError;
use crate::opening::Opening;
use crate::order::Order;
use crate::taken::past_taken;
use mw_base::{List, Memory};
use mw_multi::{Joint, Placed, Put};
use mw_reach::Reached;
use mw_rules::{Ruling, Steps};
use std::alloc::Global;
use std::sync::ledger::Ledger;

/// What was put so far.
#[derive(Drop)]
pub(crate) struct Laying {
    /// For each place, what stands there.
    pub held: Vec<Option<Put>>,
    /// How many of the first locations are known to be taken.
    pub from: usize,
    /// For each place, what stands there for reach, with the events.
    pub placed: Placed,
    /// The copies that were put, in their order.
    pub laid: List<Put>,
}

/// Nothing at each place of the joint.
fn nothing_held(alloc: Global, joint: &Joint) -> Result<Vec<Option<Put>>, Memory>
    ensures { IfOk result (λ held. IsHeldFor joint.now [] held.items) }
{
    let held = vec![in alloc; None; joint.place_count() as usize]?;
    Ok(held)
}

impl Laying {
    ghost use Rattle.std.specs.Prelude.{◌≡◌, ◌+◌, ◌<◌, ◌≤◌, List, All, IfOk, IfErr, IfSome, OnOk, OnSome, MatchResult, [], drop, find, length, slice_index_or, take};
    ghost use Rattle.mw_rules.specs.Holds.{bag_of};
    ghost use Rattle.mw_multi.specs.Steps.{rule_list};
    ghost use Rattle.mw_reach.specs.Reached.{IsMadeFor, counts_in, places_in};
    ghost use Rattle.mw_fill.specs.Copies.{ItemCopy};
    ghost use Rattle.mw_fill.specs.Openings.{Opening};
    ghost use Rattle.mw_fill.specs.Fill.{stuck, is_allowed, FillRun};
    ghost use Rattle.mw_fill.specs.Kept.{is_open_in};
    ghost use Rattle.mw_fill.specs.Asks.{FindsNone};
    ghost use Rattle.mw_fill.specs.Laying.{IsLaid, RunsOn, AreOrdered, IsLaying, IsPast, IsSure, IsFound, goals_between};
    ghost use Rattle.mw_fill.specs.Answer.{OnStuck};

    /// The events alone; `Memory` where memory ran out.
    pub(crate) fn new(alloc: Global, joint: &Joint) -> Result<Laying, Memory>
        ensures empty { IfOk result (λ laying. laying.laid ≡ []) }
        ensures laid { IfOk result (λ laying. (openings : List Opening) (copies : List ItemCopy)
            → IsLaying joint.now openings copies laying) }
        ensures past { IfOk result (λ laying. (openings : List Opening) → IsPast openings laying) }
    {
        let held = nothing_held(alloc, joint)?;
        let placed = Placed::events(alloc, joint)?;
        let laid = List::new(alloc);
        Ok(Laying {
            held,
            from: 0,
            placed,
            laid,
        })
    }

    /// The first of the locations that is free and accepts the next copy, where only that copy is
    /// left before `to` and the location is reached. Then it is the one by each greater list too,
    /// so none has to be made.
    pub(crate) fn sure_location(
        &self,
        order: &Order,
        to: usize,
        reached: &Reached,
    ) -> Option<Opening>
        requires next { length self.now.laid < length order.now.copies.now }
        requires within { All (λ s. s.place < length self.now.held.items) order.now.openings.now }
        requires past { IsPast order.now.openings.now self.now }
        ensures last { OnSome result (to ≡ length self.now.laid + 1) }
        ensures sure { IfSome result (IsSure order.now.openings.now order.now.copies.now
            self.now.laid self.now.held.items (places_in reached.now)) }
    {
        if to != self.laid.len() + 1 {
            return None;
        }
        let copy = &order.copies[self.laid.len()];
        let Some(opening) = first_accepting(copy, order.openings, self.from, self.held.as_slice())
        else {
            return None;
        };
        if !reached.has(opening.place) {
            return None;
        }
        Some(opening)
    }

    /// The first of the locations that is free and allowed for the next copy, of which `reached`
    /// has the list.
    pub(crate) fn find_next<R: Ruling, L: Ledger>(
        &self,
        joint: &Joint,
        rules: &R,
        order: &Order,
        reached: &Reached,
        steps: &mut Steps<L>,
    ) -> Option<Opening>
        requires rules { R.stands_for rules.now (rule_list joint.now) }
        requires next { length self.now.laid < length order.now.copies.now }
        requires within { All (λ s. s.place < length self.now.held.items) order.now.openings.now }
        requires past { IsPast order.now.openings.now self.now }
        requires made { IsMadeFor joint.now reached.now }
        ensures found { (copy : ItemCopy)
            → copy ≡ slice_index_or order.now.copies.now (length self.now.laid) copy
            → result ≡ find (is_open_in (is_allowed joint.now (bag_of (counts_in reached.now))
            (places_in reached.now) copy) self.now.held.items) order.now.openings.now }
        ensures steps { steps.new ≤ steps.old + goals_between joint.now order.now.copies.now
            (length self.now.laid) (length self.now.laid + 1) }
    {
        let copies = order.copies;
        let copy = &copies[self.laid.len()];
        let held = self.held.as_slice();
        first_allowed(
            joint,
            rules,
            copy,
            order.openings,
            self.from,
            held,
            reached,
            steps,
        )
    }

    /// Puts the next copy at the location that it finds by its own list.
    pub(crate) fn put_next(
        &mut self,
        alloc: Global,
        joint: &Joint,
        order: &Order,
        found: Option<Opening>,
    ) -> Result<(), FillError>
        requires order { AreOrdered joint.now order.now.copies.now order.now.numbers.now
            order.now.begins.now order.now.openings.now }
        requires next { length self.old.laid < length order.now.copies.now }
        requires laid { IsLaying joint.now order.now.openings.now order.now.copies.now self.old }
        requires past { IsPast order.now.openings.now self.old }
        requires found { IsFound joint.now order.now.openings.now order.now.copies.now
            self.old.laid self.old.placed found }
        ensures front { take (length self.old.laid) self.new.laid ≡ self.old.laid }
        ensures each { All (IsLaid joint.now) self.new.laid }
        ensures runs { RunsOn joint.now order.now.openings.now order.now.copies.now
            self.new.laid }
        ensures more { OnOk result (length self.new.laid ≡ length self.old.laid + 1) }
        ensures past { OnOk result (IsPast order.now.openings.now self.new) }
        ensures answer { MatchResult result
            (λ _. IsLaying joint.now order.now.openings.now order.now.copies.now self.new)
            (λ e. OnStuck e (λ slot item. FillRun joint.now order.now.openings.now
            order.now.copies.now [] (stuck slot item))) }
        ensures none { IfErr result (λ e. OnStuck e (λ slot item. FindsNone joint.now
            order.now.openings.now (drop (length self.new.laid) order.now.copies.now)
            self.new.laid)) }
    {
        // Reading the joint makes known what its type keeps.
        let _ = &joint.slots;
        let copies = order.copies;
        let copy = &copies[self.laid.len()];
        self.from = past_taken(order.openings, self.held.as_slice(), self.from);
        match found {
            None => Err(copy.stuck()),
            Some(opening) => {
                let put = copy.put_at(&opening);
                self.placed.put(alloc, joint, put)?;
                self.laid.push(put)?;
                let held = self.held.as_mut_slice();
                held[opening.place as usize] = Some(put);
                Ok(())
            }
        }
    }
}

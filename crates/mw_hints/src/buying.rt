ghost use Rattle.std.specs.Prelude.{◌≡◌, IsOk, IfOk};
ghost use Rattle.std.specs.Option.{option_copied};
ghost use Rattle.mw_protocol.specs.Hints.{bought_for, bought_status, first_where, held_named};
ghost use Rattle.mw_protocol.specs.Hints.{is_open, item_bought, item_named};
ghost use Rattle.mw_protocol.specs.Hints.{location_bought, location_named, paid};
ghost use Rattle.mw_protocol.specs.Standing.{cost, points_left};
ghost use Rattle.mw_hints.specs.Answering.{IsAnswer, wanted_view};
ghost use Rattle.mw_hints.specs.Opening.{opens};

use crate::answer::{HintAnswer, Wanted};
use crate::book::HintBook;
use crate::names::{item_named, location_named};
use crate::points::cost;
use mw_base::{HintRecord, HintStatus, LocId, Memory, SlotId, TeamId};
use mw_multidata::{Checks, Held};

/// The status of a hint that is bought: a trap is to be avoided, and all else a priority.
fn bought_status(flags: u8) -> HintStatus
    ensures { result ≡ bought_status flags }
{
    let number = if flags == 4 { 20 } else { 30 };
    HintStatus::new(number).unwrap()
}

/// What stands at the location of a name in a slot's game, if the slot has it.
fn held_named<'a, C: Checks>(slot: SlotId, name: &str, log: &'a C) -> Option<&'a Held>
    ensures { let seed = C.seed log.now in option_copied result
        ≡ held_named seed slot (location_named seed slot name.now) }
{
    let id = location_named(log.tables().multidata(), slot, name)?;
    log.held(slot, LocId::new(id)?)
}

impl HintBook {
    /// Whether a location isn't checked in a team and has no hint.
    fn is_open<C: Checks>(&self, team: TeamId, held: &Held, log: &C) -> bool
        ensures { result ≡ is_open (C.is_found log.now) self.now.hints team held.now }
    {
        !log.is_checked(team, held.slot, held.location)
            && self.hint_at(team, held.slot, held.location).is_none()
    }

    /// Whether a location holds the slot's item of a number, isn't checked and has no hint.
    #[tactic(auto, unfolding(crate::specs::Opening::opens))]
    fn opens<C: Checks>(&self, team: TeamId, slot: SlotId, item: i64, held: &Held, log: &C) -> bool
        ensures { result ≡ opens (C.seed log.now) (C.is_found log.now) self.now.hints
            team slot item held.now }
    {
        log.tables().multidata().is_owner(held.receiver, slot)
            && held.item.get() == item
            && self.is_open(team, held, log)
    }

    /// The first such location by finder, then id.
    fn first_open<'a, C: Checks>(
        &self,
        team: TeamId,
        slot: SlotId,
        item: i64,
        log: &'a C,
    ) -> Option<&'a Held>
        ensures { option_copied result ≡ first_where
            (opens (C.seed log.now) (C.is_found log.now) self.now.hints team slot item)
            (C.seed log.now).locations }
    {
        for held in log.tables().multidata().locations.as_slice() {
            if self.opens(team, slot, item, held, log) {
                return Some(held);
            }
        }
        None
    }

    /// The answer where this location is there to buy, or none is.
    fn paid<C: Checks>(
        &self,
        team: TeamId,
        slot: SlotId,
        held: Option<&Held>,
        log: &C,
    ) -> HintAnswer
        ensures { let seed = C.seed log.now in IsAnswer result
            (paid team slot (cost seed slot)
            (points_left seed (C.count log.now team slot) self.now.hints team slot)
            (option_copied held.entry)) }
    {
        let Some(held) = held else {
            return HintAnswer::Nothing;
        };
        let cost = cost(slot, log);
        let points = self.left(team, slot, log.checked_len(team, slot), log);
        if points < u128::from(cost) {
            return HintAnswer::TooDear {
                cost,
                points: points as u64,
            };
        }
        HintAnswer::Bought(HintRecord::Made {
            team,
            finder: held.slot,
            loc: held.location,
            bought: true,
            buyer: slot,
            status: bought_status(held.flags),
        })
    }

    /// The answer to who wants an item of the slot's game.
    fn buy_item<C: Checks>(&self, team: TeamId, slot: SlotId, name: &str, log: &C) -> HintAnswer
        ensures { let seed = C.seed log.now in IsAnswer result
            (item_bought seed (C.is_found log.now)
            (points_left seed (C.count log.now team slot) self.now.hints team slot)
            self.now.hints team slot (item_named seed slot name.now)) }
    {
        match item_named(log.tables().multidata(), slot, name) {
            Some(item) => self.paid(team, slot, self.first_open(team, slot, item, log), log),
            None => HintAnswer::NoSuchName,
        }
    }

    /// The answer to who wants a location of the slot's game.
    fn buy_location<C: Checks>(&self, team: TeamId, slot: SlotId, name: &str, log: &C) -> HintAnswer
        ensures { let seed = C.seed log.now in IsAnswer result
            (location_bought seed (C.is_found log.now)
            (points_left seed (C.count log.now team slot) self.now.hints team slot)
            self.now.hints team slot (held_named seed slot (location_named seed slot name.now))) }
    {
        match held_named(slot, name, log) {
            Some(held) if self.is_open(team, held, log) => {
                self.paid(team, slot, Some(held), log)
            }
            Some(_) => HintAnswer::Nothing,
            None => HintAnswer::NoSuchName,
        }
    }

    /// What a slot of a team is answered that wants to buy a hint with the points that it has
    /// left. It takes no memory, and the book stays: `add` enters what is bought.
    pub fn buy<C: Checks>(
        &self,
        team: TeamId,
        slot: SlotId,
        wanted: &Wanted,
        log: &C,
    ) -> Result<HintAnswer, Memory>
        ensures ok { IsOk result }
        ensures answer { let seed = C.seed log.now in IfOk result (λ a. IsAnswer a
            (bought_for seed (C.is_found log.now)
            (points_left seed (C.count log.now team slot) self.now.hints team slot)
            self.now.hints team slot (wanted_view wanted.now))) }
    {
        Ok(match wanted {
            Wanted::Item(name) => self.buy_item(team, slot, name.as_str(), log),
            Wanted::Location(name) => self.buy_location(team, slot, name.as_str(), log),
        })
    }
}

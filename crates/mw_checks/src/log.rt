ghost use Rattle.std.specs.Prelude.{◌≡◌, ◌≤◌, ◌++◌, [], ℕ, None, IfOk, IfSome, IfNone, OnErr};
ghost use Rattle.std.specs.Prelude.{◌==◌, ◌&&◌, count_by, drop, length, vec_capacity};
ghost use Rattle.std.specs.Option.{option_copied};
ghost use Rattle.mw_model.specs.Seed.{held_at};
ghost use Rattle.mw_protocol.specs.Checks.{is_among, locations_in};
ghost use Rattle.mw_checks.specs.Fresh.{new_at, new_among};
ghost use Rattle.mw_checks.specs.Kept.{KeptIn, AreReceived, AreFound};
ghost use Rattle.mw_checks.specs.Log.{AreFresh, HasLogRoom, checks_of, given_by};
ghost use Rattle.mw_checks.specs.Log.{view_of};
ghost use Rattle.mw_checks.specs.Rows.{AllBelow};

use crate::check::Check;
use crate::fresh::{fresh_numbers, fresh_pairs};
use crate::given::given;
use crate::growth::CheckGrowth;
use crate::handling::Handling;
use crate::lengths::{count_found, count_own_starts};
use crate::listing::locations_at;
use crate::places::Places;
use crate::rows::{Rows, put};
use crate::tail::Tail;
use mw_base::{List, LocId, Memory, NetItem, SlotId, TeamId};
use mw_multidata::{Held, RoomTables};
use std::alloc::Global;
use std::marker::Model;

/// The distinct checks of a room in the order in which they were made, over the tables of its seed.
pub struct CheckLog {
    pub(crate) alloc: Global,
    places: Places,
    rows: Rows,
    order: Vec<Check>,
}

/// By hand, so that whoever lets it go calls this, and what it frees is listed once.
impl Drop for CheckLog {
    fn drop(self) {
        let CheckLog {
            alloc: _,
            places: _,
            rows: _,
            order: _,
        } = self;
    }
}

impl Model for CheckLog {
    ghost use Rattle.std.specs.Prelude.{vec_capacity};
    ghost use Rattle.mw_checks.specs.Log.{Log};
    ghost use Rattle.mw_checks.specs.Kept.{KeptIn};

    ghost Value = { Log };

    ghost view = { λ l. record {
      seed = l.places;
      checked = l.order.items;
      space = vec_capacity l.order;
    } };

    ghost invariant = { λ l. KeptIn l.places l.order.items l.rows };
}

/// Enters fresh checks after those of the order, and lists them. It takes no memory.
fn enter_all(
    places: &Places,
    order: &[Check],
    rows: &mut Rows,
    team: TeamId,
    fresh: &[(SlotId, LocId)],
    checks: &mut Vec<Check>,
)
    requires kept { KeptIn places.now order.now rows.old }
    requires fresh { AreFresh places.now order.now team fresh.now }
    requires empty { checks.old.items ≡ [] }
    requires room { length fresh.now ≤ vec_capacity checks.old }
    ensures checks { checks.new.items ≡ checks_of team fresh.now }
    ensures kept { KeptIn places.now (order.now ++ checks.new.items) rows.new }
{
    // A team's number is below 8.
    let _ = team.get();
    let multidata = places.tables().multidata();
    for (slot, location) in fresh {
        let number = places.number_of(*slot, *location).unwrap();
        rows.enter(multidata, team, number, places.at(number));
        let check = Check {
            team,
            slot: *slot,
            location: *location,
        };
        put(checks, check);
    }
}

impl CheckLog {
    /// A log of no checks.
    pub fn new(alloc: Global, tables: RoomTables) -> Result<CheckLog, Memory>
        ensures seed { IfOk result (λ l. l.seed ≡ tables) }
        ensures checked { IfOk result (λ l. l.checked ≡ []) }
    {
        let places = Places::new(alloc, tables)?;
        let rows = Rows::new(alloc, &places)?;
        Ok(CheckLog {
            alloc,
            places,
            rows,
            order: Vec::new(alloc),
        })
    }

    /// The tables of the seed.
    pub fn tables(&self) -> &RoomTables
        ensures { result.now ≡ self.now.seed }
    {
        self.places.tables()
    }

    /// The checks, in order.
    pub fn checks(&self) -> &[Check]
        ensures { result.now ≡ self.now.checked }
    {
        &self.order
    }

    /// What stands at a location of a slot; None exactly where the slot has no such location.
    pub fn held(&self, slot: SlotId, location: LocId) -> Option<&Held>
        ensures { option_copied result ≡ held_at self.now.seed slot location }
    {
        self.places.held(slot, location)
    }

    /// Whether a location of a slot is checked in a team.
    pub fn is_checked(&self, team: TeamId, slot: SlotId, location: LocId) -> bool
        ensures { result ≡ is_among self.now.checked team slot location }
    {
        match self.places.number_of(slot, location) {
            Some(number) => self.rows.is_done(team, number),
            None => false,
        }
    }

    /// The numbers of the items that a slot received in a team.
    fn received_row(&self, team: TeamId, slot: SlotId) -> &[u32]
        ensures items { AreReceived self.now team slot result.now }
        ensures below { AllBelow (length self.now.seed.locations) result.now }
    {
        self.rows.received_by(team, slot)
    }

    /// The numbers of a slot's checked locations in a team.
    fn found_row(&self, team: TeamId, slot: SlotId) -> &[u32]
        ensures locations { AreFound self.now team slot result.now }
        ensures many { length (locations_in team slot self.now.checked) ≡ length result.now }
        ensures found { length result.now ≡ count_by (λ h. (h.slot == slot)
            && is_among self.now.checked team slot h.location) self.now.seed.locations }
    {
        let _kept = self.places.tables().multidata();
        self.rows.found_by(team, slot)
    }

    /// The location of a number, if it is an id's; else no slot has it.
    pub fn id_of(&self, number: i128) -> Option<LocId>
        ensures some { IfSome result (λ l. l ≡ number) }
        ensures none { IfNone result ((slot : ℕ) → held_at self.now.seed slot number ≡ None) }
    {
        self.places.id_of(number)
    }

    /// How many locations of a slot are checked in a team.
    pub fn checked_len(&self, team: TeamId, slot: SlotId) -> u64
        ensures many { result ≡ length (locations_in team slot self.now.checked) }
        ensures found { result ≡ count_by (λ h. (h.slot == slot)
            && is_among self.now.checked team slot h.location) self.now.seed.locations }
    {
        self.found_row(team, slot).len() as u64
    }

    /// How many locations a slot has.
    pub fn locations_len(&self, slot: SlotId) -> u64
        ensures { result ≡ count_by (λ h. h.slot == slot) self.now.seed.locations }
    {
        self.places.size(slot)
    }

    /// The locations of a slot that are checked in a team, in the order of their checks.
    pub fn checked_of(&self, team: TeamId, slot: SlotId) -> Result<List<LocId>, Memory>
        ensures { IfOk result (λ ls. ls ≡ locations_in team slot self.now.checked) }
    {
        locations_at(self.alloc, &self.places, self.found_row(team, slot))
    }

    /// The items that a mask keeps of what a slot received in a team, from an index on; none past
    /// the end. Bit 1 of the mask keeps items from other worlds, bit 2 items from the own world,
    /// bit 4 items to start with.
    pub fn view(
        &self,
        team: TeamId,
        slot: SlotId,
        mask: u8,
        from: u64,
    ) -> Result<List<NetItem>, Memory>
        ensures { IfOk result (λ is. is ≡ drop from (view_of self.now mask team slot)) }
    {
        let handling = Handling { slot, mask };
        let mut tail = Tail {
            skip: from,
            items: List::new(self.alloc),
        };
        tail.offer_own_starts(&handling, &self.places)?;
        tail.offer_all(&handling, &self.places, self.received_row(team, slot))?;
        Ok(tail.items)
    }

    /// How many items a mask keeps of what a slot received in a team.
    pub fn view_len(&self, team: TeamId, slot: SlotId, mask: u8) -> u64
        ensures { result ≡ length (view_of self.now mask team slot) }
    {
        let handling = Handling { slot, mask };
        let starts = count_own_starts(&handling, &self.places);
        let found = count_found(&handling, &self.places, self.received_row(team, slot));
        (starts + found) as u64
    }

    /// Of the numbers that a client sent, those that are locations of the slot and aren't checked
    /// in the team, each once, in order.
    pub fn fresh_of(
        &self,
        team: TeamId,
        slot: SlotId,
        numbers: &[i128],
    ) -> Result<List<(SlotId, LocId)>, Memory>
        ensures checks { IfOk result
            (λ ps. checks_of team ps ≡ new_at self.now team slot numbers.now) }
        ensures fresh { IfOk result (λ ps. AreFresh self.now.seed self.now.checked team ps) }
    {
        fresh_numbers(self, self.alloc, team, slot, numbers)
    }

    /// The items that a mask keeps of those that pairs, once they are checked in a team, give to a
    /// slot of it, in order.
    pub fn given_by(
        &self,
        team: TeamId,
        slot: SlotId,
        mask: u8,
        pairs: &[(SlotId, LocId)],
    ) -> Result<List<NetItem>, Memory>
        ensures { IfOk result (λ is. is ≡ given_by self.now mask team slot pairs.now) }
    {
        given(self.alloc, &self.places, &Handling { slot, mask }, pairs)
    }

    /// The memory for so many checks more.
    pub fn room_for(&self, more: u64) -> Result<CheckGrowth, Memory>
        ensures { IfOk result (λ g. HasLogRoom self.now g more) }
    {
        CheckGrowth::of(self.alloc, &self.order, more as usize)
    }

    /// Adds those of the pairs that are locations of their slots and aren't checked in the team,
    /// each once, in order, and gives them. After `Memory` the log is as before.
    pub fn add(
        &mut self,
        team: TeamId,
        pairs: &[(SlotId, LocId)],
    ) -> Result<List<(SlotId, LocId)>, Memory>
        ensures added { IfOk result (λ ps. checks_of team ps ≡ new_among self.old team pairs.now) }
        ensures seed { self.new.seed ≡ self.old.seed }
        ensures checked { IfOk result
            (λ ps. self.new.checked ≡ self.old.checked ++ checks_of team ps) }
        ensures memory { OnErr result (self.new ≡ self.old) }
    {
        let fresh = fresh_pairs(self, self.alloc, team, pairs)?;
        let growth = self.room_for(fresh.len() as u64)?;
        self.add_grown(team, fresh.as_slice(), growth);
        Ok(fresh)
    }

    /// Adds fresh checks of a team, and takes no memory. What stood in the log stays.
    pub fn add_grown(&mut self, team: TeamId, fresh: &[(SlotId, LocId)], growth: CheckGrowth)
        requires fresh { AreFresh self.old.seed self.old.checked team fresh.now }
        requires room { HasLogRoom self.old growth (length fresh.now) }
        ensures seed { self.new.seed ≡ self.old.seed }
        ensures checked { self.new.checked ≡ self.old.checked ++ checks_of team fresh.now }
    {
        let CheckGrowth { order, mut checks } = growth;
        enter_all(
            &self.places,
            &self.order,
            &mut self.rows,
            team,
            fresh,
            &mut checks,
        );
        order.fill(&mut self.order, &mut checks);
    }
}

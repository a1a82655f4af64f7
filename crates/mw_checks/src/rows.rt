ghost use Rattle.std.specs.Prelude.{◌≡◌, ◌+◌, ◌*◌, ◌<◌, ◌≤◌, ◌^◌, ◌++◌, ◌∷◌, [], true, false};
ghost use Rattle.std.specs.Prelude.{IfOk, length, get_or, set, replicate};
ghost use Rattle.std.specs.Prelude.{vec_len, vec_capacity};
ghost use Rattle.std.specs.declared.alloc.Global.{Global};
ghost use Rattle.mw_checks.specs.Kept.{KeptIn, HasPlaces};
ghost use Rattle.std.specs.Ordering.{nat_cmp};
ghost use Rattle.mw_model.specs.Ascending.{Ascend};
ghost use Rattle.mw_model.specs.Seed.{has_number, is_owner};
ghost use Rattle.mw_checks.specs.Rows.{seat, Empty, HasPlace, HavePlaces, Put, PutFor, receivers_of};

use crate::counts::{SLOTS, receipts_of};
use crate::places::Places;
use mw_base::{Memory, SlotId, TeamId};
use mw_multidata::{Held, Multidata};
use std::alloc::Global;

/// The teams that there may be.
const TEAMS: usize = 8;

/// Where the flag of a number, or the row of a slot, of a team stands.
fn seat(number: usize, team: TeamId) -> usize
    requires { number < 2 ^ 60 }
    ensures value { result ≡ seat number team }
    ensures team { team < 8 }
{
    TEAMS * number + usize::from(team.get())
}

/// A flag for each location and team, and for each slot and team the numbers of what it received
/// and of its checked locations. Each row has the memory for all that may still come.
#[derive(Drop)]
pub(crate) struct Rows {
    done: Vec<bool>,
    received: Vec<Vec<u32>>,
    found: Vec<Vec<u32>>,
}

/// Empty rows for each slot and team, with memory for as many as are counted for the slot.
fn empty_rows(alloc: Global, counts: &[usize]) -> Result<Vec<Vec<u32>>, Memory>
    requires { length counts.now ≡ 1025 }
    ensures { IfOk result (λ rs. Empty counts.now rs.items) }
{
    let mut rows = Vec::new(alloc);
    for at in 0..TEAMS * SLOTS {
        let row = Vec::with_capacity(alloc, counts[at / TEAMS])?;
        rows.push(row)?;
    }
    Ok(rows)
}

/// A flag for each of so many locations and each team, none set.
fn no_flags(alloc: Global, locations: usize) -> Result<Vec<bool>, Memory>
    requires { locations ≤ 16777216 }
    ensures { IfOk result (λ v. v.items ≡ replicate (8 * locations) false) }
{
    Ok(vec![in alloc; false; TEAMS * locations]?)
}

/// Puts an item at the end of a row that has memory for it.
pub(crate) fn put<T: Drop>(row: &mut Vec<T>, item: T)
    requires { vec_len row.old < vec_capacity row.old }
    ensures items { row.new.items ≡ row.old.items ++ item ∷ [] }
    ensures len { vec_len row.new ≡ vec_len row.old + 1 }
    ensures space { vec_capacity row.old ≤ vec_capacity row.new }
{
    row.push(item).unwrap();
}

/// Puts a number at the end of a row.
fn put_at(rows: &mut Vec<Vec<u32>>, at: usize, number: u32)
    requires { HasPlace rows.old.items at }
    ensures { Put rows.old.items rows.new.items at number }
{
    put(&mut rows[at], number);
}

/// Puts a number at the end of the row of each of these slots in a team. They ascend.
fn put_for_each(rows: &mut Vec<Vec<u32>>, team: TeamId, number: u32, slots: &[SlotId])
    requires places { HavePlaces (has_number slots.now) team rows.old.items }
    requires ascend { Ascend nat_cmp slots.now }
    ensures { PutFor (has_number slots.now) team number rows.old.items rows.new.items }
{
    for slot in slots {
        put_at(rows, seat(usize::from(slot.get()), team), number);
    }
}

/// Puts a number at the end of the row of each owner of a receiver in a team.
fn put_for_owners(
    rows: &mut Vec<Vec<u32>>,
    team: TeamId,
    number: u32,
    multidata: &Multidata,
    receiver: u16,
)
    requires { HavePlaces (is_owner multidata.now receiver) team rows.old.items }
    ensures { PutFor (is_owner multidata.now receiver) team number rows.old.items rows.new.items }
{
    if usize::from(receiver) <= multidata.slots.len() {
        put_at(rows, seat(usize::from(receiver), team), number);
    } else if let Some(group) = multidata.group(receiver) {
        put_for_each(rows, team, number, group.members.as_slice());
    }
}

impl Rows {
    /// No flag is set, and the rows are empty.
    pub(crate) fn new(alloc: Global, places: &Places) -> Result<Rows, Memory>
        ensures { IfOk result (λ r. KeptIn places.now [] r) }
    {
        let receipts = receipts_of(alloc, places.tables().multidata())?;
        let done = no_flags(alloc, places.locations().len())?;
        let received = empty_rows(alloc, &receipts)?;
        let found = empty_rows(alloc, places.sizes())?;
        Ok(Rows {
            done,
            received,
            found,
        })
    }

    /// Whether a location's number is flagged in a team.
    pub(crate) fn is_done(&self, team: TeamId, number: u32) -> bool
        requires { 8 * number + 8 ≤ length self.now.done.items }
        ensures value { result ≡ get_or self.now.done.items (seat number team) false }
        ensures team { team < 8 }
    {
        self.done[seat(number as usize, team)]
    }

    /// The numbers of the items that a slot received in a team.
    pub(crate) fn received_by(&self, team: TeamId, slot: SlotId) -> &Vec<u32>
        requires { length self.now.received.items ≡ 8200 }
        ensures row { result.now ≡ get_or self.now.received.items (seat slot team) result.now }
        ensures ranges { (team < 8) × (slot ≤ 1024) }
    {
        &self.received[seat(usize::from(slot.get()), team)]
    }

    /// The numbers of a slot's checked locations in a team.
    pub(crate) fn found_by(&self, team: TeamId, slot: SlotId) -> &Vec<u32>
        requires { length self.now.found.items ≡ 8200 }
        ensures row { result.now ≡ get_or self.now.found.items (seat slot team) result.now }
        ensures ranges { (team < 8) × (slot ≤ 1024) }
    {
        &self.found[seat(usize::from(slot.get()), team)]
    }

    /// Flags a location in a team, and puts it into its receivers' and its finder's rows. It takes
    /// no memory.
    pub(crate) fn enter(&mut self, multidata: &Multidata, team: TeamId, number: u32, held: &Held)
        requires { HasPlaces self.old multidata.now team number held.now }
        ensures flag { self.new.done.items ≡ set self.old.done.items (seat number team) true }
        ensures received { PutFor (receivers_of multidata.now held.now) team number
            self.old.received.items self.new.received.items }
        ensures found { Put self.old.found.items self.new.found.items
            (seat held.now.slot team) number }
    {
        self.done[seat(number as usize, team)] = true;
        put_for_owners(&mut self.received, team, number, multidata, held.receiver);
        put_at(
            &mut self.found,
            seat(usize::from(held.slot.get()), team),
            number,
        );
    }
}

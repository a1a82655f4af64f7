ghost use Rattle.std.specs.Prelude.{◌≡◌, ◌++◌, ◌∷◌, [], IfOk, OnOk};
ghost use Rattle.mw_protocol.specs.Hints.{shown_status, told_hints};
ghost use Rattle.mw_hints.specs.Book.{hint_of};

use crate::book::HintBook;
use crate::hint::Hint;
use crate::kept::{Kept, Key};
use mw_base::{HintStatus, List, LocId, Memory, SlotId, TeamId};
use mw_multidata::{Checks, Held};

/// A hint as it is told, of what is held at its location.
fn hint_told(finder: SlotId, location: LocId, found: bool, status: HintStatus, held: &Held) -> Hint
    ensures { result ≡ record {
      receiving_player = held.now.receiver;
      finding_player = finder;
      location = location;
      item = held.now.item;
      found = found;
      item_flags = held.now.flags;
      status = shown_status found status;
    } }
{
    Hint {
        receiving_player: held.receiver,
        finding_player: finder,
        location,
        item: held.item,
        found,
        item_flags: held.flags,
        status: if found { 40 } else { status.get() },
    }
}

/// Adds a hint of the team whose finder is the slot, or whose item is the slot's.
fn add_told<C: Checks>(
    told: &mut List<Hint>,
    team: TeamId,
    slot: SlotId,
    key: Key,
    kept: &Kept,
    log: &C,
) -> Result<(), Memory>
    ensures { OnOk result (told.new ≡ told.old ++ told_hints (C.seed log.now) (C.is_found log.now)
        team slot (hint_of (key, kept.now) ∷ [])) }
{
    let (hint_team, finder, location) = key;
    if hint_team != team {
        return Ok(());
    }
    if let Some(held) = log.held(finder, location) {
        if finder == slot || log.tables().multidata().is_owner(held.receiver, slot) {
            let found = log.is_checked(team, finder, location);
            told.push(hint_told(finder, location, found, kept.status, held))?;
        }
    }
    Ok(())
}

impl HintBook {
    /// The hints of a team whose finder is the slot, or whose receiver is the slot or a group that
    /// it is a member of, in the order in which they were made. Memory is its only error.
    pub fn list<C: Checks>(&self, team: TeamId, slot: SlotId, log: &C) -> Result<List<Hint>, Memory>
        ensures { IfOk result (λ hs. hs ≡ told_hints (C.seed log.now) (C.is_found log.now)
            team slot self.now.hints) }
    {
        let mut told = List::new(self.alloc);
        for at in 0..self.hints.len() {
            let (key, kept) = self.hints.get_index(at).unwrap();
            add_told(&mut told, team, slot, *key, kept, log)?;
        }
        Ok(told)
    }
}

ghost use Rattle.std.specs.Prelude.{◌≡◌, ◌≤◌, ◌+◌, [], IfOk, OnOk, OnErr, length, map, option_map};
ghost use Rattle.mw_protocol.specs.HintList.{bought_by, hint_at, hinted, hinted_all, made};
ghost use Rattle.mw_protocol.specs.Records.{hint};
ghost use Rattle.mw_records.specs.Records.{hint_view};
ghost use Rattle.mw_hints.specs.Book.{hint_of};
ghost use Rattle.mw_hints.specs.Room.{HasHintRoom};

use crate::counts::{Counts, count_of, count_one};
use crate::growth::HintGrowth;
use crate::kept::{Hints, Kept, Key, find, insert, mark};
use crate::widening::Wider;
use indexmap::IndexMap;
use mw_base::{HintRecord, LocId, Memory, SlotId, TeamId};
use std::alloc::Global;
use std::marker::Model;

/// The hints of a room, one for a location of a team at most, in the order in which they were
/// made, and beside them how many each slot bought.
pub struct HintBook {
    pub(crate) alloc: Global,
    pub(crate) hints: Hints,
    counts: Counts,
}

/// By hand, so that whoever lets it go calls this, and what it frees is listed once.
impl Drop for HintBook {
    fn drop(self) {
        let HintBook {
            alloc: _,
            hints: _,
            counts: _,
        } = self;
    }
}

impl Model for HintBook {
    ghost use Rattle.std.specs.Prelude.{map};
    ghost use Rattle.indexmap.specs.IndexMap.{index_map_len, spare};
    ghost use Rattle.mw_hints.specs.Book.{Book, AreCounted, hint_of};

    ghost Value = { Book };

    ghost view = { λ b. record {
      hints = map hint_of b.hints.entries;
      space = spare b.hints;
      buyers = index_map_len b.counts;
      buyer_space = spare b.counts;
    } };

    ghost invariant = { λ b. AreCounted (map hint_of b.hints.entries) b.counts };
}

impl HintBook {
    /// A book of no hints, which takes no memory yet.
    pub fn new(alloc: Global) -> HintBook
        ensures { result.hints ≡ [] }
    {
        HintBook {
            alloc,
            hints: IndexMap::new(alloc),
            counts: IndexMap::new(alloc),
        }
    }

    /// The hint of a finder's location in a team, as it is recorded with its status of now.
    pub fn hint_at(&self, team: TeamId, finder: SlotId, location: LocId) -> Option<HintRecord>
        ensures { option_map hint_view result
            ≡ option_map hint (hint_at self.now.hints team finder location) }
    {
        match find(&self.hints, &(team, finder, location)) {
            Some(kept) => Some(HintRecord::Made {
                team,
                finder,
                loc: location,
                bought: kept.bought,
                buyer: kept.buyer,
                status: kept.status,
            }),
            None => None,
        }
    }

    /// How many hints a slot of a team bought.
    pub(crate) fn bought_len(&self, team: TeamId, slot: SlotId) -> u64
        ensures { result ≡ length (bought_by self.now.hints team slot) }
    {
        count_of(&self.counts, team, slot)
    }

    /// Makes a hint, unless there is one.
    fn make(&mut self, key: Key, kept: Kept)
        requires room { 1 ≤ self.old.space }
        requires counts { 1 ≤ self.old.buyer_space }
        ensures hints { self.new.hints ≡ made self.old.hints (hint_of (key, kept)) }
        ensures room { self.old.space ≤ self.new.space + 1 }
        ensures counts { self.old.buyer_space ≤ self.new.buyer_space + 1 }
    {
        if find(&self.hints, &key).is_some() {
            return;
        }
        let _small = self.hints.len();
        let (team, _, _) = key;
        let (bought, buyer) = (kept.bought, kept.buyer);
        insert(&mut self.hints, key, kept);
        if bought {
            count_one(&mut self.counts, team, buyer);
        }
    }

    /// Enters a record, where there is room for it.
    fn enter(&mut self, entry: &HintRecord)
        requires room { 1 ≤ self.old.space }
        requires counts { 1 ≤ self.old.buyer_space }
        ensures hints { self.new.hints ≡ hinted self.old.hints (hint_view entry.now) }
        ensures room { self.old.space ≤ self.new.space + 1 }
        ensures counts { self.old.buyer_space ≤ self.new.buyer_space + 1 }
    {
        match *entry {
            HintRecord::Made {
                team,
                finder,
                loc,
                bought,
                buyer,
                status,
            } => self.make(
                (team, finder, loc),
                Kept {
                    bought,
                    buyer,
                    status,
                },
            ),
            HintRecord::Marked {
                team,
                finder,
                loc,
                status,
            } => mark(&mut self.hints, (team, finder, loc), status),
        }
    }

    /// The memory for this many more records.
    pub fn room_for(&self, more: u64) -> Result<HintGrowth, Memory>
        ensures { IfOk result (λ g. HasHintRoom self.now g more) }
    {
        let hints = Wider::of(self.alloc, &self.hints, more as usize)?;
        let buyers = Wider::of(self.alloc, &self.counts, more as usize)?;
        Ok(HintGrowth { hints, buyers })
    }

    /// Enters a hint, unless its location has one, or the status of one that is there. After
    /// `Memory` the book is as before.
    pub fn add(&mut self, entry: &HintRecord) -> Result<(), Memory>
        ensures ok { OnOk result (self.new.hints ≡ hinted self.old.hints (hint_view entry.now)) }
        ensures err { OnErr result (self.new ≡ self.old) }
    {
        let growth = self.room_for(1)?;
        self.add_grown(&[*entry], growth);
        Ok(())
    }

    /// Enters records in turn, and takes no memory.
    pub fn add_grown(&mut self, fresh: &[HintRecord], growth: HintGrowth)
        requires { HasHintRoom self.old growth (length fresh.now) }
        ensures { self.new.hints ≡ hinted_all self.old.hints (map hint_view fresh.now) }
    {
        let HintGrowth { hints, buyers } = growth;
        hints.widen(&mut self.hints, fresh.len());
        buyers.widen(&mut self.counts, fresh.len());
        for entry in fresh {
            self.enter(entry);
        }
    }
}

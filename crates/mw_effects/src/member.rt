ghost use Rattle.std.specs.Prelude.{◌≡◌, IfOk, unwrap_or};
ghost use Rattle.mw_protocol.specs.Connecting.{updated as updated_lem};

use mw_base::{List, Memory, SlotId, TeamId, Text, copy_texts};
use mw_packets_in::ConnectUpdate;
use std::alloc::Global;
use std::marker::Model;

/// The team and slot that a session plays, the items that it wants, what kind of client it is, and
/// the keys of the data storage that it watches.
pub struct Member {
    /// The team.
    pub team: TeamId,
    /// The slot.
    pub slot: SlotId,
    /// The mask of the items that it wants: 0, 1, 3, 5 or 7.
    pub mask: u8,
    /// What kind of client it is.
    pub tags: List<Text>,
    /// The keys of the data storage whose changes it is told of.
    pub keys: List<Text>,
}

/// By hand, so that whoever lets it go calls this, and what it frees is listed once.
impl Drop for Member {
    fn drop(self) {
        let Member {
            team: _,
            slot: _,
            mask: _,
            tags: _,
            keys: _,
        } = self;
    }
}

impl Model for Member {
    ghost use Rattle.mw_protocol.specs.Connecting as plain;

    ghost Value = { plain.Member };

    ghost view = { λ m. record {
      team = m.team;
      slot = m.slot;
      mask = m.mask;
      tags = m.tags;
      keys = m.keys;
    } };
}

impl Member {
    ghost use Rattle.std.specs.Prelude.{◌≡◌, IfOk};

    /// The same member again.
    pub fn copy(&self, alloc: Global) -> Result<Member, Memory>
        ensures { IfOk result (λ m. m ≡ self.now) }
    {
        Ok(Member {
            team: self.team,
            slot: self.slot,
            mask: self.mask,
            tags: copy_texts(alloc, self.tags.as_slice())?,
            keys: copy_texts(alloc, self.keys.as_slice())?,
        })
    }
}

/// Copies of the tags, where there are some.
pub fn tags_or<'a>(tags: &'a Option<List<Text>>, before: &'a [Text]) -> &'a [Text]
    ensures { result.now ≡ unwrap_or tags.now before.now }
{
    match tags {
        Some(tags) => tags.as_slice(),
        None => before,
    }
}

/// The member after a ConnectUpdate: what is given takes the place of what was there.
pub fn updated(alloc: Global, member: &Member, update: &ConnectUpdate) -> Result<Member, Memory>
    ensures { IfOk result (λ m. m ≡ updated_lem member.now update.now) }
{
    Ok(Member {
        team: member.team,
        slot: member.slot,
        mask: update.items_handling.unwrap_or(member.mask),
        tags: copy_texts(alloc, tags_or(&update.tags, member.tags.as_slice()))?,
        keys: copy_texts(alloc, member.keys.as_slice())?,
    })
}

ghost use Rattle.mw_json.specs.View.{view, members_view};
ghost use Rattle.mw_json.specs.Grammar.{GivesBy};
ghost use Rattle.mw_packets_in.specs.Kept.{AreRead};
ghost use Rattle.mw_packets_in.specs.Rows.{bounce_at, get_at, set_at, set_notify_at};
ghost use Rattle.mw_packets_in.specs.View.{packet_view};

use crate::further::further_of;
use crate::operations::operations_field;
use crate::packet::{Packet, boxed};
use crate::parts::{any_in, flag_in, text_in, texts_in, wholes_in};
use crate::row::Row;
use mw_base::{List, Text};
use mw_json::{Member, Refusal, SetPacket, Tree, field_if, field_in, field_or, field_or_seen};
use std::alloc::Global;
use std::marker::Model;

/// A message for the clients whose game, slot or tag is among these.
#[derive(Drop)]
pub struct Bounce {
    /// Games; none where it is absent.
    pub games: Option<List<Text>>,
    /// Tags; none where it is absent.
    pub tags: Option<List<Text>>,
    /// Slots, some of which may not be there, from -2^63 to 2^64 - 1; none where it is absent.
    pub slots: Option<List<i128>>,
    /// Further members, in ascending byte order of their names, none of them named `cmd`, `games`,
    /// `tags` or `slots`.
    pub further: List<Member>,
}

impl Model for Bounce {
    ghost use Rattle.std.specs.Coded.{codes};
    ghost use Rattle.mw_json.specs.TreeCode.{coded_members};
    ghost use Rattle.mw_json.specs.View.{members_view};
    ghost use Rattle.mw_protocol.specs.Packets as plain;
    ghost use Rattle.mw_packets_in.specs.Kept.{IsBounce};

    ghost Value = { plain.Bounce };

    ghost coded = { Prim.hlevel (codes, coded_members) };

    ghost view = { λ b. record {
      games = b.games;
      tags = b.tags;
      slots = b.slots;
      further = members_view b.further;
    } };

    ghost invariant = { λ b. IsBounce record {
      games = b.games;
      tags = b.tags;
      slots = b.slots;
      further = members_view b.further;
    } };
}

/// A question for values of the data storage.
#[derive(Drop)]
pub struct Get {
    /// Their keys.
    pub keys: List<Text>,
    /// Further members, in ascending byte order of their names, none of them named `cmd` or `keys`.
    pub further: List<Member>,
}

impl Model for Get {
    ghost use Rattle.std.specs.Coded.{codes};
    ghost use Rattle.mw_json.specs.TreeCode.{coded_members};
    ghost use Rattle.mw_json.specs.View.{members_view};
    ghost use Rattle.mw_packets_in.specs.Kept as plain;
    ghost use Rattle.mw_packets_in.specs.Kept.{get_names};
    ghost use Rattle.mw_model.specs.Passed.{AreFurther};

    ghost Value = { plain.Get };

    ghost coded = { Prim.hlevel (codes, coded_members) };

    ghost view = { λ g. record { keys = g.keys; further = members_view g.further } };

    ghost invariant = { λ g. AreFurther get_names (members_view g.further) };
}

/// The members of a Bounce.
#[tactic(auto, unfolding(crate::specs::Rows::bounce_at))]
pub(crate) fn bounce_of(alloc: Global, members: &[Member]) -> Result<Packet, Refusal>
    requires { AreRead 62 (members_view members.now) }
    ensures { GivesBy packet_view result (bounce_at (members_view members.now)) }
{
    let games = field_if(alloc, members, "games", texts_in)?;
    let tags = field_if(alloc, members, "tags", texts_in)?;
    let slots = field_if(alloc, members, "slots", wholes_in)?;
    let further = further_of(alloc, Row::Bounce, members)?;
    let bounce = Bounce {
        games,
        tags,
        slots,
        further,
    };
    Ok(Packet::Bounce(boxed(alloc, bounce)?))
}

/// The members of a Get.
#[tactic(auto, using(crate::proofs::Passed::get_kept), unfolding(crate::specs::Rows::get_at))]
pub(crate) fn get_of(alloc: Global, members: &[Member]) -> Result<Packet, Refusal>
    requires { AreRead 62 (members_view members.now) }
    ensures { GivesBy packet_view result (get_at (members_view members.now)) }
{
    let keys = field_in(alloc, members, "keys", texts_in)?;
    let further = further_of(alloc, Row::Get, members)?;
    Ok(Packet::Get(Get { keys, further }))
}

/// The members of a Set.
#[tactic(auto, unfolding(crate::specs::Rows::set_at))]
pub(crate) fn set_of(alloc: Global, members: &[Member]) -> Result<Packet, Refusal>
    requires { AreRead 62 (members_view members.now) }
    ensures { GivesBy packet_view result (set_at (members_view members.now)) }
{
    let key = field_in(alloc, members, "key", text_in)?;
    let default = field_or_seen(alloc, members, "default", Tree::Whole(0), any_in)?;
    let want_reply = field_or(alloc, members, "want_reply", false, flag_in)?;
    let operations = operations_field(alloc, members)?;
    let further = further_of(alloc, Row::Set, members)?;
    let set = SetPacket {
        key,
        default,
        want_reply,
        operations,
        further,
    };
    Ok(Packet::Change(boxed(alloc, set)?))
}

/// The members of a SetNotify.
#[tactic(auto, unfolding(crate::specs::Rows::set_notify_at))]
pub(crate) fn set_notify_of(alloc: Global, members: &[Member]) -> Result<Packet, Refusal>
    ensures { GivesBy packet_view result (set_notify_at (members_view members.now)) }
{
    let keys = field_in(alloc, members, "keys", texts_in)?;
    Ok(Packet::SetNotify { keys })
}

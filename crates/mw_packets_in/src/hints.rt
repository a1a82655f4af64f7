ghost use Rattle.std.specs.Prelude.{◌≡◌};
ghost use Rattle.mw_json.specs.View.{view, members_view};
ghost use Rattle.mw_json.specs.Grammar.{Gives, GivesBy};
ghost use Rattle.mw_packets_in.specs.Fields.{hint_status_at};
ghost use Rattle.mw_packets_in.specs.Kept.{is_hint_status as is_hint_status_lem, AreRead};
ghost use Rattle.mw_packets_in.specs.Rows.{update_hint_at};
ghost use Rattle.mw_packets_in.specs.View.{packet_view};

use crate::packet::Packet;
use crate::parts::whole_in;
use mw_json::{Kind, Member, Refusal, Tree, field_if, field_in, number_between, refuse};
use std::alloc::Global;
use std::marker::Model;

/// A change of a hint's status.
#[derive(Drop)]
pub struct UpdateHint {
    /// The finder's slot, from -2^63 to 2^64 - 1.
    pub player: i128,
    /// The location, from -2^63 to 2^64 - 1.
    pub location: i128,
    /// The new status, 0, 10, 20 or 30; none where it is absent.
    pub status: Option<u8>,
}

impl Model for UpdateHint {
    ghost use Rattle.mw_protocol.specs.Packets as plain;
    ghost use Rattle.mw_packets_in.specs.Kept.{IsUpdateHint};

    ghost Value = { plain.UpdateHint };

    ghost view = { λ u. record { player = u.player; location = u.location; status = u.status } };

    ghost invariant = { λ u. IsUpdateHint record {
      player = u.player;
      location = u.location;
      status = u.status;
    } };
}

fn is_hint_status(number: u8) -> bool
    ensures { result ≡ is_hint_status_lem number }
{
    matches!(number, 0 | 10 | 20 | 30)
}

/// A hint's status.
#[tactic(auto, unfolding(crate::specs::Fields::hint_status_at))]
fn hint_status_in(alloc: Global, tree: &Tree) -> Result<u8, Refusal>
    ensures { Gives result (hint_status_at (view tree.now)) }
{
    let number = number_between(alloc, tree, 0, 255)? as u8;
    if is_hint_status(number) {
        Ok(number)
    } else {
        refuse(alloc, Kind::WrongKind)
    }
}

/// The members of an UpdateHint.
#[tactic(auto, unfolding(crate::specs::Rows::update_hint_at))]
pub(crate) fn update_hint_of(alloc: Global, members: &[Member]) -> Result<Packet, Refusal>
    requires { AreRead 62 (members_view members.now) }
    ensures { GivesBy packet_view result (update_hint_at (members_view members.now)) }
{
    let player = field_in(alloc, members, "player", whole_in)?;
    let location = field_in(alloc, members, "location", whole_in)?;
    let status = field_if(alloc, members, "status", hint_status_in)?;
    Ok(Packet::UpdateHint(UpdateHint {
        player,
        location,
        status,
    }))
}

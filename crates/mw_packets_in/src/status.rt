ghost use Rattle.std.specs.Prelude.{◌≡◌};
ghost use Rattle.mw_json.specs.View.{view, members_view};
ghost use Rattle.mw_json.specs.Grammar.{Gives, GivesBy};
ghost use Rattle.mw_packets_in.specs.Fields.{client_status_at};
ghost use Rattle.mw_packets_in.specs.Kept.{is_client_status as is_client_status_lem};
ghost use Rattle.mw_packets_in.specs.Rows.{status_update_at};
ghost use Rattle.mw_packets_in.specs.View.{packet_view};

use crate::packet::Packet;
use mw_json::{Kind, Member, Refusal, Tree, field_in, number_between, refuse};
use std::alloc::Global;
use std::marker::Model;

/// What the session's slot is doing.
#[derive(Drop)]
pub struct StatusUpdate {
    /// The status: 0 unknown, 5 connected, 10 ready, 20 playing, 30 goal reached.
    pub status: u8,
}

impl Model for StatusUpdate {
    ghost use Rattle.std.specs.Prelude.{ℕ, IsTrue};
    ghost use Rattle.mw_packets_in.specs.Kept.{is_client_status};

    ghost Value = { ℕ };

    ghost view = { λ s. s.status };

    ghost invariant = { λ s. IsTrue (is_client_status s.status) };
}

fn is_client_status(number: u8) -> bool
    ensures { result ≡ is_client_status_lem number }
{
    matches!(number, 0 | 5 | 10 | 20 | 30)
}

/// A slot's status.
#[tactic(auto, unfolding(crate::specs::Fields::client_status_at))]
fn client_status_in(alloc: Global, tree: &Tree) -> Result<u8, Refusal>
    ensures { Gives result (client_status_at (view tree.now)) }
{
    let number = number_between(alloc, tree, 0, 255)? as u8;
    if is_client_status(number) {
        Ok(number)
    } else {
        refuse(alloc, Kind::WrongKind)
    }
}

/// The members of a StatusUpdate.
#[tactic(auto, unfolding(crate::specs::Rows::status_update_at))]
pub(crate) fn status_update_of(alloc: Global, members: &[Member]) -> Result<Packet, Refusal>
    ensures { GivesBy packet_view result (status_update_at (members_view members.now)) }
{
    let status = field_in(alloc, members, "status", client_status_in)?;
    Ok(Packet::StatusUpdate(StatusUpdate { status }))
}

ghost use Rattle.mw_json.specs.View.{view, members_view};
ghost use Rattle.mw_json.specs.Grammar.{Gives, GivesBy, number_at};
ghost use Rattle.mw_packets_in.specs.Kept.{AreRead};
ghost use Rattle.mw_packets_in.specs.Rows.{checks_at, scouts_at};
ghost use Rattle.mw_packets_in.specs.View.{packet_view};

use crate::packet::Packet;
use crate::parts::wholes_in;
use mw_base::List;
use mw_json::{Member, Refusal, Tree, field_in, field_or, number_between};
use std::alloc::Global;
use std::marker::Model;

/// Locations of the session's own slot are checked.
#[derive(Drop)]
pub struct LocationChecks {
    /// Their numbers, from -2^63 to 2^64 - 1, some of which may be no location's.
    pub locations: List<i128>,
}

impl Model for LocationChecks {
    ghost use Rattle.std.specs.Prelude.{ℤ, All, List};
    ghost use Rattle.mw_model.specs.Json.{IsInRange};

    ghost Value = { List ℤ };

    ghost view = { λ c. c.locations };

    ghost invariant = { λ c. All IsInRange c.locations };
}

/// A question for what stands at locations of the session's own slot.
#[derive(Drop)]
pub struct LocationScouts {
    /// Their numbers, from -2^63 to 2^64 - 1, some of which may be no location's.
    pub locations: List<i128>,
    /// Whether hints are made of them: 0 for none, 1 for hints, 2 for hints of which the new ones
    /// alone are told.
    pub create_as_hint: u8,
}

impl Model for LocationScouts {
    ghost use Rattle.mw_packets_in.specs.Kept as plain;
    ghost use Rattle.mw_packets_in.specs.Kept.{IsScouts};

    ghost Value = { plain.LocationScouts };

    ghost view = { λ s. record { locations = s.locations; create_as_hint = s.create_as_hint } };

    ghost invariant = { λ s. IsScouts record {
      locations = s.locations;
      create_as_hint = s.create_as_hint;
    } };
}

/// The members of a LocationChecks.
#[tactic(auto, unfolding(crate::specs::Rows::checks_at))]
pub(crate) fn checks_of(alloc: Global, members: &[Member]) -> Result<Packet, Refusal>
    requires { AreRead 62 (members_view members.now) }
    ensures { GivesBy packet_view result (checks_at (members_view members.now)) }
{
    let locations = field_in(alloc, members, "locations", wholes_in)?;
    Ok(Packet::LocationChecks(LocationChecks { locations }))
}

/// Whether hints are made.
fn hint_choice_in(alloc: Global, tree: &Tree) -> Result<u8, Refusal>
    ensures { Gives result (number_at 0 2 (view tree.now)) }
{
    Ok(number_between(alloc, tree, 0, 2)? as u8)
}

/// The members of a LocationScouts.
#[tactic(auto, unfolding(crate::specs::Rows::scouts_at))]
pub(crate) fn scouts_of(alloc: Global, members: &[Member]) -> Result<Packet, Refusal>
    requires { AreRead 62 (members_view members.now) }
    ensures { GivesBy packet_view result (scouts_at (members_view members.now)) }
{
    let locations = field_in(alloc, members, "locations", wholes_in)?;
    let create_as_hint = field_or(alloc, members, "create_as_hint", 0, hint_choice_in)?;
    Ok(Packet::LocationScouts(LocationScouts {
        locations,
        create_as_hint,
    }))
}

//! What the sessions of `stress` send.
ghost use Rattle.std.specs.Prelude.{◌≡◌, ◌∷◌, [], IfOk, codes};
ghost use Rattle.mw_packets_in.specs.View.{packet_view};
ghost use Rattle.mw_stress.specs.Sent.{checking, connecting};

use crate::players::player_name;
use mw_base::{List, Memory, Text};
use mw_packets_in::{Connect, LocationChecks, Packet, Version};
use std::alloc::Global;

/// The tags of a session that hears of no prints.
fn quiet_tags(alloc: Global) -> Result<List<Text>, Memory>
    ensures { IfOk result (λ tags. tags ≡ codes "NoText" ∷ []) }
{
    let mut tags = List::new(alloc);
    tags.push(Text::of(alloc, "NoText")?)?;
    Ok(tags)
}

/// The player of a slot wants to hear of all items, and of no prints.
pub fn connect_of_player(alloc: Global, slot: u32) -> Result<Packet, Memory>
    ensures { IfOk result (λ p. packet_view p ≡ connecting slot) }
{
    let name = player_name(alloc, slot)?;
    let password = Some(Text::of(alloc, "")?);
    let game = Some(Text::of(alloc, "Stress")?);
    let tags = Some(quiet_tags(alloc)?);
    let fields = Connect {
        name,
        password,
        game,
        version: Version {
            major: 0,
            minor: 5,
            build: 0,
        },
        items_handling: Some(7),
        tags,
    };
    Ok(Packet::Connect(Box::new(alloc, fields)?))
}

/// One location is checked.
pub fn checks_of_one(alloc: Global, location: u32) -> Result<Packet, Memory>
    ensures { IfOk result (λ p. packet_view p ≡ checking location) }
{
    let mut locations = List::new(alloc);
    locations.push(i128::from(location))?;
    Ok(Packet::LocationChecks(LocationChecks { locations }))
}

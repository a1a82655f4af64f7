ghost use Rattle.std.specs.Prelude.{◌≡◌, IfOk};
ghost use Rattle.mw_protocol.specs.Prints.{printed};
ghost use Rattle.mw_protocol.specs.Prints as prints;
ghost use Rattle.mw_packets_out.specs.View.{packet_view};

use crate::print::{message_members, of_text, player_members, tagged_members};
use mw_base::{List, Memory, SlotId, TeamId, Text};
use mw_packets_out::ServerPacket;
use std::alloc::Global;

/// A player joined its team with these tags. `name` is the slot's name in the team. `Memory` is the
/// only error, of this and of each print below.
pub fn joined(
    alloc: Global,
    team: TeamId,
    slot: SlotId,
    tags: &[Text],
    name: &str,
) -> Result<ServerPacket, Memory>
    ensures { IfOk result (λ p. packet_view p
        ≡ printed (prints.joined team slot tags.now name.now)) }
{
    let further = tagged_members(alloc, team, slot, tags)?;
    let text = format!(in alloc; "{name} joined")?;
    of_text(alloc, "Join", further, text)
}

/// A player left its team.
pub fn left(alloc: Global, team: TeamId, slot: SlotId, name: &str) -> Result<ServerPacket, Memory>
    ensures { IfOk result (λ p. packet_view p ≡ printed (prints.left team slot name.now)) }
{
    let further = player_members(alloc, team, slot)?;
    let text = format!(in alloc; "{name} left")?;
    of_text(alloc, "Part", further, text)
}

/// A player has these tags now.
pub fn changed_tags(
    alloc: Global,
    team: TeamId,
    slot: SlotId,
    tags: &[Text],
    name: &str,
) -> Result<ServerPacket, Memory>
    ensures { IfOk result (λ p. packet_view p
        ≡ printed (prints.changed_tags team slot tags.now name.now)) }
{
    let further = tagged_members(alloc, team, slot, tags)?;
    let text = format!(in alloc; "{name} changed tags")?;
    of_text(alloc, "TagsChanged", further, text)
}

/// A player says a text.
pub fn chatted(
    alloc: Global,
    team: TeamId,
    slot: SlotId,
    name: &str,
    message: &str,
) -> Result<ServerPacket, Memory>
    ensures { IfOk result (λ p. packet_view p
        ≡ printed (prints.chatted team slot name.now message.now)) }
{
    let further = message_members(alloc, team, slot, message)?;
    let text = format!(in alloc; "{name}: {message}")?;
    of_text(alloc, "Chat", further, text)
}

/// A player reached the goal.
pub fn reached_goal(
    alloc: Global,
    team: TeamId,
    slot: SlotId,
    name: &str,
) -> Result<ServerPacket, Memory>
    ensures { IfOk result (λ p. packet_view p ≡ printed (prints.reached_goal team slot name.now)) }
{
    let further = player_members(alloc, team, slot)?;
    let text = format!(in alloc; "{name} reached the goal")?;
    of_text(alloc, "Goal", further, text)
}

/// A player gave all that its world holds.
pub fn released(
    alloc: Global,
    team: TeamId,
    slot: SlotId,
    name: &str,
) -> Result<ServerPacket, Memory>
    ensures { IfOk result (λ p. packet_view p ≡ printed (prints.released team slot name.now)) }
{
    let further = player_members(alloc, team, slot)?;
    let text = format!(in alloc; "{name} released")?;
    of_text(alloc, "Release", further, text)
}

/// A player got all that other worlds hold for it.
pub fn collected(
    alloc: Global,
    team: TeamId,
    slot: SlotId,
    name: &str,
) -> Result<ServerPacket, Memory>
    ensures { IfOk result (λ p. packet_view p ≡ printed (prints.collected team slot name.now)) }
{
    let further = player_members(alloc, team, slot)?;
    let text = format!(in alloc; "{name} collected")?;
    of_text(alloc, "Collect", further, text)
}

/// The answer to a command.
#[tactic(auto, using(crate::proofs::Kept::nothing_prints))]
pub fn command_result(alloc: Global, answer: &str) -> Result<ServerPacket, Memory>
    ensures { IfOk result (λ p. packet_view p ≡ printed (prints.command_result answer.now)) }
{
    let text = String::from_str(alloc, answer)?;
    of_text(alloc, "CommandResult", List::new(alloc), text)
}

ghost use Rattle.std.specs.Prelude.{◌≡◌, IfOk, List, codes, map, string_bytes, ℕ};
ghost use Rattle.mw_model.specs.Json.{member, words};
ghost use Rattle.mw_protocol.specs.Messages.{print};
ghost use Rattle.mw_protocol.specs.Prints.{of_player, of_tagged, one_text, part_json};
ghost use Rattle.mw_json.specs.View.{view, members_view};
ghost use Rattle.mw_packets_out.specs.View.{packet_view};
ghost use Rattle.mw_chat.specs.Kept.{AreSound, CanPrint};

use crate::parts::{Piece, print_parts};
use mw_base::{List, Memory, SlotId, TeamId, Text};
use mw_json::{Field, Member, Tree, members};
use mw_packets_out::{PrintJson, ServerPacket, texts_tree};
use std::alloc::Global;

/// A print of these parts.
#[tactic(auto, using(crate::proofs::Kept::is_print))]
pub(crate) fn of_parts(
    alloc: Global,
    kind: &str,
    further: List<Member>,
    content: List<Tree>,
) -> Result<ServerPacket, Memory>
    requires further { CanPrint kind.now (members_view further) }
    requires content { AreSound (map view content) }
    ensures { IfOk result (λ p. packet_view p ≡ print (record {
      kind = kind.now;
      further = members_view further;
      content = map view content;
    })) }
{
    let kind = Text::of(alloc, kind)?;
    Ok(ServerPacket::PrintJson(PrintJson {
        kind,
        further,
        content,
    }))
}

/// A print of one text.
pub(crate) fn of_text(
    alloc: Global,
    kind: &str,
    further: List<Member>,
    text: String,
) -> Result<ServerPacket, Memory>
    requires { CanPrint kind.now (members_view further) }
    ensures { IfOk result (λ p. packet_view p ≡ print (record {
      kind = kind.now;
      further = members_view further;
      content = map part_json (one_text (string_bytes text));
    })) }
{
    let content = print_parts(alloc, &[Piece::Text(text.as_str())])?;
    of_parts(alloc, kind, further, content)
}

/// The members that tell a player.
pub(crate) fn player_members(
    alloc: Global,
    team: TeamId,
    slot: SlotId,
) -> Result<List<Member>, Memory>
    ensures value { IfOk result (λ ms. members_view ms ≡ of_player team slot) }
    ensures prints { IfOk result (λ ms. (kind : List ℕ) → CanPrint kind (members_view ms)) }
{
    let further = members(
        alloc,
        &mut [
            ("slot", Field::Number(u64::from(slot.get()))),
            ("team", Field::Number(u64::from(team.get()))),
        ],
    )?;
    Ok(further)
}

/// The members that tell a player and its tags.
pub(crate) fn tagged_members(
    alloc: Global,
    team: TeamId,
    slot: SlotId,
    tags: &[Text],
) -> Result<List<Member>, Memory>
    ensures value { IfOk result (λ ms. members_view ms ≡ of_tagged team slot tags.now) }
    ensures prints { IfOk result (λ ms. (kind : List ℕ) → CanPrint kind (members_view ms)) }
{
    let further = members(
        alloc,
        &mut [
            ("slot", Field::Number(u64::from(slot.get()))),
            ("tags", Field::Built(texts_tree(alloc, tags))),
            ("team", Field::Number(u64::from(team.get()))),
        ],
    )?;
    Ok(further)
}

/// The members that tell a player and what it says.
pub(crate) fn message_members(
    alloc: Global,
    team: TeamId,
    slot: SlotId,
    message: &str,
) -> Result<List<Member>, Memory>
    ensures value { IfOk result (λ ms. members_view ms
        ≡ member (codes "message") (words message.now) (of_player team slot)) }
    ensures prints { IfOk result (λ ms. (kind : List ℕ) → CanPrint kind (members_view ms)) }
{
    let further = members(
        alloc,
        &mut [
            ("message", Field::Words(message)),
            ("slot", Field::Number(u64::from(slot.get()))),
            ("team", Field::Number(u64::from(team.get()))),
        ],
    )?;
    Ok(further)
}

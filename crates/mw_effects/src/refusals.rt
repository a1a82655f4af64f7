ghost use Rattle.std.specs.Prelude.{◌≡◌, IfOk};
ghost use Rattle.mw_protocol.specs.Messages as plain;
ghost use Rattle.mw_protocol.specs.Words as words;
ghost use Rattle.mw_packets_in.specs.View.{bad_view, kind_view};
ghost use Rattle.mw_packets_out.specs.View as out;

use mw_base::{Memory, Text};
use mw_packets_in::{Bad, BadKind};
use mw_packets_out::{InvalidKind, ServerPacket};
use std::alloc::Global;

/// What is wrong, as the answer says it.
fn invalid_kind(kind: BadKind) -> InvalidKind
    ensures { out.kind_view result ≡ kind_view kind }
{
    match kind {
        BadKind::Cmd => InvalidKind::Cmd,
        BadKind::Arguments => InvalidKind::Arguments,
    }
}

fn copy_text(alloc: Global, text: &Option<Text>) -> Result<Option<Text>, Memory>
    ensures { IfOk result (λ t. t ≡ text.now) }
{
    match text {
        Some(text) => Ok(Some(Text::of(alloc, text.as_str())?)),
        None => Ok(None),
    }
}

/// The answer to what is no packet. Memory is its only error.
pub fn invalid_packet(alloc: Global, bad: &Bad) -> Result<ServerPacket, Memory>
    ensures { IfOk result (λ p. out.packet_view p ≡ plain.invalid_packet (bad_view bad.now)) }
{
    Ok(ServerPacket::InvalidPacket {
        kind: invalid_kind(bad.kind),
        original_cmd: copy_text(alloc, &bad.cmd)?,
        text: Text::of(alloc, bad.why.as_str())?,
    })
}

/// The answer to a Connect of a session that plays a slot already. Memory is its only error.
pub fn already_connected(alloc: Global) -> Result<ServerPacket, Memory>
    ensures { IfOk result (λ p. out.packet_view p
        ≡ plain.invalid_packet words.already_connected) }
{
    Ok(ServerPacket::InvalidPacket {
        kind: InvalidKind::Arguments,
        original_cmd: Some(Text::of(alloc, "Connect")?),
        text: Text::of(alloc, "already connected")?,
    })
}

ghost use Rattle.std.specs.Prelude.{◌≡◌, IfOk, OnOk, map, string_bytes};
ghost use Rattle.mw_protocol.specs.Messages.{packet_text as packet_text_lem};
ghost use Rattle.mw_packets_out.specs.View.{packet_view};
ghost use Rattle.mw_owed.specs.Written.{all_behind, behind, mark_after as mark_after_lem, closed as closed_lem};

use mw_base::{Memory, Text};
use mw_packets_out::{ServerPacket, packet_text};
use std::alloc::Global;

/// What stands before a packet's text: a comma, or first the bracket that opens the message.
#[tactic(auto, using(crate::proofs::Behind::first_mark, crate::proofs::Behind::later_mark))]
fn mark_after(out: &String) -> &'static str
    ensures { result.now ≡ mark_after_lem (string_bytes out.now) }
{
    if out.len() == 0 { "[" } else { "," }
}

/// Adds a packet's text.
pub(crate) fn put_text(out: &mut String, text: &str) -> Result<(), Memory>
    ensures { OnOk result (string_bytes out.new ≡ behind (string_bytes out.old) text.now) }
{
    let mark = mark_after(out);
    out.push_str(mark)?;
    out.push_str(text)?;
    Ok(())
}

/// Adds packets to the text of a message, which is empty until it has one.
pub fn put_packets(alloc: Global, out: &mut String, packets: &[ServerPacket]) -> Result<(), Memory>
    ensures { OnOk result (string_bytes out.new ≡ all_behind (string_bytes out.old)
        (map packet_text_lem (map packet_view packets.now))) }
{
    for packet in packets {
        let text = packet_text(alloc, packet)?;
        put_text(out, text.as_str())?;
    }
    Ok(())
}

/// The text of a message, where it has a packet.
#[tactic(auto, using(crate::proofs::Behind::none_closed, crate::proofs::Behind::some_closed))]
pub fn closed(out: String) -> Result<Option<Text>, Memory>
    ensures { IfOk result (λ t. t ≡ closed_lem (string_bytes out)) }
{
    if out.len() == 0 {
        return Ok(None);
    }
    let mut out = out;
    out.push_str("]")?;
    Ok(Some(Text::from_string(out)))
}

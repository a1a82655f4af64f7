ghost use Rattle.std.specs.Prelude.{◌≡◌, ◌++◌, IfOk, OnOk, map, string_bytes};
ghost use Rattle.mw_protocol.specs.Messages.{message_text, packet_text};
ghost use Rattle.mw_packets_out.specs.Joined.{joined, in_brackets, one_more};
ghost use Rattle.mw_packets_out.specs.View.{packet_view};

use crate::packet::ServerPacket;
use crate::write::packet_text;
use mw_base::{List, Memory, Text};
use std::alloc::Global;

/// Adds a packet's text, after a comma where others stand before it.
fn push_text(out: &mut String, after: bool, text: &str) -> Result<(), Memory>
    ensures { OnOk result (string_bytes out.new ≡ string_bytes out.old ++ one_more after text.now) }
{
    if after {
        out.push_str(",")?;
    }
    out.push_str(text)?;
    Ok(())
}

/// Adds packets as texts, where others may stand before them.
fn push_packets(
    alloc: Global,
    out: &mut String,
    after: bool,
    packets: &[ServerPacket],
) -> Result<(), Memory>
    ensures { OnOk result (string_bytes out.new ≡ string_bytes out.old
        ++ joined after (map (λ p. packet_text (packet_view p)) packets.now)) }
{
    for (i, packet) in packets.iter().enumerate() {
        let text = packet_text(alloc, packet)?;
        push_text(out, after | (i > 0), text.as_str())?;
    }
    Ok(())
}

/// Adds texts of packets, where others may stand before them.
fn push_written(out: &mut String, after: bool, written: &[&str]) -> Result<(), Memory>
    ensures { OnOk result (string_bytes out.new
        ≡ string_bytes out.old ++ joined after (map (λ t. t.now) written.now)) }
{
    for (i, text) in written.iter().enumerate() {
        push_text(out, after | (i > 0), text)?;
    }
    Ok(())
}

/// The text of a message of some packets, then others, and then texts that were written already,
/// each of which is copied as it stands. Memory is its only error.
pub fn write_with(
    alloc: Global,
    answers: &[ServerPacket],
    others: &[ServerPacket],
    written: &[&str],
) -> Result<Text, Memory>
    ensures { IfOk result (λ t. t
        ≡ in_brackets (map packet_text (map packet_view answers.now ++ map packet_view others.now)
        ++ map (λ w. w.now) written.now)) }
{
    let mut out = String::from_str(alloc, "[")?;
    push_packets(alloc, &mut out, false, answers)?;
    let after = !answers.is_empty();
    push_packets(alloc, &mut out, after, others)?;
    push_written(&mut out, after | !others.is_empty(), written)?;
    out.push_str("]")?;
    Ok(Text::from_string(out))
}

/// The text of a message of some packets and then others: the list of them as compact JSON. Memory
/// is its only error.
pub fn write_both(
    alloc: Global,
    answers: &[ServerPacket],
    others: &[ServerPacket],
) -> Result<Text, Memory>
    ensures { IfOk result (λ t. t
        ≡ message_text (map packet_view answers.now ++ map packet_view others.now)) }
{
    Ok(write_with(alloc, answers, others, &[])?)
}

/// A message's text: the list of its packets as compact JSON. Memory is its only error.
#[tactic(auto, using(crate::proofs::Writable::nothing_more))]
pub fn write_message(alloc: Global, packets: &List<ServerPacket>) -> Result<Text, Memory>
    ensures { IfOk result (λ t. t ≡ message_text (map packet_view packets.now)) }
{
    write_both(alloc, packets.as_slice(), &[])
}

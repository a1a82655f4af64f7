ghost use Rattle.std.specs.Prelude.{◌≡◌, ◌++◌, [], IfOk, None, Result, Some, codes};
ghost use Rattle.mw_protocol.specs.Packets as plain;
ghost use Rattle.mw_json.specs.Grammar.{Breach, GivesBy};
ghost use Rattle.mw_packets_in.specs.PacketsOf.{bad as bad_lem, outermost as outermost_lem, told as told_lem};
ghost use Rattle.mw_packets_in.specs.View.{inbound_view, kind_view, packet_view};

use crate::bad::{Bad, BadKind};
use crate::inbound::Inbound;
use crate::packet::Packet;
use mw_base::{Memory, Text};
use mw_json::{Refusal, Step};
use std::alloc::Global;

/// What stands in the place of an element without a command, or of a whole message.
pub(crate) fn unnamed(alloc: Global, why: &str) -> Result<Inbound, Memory>
    ensures { IfOk result (λ i. inbound_view i ≡ bad_lem plain.bad_cmd None why.now) }
{
    Ok(Inbound::Wrong(Bad {
        kind: BadKind::Cmd,
        cmd: None,
        why: Text::of(alloc, why)?,
    }))
}

/// What stands in the place of an element with a command.
pub(crate) fn bad(alloc: Global, kind: BadKind, cmd: &str, why: Text) -> Result<Inbound, Memory>
    ensures { IfOk result (λ i. inbound_view i ≡ bad_lem (kind_view kind) (Some cmd.now) why) }
{
    Ok(Inbound::Wrong(Bad {
        kind,
        cmd: Some(Text::of(alloc, cmd)?),
        why,
    }))
}

/// The name of the outermost step of a way outward, which is its last.
fn outermost(path: &[Step]) -> &str
    ensures { result.now ≡ outermost_lem [] path.now }
{
    let mut name = "";
    for step in path {
        if let Step::Name(inner) = step {
            name = inner.as_str();
        }
    }
    name
}

/// Why a member breaks its row.
fn why_of(alloc: Global, name: &str) -> Result<Text, Memory>
    ensures { IfOk result (λ t. t ≡ codes "arguments: " ++ name.now) }
{
    let mut why = String::from_str(alloc, "arguments: ")?;
    why.push_str(name)?;
    Ok(Text::from_string(why))
}

/// A row's packet, or what stands in its place.
pub(crate) fn told(
    alloc: Global,
    cmd: &str,
    answer: Result<Packet, Refusal>,
) -> Result<Inbound, Memory>
    ensures { (read : Result plain.Packet Breach) → GivesBy packet_view answer read
        → IfOk result (λ i. inbound_view i ≡ told_lem cmd.now read) }
{
    match answer {
        Ok(packet) => Ok(Inbound::Good(packet)),
        Err(Refusal::Memory) => Err(Memory),
        Err(Refusal::Named { path, .. }) => {
            let why = why_of(alloc, outermost(path.as_slice()))?;
            bad(alloc, BadKind::Arguments, cmd, why)
        }
    }
}

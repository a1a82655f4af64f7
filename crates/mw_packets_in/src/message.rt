ghost use Rattle.std.specs.Prelude.{◌≡◌, All, IfOk, map};
ghost use Rattle.mw_model.specs.Json.{many, members};
ghost use Rattle.mw_json.specs.View.{view, items_view, members_view};
ghost use Rattle.mw_packets_in.specs.Kept.{AreRead, IsRead};
ghost use Rattle.mw_packets_in.specs.PacketsOf.{all_bad as all_bad_lem, each_inbound, inbound_named, inbound_of as inbound_of_lem, location_named, message_of as message_of_lem, packets_of as packets_of_lem, storage_named};
ghost use Rattle.mw_packets_in.specs.View.{inbound_view};

use crate::bad::BadKind;
use crate::connect::{connect_of, connect_update_of, get_data_package_of, say_of};
use crate::hints::update_hint_of;
use crate::inbound::Inbound;
use crate::locations::{checks_of, scouts_of};
use crate::packet::Packet;
use crate::status::status_update_of;
use crate::storage::{bounce_of, get_of, set_notify_of, set_of};
use crate::told::{bad, told, unnamed};
use mw_base::{List, Memory, Text};
use mw_json::{JsonError, Member, Tree, Workspace, find, read_kept_in};
use std::alloc::Global;

/// Messages between clients, and the data storage.
fn storage_by(alloc: Global, cmd: &str, members: &[Member]) -> Result<Inbound, Memory>
    requires { AreRead 62 (members_view members.now) }
    ensures { IfOk result (λ i. inbound_view i ≡ storage_named cmd.now (members_view members.now)) }
{
    match cmd {
        "Bounce" => told(alloc, cmd, bounce_of(alloc, members)),
        "Get" => told(alloc, cmd, get_of(alloc, members)),
        "Set" => told(alloc, cmd, set_of(alloc, members)),
        "SetNotify" => told(alloc, cmd, set_notify_of(alloc, members)),
        _ => bad(alloc, BadKind::Cmd, cmd, Text::of(alloc, "unknown cmd")?),
    }
}

/// Locations, hints and statuses.
fn location_by(alloc: Global, cmd: &str, members: &[Member]) -> Result<Inbound, Memory>
    requires { AreRead 62 (members_view members.now) }
    ensures { IfOk result (λ i. inbound_view i
        ≡ location_named cmd.now (members_view members.now)) }
{
    match cmd {
        "LocationChecks" => told(alloc, cmd, checks_of(alloc, members)),
        "LocationScouts" => told(alloc, cmd, scouts_of(alloc, members)),
        "UpdateHint" => told(alloc, cmd, update_hint_of(alloc, members)),
        "StatusUpdate" => told(alloc, cmd, status_update_of(alloc, members)),
        _ => storage_by(alloc, cmd, members),
    }
}

/// An object's members, by the row of its command.
fn inbound_by(alloc: Global, cmd: &str, members: &[Member]) -> Result<Inbound, Memory>
    requires { AreRead 62 (members_view members.now) }
    ensures { IfOk result (λ i. inbound_view i ≡ inbound_named cmd.now (members_view members.now)) }
{
    match cmd {
        "Connect" => told(alloc, cmd, connect_of(alloc, members)),
        "ConnectUpdate" => told(alloc, cmd, connect_update_of(alloc, members)),
        "Sync" => Ok(Inbound::Good(Packet::Sync)),
        "Say" => told(alloc, cmd, say_of(alloc, members)),
        "GetDataPackage" => told(alloc, cmd, get_data_package_of(alloc, members)),
        _ => location_by(alloc, cmd, members),
    }
}

/// An element of a message that is an object.
fn object_inbound(alloc: Global, parts: &[Member]) -> Result<Inbound, Memory>
    requires { IsRead 63 (members (members_view parts.now)) }
    ensures { IfOk result (λ i. inbound_view i
        ≡ inbound_of_lem (members (members_view parts.now))) }
{
    match find(parts, "cmd") {
        Some(Tree::Words(cmd)) => inbound_by(alloc, cmd.as_str(), parts),
        _ => unnamed(alloc, "no cmd"),
    }
}

/// An element of a message.
fn inbound_of(alloc: Global, tree: &Tree) -> Result<Inbound, Memory>
    requires { IsRead 63 (view tree.now) }
    ensures { IfOk result (λ i. inbound_view i ≡ inbound_of_lem (view tree.now)) }
{
    match tree {
        Tree::Members(parts) => object_inbound(alloc, parts.as_slice()),
        _ => unnamed(alloc, "no cmd"),
    }
}

/// The elements of a message.
fn inbounds(alloc: Global, items: &[Tree]) -> Result<List<Inbound>, Memory>
    requires { All (λ t. IsRead 63 (view t)) items.now }
    ensures { IfOk result (λ l. map inbound_view l ≡ each_inbound (items_view items.now)) }
{
    let mut found = List::with_capacity(alloc, items.len())?;
    for item in items {
        found.push(inbound_of(alloc, item)?)?;
    }
    Ok(found)
}

/// What stands in the place of a message that is no list of packets.
fn all_bad(alloc: Global, why: &str) -> Result<List<Inbound>, Memory>
    ensures { IfOk result (λ l. map inbound_view l ≡ all_bad_lem why.now) }
{
    let mut found = List::new(alloc);
    found.push(unnamed(alloc, why)?)?;
    Ok(found)
}

const MAX_PACKETS: usize = 1024;

/// The packets of a message that is a list.
#[tactic(auto, using(mw_json::proofs::Trees::as_many))]
fn list_inbounds(alloc: Global, items: &[Tree]) -> Result<List<Inbound>, Memory>
    requires { IsRead 64 (many (items_view items.now)) }
    ensures { IfOk result (λ l. map inbound_view l ≡ message_of_lem (many (items_view items.now))) }
{
    if items.len() <= MAX_PACKETS {
        inbounds(alloc, items)
    } else {
        all_bad(alloc, "more than 1024 packets")
    }
}

/// The packets of a message that is read.
fn message_of(alloc: Global, tree: &Tree) -> Result<List<Inbound>, Memory>
    requires { IsRead 64 (view tree.now) }
    ensures { IfOk result (λ l. map inbound_view l ≡ message_of_lem (view tree.now)) }
{
    match tree {
        Tree::Many(items) => list_inbounds(alloc, items.as_slice()),
        _ => all_bad(alloc, "no JSON list"),
    }
}

/// The packets of a client's message, in order, and what stands in the place of each element that
/// is none. A text that is no JSON list of at most 1,024 elements is one bad packet, as is JSON
/// that nests deeper than 64. `Memory` is its only error.
pub fn packets_of_in(
    alloc: Global,
    space: &mut Workspace,
    text: &str,
) -> Result<List<Inbound>, Memory>
    ensures { IfOk result (λ l. map inbound_view l ≡ packets_of_lem text.now) }
{
    match read_kept_in(alloc, space, text.as_bytes()) {
        Ok(tree) => message_of(alloc, &tree),
        Err(JsonError::Memory) => Err(Memory),
        Err(JsonError::NoJson) => all_bad(alloc, "no JSON list"),
        Err(JsonError::TooDeep) => all_bad(alloc, "no JSON list"),
    }
}

/// The packets of one message, as `packets_of_in` gives them.
pub fn packets_of(alloc: Global, text: &Text) -> Result<List<Inbound>, Memory>
    ensures { IfOk result (λ l. map inbound_view l ≡ packets_of_lem text.now) }
{
    let mut space = Workspace::new(alloc);
    packets_of_in(alloc, &mut space, text.as_str())
}

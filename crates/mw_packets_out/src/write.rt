ghost use Rattle.std.specs.Prelude.{◌≡◌, IfOk};
ghost use Rattle.mw_model.specs.Json.{IsWritable};
ghost use Rattle.mw_model.specs.Spelling.{spelling};
ghost use Rattle.mw_protocol.specs.Messages.{location_info_json, packet_text};
ghost use Rattle.mw_json.specs.View.{view};
ghost use Rattle.mw_packets_out.specs.View.{packet_view};

use crate::bounced::bounced_tree;
use crate::connected::connected_tree;
use crate::data_package::data_package_tree;
use crate::lists::items_tree;
use crate::packet::ServerPacket;
use crate::print::print_tree;
use crate::refusals::{connection_refused_tree, invalid_packet_tree};
use crate::room_info::room_info_tree;
use crate::values::{retrieved_tree, set_reply_tree};
use crate::written::{received_items_text, room_update_text};
use mw_base::{Memory, NetItem, Text};
use mw_json::{Field, Tree, compact_text, object};
use std::alloc::Global;

/// What stands at locations, as an object.
fn location_info_tree(alloc: Global, items: &[NetItem]) -> Result<Tree, Memory>
    ensures value { IfOk result (λ t. view t ≡ location_info_json items.now) }
    ensures writable { IfOk result (λ t. IsWritable (view t)) }
{
    object(
        alloc,
        &mut [
            ("cmd", Field::Words("LocationInfo")),
            ("locations", Field::Built(items_tree(alloc, items))),
        ],
    )
}

/// A tree's text.
fn tree_text(alloc: Global, tree: Tree) -> Result<Text, Memory>
    requires { IsWritable (view tree) }
    ensures { IfOk result (λ t. t ≡ spelling (view tree)) }
{
    compact_text(alloc, &tree)
}

/// A packet's text: compact JSON, as it stands in a message. Memory is its only error.
#[tactic(auto, unfolding(mw_protocol::specs::Messages::packet_text))]
pub fn packet_text(alloc: Global, packet: &ServerPacket) -> Result<Text, Memory>
    ensures { IfOk result (λ t. t ≡ packet_text (packet_view packet.now)) }
{
    match packet {
        ServerPacket::RoomInfo(info) => tree_text(alloc, room_info_tree(alloc, info)?),
        ServerPacket::Connected(connected) => {
            tree_text(alloc, connected_tree(alloc, connected)?)
        }
        ServerPacket::ReceivedItems { index, items } => {
            received_items_text(alloc, *index, items.as_slice())
        }
        ServerPacket::RoomUpdate {
            checked_locations,
            hint_points,
        } => room_update_text(alloc, checked_locations.as_slice(), *hint_points),
        ServerPacket::ConnectionRefused { errors } => {
            tree_text(alloc, connection_refused_tree(alloc, errors.as_slice())?)
        }
        ServerPacket::LocationInfo { locations } => {
            tree_text(alloc, location_info_tree(alloc, locations.as_slice())?)
        }
        ServerPacket::DataPackage(names) => tree_text(alloc, data_package_tree(alloc, names)?),
        ServerPacket::InvalidPacket {
            kind,
            original_cmd,
            text,
        } => tree_text(
            alloc,
            invalid_packet_tree(alloc, *kind, original_cmd, text)?,
        ),
        ServerPacket::PrintJson(print) => tree_text(alloc, print_tree(alloc, print)?),
        ServerPacket::Retrieved(values) => tree_text(alloc, retrieved_tree(alloc, values)?),
        ServerPacket::SetReply(reply) => tree_text(alloc, set_reply_tree(alloc, reply)?),
        ServerPacket::Bounced(message) => tree_text(alloc, bounced_tree(alloc, message)?),
    }
}

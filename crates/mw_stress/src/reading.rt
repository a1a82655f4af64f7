//! What is received by a text.
ghost use Rattle.std.specs.Prelude.{◌≡◌, ◌++◌, OnOk, codes};
ghost use Rattle.mw_model.specs.Json.{field_of};
ghost use Rattle.mw_json.specs.View.{view, items_view};
ghost use Rattle.mw_stress.specs.Received.{id_in, ids_in, listed_in, message_items, packet_items, packets_items, received_in};

use mw_base::{List, Memory, Text};
use mw_json::{JsonError, Tree, field, read_text};
use std::alloc::Global;

/// Adds the id of a NetworkItem's item.
fn add_id(item: &Tree, found: &mut List<i128>) -> Result<(), Memory>
    ensures { OnOk result (found.new ≡ found.old ++ id_in (view item.now)) }
{
    match field(item, "item") {
        Some(Tree::Whole(id)) => found.push(*id),
        _ => Ok(()),
    }
}

/// Adds those of a list.
fn add_ids(items: &[Tree], found: &mut List<i128>) -> Result<(), Memory>
    ensures { OnOk result (found.new ≡ found.old ++ ids_in (items_view items.now)) }
{
    for item in items {
        add_id(item, found)?;
    }
    Ok(())
}

/// Adds those of a ReceivedItems packet.
fn add_listed(packet: &Tree, found: &mut List<i128>) -> Result<(), Memory>
    ensures { OnOk result (found.new ≡ found.old
        ++ listed_in (field_of (codes "items") (view packet.now))) }
{
    match field(packet, "items") {
        Some(Tree::Many(items)) => add_ids(items.as_slice(), found),
        _ => Ok(()),
    }
}

/// Adds those of a packet.
fn add_given(packet: &Tree, found: &mut List<i128>) -> Result<(), Memory>
    ensures { OnOk result (found.new ≡ found.old ++ packet_items (view packet.now)) }
{
    match field(packet, "cmd") {
        Some(Tree::Words(cmd)) if cmd.as_str() == "ReceivedItems" => add_listed(packet, found),
        _ => Ok(()),
    }
}

/// Adds those of packets.
fn add_each(packets: &[Tree], found: &mut List<i128>) -> Result<(), Memory>
    ensures { OnOk result (found.new ≡ found.old ++ packets_items (items_view packets.now)) }
{
    for packet in packets {
        add_given(packet, found)?;
    }
    Ok(())
}

/// Adds those of a message.
fn add_message(message: &Tree, found: &mut List<i128>) -> Result<(), Memory>
    ensures { OnOk result (found.new ≡ found.old ++ message_items (view message.now)) }
{
    match message {
        Tree::Many(packets) => add_each(packets.as_slice(), found),
        _ => Ok(()),
    }
}

/// Adds the ids of the items that a text's ReceivedItems packets give, in order. A text that is no
/// JSON list of packets, or nests deeper than 64, gives none.
pub fn add_items(alloc: Global, text: &Text, found: &mut List<i128>) -> Result<(), Memory>
    ensures { OnOk result (found.new ≡ found.old ++ received_in text.now) }
{
    let text = text.as_str();
    match read_text(alloc, text.as_bytes()) {
        Ok(message) => add_message(&message, found),
        Err(JsonError::Memory) => Err(Memory),
        Err(JsonError::NoJson) => Ok(()),
        Err(JsonError::TooDeep) => Ok(()),
    }
}

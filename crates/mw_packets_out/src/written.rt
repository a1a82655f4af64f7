//! Packets that are written token by token, without a tree before.
ghost use Rattle.std.specs.Prelude.{◌≡◌, ◌++◌, ◌∷◌, [], IfOk, OnOk, codes, decimal, map};
ghost use Rattle.json.specs.Print.{print};
ghost use Rattle.json.specs.Token.{begin_array, begin_object, end_object, key, number as number_token, string as string_token};
ghost use Rattle.json.specs.Tree.{items_tokens, json_tokens};
ghost use Rattle.mw_model.specs.Spelling.{items_outline, number_text, outline, spelling};
ghost use Rattle.mw_model.specs.Trees.{id_json, items_of};
ghost use Rattle.mw_protocol.specs.Messages.{item_json, received_items_json, room_update_json};

use json::Writer;
use mw_base::{Memory, NetItem, Text};
use std::alloc::Global;

/// Writes a member that is a text.
fn put_words(out: &mut Writer, name: &str, text: &str) -> Result<(), Memory>
    ensures ok { OnOk result (out.new.tokens
        ≡ out.old.tokens ++ key name.now ∷ string_token text.now ∷ []) }
    ensures before { out.new.before ≡ out.old.before }
{
    out.key(name)?;
    out.string(text)?;
    Ok(())
}

/// Writes a member that is a whole number.
fn put_number(out: &mut Writer, name: &str, number: u64) -> Result<(), Memory>
    ensures ok { OnOk result (out.new.tokens
        ≡ out.old.tokens ++ key name.now ∷ number_token (decimal number) ∷ []) }
    ensures before { out.new.before ≡ out.old.before }
{
    out.key(name)?;
    out.u64(number)?;
    Ok(())
}

/// Writes an object's opening brace and its first member, a text.
fn begin_words(out: &mut Writer, name: &str, text: &str) -> Result<(), Memory>
    ensures ok { OnOk result (out.new.tokens
        ≡ out.old.tokens ++ begin_object ∷ key name.now ∷ string_token text.now ∷ []) }
    ensures before { out.new.before ≡ out.old.before }
{
    out.begin_object()?;
    put_words(out, name, text)
}

/// Writes an object's last member, a whole number, and its closing brace.
fn end_number(out: &mut Writer, name: &str, number: u64) -> Result<(), Memory>
    ensures ok { OnOk result (out.new.tokens
        ≡ out.old.tokens ++ key name.now ∷ number_token (decimal number) ∷ end_object ∷ []) }
    ensures before { out.new.before ≡ out.old.before }
{
    put_number(out, name, number)?;
    out.end_object()?;
    Ok(())
}

/// Writes the number of an item or location.
#[tactic(auto, using(crate::proofs::Numbers::number_is))]
fn write_id(out: &mut Writer, id: i64) -> Result<(), Memory>
    ensures ok { OnOk result (out.new.tokens
        ≡ out.old.tokens ++ number_token (number_text id) ∷ []) }
    ensures before { out.new.before ≡ out.old.before }
{
    out.i64(id)?;
    Ok(())
}

/// Writes a member that is the number of an item or location.
fn put_id(out: &mut Writer, name: &str, id: i64) -> Result<(), Memory>
    ensures ok { OnOk result (out.new.tokens
        ≡ out.old.tokens ++ key name.now ∷ number_token (number_text id) ∷ []) }
    ensures before { out.new.before ≡ out.old.before }
{
    out.key(name)?;
    write_id(out, id)
}

/// Writes an item's opening brace and first members.
fn begin_item(out: &mut Writer, item: &NetItem) -> Result<(), Memory>
    ensures ok { OnOk result (out.new.tokens ≡ out.old.tokens
        ++ begin_object ∷ key (codes "class") ∷ string_token (codes "NetworkItem")
        ∷ key (codes "flags") ∷ number_token (decimal item.now.flags) ∷ []) }
    ensures before { out.new.before ≡ out.old.before }
{
    begin_words(out, "class", "NetworkItem")?;
    put_number(out, "flags", u64::from(item.flags))?;
    Ok(())
}

/// Writes an item's item and location.
fn put_ids(out: &mut Writer, item: &NetItem) -> Result<(), Memory>
    ensures ok { OnOk result (out.new.tokens ≡ out.old.tokens
        ++ key (codes "item") ∷ number_token (number_text item.now.item)
        ∷ key (codes "location") ∷ number_token (number_text item.now.location) ∷ []) }
    ensures before { out.new.before ≡ out.old.before }
{
    put_id(out, "item", item.item)?;
    put_id(out, "location", item.location)
}

/// Writes an item as an object.
fn write_item(out: &mut Writer, item: &NetItem) -> Result<(), Memory>
    ensures ok { OnOk result (out.new.tokens
        ≡ out.old.tokens ++ json_tokens (outline (item_json item.now))) }
    ensures before { out.new.before ≡ out.old.before }
{
    begin_item(out, item)?;
    put_ids(out, item)?;
    end_number(out, "player", u64::from(item.player))
}

/// Writes the rest of a list, which is these items.
fn end_items(out: &mut Writer, items: &[NetItem]) -> Result<(), Memory>
    ensures ok { OnOk result (out.new.tokens ≡ out.old.tokens
        ++ items_tokens (items_outline (items_of (map item_json items.now)))) }
    ensures before { out.new.before ≡ out.old.before }
{
    for item in items {
        write_item(out, item)?;
    }
    out.end_array()?;
    Ok(())
}

/// Writes the rest of a list, which is these numbers of items or locations.
fn end_ids(out: &mut Writer, ids: &[i64]) -> Result<(), Memory>
    ensures ok { OnOk result (out.new.tokens ≡ out.old.tokens
        ++ items_tokens (items_outline (items_of (map id_json ids.now)))) }
    ensures before { out.new.before ≡ out.old.before }
{
    for id in ids {
        write_id(out, *id)?;
    }
    out.end_array()?;
    Ok(())
}

/// Writes a ReceivedItems' opening brace and first members.
fn begin_received(out: &mut Writer, index: u64) -> Result<(), Memory>
    ensures ok { OnOk result (out.new.tokens ≡ out.old.tokens
        ++ begin_object ∷ key (codes "cmd") ∷ string_token (codes "ReceivedItems")
        ∷ key (codes "index") ∷ number_token (decimal index) ∷ []) }
    ensures before { out.new.before ≡ out.old.before }
{
    begin_words(out, "cmd", "ReceivedItems")?;
    put_number(out, "index", index)
}

/// Writes a member that is a list of items.
fn put_items(out: &mut Writer, name: &str, items: &[NetItem]) -> Result<(), Memory>
    ensures ok { OnOk result (out.new.tokens ≡ out.old.tokens ++ key name.now
        ∷ begin_array ∷ items_tokens (items_outline (items_of (map item_json items.now)))) }
    ensures before { out.new.before ≡ out.old.before }
{
    out.key(name)?;
    out.begin_array()?;
    end_items(out, items)
}

/// Writes a member that is a list of numbers of items or locations.
fn put_id_list(out: &mut Writer, name: &str, ids: &[i64]) -> Result<(), Memory>
    ensures ok { OnOk result (out.new.tokens ≡ out.old.tokens ++ key name.now
        ∷ begin_array ∷ items_tokens (items_outline (items_of (map id_json ids.now)))) }
    ensures before { out.new.before ≡ out.old.before }
{
    out.key(name)?;
    out.begin_array()?;
    end_ids(out, ids)
}

/// Writes an object's opening brace and its first member, a list of numbers of items or locations.
fn begin_id_list(out: &mut Writer, name: &str, ids: &[i64]) -> Result<(), Memory>
    ensures ok { OnOk result (out.new.tokens ≡ out.old.tokens ++ begin_object ∷ key name.now
        ∷ begin_array ∷ items_tokens (items_outline (items_of (map id_json ids.now)))) }
    ensures before { out.new.before ≡ out.old.before }
{
    out.begin_object()?;
    put_id_list(out, name, ids)
}

/// Writes items from a place in the session's list on.
fn write_received(out: &mut Writer, index: u64, items: &[NetItem]) -> Result<(), Memory>
    ensures ok { OnOk result (out.new.tokens
        ≡ out.old.tokens ++ json_tokens (outline (received_items_json index items.now))) }
    ensures before { out.new.before ≡ out.old.before }
{
    begin_received(out, index)?;
    put_items(out, "items", items)?;
    out.end_object()?;
    Ok(())
}

/// Writes a RoomUpdate's last members and closing brace.
fn end_update(out: &mut Writer, points: u64) -> Result<(), Memory>
    ensures ok { OnOk result (out.new.tokens ≡ out.old.tokens
        ++ key (codes "cmd") ∷ string_token (codes "RoomUpdate")
        ∷ key (codes "hint_points") ∷ number_token (decimal points) ∷ end_object ∷ []) }
    ensures before { out.new.before ≡ out.old.before }
{
    put_words(out, "cmd", "RoomUpdate")?;
    end_number(out, "hint_points", points)?;
    Ok(())
}

/// Writes locations that were checked, and the slot's points.
fn write_update(out: &mut Writer, locations: &[i64], points: u64) -> Result<(), Memory>
    ensures ok { OnOk result (out.new.tokens
        ≡ out.old.tokens ++ json_tokens (outline (room_update_json locations.now points))) }
    ensures before { out.new.before ≡ out.old.before }
{
    begin_id_list(out, "checked_locations", locations)?;
    end_update(out, points)?;
    Ok(())
}

/// What was written, as a text.
fn text_written(out: Writer) -> Text
    requires { out.before ≡ [] }
    ensures { result ≡ print out.tokens }
{
    let bytes = out.into_inner();
    let text = unsafe { String::from_utf8_unchecked(bytes) };
    Text::from_string(text)
}

/// The text of items from a place in the session's list on. Memory is its only error.
pub(crate) fn received_items_text(
    alloc: Global,
    index: u64,
    items: &[NetItem],
) -> Result<Text, Memory>
    ensures { IfOk result (λ t. t ≡ spelling (received_items_json index items.now)) }
{
    let mut out = Writer::new(Vec::new(alloc));
    write_received(&mut out, index, items)?;
    Ok(text_written(out))
}

/// The text of locations that were checked, and the slot's points. Memory is its only error.
pub(crate) fn room_update_text(
    alloc: Global,
    locations: &[i64],
    points: u64,
) -> Result<Text, Memory>
    ensures { IfOk result (λ t. t ≡ spelling (room_update_json locations.now points)) }
{
    let mut out = Writer::new(Vec::new(alloc));
    write_update(&mut out, locations, points)?;
    Ok(text_written(out))
}

ghost use Rattle.std.specs.Prelude.{◌≡◌, IfOk, decimal, map};
ghost use Rattle.mw_model.specs.Json.{IsWritable};
ghost use Rattle.mw_model.specs.Spelling.{number_text};
ghost use Rattle.mw_protocol.specs.Prints.{part_json, text as text_lem, player, item as item_lem, location};
ghost use Rattle.mw_json.specs.View.{view};
ghost use Rattle.mw_chat.specs.Kept.{AreSound};
ghost use Rattle.mw_chat.specs.View.{piece_view};

use mw_base::{ItemId, List, LocId, Memory, SlotId, Text};
use mw_json::{Field, Tree, object, push_tree};
use std::alloc::Global;

/// A slot's number in decimal.
fn slot_text(alloc: Global, slot: u16) -> Result<Text, Memory>
    ensures { IfOk result (λ t. t ≡ decimal slot) }
{
    Ok(Text::from_string(format!(in alloc; "{slot}")?))
}

/// An item's or a location's number in decimal.
fn id_text(alloc: Global, id: i64) -> Result<Text, Memory>
    ensures { IfOk result (λ t. t ≡ number_text id) }
{
    Ok(Text::from_string(format!(in alloc; "{id}")?))
}

/// A text's part.
fn words_part(alloc: Global, text: &str) -> Result<Tree, Memory>
    ensures value { IfOk result (λ t. view t ≡ part_json (text_lem text.now)) }
    ensures writable { IfOk result (λ t. IsWritable (view t)) }
{
    object(alloc, &mut [("text", Field::Words(text))])
}

/// A part of a print that is a text, after Archipelago's network protocol. `Memory` is its only
/// error.
pub fn part_text(alloc: Global, text: &Text) -> Result<Tree, Memory>
    ensures value { IfOk result (λ t. view t ≡ part_json (text_lem text.now)) }
    ensures writable { IfOk result (λ t. IsWritable (view t)) }
{
    words_part(alloc, text.as_str())
}

/// A part that is a player, by its slot or its group's number. `Memory` is its only error.
pub fn part_player(alloc: Global, slot: u16) -> Result<Tree, Memory>
    ensures value { IfOk result (λ t. view t ≡ part_json (player slot)) }
    ensures writable { IfOk result (λ t. IsWritable (view t)) }
{
    let number = slot_text(alloc, slot)?;
    object(
        alloc,
        &mut [
            ("text", Field::Words(number.as_str())),
            ("type", Field::Words("player_id")),
        ],
    )
}

/// An item's part, by its number.
fn item_part(alloc: Global, id: i64, receiver: u16, flags: u8) -> Result<Tree, Memory>
    ensures value { IfOk result (λ t. view t ≡ part_json (item_lem id receiver flags)) }
    ensures writable { IfOk result (λ t. IsWritable (view t)) }
{
    let number = id_text(alloc, id)?;
    object(
        alloc,
        &mut [
            ("flags", Field::Number(u64::from(flags))),
            ("player", Field::Number(u64::from(receiver))),
            ("text", Field::Words(number.as_str())),
            ("type", Field::Words("item_id")),
        ],
    )
}

/// A location's part, by its number.
fn location_part(alloc: Global, id: i64, finder: u16) -> Result<Tree, Memory>
    ensures value { IfOk result (λ t. view t ≡ part_json (location id finder)) }
    ensures writable { IfOk result (λ t. IsWritable (view t)) }
{
    let number = id_text(alloc, id)?;
    object(
        alloc,
        &mut [
            ("player", Field::Number(u64::from(finder))),
            ("text", Field::Words(number.as_str())),
            ("type", Field::Words("location_id")),
        ],
    )
}

/// A part that is an item, with its receiver, a slot or a group, and its flags: progression 1,
/// useful 2, trap 4, else 0. `Memory` is its only error.
pub fn part_item(alloc: Global, item: ItemId, receiver: u16, flags: u8) -> Result<Tree, Memory>
    ensures value { IfOk result (λ t. view t ≡ part_json (item_lem item receiver flags)) }
    ensures writable { IfOk result (λ t. IsWritable (view t)) }
{
    item_part(alloc, item.get(), receiver, flags)
}

/// A part that is a location, with the slot whose world has it. `Memory` is its only error.
pub fn part_location(alloc: Global, loc: LocId, finder: SlotId) -> Result<Tree, Memory>
    ensures value { IfOk result (λ t. view t ≡ part_json (location loc finder)) }
    ensures writable { IfOk result (λ t. IsWritable (view t)) }
{
    location_part(alloc, loc.get(), finder.get())
}

/// What a print tells, part by part.
#[derive(Clone, Copy)]
pub(crate) enum Piece<'a> {
    /// A text as it stands.
    Text(&'a str),
    /// A player, by its slot or its group's number.
    Player(u16),
    /// An item, by its number, its receiver and its flags.
    Item(i64, u16, u8),
    /// A location, by its number and the slot whose world has it.
    Location(i64, u16),
}

/// A piece as a part of a print.
fn piece_part(alloc: Global, piece: Piece) -> Result<Tree, Memory>
    ensures value { IfOk result (λ t. view t ≡ part_json (piece_view piece.entry)) }
    ensures writable { IfOk result (λ t. IsWritable (view t)) }
{
    match piece {
        Piece::Text(text) => words_part(alloc, text),
        Piece::Player(slot) => part_player(alloc, slot),
        Piece::Item(id, receiver, flags) => item_part(alloc, id, receiver, flags),
        Piece::Location(id, finder) => location_part(alloc, id, finder),
    }
}

/// The parts of a print.
pub(crate) fn print_parts(alloc: Global, pieces: &[Piece]) -> Result<List<Tree>, Memory>
    ensures value { IfOk result (λ ts. map view ts ≡ map part_json (map piece_view pieces.now)) }
    ensures sound { IfOk result (λ ts. AreSound (map view ts)) }
{
    let mut parts = List::new(alloc);
    for piece in pieces {
        push_tree(&mut parts, piece_part(alloc, *piece)?)?;
    }
    Ok(parts)
}

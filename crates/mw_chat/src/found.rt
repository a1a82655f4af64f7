ghost use Rattle.std.specs.Prelude.{◌≡◌, IfOk, List, codes, map, true, ℕ};
ghost use Rattle.mw_model.specs.Json.{flag, member};
ghost use Rattle.mw_protocol.specs.Prints as prints;
ghost use Rattle.mw_protocol.specs.Prints.{found_parts, of_item, part_json, printed, sent_parts};
ghost use Rattle.mw_json.specs.View.{view, members_view};
ghost use Rattle.mw_packets_out.specs.View.{packet_view};
ghost use Rattle.mw_chat.specs.Kept.{AreSound, CanPrint};

use crate::parts::{Piece, print_parts};
use crate::print::of_parts;
use mw_base::{List, Memory, NetItem};
use mw_json::{Field, Member, Tree, members};
use mw_packets_out::{ServerPacket, item_tree};
use std::alloc::Global;

/// The members that tell an item and who receives it.
fn item_members(alloc: Global, item: &NetItem, receiver: u16) -> Result<List<Member>, Memory>
    ensures value { IfOk result (λ ms. members_view ms ≡ of_item item.now receiver) }
    ensures prints { IfOk result (λ ms. (kind : List ℕ) → CanPrint kind (members_view ms)) }
{
    let further = members(
        alloc,
        &mut [
            ("item", Field::Built(item_tree(alloc, item))),
            ("receiving", Field::Number(u64::from(receiver))),
        ],
    )?;
    Ok(further)
}

/// The members that tell an item, who receives it, and whether it is found.
fn hint_members(
    alloc: Global,
    item: &NetItem,
    receiver: u16,
    found: bool,
) -> Result<List<Member>, Memory>
    ensures value { IfOk result (λ ms. members_view ms
        ≡ member (codes "found") (flag found) (of_item item.now receiver)) }
    ensures prints { IfOk result (λ ms. (kind : List ℕ) → CanPrint kind (members_view ms)) }
{
    let further = members(
        alloc,
        &mut [
            ("found", Field::Flag(found)),
            ("item", Field::Built(item_tree(alloc, item))),
            ("receiving", Field::Number(u64::from(receiver))),
        ],
    )?;
    Ok(further)
}

/// The parts of an item on its way to another player.
fn sent_trees(alloc: Global, item: &NetItem, receiver: u16) -> Result<List<Tree>, Memory>
    ensures value { IfOk result (λ ts. map view ts
        ≡ map part_json (sent_parts item.now receiver)) }
    ensures sound { IfOk result (λ ts. AreSound (map view ts)) }
{
    print_parts(
        alloc,
        &[
            Piece::Player(item.player),
            Piece::Text(" sent "),
            Piece::Item(item.item, receiver, item.flags),
            Piece::Text(" to "),
            Piece::Player(receiver),
            Piece::Text(" ("),
            Piece::Location(item.location, item.player),
            Piece::Text(")"),
        ],
    )
}

/// The parts of an item that its own player found.
fn found_trees(alloc: Global, item: &NetItem) -> Result<List<Tree>, Memory>
    ensures value { IfOk result (λ ts. map view ts ≡ map part_json (found_parts item.now)) }
    ensures sound { IfOk result (λ ts. AreSound (map view ts)) }
{
    print_parts(
        alloc,
        &[
            Piece::Player(item.player),
            Piece::Text(" found their "),
            Piece::Item(item.item, item.player, item.flags),
            Piece::Text(" ("),
            Piece::Location(item.location, item.player),
            Piece::Text(")"),
        ],
    )
}

/// The parts of an item that was checked.
fn send_trees(alloc: Global, item: &NetItem, receiver: u16) -> Result<List<Tree>, Memory>
    ensures value { IfOk result (λ ts. map view ts
        ≡ map part_json (prints.item_send item.now receiver).content) }
    ensures sound { IfOk result (λ ts. AreSound (map view ts)) }
{
    if item.player == receiver {
        found_trees(alloc, item)
    } else {
        sent_trees(alloc, item, receiver)
    }
}

/// An item was found at a location of its player's world, which a player or group receives.
/// `Memory` is its only error.
pub fn item_send(alloc: Global, item: &NetItem, receiver: u16) -> Result<ServerPacket, Memory>
    ensures { IfOk result (λ p. packet_view p ≡ printed (prints.item_send item.now receiver)) }
{
    let further = item_members(alloc, item, receiver)?;
    let content = send_trees(alloc, item, receiver)?;
    of_parts(alloc, "ItemSend", further, content)
}

/// The parts of a hint, whether the item is found or not.
fn hint_trees(alloc: Global, item: &NetItem, receiver: u16) -> Result<List<Tree>, Memory>
    ensures value { IfOk result (λ ts. map view ts
        ≡ map part_json (prints.hint_print item.now receiver true).content) }
    ensures sound { IfOk result (λ ts. AreSound (map view ts)) }
{
    print_parts(
        alloc,
        &[
            Piece::Text("[Hint]: "),
            Piece::Player(receiver),
            Piece::Text("'s "),
            Piece::Item(item.item, receiver, item.flags),
            Piece::Text(" is at "),
            Piece::Location(item.location, item.player),
            Piece::Text(" in "),
            Piece::Player(item.player),
            Piece::Text("'s world"),
        ],
    )
}

/// What stands at a location of its player's world, which a player or group receives, and whether
/// it is found. `Memory` is its only error.
pub fn hint_print(
    alloc: Global,
    item: &NetItem,
    receiver: u16,
    found: bool,
) -> Result<ServerPacket, Memory>
    ensures { IfOk result (λ p. packet_view p
        ≡ printed (prints.hint_print item.now receiver found)) }
{
    let further = hint_members(alloc, item, receiver, found)?;
    let content = hint_trees(alloc, item, receiver)?;
    of_parts(alloc, "Hint", further, content)
}

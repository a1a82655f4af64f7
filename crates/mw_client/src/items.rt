//! The items of a ReceivedItems, as they are read.
ghost use Rattle.mw_json.specs.View.{view};
ghost use Rattle.mw_json.specs.Grammar.{Gives, number_at};
ghost use Rattle.mw_client.specs.News.{item_class_at, item_number_at, net_item_at, net_items_at, signed_at};

use crate::entry::net_item;
use mw_base::{List, NetItem, Text};
use mw_json::{Kind, Refusal, Tree, field_in, list, number_between, object_of, refuse, text_of};
use std::alloc::Global;

/// The most items that one packet may have.
const MOST: usize = 4_294_967_295;

/// A whole number of 64 bits with its sign.
fn signed_in(alloc: Global, tree: &Tree) -> Result<i64, Refusal>
    ensures { Gives result (signed_at (view tree.now)) }
{
    match tree {
        Tree::Whole(z) => match i64::try_from(*z) {
            Ok(number) => Ok(number),
            Err(_) => refuse(alloc, Kind::WrongKind),
        },
        _ => refuse(alloc, Kind::WrongKind),
    }
}

/// The class of an item.
#[tactic(auto, unfolding(crate::specs::News::item_class_at))]
fn item_class_in(alloc: Global, tree: &Tree) -> Result<Text, Refusal>
    ensures { Gives result (item_class_at (view tree.now)) }
{
    let class = text_of(alloc, tree)?;
    if class == "NetworkItem" {
        Ok(Text::of(alloc, class)?)
    } else {
        refuse(alloc, Kind::WrongKind)
    }
}

/// An item's number, which isn't negative.
#[tactic(auto, unfolding(crate::specs::News::item_number_at))]
fn item_number_in(alloc: Global, tree: &Tree) -> Result<i64, Refusal>
    ensures { Gives result (item_number_at (view tree.now)) }
{
    let number = number_between(alloc, tree, 0, 9_223_372_036_854_775_807)?;
    Ok(number as i64)
}

/// A slot, or 0.
fn player_in(alloc: Global, tree: &Tree) -> Result<u16, Refusal>
    ensures { Gives result (number_at 0 65535 (view tree.now)) }
{
    Ok(number_between(alloc, tree, 0, 65_535)? as u16)
}

/// An item's flags.
fn flags_in(alloc: Global, tree: &Tree) -> Result<u8, Refusal>
    ensures { Gives result (number_at 0 255 (view tree.now)) }
{
    Ok(number_between(alloc, tree, 0, 255)? as u8)
}

/// An item.
#[tactic(auto, unfolding(crate::specs::News::net_item_at))]
fn net_item_in(alloc: Global, tree: &Tree) -> Result<NetItem, Refusal>
    ensures { Gives result (net_item_at (view tree.now)) }
{
    let members = object_of(alloc, tree)?;
    let _class = field_in(alloc, members, "class", item_class_in)?;
    let item = field_in(alloc, members, "item", item_number_in)?;
    let location = field_in(alloc, members, "location", signed_in)?;
    let player = field_in(alloc, members, "player", player_in)?;
    let flags = field_in(alloc, members, "flags", flags_in)?;
    Ok(net_item(item, location, player, flags))
}

/// Items, fewer than 2^32.
#[tactic(auto, unfolding(crate::specs::News::net_items_at))]
pub(crate) fn net_items_in(alloc: Global, tree: &Tree) -> Result<List<NetItem>, Refusal>
    ensures { Gives result (net_items_at (view tree.now)) }
{
    list(alloc, tree, MOST, net_item_in)
}

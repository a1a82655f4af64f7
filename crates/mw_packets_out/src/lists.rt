ghost use Rattle.std.specs.Prelude.{◌≡◌, IfOk, map};
ghost use Rattle.mw_model.specs.Json.{IsWritable, many};
ghost use Rattle.mw_model.specs.Trees.{id_json, items_of, text_json};
ghost use Rattle.mw_protocol.specs.Messages.{item_json};
ghost use Rattle.mw_json.specs.View.{view};

use mw_base::{List, Memory, NetItem, Text};
use mw_json::{Field, Tree, id_tree, object, push_tree, words_tree};
use std::alloc::Global;

/// Numbers of items or locations, as a list.
pub(crate) fn ids_tree(alloc: Global, ids: &[i64]) -> Result<Tree, Memory>
    ensures value { IfOk result (λ t. view t ≡ many (items_of (map id_json ids.now))) }
    ensures writable { IfOk result (λ t. IsWritable (view t)) }
{
    let mut trees = List::new(alloc);
    for number in ids {
        push_tree(&mut trees, id_tree(*number))?;
    }
    Ok(Tree::Many(trees))
}

/// An item as an object. Memory is its only error.
pub fn item_tree(alloc: Global, item: &NetItem) -> Result<Tree, Memory>
    ensures value { IfOk result (λ t. view t ≡ item_json item.now) }
    ensures writable { IfOk result (λ t. IsWritable (view t)) }
{
    object(
        alloc,
        &mut [
            ("class", Field::Words("NetworkItem")),
            ("flags", Field::Number(u64::from(item.flags))),
            ("item", Field::Id(item.item)),
            ("location", Field::Id(item.location)),
            ("player", Field::Number(u64::from(item.player))),
        ],
    )
}

/// Items as a list.
pub(crate) fn items_tree(alloc: Global, items: &[NetItem]) -> Result<Tree, Memory>
    ensures value { IfOk result (λ t. view t ≡ many (items_of (map item_json items.now))) }
    ensures writable { IfOk result (λ t. IsWritable (view t)) }
{
    let mut trees = List::new(alloc);
    for item in items {
        push_tree(&mut trees, item_tree(alloc, item)?)?;
    }
    Ok(Tree::Many(trees))
}

/// Texts as a list. Memory is its only error.
pub fn texts_tree(alloc: Global, texts: &[Text]) -> Result<Tree, Memory>
    ensures value { IfOk result (λ t. view t ≡ many (items_of (map text_json texts.now))) }
    ensures writable { IfOk result (λ t. IsWritable (view t)) }
{
    let mut trees = List::new(alloc);
    for text in texts {
        push_tree(&mut trees, words_tree(alloc, text.as_str())?)?;
    }
    Ok(Tree::Many(trees))
}

ghost use Rattle.std.specs.Prelude.{◌≡◌, IfOk, map};
ghost use Rattle.mw_model.specs.Json.{IsWritable, many};
ghost use Rattle.mw_model.specs.Trees.{items_of, text_json};
ghost use Rattle.mw_json.specs.View.{view};
ghost use Rattle.mw_multidata.specs.Written.{slot_json, start_json};

use crate::seed::{Slot, StartItem};
use mw_base::{List, Memory, Text};
use mw_json::{Field, Tree, id_tree, number_tree, object, push_tree, words_tree};
use std::alloc::Global;

/// Texts, as a list.
fn texts_tree(alloc: Global, texts: &[Text]) -> Result<Tree, Memory>
    ensures value { IfOk result (λ t. view t ≡ many (items_of (map text_json texts.now))) }
    ensures writable { IfOk result (λ t. IsWritable (view t)) }
{
    let mut trees = List::new(alloc);
    for text in texts {
        push_tree(&mut trees, words_tree(alloc, text.as_str())?)?;
    }
    Ok(Tree::Many(trees))
}

/// A starting item, as a list of two.
fn start_item_tree(alloc: Global, start: &StartItem) -> Result<Tree, Memory>
    ensures value { IfOk result (λ t. view t ≡ start_json start.now) }
    ensures writable { IfOk result (λ t. IsWritable (view t)) }
{
    let mut parts = List::with_capacity(alloc, 2)?;
    push_tree(&mut parts, id_tree(start.item.get()))?;
    push_tree(&mut parts, number_tree(u64::from(start.flags)))?;
    Ok(Tree::Many(parts))
}

/// The starting items, as a list.
fn start_tree(alloc: Global, start: &[StartItem]) -> Result<Tree, Memory>
    ensures value { IfOk result (λ t. view t ≡ many (items_of (map start_json start.now))) }
    ensures writable { IfOk result (λ t. IsWritable (view t)) }
{
    let mut trees = List::new(alloc);
    for item in start {
        push_tree(&mut trees, start_item_tree(alloc, item)?)?;
    }
    Ok(Tree::Many(trees))
}

/// A slot, as an object.
fn slot_tree(alloc: Global, slot: &Slot) -> Result<Tree, Memory>
    ensures value { IfOk result (λ t. view t ≡ slot_json slot.now) }
    ensures writable { IfOk result (λ t. IsWritable (view t)) }
{
    object(
        alloc,
        &mut [
            ("game", Field::Words(slot.game.as_str())),
            (
                "names",
                Field::Built(texts_tree(alloc, slot.names.as_slice())),
            ),
            (
                "start",
                Field::Built(start_tree(alloc, slot.start.as_slice())),
            ),
        ],
    )
}

/// The slots, as a list.
pub(crate) fn slots_tree(alloc: Global, slots: &[Slot]) -> Result<Tree, Memory>
    ensures value { IfOk result (λ t. view t ≡ many (items_of (map slot_json slots.now))) }
    ensures writable { IfOk result (λ t. IsWritable (view t)) }
{
    let mut trees = List::new(alloc);
    for slot in slots {
        push_tree(&mut trees, slot_tree(alloc, slot)?)?;
    }
    Ok(Tree::Many(trees))
}

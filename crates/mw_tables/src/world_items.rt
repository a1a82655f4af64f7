ghost use Rattle.mw_json.specs.View.{view};
ghost use Rattle.mw_json.specs.Grammar.{Gives};
ghost use Rattle.mw_json.specs.Parts.{id_at, null_or_at};
ghost use Rattle.mw_tables.specs.WorldShape.{class_word_at, class_at, item_at};

use crate::parts::long_name_in;
use mw_base::ItemId;
use mw_json::{Kind, Refusal, Tree, field_in, item_id_in, null_or, object_of, refuse, text_of};
use mw_multi::{Class, Item};
use std::alloc::Global;

/// A class by its word.
#[tactic(auto, unfolding(crate::specs::WorldShape::class_word_at))]
fn class_word_in(alloc: Global, tree: &Tree) -> Result<Class, Refusal>
    ensures { Gives result (class_word_at (view tree.now)) }
{
    match text_of(alloc, tree)? {
        "progression" => Ok(Class::Progression),
        "useful" => Ok(Class::Useful),
        "filler" => Ok(Class::Filler),
        "trap" => Ok(Class::Trap),
        _ => refuse(alloc, Kind::WrongKind),
    }
}

/// The class of an item with this id; an event is of class progression.
#[tactic(auto, unfolding(crate::specs::WorldShape::class_at))]
fn class_in(alloc: Global, tree: &Tree, id: &Option<ItemId>) -> Result<Class, Refusal>
    ensures { Gives result (class_at id.now (view tree.now)) }
{
    let class = class_word_in(alloc, tree)?;
    if id.is_some() || class == Class::Progression {
        Ok(class)
    } else {
        refuse(alloc, Kind::WrongKind)
    }
}

/// An item's number, null at an event.
fn id_of(alloc: Global, tree: &Tree) -> Result<Option<ItemId>, Refusal>
    ensures { Gives result (null_or_at id_at (view tree.now)) }
{
    null_or(alloc, tree, |a, t| item_id_in(a, t))
}

/// An item of a world.
#[tactic(auto, unfolding(crate::specs::WorldShape::item_at))]
pub(crate) fn item_of(alloc: Global, tree: &Tree) -> Result<Item, Refusal>
    ensures { Gives result (item_at (view tree.now)) }
{
    let members = object_of(alloc, tree)?;
    let name = field_in(alloc, members, "name", long_name_in)?;
    let id = field_in(alloc, members, "id", id_of)?;
    let class = field_in(alloc, members, "class", |a, t| class_in(a, t, &id))?;
    Ok(Item { name, id, class })
}

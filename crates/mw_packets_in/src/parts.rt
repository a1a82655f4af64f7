ghost use Rattle.std.specs.Prelude.{◌≡◌, pos};
ghost use Rattle.mw_json.specs.View.{view};
ghost use Rattle.mw_json.specs.Grammar.{Gives, GivesBy, text_at};
ghost use Rattle.mw_protocol.specs.Connecting.{is_mask as is_mask_lem};
ghost use Rattle.mw_packets_in.specs.Fields.{any_at, flag_at, mask_at, texts_at, whole_at, wholes_at};

use mw_base::{List, Text};
use mw_json::{Kind, Refusal, Tree, copy, each, list_of, number_between, refuse, text_of};
use std::alloc::Global;

/// A whole number.
pub(crate) fn whole_in(alloc: Global, tree: &Tree) -> Result<i128, Refusal>
    ensures { Gives result (whole_at (view tree.now)) }
{
    match tree {
        Tree::Whole(z) => Ok(*z),
        _ => refuse(alloc, Kind::WrongKind),
    }
}

/// A flag.
pub(crate) fn flag_in(alloc: Global, tree: &Tree) -> Result<bool, Refusal>
    ensures { Gives result (flag_at (view tree.now)) }
{
    match tree {
        Tree::Flag(b) => Ok(*b),
        _ => refuse(alloc, Kind::WrongKind),
    }
}

/// A copy of a text.
pub(crate) fn text_in(alloc: Global, tree: &Tree) -> Result<Text, Refusal>
    ensures { Gives result (text_at (view tree.now)) }
{
    let text = text_of(alloc, tree)?;
    Ok(Text::of(alloc, text)?)
}

/// A copy of any value.
pub(crate) fn any_in(alloc: Global, tree: &Tree) -> Result<Tree, Refusal>
    ensures { GivesBy view result (any_at (view tree.now)) }
{
    Ok(copy(alloc, tree)?)
}

fn is_mask(number: u8) -> bool
    ensures { result ≡ is_mask_lem (pos number) }
{
    matches!(number, 0 | 1 | 3 | 5 | 7)
}

/// Which items a session wants to hear of.
#[tactic(auto, unfolding(crate::specs::Fields::mask_at))]
pub(crate) fn mask_in(alloc: Global, tree: &Tree) -> Result<u8, Refusal>
    ensures { Gives result (mask_at (view tree.now)) }
{
    let number = number_between(alloc, tree, 0, 255)? as u8;
    if is_mask(number) {
        Ok(number)
    } else {
        refuse(alloc, Kind::WrongKind)
    }
}

/// A list of texts.
#[tactic(auto, unfolding(crate::specs::Fields::texts_at))]
pub(crate) fn texts_in(alloc: Global, tree: &Tree) -> Result<List<Text>, Refusal>
    ensures { Gives result (texts_at (view tree.now)) }
{
    let items = list_of(alloc, tree)?;
    each(alloc, items, text_in)
}

/// A list of whole numbers.
#[tactic(auto, unfolding(crate::specs::Fields::wholes_at))]
pub(crate) fn wholes_in(alloc: Global, tree: &Tree) -> Result<List<i128>, Refusal>
    ensures { Gives result (wholes_at (view tree.now)) }
{
    let items = list_of(alloc, tree)?;
    each(alloc, items, whole_in)
}

ghost use Rattle.mw_json.specs.View.{view, items_view, members_view};
ghost use Rattle.mw_protocol.specs.Operations.{joined, added, removed, popped_index, popped_name, popped, updated_list, updated_object, updated, operated};
ghost use Rattle.mw_storage.specs.Results.{IsResultOf};

use crate::fault::Fault;
use crate::lists::{append, lacking, without_first, without_index};
use crate::numbers::{by_number, itself, number_of};
use crate::objects::{set_members, without_member};
use mw_base::List;
use mw_json::{Member, Operation, Tree, copy};
use std::alloc::Global;

fn joined(alloc: Global, items: List<Tree>, operand: &Tree) -> Result<Tree, Fault>
    ensures { IsResultOf result (joined (items_view items) (view operand.now)) }
{
    match copy(alloc, operand)? {
        Tree::Many(more) => Ok(Tree::Many(append(items, more)?)),
        _ => Err(Fault::Bad),
    }
}

/// The sum of two numbers, or two lists joined.
fn added(alloc: Global, value: Tree, operand: &Tree) -> Result<Tree, Fault>
    ensures { IsResultOf result (added (view value) (view operand.now)) }
{
    match value {
        Tree::Many(items) => joined(alloc, items, operand),
        value => by_number("add", value, operand),
    }
}

/// A list without the first element that is the operand.
fn removed(value: Tree, operand: &Tree) -> Result<Tree, Fault>
    ensures { IsResultOf result (removed (view value) (view operand.now)) }
{
    match value {
        Tree::Many(items) => Ok(Tree::Many(without_first(items, operand))),
        _ => Err(Fault::Bad),
    }
}

fn popped_index(items: List<Tree>, index: Option<i64>) -> Result<Tree, Fault>
    ensures { IsResultOf result (popped_index (items_view items) index) }
{
    match index {
        Some(index) => Ok(Tree::Many(without_index(items, index))),
        None => Err(Fault::Bad),
    }
}

fn popped_name(members: List<Member>, operand: &Tree) -> Result<Tree, Fault>
    ensures { IsResultOf result (popped_name (members_view members) (view operand.now)) }
{
    match operand {
        Tree::Words(name) => Ok(Tree::Members(without_member(members, name.as_str()))),
        _ => Err(Fault::Bad),
    }
}

/// A list without the element at the operand, or an object without the member that it names.
fn popped(value: Tree, operand: &Tree) -> Result<Tree, Fault>
    ensures { IsResultOf result (popped (view value) (view operand.now)) }
{
    match value {
        Tree::Many(items) => popped_index(items, number_of(operand)),
        Tree::Members(members) => popped_name(members, operand),
        _ => Err(Fault::Bad),
    }
}

fn updated_list(alloc: Global, items: List<Tree>, operand: &Tree) -> Result<Tree, Fault>
    ensures { IsResultOf result (updated_list (items_view items) (view operand.now)) }
{
    match operand {
        Tree::Many(more) => {
            let new = lacking(alloc, items.as_slice(), more.as_slice())?;
            Ok(Tree::Many(append(items, new)?))
        }
        _ => Err(Fault::Bad),
    }
}

fn updated_object(alloc: Global, members: List<Member>, operand: &Tree) -> Result<Tree, Fault>
    ensures { IsResultOf result (updated_object (members_view members) (view operand.now)) }
{
    match operand {
        Tree::Members(more) => {
            let all = set_members(alloc, members, more.as_slice())?;
            Ok(Tree::Members(all))
        }
        _ => Err(Fault::Bad),
    }
}

/// A list with the operand's elements that it lacks, or an object with the operand's members set.
fn updated(alloc: Global, value: Tree, operand: &Tree) -> Result<Tree, Fault>
    ensures { IsResultOf result (updated (view value) (view operand.now)) }
{
    match value {
        Tree::Many(items) => updated_list(alloc, items, operand),
        Tree::Members(members) => updated_object(alloc, members, operand),
        _ => Err(Fault::Bad),
    }
}

/// What an operation makes of a value.
#[tactic(auto, unfolding(mw_protocol::specs::Operations::operated))]
pub(crate) fn operated(alloc: Global, operation: &Operation, value: Tree) -> Result<Tree, Fault>
    ensures { IsResultOf result (operated operation.now (view value)) }
{
    let operand = &operation.value;
    match operation.name.as_str() {
        "replace" => Ok(copy(alloc, operand)?),
        "default" => Ok(value),
        "floor" => itself(value),
        "ceil" => itself(value),
        "add" => added(alloc, value, operand),
        "remove" => removed(value, operand),
        "pop" => popped(value, operand),
        "update" => updated(alloc, value, operand),
        name => by_number(name, value, operand),
    }
}

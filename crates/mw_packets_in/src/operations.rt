ghost use Rattle.std.specs.Prelude.{All, codes};
ghost use Rattle.mw_json.specs.Grammar.{Gives, field_at};
ghost use Rattle.mw_json.specs.Readers.{each_from};
ghost use Rattle.mw_json.specs.View.{view, items_view, members_view};
ghost use Rattle.mw_packets_in.specs.Kept.{AreRead, IsRead};
ghost use Rattle.mw_packets_in.specs.Rows.{operation_at, operations_at};

use crate::parts::{any_in, text_in};
use mw_base::List;
use mw_json::{
    Member, Operation, Refusal, Tree, at_index, at_name, field_in, field_seen, list_of, member_of,
    object_of,
};
use std::alloc::Global;

/// An operation: an object with a name and an operand.
#[tactic(auto, unfolding(crate::specs::Rows::operation_at))]
fn operation_of(alloc: Global, tree: &Tree) -> Result<Operation, Refusal>
    requires { IsRead 62 (view tree.now) }
    ensures { Gives result (operation_at (view tree.now)) }
{
    let members = object_of(alloc, tree)?;
    let name = field_in(alloc, members, "operation", text_in)?;
    let value = field_seen(alloc, members, "value", any_in)?;
    Ok(Operation { name, value })
}

fn each_operation(alloc: Global, items: &[Tree]) -> Result<List<Operation>, Refusal>
    requires { All (λ t. IsRead 62 (view t)) items.now }
    ensures { Gives result (each_from operation_at 0 (items_view items.now)) }
{
    let mut found = List::new(alloc);
    for (i, item) in items.iter().enumerate() {
        let one = at_index(operation_of(alloc, item), i as u64)?;
        found.push(one)?;
    }
    Ok(found)
}

/// A list of operations.
#[tactic(auto, using(crate::proofs::Passed::list_read), unfolding(crate::specs::Rows::operations_at))]
fn operations_of(alloc: Global, tree: &Tree) -> Result<List<Operation>, Refusal>
    requires { IsRead 62 (view tree.now) }
    ensures { Gives result (operations_at (view tree.now)) }
{
    let items = list_of(alloc, tree)?;
    each_operation(alloc, items)
}

/// What stands under the name of the operations.
#[tactic(auto, unfolding(mw_json::specs::Grammar::field_at))]
pub(crate) fn operations_field(
    alloc: Global,
    members: &[Member],
) -> Result<List<Operation>, Refusal>
    requires { AreRead 62 (members_view members.now) }
    ensures { Gives result (field_at (codes "operations") operations_at
        (members_view members.now)) }
{
    let found = member_of(alloc, members, "operations")?;
    at_name(alloc, operations_of(alloc, found), "operations")
}

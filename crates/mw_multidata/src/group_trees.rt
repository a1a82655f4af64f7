ghost use Rattle.std.specs.Prelude.{◌≡◌, ◌++◌, IfOk, OnOk, map};
ghost use Rattle.mw_model.specs.Json.{IsWritable, MembersAreWritable, many};
ghost use Rattle.mw_model.specs.Trees.{items_of};
ghost use Rattle.mw_json.specs.View.{view, member_view, members_view};
ghost use Rattle.mw_multidata.specs.Written.{number_json, group_json, form_word, groups_member};

use crate::seed::Group;
use mw_base::{List, Memory, SlotId};
use mw_json::{Field, Member, Tree, number_tree, object, push_tree, put};
use std::alloc::Global;

/// Slots by their numbers, as a list.
fn numbers_tree(alloc: Global, numbers: &[SlotId]) -> Result<Tree, Memory>
    ensures value { IfOk result
        (λ t. view t ≡ many (items_of (map number_json numbers.now))) }
    ensures writable { IfOk result (λ t. IsWritable (view t)) }
{
    let mut trees = List::with_capacity(alloc, numbers.len())?;
    for number in numbers {
        push_tree(&mut trees, number_tree(u64::from(number.get())))?;
    }
    Ok(Tree::Many(trees))
}

/// A group, as an object.
fn group_tree(alloc: Global, group: &Group) -> Result<Tree, Memory>
    ensures value { IfOk result (λ t. view t ≡ group_json group.now) }
    ensures writable { IfOk result (λ t. IsWritable (view t)) }
{
    object(
        alloc,
        &mut [
            ("game", Field::Words(group.game.as_str())),
            (
                "members",
                Field::Built(numbers_tree(alloc, group.members.as_slice())),
            ),
            ("name", Field::Words(group.name.as_str())),
        ],
    )
}

/// The groups, as a list.
fn groups_tree(alloc: Global, groups: &[Group]) -> Result<Tree, Memory>
    ensures value { IfOk result (λ t. view t ≡ many (items_of (map group_json groups.now))) }
    ensures writable { IfOk result (λ t. IsWritable (view t)) }
{
    let mut trees = List::new(alloc);
    for group in groups {
        push_tree(&mut trees, group_tree(alloc, group)?)?;
    }
    Ok(Tree::Many(trees))
}

/// The word of the form that has these groups.
pub(crate) fn form_of(groups: &[Group]) -> &'static str
    ensures { result.now ≡ form_word groups.now }
{
    if groups.is_empty() {
        "mw-multidata-1"
    } else {
        "mw-multidata-2"
    }
}

/// The groups under their name after other members, where there is one.
#[tactic(auto, using(mw_json::proofs::Built::one_member_more))]
pub(crate) fn put_groups(
    alloc: Global,
    members: &mut List<Member>,
    groups: &[Group],
) -> Result<(), Memory>
    requires { MembersAreWritable (members_view members.old) }
    ensures value { OnOk result (map member_view members.new
        ≡ map member_view members.old ++ groups_member groups.now) }
    ensures writable { OnOk result (MembersAreWritable (members_view members.new)) }
{
    if groups.is_empty() {
        return Ok(());
    }
    let tree = groups_tree(alloc, groups)?;
    put(alloc, members, "groups", tree)
}

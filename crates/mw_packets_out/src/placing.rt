ghost use Rattle.std.specs.Prelude.{◌≡◌, ◌≤◌, ◌++◌, IfOk, OnOk, length, map};
ghost use Rattle.mw_model.specs.Json.{IsWritable, MembersAreWritable, many, words};
ghost use Rattle.mw_model.specs.Trees.{items_of, put_member};
ghost use Rattle.mw_json.specs.View.{view, member_view, members_view};
ghost use Rattle.mw_packets_out.specs.Places.{place_in};

use mw_base::{List, Memory, Text};
use mw_json::{Member, Tree, copy, copy_members, named, put, words_tree};
use std::alloc::Global;

/// Where a member of this name is put: before the first whose name is greater.
fn place_of(members: &[Member], name: &str) -> usize
    ensures value { result ≡ place_in name.now (members_view members.now) }
    ensures within { result ≤ length members.now }
{
    for (i, member) in members.iter().enumerate() {
        if name < member.name.as_str() {
            return i;
        }
    }
    members.len()
}

/// A member more, at its place in byte order.
pub(crate) fn insert(members: &mut Vec<Member>, name: Text, value: Tree) -> Result<(), Memory>
    ensures value { OnOk result (members_view members.new.items
        ≡ put_member name (view value) (members_view members.old.items)) }
    ensures writable { OnOk result (MembersAreWritable (members_view members.old.items)
        → IsWritable (view value) → MembersAreWritable (members_view members.new.items)) }
{
    let at = place_of(members.as_slice(), name.as_str());
    members.insert(at, named(name, value))?;
    Ok(())
}

/// A member more of this name, at its place in byte order.
pub(crate) fn insert_named(
    alloc: Global,
    members: &mut Vec<Member>,
    name: &str,
    value: Tree,
) -> Result<(), Memory>
    ensures value { OnOk result (members_view members.new.items
        ≡ put_member name.now (view value) (members_view members.old.items)) }
    ensures writable { OnOk result (MembersAreWritable (members_view members.old.items)
        → IsWritable (view value) → MembersAreWritable (members_view members.new.items)) }
{
    insert(members, Text::of(alloc, name)?, value)
}

/// A text's member more, at its place in byte order.
pub(crate) fn insert_words(
    alloc: Global,
    members: &mut Vec<Member>,
    name: &str,
    value: &str,
) -> Result<(), Memory>
    ensures value { OnOk result (members_view members.new.items
        ≡ put_member name.now (words value.now) (members_view members.old.items)) }
    ensures writable { OnOk result (MembersAreWritable (members_view members.old.items)
        → MembersAreWritable (members_view members.new.items)) }
{
    insert_named(alloc, members, name, words_tree(alloc, value)?)
}

/// A member more that is a copy of a value, at its place in byte order.
pub(crate) fn insert_copy(
    alloc: Global,
    members: &mut Vec<Member>,
    name: &str,
    value: &Tree,
) -> Result<(), Memory>
    ensures value { OnOk result (members_view members.new.items
        ≡ put_member name.now (view value.now) (members_view members.old.items)) }
    ensures writable { OnOk result (MembersAreWritable (members_view members.old.items)
        → IsWritable (view value.now) → MembersAreWritable (members_view members.new.items)) }
{
    insert_named(alloc, members, name, copy(alloc, value)?)
}

/// Adds copies of members at the end.
pub(crate) fn put_copies(
    alloc: Global,
    members: &mut List<Member>,
    given: &[Member],
) -> Result<(), Memory>
    ensures { OnOk result (map member_view members.new
        ≡ map member_view members.old ++ map member_view given.now) }
{
    for member in given {
        let value = copy(alloc, &member.value)?;
        put(alloc, members, member.name.as_str(), value)?;
    }
    Ok(())
}

/// A copy of a packet's further members, to which its own are added.
pub(crate) fn further_of(alloc: Global, further: &[Member]) -> Result<Vec<Member>, Memory>
    requires { MembersAreWritable (members_view further.now) }
    ensures value { IfOk result (λ ms. members_view ms.items ≡ members_view further.now) }
    ensures writable { IfOk result (λ ms. MembersAreWritable (members_view ms.items)) }
{
    Ok(copy_members(alloc, further)?.into_vec())
}

/// A copy of values, as a list.
pub(crate) fn copied_list(alloc: Global, trees: &[Tree]) -> Result<Tree, Memory>
    ensures { IfOk result (λ t. view t ≡ many (items_of (map view trees.now))) }
{
    let mut copies = List::new(alloc);
    for tree in trees {
        copies.push(copy(alloc, tree)?)?;
    }
    Ok(Tree::Many(copies))
}

ghost use Rattle.std.specs.Prelude.{◌≡◌, IfOk, map};
ghost use Rattle.mw_json.specs.View.{view, member_view};

use crate::tree::{Member, Tree};
use mw_base::{List, Memory, Text};
use std::alloc::Global;

/// A copy of a tree. `Memory` is its only error.
#[cycle(copy)]
pub fn copy(alloc: Global, tree: &Tree) -> Result<Tree, Memory>
    ensures { IfOk result (λ t. view t ≡ view tree.now) }
{
    match tree {
        Tree::Null => Ok(Tree::Null),
        Tree::Flag(b) => Ok(Tree::Flag(*b)),
        Tree::Whole(z) => Ok(Tree::Whole(*z)),
        Tree::NotWhole => Ok(Tree::NotWhole),
        Tree::Numeral(text) => Ok(Tree::Numeral(Text::of(alloc, text.as_str())?)),
        Tree::Words(text) => Ok(Tree::Words(Text::of(alloc, text.as_str())?)),
        Tree::Many(items) => Ok(Tree::Many(copy_items(alloc, items.as_slice())?)),
        Tree::Members(members) => Ok(Tree::Members(copy_members(alloc, members.as_slice())?)),
    }
}

#[cycle(copy)]
fn copy_items(alloc: Global, items: &[Tree]) -> Result<List<Tree>, Memory>
    ensures { IfOk result (λ ts. map view ts ≡ map view items.now) }
{
    let mut copied = List::new(alloc);
    for item in items {
        copied.push(copy(alloc, item)?)?;
    }
    Ok(copied)
}

/// A copy of members. `Memory` is its only error.
#[cycle(copy)]
pub fn copy_members(alloc: Global, members: &[Member]) -> Result<List<Member>, Memory>
    ensures { IfOk result (λ ms. map member_view ms ≡ map member_view members.now) }
{
    let mut copied = List::new(alloc);
    for member in members {
        let name = Text::of(alloc, member.name.as_str())?;
        let value = copy(alloc, &member.value)?;
        copied.push(Member { name, value })?;
    }
    Ok(copied)
}

/// A copy of a member. `Memory` is its only error.
pub fn copy_member(alloc: Global, member: &Member) -> Result<Member, Memory>
    ensures { IfOk result (λ m. member_view m ≡ member_view member.now) }
{
    let name = Text::of(alloc, member.name.as_str())?;
    let value = copy(alloc, &member.value)?;
    Ok(Member { name, value })
}

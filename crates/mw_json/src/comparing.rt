ghost use Rattle.std.specs.Prelude.{◌≡◌, ◌↔◌, IsTrue};
ghost use Rattle.mw_json.specs.View.{view, member_view, items_view, members_view};

use crate::tree::{Member, Tree};

/// Whether two trees mean the same. It takes no memory.
#[cycle(same)]
pub fn same(left: &Tree, right: &Tree) -> bool
    ensures { IsTrue result ↔ (view left.now ≡ view right.now) }
{
    match (left, right) {
        (Tree::Null, Tree::Null) => true,
        (Tree::Flag(a), Tree::Flag(b)) => a == b,
        (Tree::Whole(a), Tree::Whole(b)) => a == b,
        (Tree::NotWhole, Tree::NotWhole) => true,
        (Tree::Numeral(a), Tree::Numeral(b)) => a.as_str() == b.as_str(),
        (Tree::Words(a), Tree::Words(b)) => a.as_str() == b.as_str(),
        (Tree::Many(a), Tree::Many(b)) => same_items(a.as_slice(), b.as_slice()),
        (Tree::Members(a), Tree::Members(b)) => same_members(a.as_slice(), b.as_slice()),
        _ => false,
    }
}

#[cycle(same)]
fn same_items(left: &[Tree], right: &[Tree]) -> bool
    ensures { IsTrue result ↔ (items_view left.now ≡ items_view right.now) }
{
    if left.len() != right.len() {
        return false;
    }
    for (i, item) in left.iter().enumerate() {
        if !same(item, &right[i]) {
            return false;
        }
    }
    true
}

#[cycle(same)]
fn same_member(left: &Member, right: &Member) -> bool
    ensures { IsTrue result ↔ (member_view left.now ≡ member_view right.now) }
{
    left.name.as_str() == right.name.as_str() && same(&left.value, &right.value)
}

#[cycle(same)]
fn same_members(left: &[Member], right: &[Member]) -> bool
    ensures { IsTrue result ↔ (members_view left.now ≡ members_view right.now) }
{
    if left.len() != right.len() {
        return false;
    }
    for (i, member) in left.iter().enumerate() {
        if !same_member(member, &right[i]) {
            return false;
        }
    }
    true
}

ghost use Rattle.std.specs.Prelude.{◌≡◌, option_map};
ghost use Rattle.mw_model.specs.Json.{field_of, find_member};
ghost use Rattle.mw_json.specs.View.{view, members_view};

use crate::tree::{Member, Tree};

/// The value of the member of a name; None exactly where there is none.
pub fn find<'a>(members: &'a [Member], name: &str) -> Option<&'a Tree>
    ensures { option_map (λ t. view t.now) result
        ≡ find_member name.now (members_view members.now) }
{
    for member in members {
        if member.name.as_str() == name {
            return Some(&member.value);
        }
    }
    None
}

/// The member of a name; None exactly where the tree is no object or has no such member.
pub fn field<'a>(tree: &'a Tree, name: &str) -> Option<&'a Tree>
    ensures { option_map (λ t. view t.now) result ≡ field_of name.now (view tree.now) }
{
    match tree {
        Tree::Members(members) => find(members.as_slice(), name),
        _ => None,
    }
}

ghost use Rattle.std.specs.Prelude.{◌≡◌, ◌++◌, ◌∷◌, [], IfOk, OnErr, OnOk, map, pos};
ghost use Rattle.mw_model.specs.Json.{Json, Members, many, members as object_json, whole, words, IsWritable, ItemsAreWritable, MembersAreWritable};
ghost use Rattle.mw_json.specs.View.{view, member_view, items_view, members_view};
ghost use Rattle.mw_json.specs.Building.{FieldHolds, FieldsHold, FieldIsWritable, FieldsAreWritable};

use crate::tree::{Member, Tree};
use mw_base::{List, Memory, Text};
use std::alloc::Global;
use std::mem::replace;

/// A number that isn't negative.
pub fn number_tree(n: u64) -> Tree
    ensures value { view result ≡ whole (pos n) }
    ensures writable { IsWritable (view result) }
{
    Tree::Whole(i128::from(n))
}

/// An item's or a location's number.
pub fn id_tree(n: i64) -> Tree
    ensures value { view result ≡ whole n }
    ensures writable { IsWritable (view result) }
{
    Tree::Whole(i128::from(n))
}

/// A text.
pub fn words_tree(alloc: Global, text: &str) -> Result<Tree, Memory>
    ensures { IfOk result (λ t. view t ≡ words text.now) }
{
    Ok(Tree::Words(Text::of(alloc, text)?))
}

/// A member of an object.
pub fn named(name: Text, value: Tree) -> Member
    ensures { member_view result ≡ (name, view value) }
{
    Member { name, value }
}

/// One member more, at the end. After `Memory` the members are as before.
pub fn put(alloc: Global, members: &mut List<Member>, name: &str, value: Tree) -> Result<(), Memory>
    ensures ok { OnOk result (map member_view members.new
        ≡ map member_view members.old ++ (name.now, view value) ∷ []) }
    ensures err { OnErr result (members.new ≡ members.old) }
{
    let name = Text::of(alloc, name)?;
    members.push(named(name, value))
}

/// One element more, at the end. After `Memory` the elements are as before.
#[tactic(auto, using(crate::proofs::Writable::one_more))]
pub fn push_tree(trees: &mut List<Tree>, tree: Tree) -> Result<(), Memory>
    requires trees { ItemsAreWritable (items_view trees.old) }
    requires tree { IsWritable (view tree) }
    ensures value { OnOk result (map view trees.new ≡ map view trees.old ++ view tree ∷ []) }
    ensures writable { OnOk result (ItemsAreWritable (items_view trees.new)) }
    ensures err { OnErr result (trees.new ≡ trees.old) }
{
    trees.push(tree)
}

/// The array of these elements.
pub fn array_tree(elements: List<Tree>) -> Tree
    ensures { view result ≡ many (items_view elements) }
{
    Tree::Many(elements)
}

/// The object of these members.
pub fn object_tree(parts: List<Member>) -> Tree
    ensures { view result ≡ object_json (members_view parts) }
{
    Tree::Members(parts)
}

/// What a field of a new object holds.
#[derive(Drop)]
pub enum Field<'a> {
    /// True or false.
    Flag(bool),
    /// An item's or a location's number.
    Id(i64),
    /// A number that isn't negative.
    Number(u64),
    /// A text.
    Words(&'a str),
    /// A value that was built, where memory was enough.
    Built(Result<Tree, Memory>),
}

/// Makes a field's value, which takes one that was built out of it.
fn field_tree(alloc: Global, field: &mut Field) -> Result<Tree, Memory>
    ensures value { (j : Json) → FieldHolds field.old j → IfOk result (λ t. view t ≡ j) }
    ensures writable { FieldIsWritable field.old → IfOk result (λ t. IsWritable (view t)) }
{
    match field {
        Field::Flag(flag) => Ok(Tree::Flag(*flag)),
        Field::Id(id) => Ok(id_tree(*id)),
        Field::Number(number) => Ok(number_tree(*number)),
        Field::Words(text) => words_tree(alloc, text),
        Field::Built(made) => replace(made, Ok(Tree::Null)),
    }
}

/// The members of a new object, by their names and what they hold; a value that was built is taken
/// out of its field. `Memory` is its only error, and comes too where a field has none.
pub fn members(alloc: Global, fields: &mut [(&str, Field)]) -> Result<List<Member>, Memory>
    ensures value { (ms : Members) → FieldsHold (map (λ f. (f.0.now, f.1)) fields.old) ms
        → IfOk result (λ r. members_view r ≡ ms) }
    ensures writable { FieldsAreWritable (map (λ f. f.1) fields.old)
        → IfOk result (λ r. MembersAreWritable (members_view r)) }
{
    let mut members = List::with_capacity(alloc, fields.len())?;
    for (name, field) in fields.iter_mut() {
        let value = field_tree(alloc, field)?;
        put(alloc, &mut members, name, value)?;
    }
    Ok(members)
}

/// A new object, by its members' names and what they hold; a value that was built is taken out of
/// its field. `Memory` is its only error, and comes too where a field has none.
pub fn object(alloc: Global, fields: &mut [(&str, Field)]) -> Result<Tree, Memory>
    ensures value { (ms : Members) → FieldsHold (map (λ f. (f.0.now, f.1)) fields.old) ms
        → IfOk result (λ t. view t ≡ object_json ms) }
    ensures writable { FieldsAreWritable (map (λ f. f.1) fields.old)
        → IfOk result (λ t. IsWritable (view t)) }
{
    Ok(object_tree(members(alloc, fields)?))
}

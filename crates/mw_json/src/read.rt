ghost use Rattle.std.specs.Prelude.{◌≡◌, ◌≢◌, ◌≤◌, ◌<◌, IfOk, None, Some, IsUtf8};
ghost use Rattle.serde_json.specs.View.{number_view, view as data_view, items_view as data_items, members_view as data_members};
ghost use Rattle.mw_model.specs.Json.{Json, depth, items_depth, members_depth};
ghost use Rattle.mw_json.specs.Reading.{IsReading, reading, of_number, of_data, of_items, of_members, max_depth};
ghost use Rattle.mw_json.specs.Valid.{IsValid};
ghost use Rattle.mw_json.specs.View.{view, items_view, members_view};

use crate::error::JsonError;
use crate::tree::{Member, Tree};
use mw_base::{List, Text};
use serde_json::{Category, Map, Number, Value};
use std::alloc::Global;

/// Reads a text. Its depth is at most 64, each whole number of it is from -2^63 to 2^64 - 1, and the members of each
/// object ascend strictly in byte order of their names.
pub fn read_text(alloc: Global, bytes: &[u8]) -> Result<Tree, JsonError>
    ensures ok { IfOk result (λ t. IsReading bytes.now (view t) × (depth (view t) ≤ max_depth)) }
    ensures valid { IfOk result (λ t. IsValid (view t)) }
    ensures no_json { result ≡ Err JsonError.NoJson → IsUtf8 bytes.now → reading bytes.now ≡ None }
    ensures too_deep { result ≡ Err JsonError.TooDeep
        → (j : Json) × IsReading bytes.now j × (max_depth < depth j) }
{
    match Value::from_slice(alloc, bytes) {
        Ok(value) => tree_of(alloc, value, 64),
        Err(e) => match e.classify() {
            Category::Memory => Err(JsonError::Memory),
            _ => Err(JsonError::NoJson),
        },
    }
}

/// The tree of a value. Each part of the value is freed as its tree is made.
#[cycle(tree_of)]
fn tree_of(alloc: Global, value: Value, room: usize) -> Result<Tree, JsonError>
    ensures ok { IfOk result (λ t. (view t ≡ of_data (data_view value)) × (depth (view t) ≤ room)) }
    ensures too_deep { result ≡ Err JsonError.TooDeep → room < depth (of_data (data_view value)) }
    ensures json { result ≢ Err JsonError.NoJson }
{
    match value {
        Value::Null => Ok(Tree::Null),
        Value::Bool(b) => Ok(Tree::Flag(b)),
        Value::Number(n) => Ok(number_of(&n)),
        Value::String(s) => Ok(Tree::Words(Text::from_string(s))),
        Value::Array(items) => {
            if room == 0 {
                return Err(JsonError::TooDeep);
            }
            Ok(Tree::Many(items_of(alloc, items, room - 1)?))
        }
        Value::Object(members) => {
            if room == 0 {
                return Err(JsonError::TooDeep);
            }
            Ok(Tree::Members(members_of(alloc, members, room - 1)?))
        }
    }
}

fn number_of(n: &Number) -> Tree
    ensures { view result ≡ of_number (number_view n.now) }
{
    if let Some(whole) = n.as_u64() {
        return Tree::Whole(i128::from(whole));
    }
    if let Some(whole) = n.as_i64() {
        return Tree::Whole(i128::from(whole));
    }
    Tree::NotWhole
}

#[cycle(tree_of)]
fn items_of(alloc: Global, items: Vec<Value>, room: usize) -> Result<List<Tree>, JsonError>
    ensures ok { IfOk result (λ ts. (items_view ts ≡ of_items (data_items items.items))
        × (items_depth (items_view ts) ≤ room)) }
    ensures too_deep { result ≡ Err JsonError.TooDeep
        → room < items_depth (of_items (data_items items.items)) }
    ensures json { result ≢ Err JsonError.NoJson }
{
    let mut found = List::with_capacity(alloc, items.len())?;
    for item in items {
        found.push(tree_of(alloc, item, room)?)?;
    }
    Ok(found)
}

#[cycle(tree_of)]
fn members_of(
    alloc: Global,
    members: Map<String, Value>,
    room: usize,
) -> Result<List<Member>, JsonError>
    ensures ok { IfOk result (λ ms. (members_view ms ≡ of_members (data_members members.entries))
        × (members_depth (members_view ms) ≤ room)) }
    ensures too_deep { result ≡ Err JsonError.TooDeep
        → room < members_depth (of_members (data_members members.entries)) }
    ensures json { result ≢ Err JsonError.NoJson }
{
    let mut found = List::with_capacity(alloc, members.len())?;
    for (key, member) in members {
        let name = Text::from_string(key);
        let value = tree_of(alloc, member, room)?;
        found.push(Member { name, value })?;
    }
    Ok(found)
}

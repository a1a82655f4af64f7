ghost use Rattle.std.specs.Prelude.{◌≡◌, ◌≢◌, ◌≤◌, ◌<◌, ◌↔◌, length, IfErr, IfOk, IsTrue, IsUtf8, None, OnOk, Some, option_map, string_bytes};
ghost use Rattle.json.specs.Json.{items, members, parse_map, read_key, value};
ghost use Rattle.mw_model.specs.Json.{Json, depth, items_depth, members_depth, no_members, IsWritable};
ghost use Rattle.mw_model.specs.Trees.{set_member};
ghost use Rattle.mw_json.specs.Entries.{entries_view};
ghost use Rattle.mw_json.specs.KeptReading.{IsKeptReading, kept_items, kept_members, kept_number, kept_reading, kept_value};
ghost use Rattle.mw_json.specs.Reading.{max_depth};
ghost use Rattle.mw_json.specs.Valid.{IsValid};
ghost use Rattle.mw_json.specs.View.{view, items_view, member_view, members_view};

use crate::error::JsonError;
use crate::tree::{Member, Tree};
use json::{Reader, Scratch, Token};
use mw_base::{List, Memory, Text};
use mw_numerals::whole_of;
use std::alloc::Global;
use std::collections::BTreeMap;

/// The tree of a number with these characters.
fn number_of_text(alloc: Global, text: &str) -> Result<Tree, Memory>
    ensures { IfOk result (λ t. view t ≡ kept_number text.now) }
{
    match whole_of(text) {
        Some(number) => Ok(Tree::Whole(number)),
        None => Ok(Tree::Numeral(Text::of(alloc, text)?)),
    }
}

/// The next name of an object, none at its end.
fn next_name<'a>(reader: &mut Reader<'a>) -> Result<Option<&'a str>, JsonError>
    ensures ok { IfOk result
        (λ name. read_key reader.old ≡ Some (option_map (λ s. s.now) name, reader.new)) }
    ensures no_json { IfErr result
        (λ e. (e ≡ JsonError.NoJson) × (read_key reader.old ≡ None)) }
{
    match reader.next_key() {
        Ok(name) => Ok(name),
        Err(_) => Err(JsonError::NoJson),
    }
}

/// The members that a map holds, in its order.
fn members_of(alloc: Global, found: BTreeMap<String, Tree>) -> Result<List<Member>, Memory>
    ensures { IfOk result (λ ms. members_view ms ≡ entries_view found.entries) }
{
    let mut members = List::with_capacity(alloc, found.len())?;
    for (name, value) in found {
        let name = Text::from_string(name);
        members.push(Member { name, value })?;
    }
    Ok(members)
}

/// Puts a member into a map, in the place of one with its name.
fn put(found: &mut BTreeMap<String, Tree>, name: String, value: Tree) -> Result<(), Memory>
    ensures { OnOk result (entries_view found.new.entries
        ≡ set_member (string_bytes name) (view value) (entries_view found.old.entries)) }
{
    match found.insert(name, value) {
        Ok(_) => Ok(()),
        Err(_) => Err(Memory),
    }
}

/// The tree of the next value, in which lists and objects nest no deeper than this.
#[cycle(read_value)]
fn read_value(alloc: Global, reader: &mut Reader<'_>, levels: usize) -> Result<Tree, JsonError>
    ensures ok { IfOk result (λ t. parse_map kept_value (value levels reader.old)
        ≡ Some (view t, reader.new)) }
    ensures shorter { OnOk result (length reader.new < length reader.old) }
    ensures no_json { result ≡ Err JsonError.NoJson → value levels reader.old ≡ None }
    ensures deep { result ≢ Err JsonError.TooDeep }
{
    let token = reader.next().ok_or(JsonError::NoJson)?;
    match token {
        Token::String(text) => Ok(Tree::Words(Text::of(alloc, text)?)),
        Token::Number(text) => Ok(number_of_text(alloc, text)?),
        Token::Bool(flag) => Ok(Tree::Flag(flag)),
        Token::Null => Ok(Tree::Null),
        Token::EndObject | Token::EndArray | Token::Key(_) | Token::Bad => Err(JsonError::NoJson),
        Token::BeginArray => {
            if levels == 0 {
                return Err(JsonError::NoJson);
            }
            Ok(Tree::Many(read_items(alloc, reader, levels - 1)?))
        }
        Token::BeginObject => {
            if levels == 0 {
                return Err(JsonError::NoJson);
            }
            let found = read_members(alloc, reader, levels - 1)?;
            Ok(Tree::Members(members_of(alloc, found)?))
        }
    }
}

/// The trees of a list's elements.
#[cycle(read_value)]
fn read_items(
    alloc: Global,
    reader: &mut Reader<'_>,
    levels: usize,
) -> Result<List<Tree>, JsonError>
    ensures ok { IfOk result (λ ts.
        parse_map kept_items (items (value levels) (length reader.old) reader.old)
        ≡ Some (items_view ts, reader.new)) }
    ensures shorter { OnOk result (length reader.new < length reader.old) }
    ensures no_json { result ≡ Err JsonError.NoJson
        → items (value levels) (length reader.old) reader.old ≡ None }
    ensures deep { result ≢ Err JsonError.TooDeep }
{
    let mut found = List::new(alloc);
    'items: while !reader.take_end_array() {
        let item = read_value(alloc, reader, levels)?;
        found.push(item)?;
    }
    Ok(found)
}

/// The members of an object, by their names: of several with one name the last.
#[cycle(read_value)]
fn read_members(
    alloc: Global,
    reader: &mut Reader<'_>,
    levels: usize,
) -> Result<BTreeMap<String, Tree>, JsonError>
    ensures ok { IfOk result (λ m. parse_map (λ ms. kept_members ms no_members)
        (members (value levels) (length reader.old) reader.old)
        ≡ Some (entries_view m.entries, reader.new)) }
    ensures shorter { OnOk result (length reader.new < length reader.old) }
    ensures no_json { result ≡ Err JsonError.NoJson
        → members (value levels) (length reader.old) reader.old ≡ None }
    ensures deep { result ≢ Err JsonError.TooDeep }
{
    let mut found = BTreeMap::new(alloc);
    'members: while let Some(name) = next_name(reader)? {
        let name = Text::of(alloc, name)?.into_string();
        let value = read_value(alloc, reader, levels)?;
        put(&mut found, name, value)?;
    }
    Ok(found)
}

/// Whether a tree nests no deeper than this.
#[cycle(nests_within)]
fn nests_within(tree: &Tree, room: usize) -> bool
    ensures { IsTrue result ↔ (depth (view tree.now) ≤ room) }
{
    match tree {
        Tree::Null
        | Tree::Flag(_)
        | Tree::Whole(_)
        | Tree::NotWhole
        | Tree::Numeral(_)
        | Tree::Words(_) => true,
        Tree::Many(items) => room != 0 && items_nest_within(items.as_slice(), room - 1),
        Tree::Members(members) => room != 0 && members_nest_within(members.as_slice(), room - 1),
    }
}

#[cycle(nests_within)]
fn items_nest_within(items: &[Tree], room: usize) -> bool
    ensures { IsTrue result ↔ (items_depth (items_view items.now) ≤ room) }
{
    for item in items {
        if !nests_within(item, room) {
            return false;
        }
    }
    true
}

#[cycle(nests_within)]
fn member_nests_within(member: &Member, room: usize) -> bool
    ensures { IsTrue result ↔ (depth (member_view member.now).1 ≤ room) }
{
    nests_within(&member.value, room)
}

#[cycle(nests_within)]
fn members_nest_within(members: &[Member], room: usize) -> bool
    ensures { IsTrue result ↔ (members_depth (members_view members.now) ≤ room) }
{
    for member in members {
        if !member_nests_within(member, room) {
            return false;
        }
    }
    true
}

/// The memory in which texts are read, kept from one to the next: to make it takes longer than to
/// read a short text.
#[derive(Drop)]
pub struct Workspace {
    scratch: Scratch,
}

impl Workspace {
    pub fn new(alloc: Global) -> Workspace {
        Workspace {
            scratch: Scratch::new(alloc),
        }
    }
}

/// The tree of a whole text, however deep it is.
fn read_whole(alloc: Global, space: &mut Workspace, text: &str) -> Result<Tree, JsonError>
    ensures ok { IfOk result (λ t. kept_reading text.now ≡ Some (view t)) }
    ensures no_json { result ≡ Err JsonError.NoJson → kept_reading text.now ≡ None }
    ensures deep { result ≢ Err JsonError.TooDeep }
{
    let Ok(mut reader) = Reader::new(text, &mut space.scratch) else {
        return Err(JsonError::Memory);
    };
    let tree = read_value(alloc, &mut reader, 127)?;
    if reader.next().is_some() {
        return Err(JsonError::NoJson);
    }
    Ok(tree)
}

/// Reads a text with its numerals: each that is no plain whole number, or lies outside -2^63 to
/// 2^64 - 1, stands as its characters. The tree's depth is at most 64. What the workspace was used
/// for before makes no difference.
pub fn read_kept_in(alloc: Global, space: &mut Workspace, bytes: &[u8]) -> Result<Tree, JsonError>
    ensures ok { IfOk result (λ t. IsKeptReading bytes.now (view t)
        × (depth (view t) ≤ max_depth)) }
    ensures valid { IfOk result (λ t. IsValid (view t)) }
    ensures writable { IfOk result (λ t. IsWritable (view t)) }
    ensures no_json { result ≡ Err JsonError.NoJson → IsUtf8 bytes.now
        → kept_reading bytes.now ≡ None }
    ensures too_deep { result ≡ Err JsonError.TooDeep
        → (j : Json) × IsKeptReading bytes.now j × (max_depth < depth j) }
{
    let Ok(text) = std::str::from_utf8(bytes) else {
        return Err(JsonError::NoJson);
    };
    let tree = read_whole(alloc, space, text)?;
    if !nests_within(&tree, 64) {
        return Err(JsonError::TooDeep);
    }
    Ok(tree)
}

/// Reads one text as `read_kept_in` does.
pub fn read_kept(alloc: Global, bytes: &[u8]) -> Result<Tree, JsonError>
    ensures ok { IfOk result (λ t. IsKeptReading bytes.now (view t)
        × (depth (view t) ≤ max_depth)) }
    ensures valid { IfOk result (λ t. IsValid (view t)) }
    ensures writable { IfOk result (λ t. IsWritable (view t)) }
    ensures no_json { result ≡ Err JsonError.NoJson → IsUtf8 bytes.now
        → kept_reading bytes.now ≡ None }
    ensures too_deep { result ≡ Err JsonError.TooDeep
        → (j : Json) × IsKeptReading bytes.now j × (max_depth < depth j) }
{
    let mut space = Workspace::new(alloc);
    read_kept_in(alloc, &mut space, bytes)
}

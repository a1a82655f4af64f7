ghost use Rattle.std.specs.Prelude.{◌≡◌, ◌≤◌, ◌++◌, ◌∷◌, ◌↔◌, [], Some, IfOk, OnOk, IsTrue, IsUtf8};
ghost use Rattle.json.specs.Token.{number as number_token};
ghost use Rattle.json.specs.Tree.{json_tokens, items_tokens, members_tokens};
ghost use Rattle.mw_model.specs.Json.{Json, depth, IsWritable, ItemsAreWritable, MembersAreWritable, IsOrdered, IsPlain, IsInRange, IsNumeral};
ghost use Rattle.mw_json.specs.KeptReading.{kept_reading};
ghost use Rattle.mw_json.specs.Reading.{reading, max_depth};
ghost use Rattle.mw_model.specs.Spelling.{spelling, number_text, outline, items_outline, members_outline};
ghost use Rattle.mw_json.specs.View.{view, items_view, members_view};

use crate::tree::{Member, Tree};
use json::Writer;
use mw_base::{Bytes, List, Memory};
use mw_numerals::is_kept;
use std::alloc::Global;

/// The compact text of a tree.
pub fn compact(alloc: Global, tree: &Tree) -> Result<Bytes, Memory>
    requires { IsWritable (view tree.now) }
    ensures text { IfOk result (λ b. b ≡ spelling (view tree.now)) }
    ensures utf8 { IfOk result (λ b. IsUtf8 b) }
{
    let mut out = Writer::new(Vec::new(alloc));
    write(tree, &mut out)?;
    Ok(Bytes::from_vec(out.into_inner()))
}

/// What is written is read again.
pub fn reads_back()
    ensures { (j : Json) → IsWritable j → IsOrdered j → IsPlain j → depth j ≤ max_depth
        → reading (spelling j) ≡ Some j }
{}

/// What is written is read again with its numerals.
pub fn keeps_back()
    ensures { (j : Json) → IsWritable j → IsOrdered j → depth j ≤ max_depth
        → kept_reading (spelling j) ≡ Some j }
{}

#[cycle(write)]
fn write(tree: &Tree, out: &mut Writer) -> Result<(), Memory>
    requires { IsWritable (view tree.now) }
    ensures ok { OnOk result (out.new.tokens
        ≡ out.old.tokens ++ json_tokens (outline (view tree.now))) }
    ensures before { out.new.before ≡ out.old.before }
{
    match tree {
        Tree::Null => out.null()?,
        Tree::Flag(b) => out.boolean(*b)?,
        Tree::Whole(z) => write_whole(*z, out)?,
        Tree::NotWhole => unreachable!(),
        Tree::Numeral(text) => out.number(text.as_str())?,
        Tree::Words(text) => out.string(text.as_str())?,
        Tree::Many(items) => {
            out.begin_array()?;
            write_items(items.as_slice(), out)?;
        }
        Tree::Members(members) => {
            out.begin_object()?;
            write_members(members.as_slice(), out)?;
        }
    }
    Ok(())
}

fn write_whole(z: i128, out: &mut Writer) -> Result<(), Memory>
    requires { IsInRange z }
    ensures ok { OnOk result (out.new.tokens
        ≡ out.old.tokens ++ number_token (number_text z) ∷ []) }
    ensures before { out.new.before ≡ out.old.before }
{
    if z >= 0 {
        out.u64(z as u64)?;
    } else {
        out.i64(z as i64)?;
    }
    Ok(())
}

#[cycle(write)]
fn write_items(items: &[Tree], out: &mut Writer) -> Result<(), Memory>
    requires { ItemsAreWritable (items_view items.now) }
    ensures ok { OnOk result (out.new.tokens
        ≡ out.old.tokens ++ items_tokens (items_outline (items_view items.now))) }
    ensures before { out.new.before ≡ out.old.before }
{
    for item in items {
        write(item, out)?;
    }
    out.end_array()?;
    Ok(())
}

#[cycle(write)]
fn write_members(members: &[Member], out: &mut Writer) -> Result<(), Memory>
    requires { MembersAreWritable (members_view members.now) }
    ensures ok { OnOk result (out.new.tokens
        ≡ out.old.tokens ++ members_tokens (members_outline (members_view members.now))) }
    ensures before { out.new.before ≡ out.old.before }
{
    for member in members {
        out.key(member.name.as_str())?;
        write(&member.value, out)?;
    }
    out.end_object()?;
    Ok(())
}

/// Whether a tree can be written.
#[cycle(can)]
pub fn can_write(tree: &Tree) -> bool
    ensures { IsTrue result ↔ IsWritable (view tree.now) }
{
    match tree {
        Tree::Null | Tree::Flag(_) | Tree::Words(_) => true,
        Tree::Whole(z) => is_in_range(*z),
        Tree::NotWhole => false,
        Tree::Numeral(text) => is_numeral(text.as_str()),
        Tree::Many(items) => can_write_items(items.as_slice()),
        Tree::Members(members) => can_write_members(members.as_slice()),
    }
}

fn is_numeral(text: &str) -> bool
    ensures { IsTrue result ↔ IsNumeral text.now }
{
    is_kept(text)
}

fn is_in_range(z: i128) -> bool
    ensures { IsTrue result ↔ IsInRange z }
{
    -0x8000_0000_0000_0000 <= z && z <= 0xffff_ffff_ffff_ffff
}

#[cycle(can)]
fn can_write_items(items: &[Tree]) -> bool
    ensures { IsTrue result ↔ ItemsAreWritable (items_view items.now) }
{
    for item in items {
        if !can_write(item) {
            return false;
        }
    }
    true
}

#[cycle(can)]
fn can_write_members(members: &[Member]) -> bool
    ensures { IsTrue result ↔ MembersAreWritable (members_view members.now) }
{
    for member in members {
        if !can_write(&member.value) {
            return false;
        }
    }
    true
}

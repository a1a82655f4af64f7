//! What `multiplay` prints.
ghost use Rattle.std.specs.Prelude.{◌≡◌, ◌++◌, IfOk, OnOk, string_bytes};
ghost use Rattle.std.specs.List.{flat_map};
ghost use Rattle.mw_play.specs.Printing.{behind_blank, item_line, joined, list_text as list_text_lem, refusal_line as refusal_line_lem};

use mw_base::{Memory, NetItem, Text};
use std::alloc::Global;
use std::fmt::Write;

/// Adds an item's line.
fn add_item(out: &mut String, entry: &NetItem) -> Result<(), Memory>
    ensures { OnOk result (string_bytes out.new ≡ string_bytes out.old ++ item_line entry.now) }
{
    let item = entry.item;
    let location = entry.location;
    let player = entry.player;
    let flags = entry.flags;
    write!(out, "{item} {location} ")?;
    write!(out, "{player} {flags}\n")?;
    Ok(())
}

/// Adds a line for each item.
fn add_items(out: &mut String, list: &[NetItem]) -> Result<(), Memory>
    ensures { OnOk result (string_bytes out.new
        ≡ string_bytes out.old ++ flat_map item_line list.now) }
{
    for entry in list {
        add_item(out, entry)?;
    }
    Ok(())
}

/// How many items a list has, and a line for each.
pub(crate) fn list_text(alloc: Global, list: &[NetItem]) -> Result<String, Memory>
    ensures { IfOk result (λ t. string_bytes t ≡ list_text_lem list.now) }
{
    let count = list.len();
    let mut out = format!(in alloc; "items {count}\n")?;
    add_items(&mut out, list)?;
    Ok(out)
}

/// Adds an error behind a blank.
fn add_error(out: &mut String, error: &Text) -> Result<(), Memory>
    ensures { OnOk result (string_bytes out.new
        ≡ string_bytes out.old ++ behind_blank error.now) }
{
    out.push_str(" ")?;
    out.push_str(error.as_str())?;
    Ok(())
}

/// Adds each error behind a blank.
fn add_errors(out: &mut String, errors: &[Text]) -> Result<(), Memory>
    ensures { OnOk result (string_bytes out.new
        ≡ string_bytes out.old ++ flat_map behind_blank errors.now) }
{
    for error in errors {
        add_error(out, error)?;
    }
    Ok(())
}

/// Adds errors, joined by blanks.
fn join(out: &mut String, errors: &[Text]) -> Result<(), Memory>
    ensures { OnOk result (string_bytes out.new ≡ string_bytes out.old ++ joined errors.now) }
{
    let [first, rest @ ..] = errors else {
        return Ok(());
    };
    out.push_str(first.as_str())?;
    add_errors(out, rest)
}

/// The line of a client that was turned away.
pub(crate) fn refusal_line(alloc: Global, errors: &[Text]) -> Result<Text, Memory>
    ensures { IfOk result (λ t. t ≡ refusal_line_lem errors.now) }
{
    let mut out = String::from_str(alloc, "refused: ")?;
    join(&mut out, errors)?;
    out.push_str("\n")?;
    Ok(Text::from_string(out))
}

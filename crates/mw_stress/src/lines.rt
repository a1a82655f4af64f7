//! The lines of `stress`.
ghost use Rattle.std.specs.Prelude.{◌≡◌, ◌+◌, ◌≤◌, ◌++◌, IfOk, OnOk, string_bytes, flat_map};
ghost use Rattle.mw_stress.specs.Received.{received_in};
ghost use Rattle.mw_stress.specs.Lines.{asked_line, last_text, made_lines, received, received_by, slot_line, slot_lines, stress_lines};

use crate::reading::add_items;
use crate::taken::Taken;
use mw_base::{List, Memory, Text};
use std::alloc::Global;
use std::fmt::Write;

/// Adds the items that texts give.
fn add_texts(alloc: Global, texts: &[Text], found: &mut List<i128>) -> Result<(), Memory>
    ensures { OnOk result (found.new ≡ found.old ++ flat_map received_in texts.now) }
{
    for text in texts {
        add_items(alloc, text, found)?;
    }
    Ok(())
}

/// Adds the items that the session of a slot received by what was taken.
fn add_received(
    alloc: Global,
    taken: &Taken,
    slot: u32,
    found: &mut List<i128>,
) -> Result<(), Memory>
    ensures { OnOk result (found.new ≡ found.old ++ received_by taken.now slot) }
{
    if taken.session.get() == u64::from(slot) {
        return add_texts(alloc, taken.texts.as_slice(), found);
    }
    Ok(())
}

/// The items that the session of a slot received.
fn items_of(alloc: Global, taken: &[Taken], slot: u32) -> Result<List<i128>, Memory>
    ensures { IfOk result (λ items. items ≡ received taken.now slot) }
{
    let mut items = List::new(alloc);
    for each in taken {
        add_received(alloc, each, slot, &mut items)?;
    }
    Ok(items)
}

/// The last of numbers in decimal, and 0 where there is none.
fn last(alloc: Global, numbers: &[i128]) -> Result<String, Memory>
    ensures { IfOk result (λ t. string_bytes t ≡ last_text numbers.now) }
{
    match numbers.last() {
        Some(number) => Ok(format!(in alloc; "{number}")?),
        None => Ok(String::from_str(alloc, "0")?),
    }
}

/// Adds the line of a slot.
fn add_line(alloc: Global, out: &mut String, slot: u32, items: &[i128]) -> Result<(), Memory>
    ensures { OnOk result (string_bytes out.new ≡ string_bytes out.old
        ++ slot_line slot items.now) }
{
    let many = items.len();
    let last = last(alloc, items)?;
    let last = last.as_str();
    write!(out, "slot {slot} received {many} last {last}\n")?;
    Ok(())
}

/// Adds the lines of so many slots.
#[tactic(auto, using(crate::proofs::Growing::lines_more))]
fn add_lines(alloc: Global, out: &mut String, taken: &List<Taken>, many: u32) -> Result<(), Memory>
    requires { many ≤ 64 }
    ensures { OnOk result (string_bytes out.new ≡ string_bytes out.old
        ++ slot_lines taken.now many) }
{
    for before in 0..many {
        let items = items_of(alloc, taken.as_slice(), before + 1)?;
        add_line(alloc, out, before + 1, items.as_slice())?;
    }
    Ok(())
}

/// The line of what was asked for.
fn asked(alloc: Global, many: u32, seed: u64) -> Result<String, Memory>
    ensures { IfOk result (λ t. string_bytes t ≡ asked_line many seed) }
{
    Ok(format!(in alloc; "stress {many} {seed}\n")?)
}

/// Adds the lines of the try and of how many spheres there are.
fn add_made(out: &mut String, stream: u64, spheres: u64) -> Result<(), Memory>
    ensures { OnOk result (string_bytes out.new ≡ string_bytes out.old
        ++ made_lines stream spheres) }
{
    write!(out, "try {stream}\nspheres {spheres}\n")?;
    Ok(())
}

/// The text of so many players, 1 to 64, with this seed's number: the try and how many spheres
/// there are, and for each slot how many items its session received by what was taken, and the last
/// of them.
pub fn text(
    alloc: Global,
    many: u32,
    seed: u64,
    stream: u64,
    spheres: u64,
    taken: &List<Taken>,
) -> Result<String, Memory>
    requires { many ≤ 64 }
    ensures { IfOk result (λ t. string_bytes t ≡ stress_lines many seed stream spheres taken.now) }
{
    let mut out = asked(alloc, many, seed)?;
    add_made(&mut out, stream, spheres)?;
    add_lines(alloc, &mut out, taken, many)?;
    Ok(out)
}

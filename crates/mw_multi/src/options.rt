ghost use Rattle.std.specs.Prelude.{◌≡◌, ◌<◌, ◌+◌, [], IfOk, All, length, sum_by, take};
ghost use Rattle.mw_multi.specs.WorldKept.{copies};
ghost use Rattle.mw_multi.specs.PlayersKept.{start_count};
ghost use Rattle.mw_multi.specs.Labels.{flags_of};
ghost use Rattle.mw_multi.specs.JointOf.{Gives, label_named, all_known, flags_option, start_item, start_option};

use crate::labels::Labels;
use crate::player::StartEntry;
use crate::refusal::{JointRefusal, OptionName};
use crate::world::PoolEntry;
use mw_base::{List, Memory, Text};
use std::alloc::Global;

/// The index of a name that has to be known.
#[tactic(auto, unfolding(crate::specs::JointOf::label_named))]
fn index_in(
    slot: u16,
    option: OptionName,
    labels: &Labels,
    place: u64,
    name: &str,
) -> Result<u32, JointRefusal>
    ensures index { Gives result (label_named slot option labels.now place name.now) }
    ensures within { IfOk result (λ i. i < length labels.now) }
{
    match labels.find(name) {
        Some(index) => Ok(index),
        None => Err(JointRefusal::UnknownName {
            slot,
            option,
            place,
        }),
    }
}

/// Each of the names is a label's; refused at the first one that isn't.
fn judge_names(
    slot: u16,
    option: OptionName,
    labels: &Labels,
    names: &[Text],
) -> Result<(), JointRefusal>
    ensures { Gives result (all_known slot option labels.now 0 names.now) }
{
    for (i, name) in names.iter().enumerate() {
        index_in(slot, option, labels, i as u64, name.as_str())?;
    }
    Ok(())
}

/// A flag for each label, none of them set.
#[tactic(auto, using(crate::proofs::Marks::none_listed))]
fn cleared(alloc: Global, labels: &Labels) -> Result<Vec<bool>, Memory>
    ensures { IfOk result (λ flags. flags.items ≡ flags_of labels.now []) }
{
    Ok(vec![in alloc; false; labels.len()]?)
}

/// Sets the flag of the next name's label.
fn mark_next(flags: &mut Vec<bool>, labels: &Labels, names: &[Text], next: usize)
    requires next { next < length names.now }
    requires before { flags.old.items ≡ flags_of labels.now (take next names.now) }
    ensures { flags.new.items ≡ flags_of labels.now (take (next + 1) names.now) }
{
    if let Some(index) = labels.find(names[next].as_str()) {
        flags[index as usize] = true;
    }
}

/// For each label, whether it is listed.
fn marked(alloc: Global, labels: &Labels, names: &[Text]) -> Result<List<bool>, Memory>
    ensures { IfOk result (λ flags. flags ≡ flags_of labels.now names.now) }
{
    let mut flags = cleared(alloc, labels)?;
    for next in 0..names.len() {
        mark_next(&mut flags, labels, names, next);
    }
    Ok(List::from_vec(flags))
}

/// What an option lists, as a flag for each label; refused at the first name that no label has.
#[tactic(auto, using(crate::proofs::Marks::flags_length), unfolding(crate::specs::JointOf::flags_option))]
pub(crate) fn flags_in(
    alloc: Global,
    slot: u16,
    option: OptionName,
    labels: &Labels,
    names: &[Text],
) -> Result<List<bool>, JointRefusal>
    ensures flags { Gives result (flags_option slot option labels.now names.now) }
    ensures many { IfOk result (λ flags. length flags ≡ length labels.now) }
{
    judge_names(slot, option, labels, names)?;
    Ok(marked(alloc, labels, names)?)
}

/// So many of an item to begin with; refused where no label has the name.
#[tactic(auto, unfolding(crate::specs::JointOf::start_item))]
fn start_entry_in(
    slot: u16,
    labels: &Labels,
    place: u64,
    entry: &StartEntry,
) -> Result<PoolEntry, JointRefusal>
    ensures item { Gives result (start_item slot labels.now place entry.now) }
    ensures within { IfOk result (λ s. s.item < length labels.now) }
    ensures count { IfOk result (λ s. s.count ≡ entry.now.count) }
{
    let name = entry.name.as_str();
    let item = index_in(slot, OptionName::StartInventory, labels, place, name)?;
    Ok(PoolEntry {
        item,
        count: entry.count,
    })
}

/// The items to begin with; refused at the first name that no label has.
pub(crate) fn start_in(
    alloc: Global,
    slot: u16,
    labels: &Labels,
    entries: &[StartEntry],
) -> Result<List<PoolEntry>, JointRefusal>
    ensures items { Gives result (start_option slot labels.now 0 entries.now) }
    ensures within { IfOk result (λ start. All (λ s. s.item < length labels.now) start) }
    ensures together { IfOk result (λ start. sum_by copies start ≡ sum_by start_count entries.now) }
{
    let mut start = List::new(alloc);
    for (i, entry) in entries.iter().enumerate() {
        let item = start_entry_in(slot, labels, i as u64, entry)?;
        start.push(item)?;
    }
    Ok(start)
}

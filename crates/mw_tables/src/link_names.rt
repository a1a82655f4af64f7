ghost use Rattle.std.specs.Prelude.{◌≡◌, ◌++◌, ◌∷◌, [], None, OnOk};
ghost use Rattle.mw_json.specs.Grammar.{Gives, under};
ghost use Rattle.mw_json.specs.declared.refusal.Step.TheVariants.{Index};
ghost use Rattle.mw_tables.specs.PlayersOf.{is_above, member_named, members_named, link_named, links_named};

use crate::player_names::Seen;
use mw_base::SlotId;
use mw_json::{Kind, Refusal, at_index, at_name, refuse};
use mw_multi::ItemLink;
use std::alloc::Global;

fn is_above(before: Option<SlotId>, number: SlotId) -> bool
    ensures { result ≡ is_above before number }
{
    match before {
        None => true,
        Some(before) => before.get() < number.get(),
    }
}

/// A member is one of so many slots, above the member before it.
#[tactic(auto, unfolding(crate::specs::PlayersOf::member_named))]
fn judge_member(
    alloc: Global,
    slots: usize,
    before: Option<SlotId>,
    number: SlotId,
) -> Result<(), Refusal>
    ensures { Gives result (member_named slots before number) }
{
    if number.get() as usize > slots {
        return refuse(alloc, Kind::UnknownName);
    }
    if is_above(before, number) {
        Ok(())
    } else {
        refuse(alloc, Kind::WrongOrder)
    }
}

fn judge_members(alloc: Global, slots: usize, numbers: &[SlotId]) -> Result<(), Refusal>
    ensures { Gives result (members_named slots None 0 numbers.now) }
{
    let mut before = None;
    for (i, number) in numbers.iter().enumerate() {
        at_index(judge_member(alloc, slots, before, *number), i as u64)?;
        before = Some(*number);
    }
    Ok(())
}

/// The name of the link at an index is new, which is then met, and its members are slots in
/// ascending order.
#[tactic(auto, unfolding(crate::specs::PlayersOf::link_named))]
fn judge_link<'a>(
    alloc: Global,
    seen: &mut Seen<'a>,
    slots: usize,
    link: &'a ItemLink,
    at: u64,
) -> Result<(), Refusal>
    ensures answer { Gives result (under (Index at) (link_named slots seen.old link.now)) }
    ensures grown { OnOk result (seen.new ≡ seen.old ++ link.now.name ∷ []) }
{
    if !seen.note(link.name.as_str())? {
        let refused = at_name(alloc, refuse(alloc, Kind::DuplicateName), "name");
        return at_index(refused, at);
    }
    let judged = judge_members(alloc, slots, link.members.as_slice());
    at_index(at_name(alloc, judged, "members"), at)
}

/// The links, one by one, after the names that are met.
pub(crate) fn judge_links<'a>(
    alloc: Global,
    seen: &mut Seen<'a>,
    slots: usize,
    links: &'a [ItemLink],
) -> Result<(), Refusal>
    ensures { Gives result (links_named slots seen.old 0 links.now) }
{
    for (i, link) in links.iter().enumerate() {
        judge_link(alloc, seen, slots, link, i as u64)?;
    }
    Ok(())
}

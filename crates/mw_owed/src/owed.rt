ghost use Rattle.std.specs.Prelude.{◌≡◌, ◌+◌, ◌++◌, false, IfOk, OnOk, map, length};
ghost use Rattle.mw_protocol.specs.Checks.{locations_in};
ghost use Rattle.mw_protocol.specs.Connecting as plain;
ghost use Rattle.mw_protocol.specs.Owed.{items_from, update_with, growth_owed as growth_owed_lem};
ghost use Rattle.mw_protocol.specs.Standing.{points};
ghost use Rattle.mw_packets_out.specs.View.{packet_view};
ghost use Rattle.mw_effects.specs.News.{items_for, view_for, received_in, growth_in, points_before, points_after};
ghost use Rattle.mw_effects.specs.Parts.{standing_of, grown, news_of, paid_by, IsLogged};
ghost use Rattle.mw_owed.specs.Receivers.{receivers_in};
ghost use Rattle.mw_owed.specs.Untouched.{IsUntouched};

use crate::receivers::receives;
use mw_base::{List, Memory, NetItem};
use mw_checks::CheckLog;
use mw_effects::{Effect, Member, Standing, items_for_member, locations_for_member};
use mw_packets_out::ServerPacket;
use std::alloc::Global;

/// The points of the member's slot.
pub fn points_of(standing: &Standing, member: &Member) -> u64
    ensures { result ≡ points_before standing.now member.now }
{
    let log = &standing.log;
    let checked = log.checked_len(member.team, member.slot);
    standing
        .hints
        .points(member.team, member.slot, checked, log)
}

/// How many hints more the member's slot has paid for.
pub(crate) fn paid_by(effect: &Effect, member: &Member) -> u64
    ensures { result ≡ paid_by effect.now member.now.team member.now.slot }
{
    match effect.payer {
        Some(payer) if effect.team == member.team && payer == member.slot => 1,
        _ => 0,
    }
}

/// The points of the member's slot with so many checks more, once the effect's hint is paid.
#[tactic(auto, using(mw_effects::proofs::Grown::points_then))]
fn points_with(
    standing: &Standing,
    effect: &Effect,
    more: usize,
    member: &Member,
) -> Result<u64, Memory>
    requires logged { IsLogged standing.now effect.now }
    requires more { more ≡ length (locations_in member.now.team member.now.slot
        (news_of effect.now)) }
    ensures { IfOk result (λ p. p ≡ points_after standing.now effect.now member.now) }
{
    let log = &standing.log;
    let count = log.checked_len(member.team, member.slot);
    let count = count.checked_add(more as u64).ok_or(Memory)?;
    let paid = paid_by(effect, member);
    standing
        .hints
        .points_once(member.team, member.slot, count, paid, log)
}

/// New locations with the points after them, where there are some or the points were others.
fn push_update(
    packets: &mut List<ServerPacket>,
    before: u64,
    hint_points: u64,
    checked_locations: List<i64>,
) -> Result<(), Memory>
    ensures { OnOk result (map packet_view packets.new
        ≡ map packet_view packets.old ++ update_with before hint_points checked_locations) }
{
    if checked_locations.len() > 0 || before != hint_points {
        packets.push(ServerPacket::RoomUpdate {
            checked_locations,
            hint_points,
        })?;
    }
    Ok(())
}

/// The new locations of the member's slot and its points, where it has new ones or other points.
#[tactic(auto, using(crate::proofs::Untouched::no_update))]
fn add_update(
    alloc: Global,
    packets: &mut List<ServerPacket>,
    standing: &Standing,
    effect: &Effect,
    member: &Member,
) -> Result<(), Memory>
    requires { IsLogged standing.now effect.now }
    ensures { OnOk result (map packet_view packets.new ≡ map packet_view packets.old
        ++ update_with (points_before standing.now member.now)
        (points_after standing.now effect.now member.now)
        (locations_in member.now.team member.now.slot (news_of effect.now))) }
{
    let locations = locations_for_member(alloc, effect, member)?;
    if locations.len() == 0 && paid_by(effect, member) == 0 {
        return Ok(());
    }
    let before = points_of(standing, member);
    let after = points_with(standing, effect, locations.len(), member)?;
    push_update(packets, before, after, locations)?;
    Ok(())
}

/// Items from a place in the member's list, where there are some.
fn add_received(
    packets: &mut List<ServerPacket>,
    index: u64,
    items: List<NetItem>,
) -> Result<(), Memory>
    ensures { OnOk result (map packet_view packets.new
        ≡ map packet_view packets.old ++ items_from index items) }
{
    if items.len() > 0 {
        packets.push(ServerPacket::ReceivedItems { index, items })?;
    }
    Ok(())
}

/// Items and then others.
fn joined(items: List<NetItem>, others: List<NetItem>) -> Result<List<NetItem>, Memory>
    ensures { IfOk result (λ is. is ≡ items ++ others) }
{
    let mut all = items.into_vec();
    all.append(&mut others.into_vec())?;
    Ok(List::from_vec(all))
}

/// All that a member sees, where there is something.
fn add_whole_view(
    alloc: Global,
    packets: &mut List<ServerPacket>,
    log: &CheckLog,
    effect: &Effect,
    member: &Member,
) -> Result<(), Memory>
    ensures { OnOk result (map packet_view packets.new ≡ map packet_view packets.old
        ++ items_from 0 (view_for log.now member.now
        ++ items_for log.now.seed member.now (news_of effect.now))) }
{
    let seen = log.view(member.team, member.slot, member.mask, 0)?;
    let items = items_for_member(alloc, log, effect, member)?;
    add_received(packets, 0, joined(seen, items)?)
}

/// The items that new checks give the member, at their place in its list.
fn add_new_items(
    alloc: Global,
    packets: &mut List<ServerPacket>,
    log: &CheckLog,
    effect: &Effect,
    member: &Member,
) -> Result<(), Memory>
    ensures { OnOk result (map packet_view packets.new ≡ map packet_view packets.old
        ++ items_from (length (view_for log.now member.now)) (items_for log.now.seed member.now
        (news_of effect.now))) }
{
    let items = items_for_member(alloc, log, effect, member)?;
    if items.len() == 0 {
        return Ok(());
    }
    let index = log.view_len(member.team, member.slot, member.mask);
    add_received(packets, index, items)
}

/// The items that a member is owed: all that it sees, or what the new checks add.
fn add_items_owed(
    alloc: Global,
    packets: &mut List<ServerPacket>,
    log: &CheckLog,
    effect: &Effect,
    whole: bool,
    member: &Member,
) -> Result<(), Memory>
    ensures { OnOk result (map packet_view packets.new
        ≡ map packet_view packets.old
        ++ received_in whole log.now member.now (news_of effect.now)) }
{
    if whole {
        return add_whole_view(alloc, packets, log, effect, member);
    }
    add_new_items(alloc, packets, log, effect, member)
}

/// Whether an effect's records may come to something for a slot.
#[tactic(auto, using(crate::proofs::Untouched::nothing_new))]
fn may_touch(effect: &Effect) -> bool
    ensures { result ≡ false → (member : plain.Member) → IsUntouched effect.now member }
{
    if effect.new.len() > 0 {
        return true;
    }
    effect.payer.is_some()
}

/// What a member is owed once an effect is done, beside the answer to its own packet and what is
/// told to several.
#[tactic(auto, using(crate::proofs::Untouched::nothing_grows, crate::proofs::Received::only_update))]
fn growth_of(
    alloc: Global,
    standing: &Standing,
    effect: &Effect,
    receivers: &[u16],
    whole: bool,
    member: &Member,
) -> Result<List<ServerPacket>, Memory>
    requires logged { IsLogged standing.now effect.now }
    requires receivers { receivers.now ≡ receivers_in standing.now.log.seed effect.now.new }
    ensures { IfOk result (λ ps. map packet_view ps
        ≡ growth_in whole standing.now effect.now member.now) }
{
    let mut packets = List::new(alloc);
    if !whole && !may_touch(effect) {
        return Ok(packets);
    }
    add_update(alloc, &mut packets, standing, effect, member)?;
    if !(whole | receives(standing.seed(), receivers, member)) {
        return Ok(packets);
    }
    add_items_owed(alloc, &mut packets, &standing.log, effect, whole, member)?;
    Ok(packets)
}

/// What a session is owed once an effect is done, beside the answer to its own packet and what is
/// told to several. The receivers are those of what its new checks found.
#[tactic(auto, using(mw_effects::proofs::Grown::growth_is))]
pub fn growth_owed(
    alloc: Global,
    standing: &Standing,
    effect: &Effect,
    receivers: &[u16],
    whole: bool,
    member: &Option<Member>,
) -> Result<List<ServerPacket>, Memory>
    requires logged { IsLogged standing.now effect.now }
    requires receivers { receivers.now ≡ receivers_in standing.now.log.seed effect.now.new }
    ensures { IfOk result (λ ps. map packet_view ps
        ≡ growth_owed_lem whole standing.now.log.seed (standing_of standing.now)
        (grown standing.now effect.now) member.now) }
{
    match member {
        Some(member) => growth_of(alloc, standing, effect, receivers, whole, member),
        None => Ok(List::new(alloc)),
    }
}

ghost use Rattle.std.specs.Prelude.{◌≡◌, IfOk, Ok, map};
ghost use Rattle.mw_model.specs.Texts.{has_text};
ghost use Rattle.mw_protocol.specs.Effect.{answering as answering_lem, recording as recording_lem};
ghost use Rattle.mw_protocol.specs.Further.{others};
ghost use Rattle.mw_protocol.specs.Messages.{invalid_packet};
ghost use Rattle.mw_protocol.specs.Storage.{set_case, value_of};
ghost use Rattle.mw_protocol.specs.Storing.{changing as changing_lem, is_kept as is_kept_lem, reply_names, reply_to as reply_to_lem};
ghost use Rattle.mw_json.specs.View.{view, member_view, members_view};
ghost use Rattle.mw_records.specs.Records.{record_view};
ghost use Rattle.mw_storage.specs.Refusals.{changed_view};
ghost use Rattle.mw_storage.specs.Stored.{HasStoreRoom, IsKeepable};
ghost use Rattle.mw_effects.specs.Parts.{IsQuiet, kept_by, keys_in as keys_in_lem, standing_of};
ghost use Rattle.mw_effects.specs.Storing.{told_of, stored_where, records_where, set_bad, IsKeeping, IsRefusal};
ghost use Rattle.mw_effects.specs.Views.{announced_view, effect_view, IsEffect};

use crate::effect::{Announced, Audience, Effect, NewValue, answering, one_told};
use crate::member::Member;
use crate::standing::Standing;
use mw_base::{List, Memory, Text};
use mw_json::{Member as Field, SetPacket, Tree, copy, copy_member, same};
use mw_packets_out::{InvalidKind, ServerPacket, SetReply};
use mw_records::{Record, Stored};
use mw_storage::{Changed, Store, StoreGrowth, StoreRefusal};
use std::alloc::Global;

/// How many keys want room.
pub fn keys_in(stored: &Option<NewValue>) -> u64
    ensures { result ≡ keys_in_lem stored.now }
{
    match stored {
        Some(_) => 1,
        None => 0,
    }
}

/// Keeps a key's value, if one is given. It takes no memory.
pub fn put_stored(store: &mut Store, stored: Option<NewValue>, growth: StoreGrowth)
    requires { HasStoreRoom store.old growth (keys_in_lem stored) }
    ensures { store.new.kept ≡ kept_by stored store.old.kept }
{
    if let Some(NewValue { key, value }) = stored {
        store.put_grown(key, value, growth);
    }
}

/// The sender is told why its Set is refused.
fn refused(alloc: Global, text: &str) -> Result<Effect, Memory>
    ensures quiet { IfOk result (λ e. IsQuiet e) }
    ensures is { IfOk result (λ e. effect_view e
        ≡ answering_lem (invalid_packet (set_bad text.now))) }
{
    let packet = ServerPacket::InvalidPacket {
        kind: InvalidKind::Arguments,
        original_cmd: Some(Text::of(alloc, "Set")?),
        text: Text::of(alloc, text)?,
    };
    answering(alloc, packet)
}

/// The effect of a Set that is refused.
#[tactic(auto, using(crate::proofs::Sets::refused_is))]
fn refusing(alloc: Global, refusal: StoreRefusal) -> Result<Effect, Memory>
    ensures quiet { IfOk result (λ e. IsQuiet e) }
    ensures is { IfOk result (λ e. IsRefusal refusal (effect_view e)) }
{
    match refusal {
        StoreRefusal::PrivateKey => refused(alloc, "private key"),
        StoreRefusal::BadOperation { place } => {
            let text = format!(in alloc; "operation {place}: bad operation")?;
            refused(alloc, text.as_str())
        }
        StoreRefusal::OutOfRange { place } => {
            let text = format!(in alloc; "operation {place}: out of range")?;
            refused(alloc, text.as_str())
        }
        StoreRefusal::StoreFull { bytes, .. } => {
            let text = format!(in alloc; "store full: {bytes}")?;
            refused(alloc, text.as_str())
        }
        StoreRefusal::Memory => Err(Memory),
    }
}

/// Whether a key is kept with this value.
fn is_kept(store: &Store, key: &Text, value: &Tree) -> bool
    ensures { result ≡ is_kept_lem (view value.now) (value_of key.now store.now.kept) }
{
    match store.get(key) {
        Some(kept) => same(kept, value),
        None => false,
    }
}

/// The record of a key's value, unless it is kept already.
fn records_of(
    alloc: Global,
    is_kept: bool,
    key: &Text,
    value: &Tree,
) -> Result<List<Record>, Memory>
    requires { IsKeepable (view value.now) }
    ensures { IfOk result (λ rs. map record_view rs
        ≡ records_where is_kept key.now (view value.now)) }
{
    let mut records = List::new(alloc);
    if !is_kept {
        let (key, value) = (Text::of(alloc, key.as_str())?, copy(alloc, value)?);
        // what the store takes is far shorter than what a record can hold
        let stored = Stored::new(alloc, key, value)?.ok_or(Memory)?;
        records.push(Record::Store(stored))?;
    }
    Ok(records)
}

/// A key's value that is to be kept, unless it is kept already.
fn stored_of(
    alloc: Global,
    is_kept: bool,
    key: &Text,
    value: &Tree,
) -> Result<Option<NewValue>, Memory>
    requires { IsKeepable (view value.now) }
    ensures { IfOk result (λ o. o ≡ stored_where is_kept key.now (view value.now)) }
{
    if is_kept {
        return Ok(None);
    }
    Ok(Some(NewValue {
        key: Text::of(alloc, key.as_str())?,
        value: copy(alloc, value)?,
    }))
}

/// Whether the answer to a Set has this member itself.
fn is_reply_member(member: &Field) -> bool
    ensures { result ≡ has_text reply_names (member_view member.now).0 }
{
    let name = member.name.as_str();
    "original_value" == name || "slot" == name || "value" == name
}

/// Copies of a Set's further members but for those that the answer has itself.
fn further_of(alloc: Global, further: &[Field]) -> Result<List<Field>, Memory>
    ensures { IfOk result (λ ms. members_view ms
        ≡ others reply_names (members_view further.now)) }
{
    let mut found = List::new(alloc);
    for member in further {
        if is_reply_member(member) {
            continue;
        }
        found.push(copy_member(alloc, member)?)?;
    }
    Ok(found)
}

/// What those are told who hear of a change.
fn reply_to(
    alloc: Global,
    member: &Member,
    set: &SetPacket,
    changed: Changed,
) -> Result<SetReply, Memory>
    requires { IsKeepable (view changed.old) × IsKeepable (view changed.new) }
    ensures { IfOk result (λ r. r ≡ reply_to_lem member.now set.now (changed_view changed)) }
{
    let Changed { old, new } = changed;
    let further = further_of(alloc, set.further.as_slice())?;
    Ok(SetReply {
        key: Text::of(alloc, set.key.as_str())?,
        value: new,
        original_value: old,
        slot: member.slot,
        further,
    })
}

/// Those who watch a key are told of its change, and the sender where it asks for that.
fn told(
    alloc: Global,
    member: &Member,
    set: &SetPacket,
    changed: Changed,
) -> Result<List<Announced>, Memory>
    requires { IsKeepable (view changed.old) × IsKeepable (view changed.new) }
    ensures { IfOk result (λ ps. map announced_view ps
        ≡ told_of member.now set.now (changed_view changed)) }
{
    let audience = Audience::Watchers {
        key: Text::of(alloc, set.key.as_str())?,
        replies: set.want_reply,
    };
    let packet = ServerPacket::SetReply(reply_to(alloc, member, set, changed)?);
    one_told(alloc, audience, packet)
}

/// The effect of records that come to a key's value.
fn recorded(
    alloc: Global,
    member: &Member,
    records: List<Record>,
    stored: Option<NewValue>,
    announced: List<Announced>,
) -> Effect
    ensures kept { IsKeeping result }
    ensures records { result.records ≡ records }
    ensures stored { result.stored ≡ stored }
    ensures is { effect_view result
        ≡ recording_lem (map record_view records) (map announced_view announced) }
{
    Effect {
        records,
        team: member.team,
        new: List::new(alloc),
        status: None,
        hints: List::new(alloc),
        payer: None,
        stored,
        answers: List::new(alloc),
        whole: false,
        member: None,
        announced,
    }
}

/// The effect of a Set that isn't refused.
fn changed(
    alloc: Global,
    standing: &Standing,
    member: &Member,
    set: &SetPacket,
    changed: Changed,
) -> Result<Effect, Memory>
    requires case { set_case standing.now.store.kept set.now ≡ Ok (changed_view changed) }
    requires passed { IsKeepable (view changed.old) × IsKeepable (view changed.new) }
    ensures { IfOk result (λ e. IsEffect e standing.now
        (changing_lem (standing_of standing.now) member.now set.now)) }
{
    let is_kept = is_kept(&standing.store, &set.key, &changed.new);
    let records = records_of(alloc, is_kept, &set.key, &changed.new)?;
    let stored = stored_of(alloc, is_kept, &set.key, &changed.new)?;
    let announced = told(alloc, member, set, changed)?;
    Ok(recorded(alloc, member, records, stored, announced))
}

/// The effect of a Set.
pub fn changing(
    alloc: Global,
    standing: &Standing,
    member: &Member,
    set: &SetPacket,
) -> Result<Effect, Memory>
    ensures { IfOk result (λ e. IsEffect e standing.now
        (changing_lem (standing_of standing.now) member.now set.now)) }
{
    match standing.store.apply(set) {
        Ok(made) => changed(alloc, standing, member, set, made),
        Err(refusal) => {
            let effect = refusing(alloc, refusal)?;
            Ok(effect)
        }
    }
}

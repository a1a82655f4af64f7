ghost use Rattle.std.specs.Prelude.{◌≡◌, IfOk, OnOk, codes, pos};
ghost use Rattle.mw_model.specs.Json.{IsWritable, MembersAreWritable, whole};
ghost use Rattle.mw_model.specs.Trees.{put_member};
ghost use Rattle.mw_protocol.specs.Messages.{retrieved_json, set_reply_json};
ghost use Rattle.mw_json.specs.View.{view, members_view};

use crate::placing::{further_of, insert_copy, insert_named, insert_words};
use mw_base::{List, Memory, SlotId, Text};
use mw_json::{Member, Tree, copy_members, number_tree};
use std::alloc::Global;
use std::marker::Model;

/// The values of keys of the data storage.
#[derive(Drop)]
pub struct Retrieved {
    /// Each key with its value, in ascending byte order of the keys.
    pub keys: List<Member>,
    /// The further members of the question, in ascending byte order of their names, none of them
    /// named `cmd` or `keys`.
    pub further: List<Member>,
}

impl Model for Retrieved {
    ghost use Rattle.std.specs.Coded.{codes};
    ghost use Rattle.mw_json.specs.TreeCode.{coded_members};
    ghost use Rattle.mw_json.specs.View.{members_view};
    ghost use Rattle.mw_protocol.specs.Messages as plain;
    ghost use Rattle.mw_packets_out.specs.Kept.{IsRetrieved};

    ghost Value = { plain.Retrieved };

    ghost coded = { Prim.hlevel (codes, coded_members) };

    ghost view = { λ r. record {
      keys = members_view r.keys;
      further = members_view r.further;
    } };

    ghost invariant = { λ r. IsRetrieved record {
      keys = members_view r.keys;
      further = members_view r.further;
    } };
}

/// What a change made of a key's value.
#[derive(Drop)]
pub struct SetReply {
    /// The key.
    pub key: Text,
    /// The value after the change: whole numbers from -2^63 to 2^64 - 1, the members of each object
    /// in order.
    pub value: Tree,
    /// The value before it, of the same kind.
    pub original_value: Tree,
    /// The slot that asked for the change.
    pub slot: SlotId,
    /// The further members of the change, in ascending byte order of their names, none of them
    /// named `cmd`, `key`, `original_value`, `slot` or `value`.
    pub further: List<Member>,
}

impl Model for SetReply {
    ghost use Rattle.std.specs.Coded.{codes};
    ghost use Rattle.mw_json.specs.TreeCode.{coded_json, coded_members};
    ghost use Rattle.mw_json.specs.View.{view as tree_view, members_view};
    ghost use Rattle.mw_protocol.specs.Messages as plain;
    ghost use Rattle.mw_packets_out.specs.Kept.{IsSetReply};

    ghost Value = { plain.SetReply };

    ghost coded = { Prim.hlevel (codes, coded_json, coded_members) };

    ghost view = { λ r. record {
      key = r.key;
      value = tree_view r.value;
      original_value = tree_view r.original_value;
      slot = r.slot;
      further = members_view r.further;
    } };

    ghost invariant = { λ r. IsSetReply record {
      key = r.key;
      value = tree_view r.value;
      original_value = tree_view r.original_value;
      slot = r.slot;
      further = members_view r.further;
    } };
}

/// The values of keys, as an object.
pub(crate) fn retrieved_tree(alloc: Global, it: &Retrieved) -> Result<Tree, Memory>
    ensures value { IfOk result (λ t. view t ≡ retrieved_json it.now) }
    ensures writable { IfOk result (λ t. IsWritable (view t)) }
{
    let mut parts = further_of(alloc, it.further.as_slice())?;
    let keys = Tree::Members(copy_members(alloc, it.keys.as_slice())?);
    insert_named(alloc, &mut parts, "keys", keys)?;
    insert_words(alloc, &mut parts, "cmd", "Retrieved")?;
    Ok(Tree::Members(List::from_vec(parts)))
}

/// Adds what a key's value was and is, and the slot that changed it.
fn insert_values(alloc: Global, parts: &mut Vec<Member>, it: &SetReply) -> Result<(), Memory>
    ensures value { OnOk result (members_view parts.new.items
        ≡ put_member (codes "original_value") it.now.original_value
        (put_member (codes "slot") (whole (pos it.now.slot))
        (put_member (codes "value") it.now.value (members_view parts.old.items)))) }
    ensures writable { OnOk result (MembersAreWritable (members_view parts.old.items)
        → MembersAreWritable (members_view parts.new.items)) }
{
    let slot = number_tree(u64::from(it.slot.get()));
    insert_copy(alloc, parts, "value", &it.value)?;
    insert_named(alloc, parts, "slot", slot)?;
    insert_copy(alloc, parts, "original_value", &it.original_value)
}

/// What a change made of a key's value, as an object.
pub(crate) fn set_reply_tree(alloc: Global, it: &SetReply) -> Result<Tree, Memory>
    ensures value { IfOk result (λ t. view t ≡ set_reply_json it.now) }
    ensures writable { IfOk result (λ t. IsWritable (view t)) }
{
    let mut parts = further_of(alloc, it.further.as_slice())?;
    insert_values(alloc, &mut parts, it)?;
    insert_words(alloc, &mut parts, "key", it.key.as_str())?;
    insert_words(alloc, &mut parts, "cmd", "SetReply")?;
    Ok(Tree::Members(List::from_vec(parts)))
}

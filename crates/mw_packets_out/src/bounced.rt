ghost use Rattle.std.specs.Prelude.{◌≡◌, IfOk, OnOk, All, IfSome, codes};
ghost use Rattle.mw_model.specs.Json.{IsInRange, IsWritable, MembersAreWritable};
ghost use Rattle.mw_protocol.specs.Messages.{bounced_json, ids_json, put_if, texts_json};
ghost use Rattle.mw_json.specs.View.{view, members_view};

use crate::lists::texts_tree;
use crate::placing::{further_of, insert_named, insert_words};
use mw_base::{List, Memory, Text};
use mw_json::{Member, Tree, push_tree};
use std::alloc::Global;
use std::marker::Model;

/// A message of a client for those whose game, slot or tag is among these.
#[derive(Drop)]
pub struct Bounced {
    /// Games; none where the message has no such member.
    pub games: Option<List<Text>>,
    /// Tags; none where the message has no such member.
    pub tags: Option<List<Text>>,
    /// Slots, some of which may not be there, from -2^63 to 2^64 - 1; none where the message has no
    /// such member.
    pub slots: Option<List<i128>>,
    /// Further members, in ascending byte order of their names, none of them named `cmd`, `games`,
    /// `tags` or `slots`.
    pub further: List<Member>,
}

impl Model for Bounced {
    ghost use Rattle.std.specs.Coded.{codes};
    ghost use Rattle.mw_json.specs.TreeCode.{coded_members};
    ghost use Rattle.mw_json.specs.View.{members_view};
    ghost use Rattle.mw_protocol.specs.Packets as plain;
    ghost use Rattle.mw_packets_out.specs.Kept.{IsBounced};

    ghost Value = { plain.Bounce };

    ghost coded = { Prim.hlevel (codes, coded_members) };

    ghost view = { λ b. record {
      games = b.games;
      tags = b.tags;
      slots = b.slots;
      further = members_view b.further;
    } };

    ghost invariant = { λ b. IsBounced record {
      games = b.games;
      tags = b.tags;
      slots = b.slots;
      further = members_view b.further;
    } };
}

/// Whole numbers as a list.
fn wholes_tree(alloc: Global, numbers: &[i128]) -> Result<Tree, Memory>
    requires { All IsInRange numbers.now }
    ensures value { IfOk result (λ t. view t ≡ ids_json numbers.now) }
    ensures writable { IfOk result (λ t. IsWritable (view t)) }
{
    let mut trees = List::new(alloc);
    for number in numbers {
        push_tree(&mut trees, Tree::Whole(*number))?;
    }
    Ok(Tree::Many(trees))
}

/// A member more that is a list of texts, where there is one.
fn insert_texts(
    alloc: Global,
    members: &mut Vec<Member>,
    name: &str,
    texts: &Option<List<Text>>,
) -> Result<(), Memory>
    ensures value { OnOk result (members_view members.new.items
        ≡ put_if name.now texts_json texts.now (members_view members.old.items)) }
    ensures writable { OnOk result (MembersAreWritable (members_view members.old.items)
        → MembersAreWritable (members_view members.new.items)) }
{
    match texts {
        Some(texts) => {
            let value = texts_tree(alloc, texts.as_slice())?;
            insert_named(alloc, members, name, value)
        }
        None => Ok(()),
    }
}

/// The slots, where they are given.
fn insert_slots(
    alloc: Global,
    members: &mut Vec<Member>,
    slots: &Option<List<i128>>,
) -> Result<(), Memory>
    requires { IfSome slots.now (All IsInRange) }
    ensures value { OnOk result (members_view members.new.items
        ≡ put_if (codes "slots") ids_json slots.now (members_view members.old.items)) }
    ensures writable { OnOk result (MembersAreWritable (members_view members.old.items)
        → MembersAreWritable (members_view members.new.items)) }
{
    match slots {
        Some(slots) => {
            let value = wholes_tree(alloc, slots.as_slice())?;
            insert_named(alloc, members, "slots", value)
        }
        None => Ok(()),
    }
}

/// A message of a client, as an object.
pub(crate) fn bounced_tree(alloc: Global, it: &Bounced) -> Result<Tree, Memory>
    ensures value { IfOk result (λ t. view t ≡ bounced_json it.now) }
    ensures writable { IfOk result (λ t. IsWritable (view t)) }
{
    let mut parts = further_of(alloc, it.further.as_slice())?;
    insert_texts(alloc, &mut parts, "tags", &it.tags)?;
    insert_slots(alloc, &mut parts, &it.slots)?;
    insert_texts(alloc, &mut parts, "games", &it.games)?;
    insert_words(alloc, &mut parts, "cmd", "Bounced")?;
    Ok(Tree::Members(List::from_vec(parts)))
}

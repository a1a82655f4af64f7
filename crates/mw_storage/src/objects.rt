ghost use Rattle.std.specs.Prelude.{◌≡◌, ◌<◌, ◌≤◌, ◌+◌, length, take, drop, IfOk, MatchOption};
ghost use Rattle.mw_model.specs.Json.{Json, member, IsOrdered, IsWritable, MembersAreOrdered, MembersAreWritable};
ghost use Rattle.mw_json.specs.View.{view, members_view};
ghost use Rattle.mw_protocol.specs.Operations.{set_member, set_members, without_member};
ghost use Rattle.mw_storage.specs.Places.{in_front, with_first_value, set_at, IsPlace};

use mw_base::{List, Memory, Text};
use mw_json::{Member, Tree, copy};
use std::alloc::Global;
use std::cmp::Ordering;

/// Where the member of a name stands, or the one before which it belongs.
#[derive(Clone, Copy)]
pub(crate) enum Place {
    At(usize),
    Before(usize),
}

fn place_for(members: &[Member], name: &str) -> Place
    ensures meaning { (j : Json) → set_member name.now j (members_view members.now)
        ≡ set_at members.now result name.now j }
    ensures within { IsPlace members.now result }
{
    for (i, member) in members.iter().enumerate() {
        match name.cmp(member.name.as_str()) {
            Ordering::Less => return Place::Before(i),
            Ordering::Equal => return Place::At(i),
            Ordering::Greater => {}
        }
    }
    Place::Before(members.len())
}

fn insert(members: List<Member>, at: usize, name: Text, value: Tree) -> Result<List<Member>, Memory>
    requires { at ≤ length members }
    ensures { IfOk result (λ all. members_view all ≡ in_front (take at members)
        (member name (view value) (members_view (drop at members)))) }
{
    let mut members = members.into_vec();
    members.insert(at, Member { name, value })?;
    Ok(List::from_vec(members))
}

fn with_value(members: List<Member>, at: usize, value: Tree) -> List<Member>
    requires { at < length members }
    ensures { members_view result ≡ in_front (take at members)
        (with_first_value (view value) (members_view (drop at members))) }
{
    let mut members = members.into_vec();
    members[at].value = value;
    List::from_vec(members)
}

/// Members among which the one of this name has this value. Where none has the name, a new one
/// stands before the first whose name comes after it in byte order. After `Memory` they are gone.
#[tactic(auto, using(crate::proofs::Keeping::set_stays_writable, crate::proofs::Keeping::set_stays_ordered))]
pub fn set_member(members: List<Member>, name: Text, value: Tree) -> Result<List<Member>, Memory>
    ensures value { IfOk result (λ all.
        members_view all ≡ set_member name (view value) (members_view members)) }
    ensures writable { IsWritable (view value) → MembersAreWritable (members_view members)
        → IfOk result (λ all. MembersAreWritable (members_view all)) }
    ensures ordered { IsOrdered (view value) → MembersAreOrdered (members_view members)
        → IfOk result (λ all. MembersAreOrdered (members_view all)) }
{
    match place_for(members.as_slice(), name.as_str()) {
        Place::At(at) => Ok(with_value(members, at, value)),
        Place::Before(at) => {
            let all = insert(members, at, name, value)?;
            Ok(all)
        }
    }
}

/// Each of these members set in turn.
pub(crate) fn set_members(
    alloc: Global,
    members: List<Member>,
    more: &[Member],
) -> Result<List<Member>, Memory>
    ensures { IfOk result (λ all.
        members_view all ≡ set_members (members_view members) (members_view more.now)) }
{
    let mut members = members;
    for member in more {
        let name = Text::of(alloc, member.name.as_str())?;
        let value = copy(alloc, &member.value)?;
        members = set_member(members, name, value)?;
    }
    Ok(members)
}

fn place_of(members: &[Member], name: &str) -> Option<usize>
    ensures { MatchOption result
        (without_member name.now (members_view members.now) ≡ members_view members.now)
        (λ i. (i < length members.now) × (without_member name.now (members_view members.now)
        ≡ in_front (take i members.now) (members_view (drop (i + 1) members.now)))) }
{
    for (i, member) in members.iter().enumerate() {
        if member.name.as_str() == name {
            return Some(i);
        }
    }
    None
}

/// Without the first member of this name, where there is one.
pub(crate) fn without_member(members: List<Member>, name: &str) -> List<Member>
    ensures { members_view result ≡ without_member name.now (members_view members) }
{
    match place_of(members.as_slice(), name) {
        Some(at) => without_at(members, at),
        None => members,
    }
}

fn without_at(members: List<Member>, at: usize) -> List<Member>
    requires { at < length members }
    ensures { members_view result
        ≡ in_front (take at members) (members_view (drop (at + 1) members)) }
{
    let mut members = members.into_vec();
    let _gone = members.remove(at);
    List::from_vec(members)
}

//! The calls that the sessions of `stress` make.
ghost use Rattle.std.specs.Prelude.{◌≡◌, ◌+◌, ◌≤◌, ◌++◌, ◌∷◌, [], IfOk, OnOk, map};
ghost use Rattle.mw_protocol.specs.Lives.{happens, takes};
ghost use Rattle.mw_protocol.specs.Rooms.{sent};
ghost use Rattle.mw_stress.specs.Sent.{checking};
ghost use Rattle.mw_keep.specs.Views.{call_view};
ghost use Rattle.mw_offline.specs.Stressing.{all_calls, all_checking, all_entering, all_taking, entering, rounds};

use mw_base::{List, Memory, SessionId};
use mw_keep::Call;
use mw_stress::{checks_of_one, connect_of_player};
use std::alloc::Global;

/// The session of a slot: the sessions are opened in the order of their slots.
fn session_of(slot: u32) -> SessionId
    ensures { result ≡ slot }
{
    SessionId::new(u64::from(slot)).unwrap()
}

/// Adds the calls by which the session of a slot enters.
fn push_entering(alloc: Global, calls: &mut List<Call>, slot: u32) -> Result<(), Memory>
    ensures { OnOk result (map call_view calls.new ≡ map call_view calls.old ++ entering slot) }
{
    let session = session_of(slot);
    let packet = connect_of_player(alloc, slot)?;
    calls.push(Call::Open { time: 0 })?;
    calls.push(Call::Packet { session, packet })?;
    calls.push(Call::Take { session })
}

/// Adds those of all sessions.
#[tactic(auto, using(crate::proofs::Sessions::entering_more))]
fn push_all_entering(alloc: Global, calls: &mut List<Call>, many: u32) -> Result<(), Memory>
    requires { many ≤ 64 }
    ensures { OnOk result (map call_view calls.new ≡ map call_view calls.old ++ all_entering many) }
{
    for slot in 0..many {
        push_entering(alloc, calls, slot + 1)?;
    }
    Ok(())
}

/// Adds a slot's check of a location.
fn push_checking(
    alloc: Global,
    calls: &mut List<Call>,
    slot: u32,
    location: u32,
) -> Result<(), Memory>
    ensures { OnOk result (map call_view calls.new ≡ map call_view calls.old
        ++ happens (sent slot (checking location)) ∷ []) }
{
    calls.push(Call::Packet {
        session: session_of(slot),
        packet: checks_of_one(alloc, location)?,
    })
}

/// Adds each slot's check of a location.
#[tactic(auto, using(crate::proofs::Sessions::checking_more))]
fn push_all_checking(
    alloc: Global,
    calls: &mut List<Call>,
    many: u32,
    location: u32,
) -> Result<(), Memory>
    requires { many ≤ 64 }
    ensures { OnOk result (map call_view calls.new ≡ map call_view calls.old
        ++ all_checking many location) }
{
    for slot in 0..many {
        push_checking(alloc, calls, slot + 1, location)?;
    }
    Ok(())
}

/// Adds each slot's check of each location.
#[tactic(auto, using(crate::proofs::Sessions::rounds_more))]
fn push_rounds(alloc: Global, calls: &mut List<Call>, many: u32) -> Result<(), Memory>
    requires { many ≤ 64 }
    ensures { OnOk result (map call_view calls.new ≡ map call_view calls.old ++ rounds many 60) }
{
    for location in 0..60 {
        push_all_checking(alloc, calls, many, location + 1)?;
    }
    Ok(())
}

/// Adds a take of a session.
fn push_taking(calls: &mut List<Call>, slot: u32) -> Result<(), Memory>
    ensures { OnOk result (map call_view calls.new ≡ map call_view calls.old ++ takes slot ∷ []) }
{
    calls.push(Call::Take {
        session: session_of(slot),
    })
}

/// Adds a take of each session.
#[tactic(auto, using(crate::proofs::Sessions::taking_more))]
fn push_all_taking(calls: &mut List<Call>, many: u32) -> Result<(), Memory>
    requires { many ≤ 64 }
    ensures { OnOk result (map call_view calls.new ≡ map call_view calls.old ++ all_taking many) }
{
    for slot in 0..many {
        push_taking(calls, slot + 1)?;
    }
    Ok(())
}

/// All calls of the sessions of so many slots, in order.
pub(crate) fn calls_of(alloc: Global, many: u32) -> Result<List<Call>, Memory>
    requires { many ≤ 64 }
    ensures { IfOk result (λ calls. map call_view calls ≡ all_calls many) }
{
    let mut calls = List::new(alloc);
    push_all_entering(alloc, &mut calls, many)?;
    push_rounds(alloc, &mut calls, many)?;
    push_all_taking(&mut calls, many)?;
    Ok(calls)
}

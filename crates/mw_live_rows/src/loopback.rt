//! A client and a room that is served, over the network of this machine.
ghost use Rattle.std.specs.Prelude.{◌≡◌};

use crate::served::new_room;
use mw_base::{Bytes, List, Text};
use mw_disk::SteadyDisk;
use mw_edges::{SteadyFolder, SteadySink, SteadySource};
use mw_link::{Dial, Gate, TcpDial, TcpGate};
use mw_play::run_play;
use mw_session::serve_room;
use std::alloc::Global;
use std::sync::Wait;
use std::test::Fail;
use std::thread::{Threads, join};

/// Serves a new room of Room A over the next two links of a gate, one after the other, and tells
/// how many there were.
fn serve<G: Gate + Send + Drop, R: Threads + Wait + Sync>(
    rt: &R,
    alloc: Global,
    gate: G,
) -> Result<u64, Fail>
    requires given { G.given gate ≡ 0 }
    requires faults { G.faults gate ≡ 0 }
{
    let room = new_room(alloc, SteadyDisk::new(alloc, List::new(alloc))?)?;
    let end = serve_room(rt, alloc, gate, room, 1, Some(2));
    Ok(end.accepted)
}

/// The words of Ann's client, which dials this port for sixty turns.
fn words_of(alloc: Global, port: u16) -> Option<Vec<Text>> {
    let address = format!(in alloc; "127.0.0.1:{port}").ok()?;
    let mut words = Vec::new(alloc);
    for word in [address.as_str(), "Ann", "G", "save", "60"].iter() {
        words.push(Text::of(alloc, word).ok()?).ok()?;
    }
    Some(words)
}

/// What a run of Ann's client tells, which checks her two locations: its status, a blank, what it
/// printed and the error line; nothing where memory runs out.
fn ran<L: Dial>(
    alloc: Global,
    folder: &mut SteadyFolder,
    dial: &mut L,
    port: u16,
) -> Option<String> {
    let words = words_of(alloc, port)?;
    let ids = Bytes::from_vec(Vec::from_slice(alloc, b"101\n102\n").ok()?);
    let mut input = SteadySource::new(ids);
    let mut out = SteadySink::new(alloc);
    let mut err = SteadySink::new(alloc);
    let status = run_play(alloc, &words, folder, dial, &mut input, &mut out, &mut err);
    let printed = std::str::from_utf8(out.bytes()).ok()?;
    let line = std::str::from_utf8(err.bytes()).ok()?;
    format!(in alloc; "{status} {printed}{line}").ok()
}

/// What the second of two runs on one save file tells.
fn ran_twice<L: Dial>(alloc: Global, dial: &mut L, port: u16) -> Option<String> {
    let mut folder = SteadyFolder::new(List::new(alloc));
    let _ = ran(alloc, &mut folder, dial, port)?;
    ran(alloc, &mut folder, dial, port)
}

/// Ann's client checks her two locations in a room that is served, and a second run on its save
/// file prints both her items.
#[test]
fn two_runs_on_one_save_file(rt: HostRuntime) -> Result<(), Fail> {
    let alloc = rt.alloc();
    let mut gate = TcpGate::new(rt, alloc);
    if gate.listen(&Text::of(alloc, "127.0.0.1:0")?).is_err() {
        return Err(Fail::from("no port"));
    }
    let port = gate.port();
    let (told, served) = join(
        &rt,
        || ran_twice(alloc, &mut TcpDial::new(rt, alloc), port),
        || -> Result<u64, Fail>
            requires { (gate.given ≡ 0) × (gate.faults ≡ 0) }
        { serve(&rt, alloc, gate) },
    );
    assert!(rt; served? == 2);
    let told = told.ok_or("no memory")?;
    if told.as_str() != "9 items 2\n5 -2 0 0\n8 102 1 0\nturns spent\n" {
        return Err(Fail::new(told.as_str()));
    }
    Ok(())
}

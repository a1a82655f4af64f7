//! Rooms that the program serves over links in memory.
ghost use Rattle.std.specs.Prelude.{◌≡◌};

use crate::harness::{sink_of, source_of, words_of};
use crate::run::run;
use mw_base::{List, Text};
use mw_edges::MemoryFolder;
use mw_link::{Heard, SteadyGate};
use mw_peers::WaitingLink;
use mw_session::Served;
use std::alloc::Global;
use std::collections::VecDeque;
use std::sync::Wait;
use std::test::Fail;
use std::thread::Threads;

/// Puts a text behind those that come over a link.
pub(crate) fn put(alloc: Global, list: &mut VecDeque<Heard>, text: &str) -> Result<(), Fail> {
    list.push_back(Heard::Words(Text::of(alloc, text)?))?;
    Ok(())
}

/// What the workers of a run of `serve` served over the links of a gate. Fails where the run doesn't
/// end with status 0, or puts another text.
pub(crate) fn served<R: Threads + Wait + Sync>(
    rt: &R,
    alloc: Global,
    folder: &mut MemoryFolder,
    gate: SteadyGate<WaitingLink>,
    line: &str,
    wanted: &str,
) -> Result<List<List<Served<WaitingLink>>>, Fail>
    requires given { gate.given ≡ 0 }
{
    let words = words_of(alloc, line)?;
    let mut input = source_of(alloc, "", "")?;
    let mut out = sink_of(alloc, "", 2)?;
    let mut err = sink_of(alloc, "", 3)?;
    let (status, _, served) = run(
        rt, alloc, &words, folder, gate, &mut input, &mut out, &mut err,
    );
    if status != 0 || out.bytes() != wanted.as_bytes() {
        return Err(Fail::from("not served to the end"));
    }
    Ok(served)
}

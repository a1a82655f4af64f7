//! The program `multiworld`.
#![tactic(auto)]

mod run;

use crate::run::run;
use mw_edges::{NotedWriter, ReaderSource, Sink, SystemFolder, WriterSink};
use mw_link::TcpGate;
use mw_words::{WordsError, given_words};
use std::process::ExitCode;

fn main(rt: HostRuntime) -> ExitCode {
    let alloc = rt.alloc();
    let mut err = WriterSink::new(NotedWriter::new(rt.stderr()));
    let words = match given_words(alloc, &rt) {
        Ok(words) => words,
        Err(WordsError::Memory) => {
            let _ = err.put(b"no memory\n");
            return ExitCode::from(6);
        }
        Err(WordsError::BadWords) => {
            let _ = err.put(b"bad words\n");
            return ExitCode::from(2);
        }
    };
    let mut folder = SystemFolder::new(&rt, alloc);
    let gate = TcpGate::new(rt, alloc);
    let mut input = ReaderSource::new(rt.stdin());
    let mut out = WriterSink::new(NotedWriter::new(rt.stdout()));
    let (status, _, _) = run(
        &rt,
        alloc,
        &words,
        &mut folder,
        gate,
        &mut input,
        &mut out,
        &mut err,
    );
    ExitCode::from(status)
}

#[cfg(test)]
mod chat_tests;
#[cfg(test)]
mod connect_tests;
#[cfg(test)]
mod fault_tests;
#[cfg(test)]
mod generate_tests;
#[cfg(test)]
mod group_tests;
#[cfg(test)]
mod harness;
#[cfg(test)]
mod kept_room_tests;
#[cfg(test)]
mod large_tests;
#[cfg(test)]
mod link_tests;
#[cfg(test)]
mod new_room_tests;
#[cfg(test)]
mod overrun_tests;
#[cfg(test)]
mod pair_tests;
#[cfg(test)]
mod party_tests;
#[cfg(test)]
mod permission_tests;
#[cfg(test)]
mod reach_tests;
#[cfg(test)]
mod serve_harness;
#[cfg(test)]
mod session_harness;
#[cfg(test)]
mod session_tests;
#[cfg(test)]
mod storage_tests;
#[cfg(test)]
mod stress_tests;
#[cfg(test)]
mod system_tests;
#[cfg(test)]
mod team_tests;
#[cfg(test)]
mod tests;
#[cfg(test)]
mod words_tests;

//! The program `clockwork`: the world `Clockwork`, whose rules are one closure.
#![tactic(auto)]

mod run;

use crate::run::run;
use mw_edges::{NotedWriter, Sink, SystemFolder, WriterSink};
use mw_words::{WordsError, given_words};
use std::process::ExitCode;

/// Runs the command, and answers its status.
fn clockwork(rt: &HostRuntime) -> u8 {
    let alloc = rt.alloc();
    let mut err = WriterSink::new(NotedWriter::new(rt.stderr()));
    let words = match given_words(alloc, rt) {
        Ok(words) => words,
        Err(WordsError::Memory) => {
            let _ = err.put(b"no memory\n");
            return 6;
        }
        Err(WordsError::BadWords) => {
            let _ = err.put(b"bad words\n");
            return 2;
        }
    };
    let mut folder = SystemFolder::new(rt, alloc);
    let mut out = WriterSink::new(NotedWriter::new(rt.stdout()));
    run(alloc, words.as_slice(), &mut folder, &mut out, &mut err)
}

fn main(rt: HostRuntime) -> ExitCode {
    ExitCode::from(clockwork(&rt))
}

#[cfg(test)]
mod tests;

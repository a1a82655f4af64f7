//! The program `multiplay`: a player's client that keeps its items.
#![tactic(auto)]

use mw_edges::{NotedWriter, ReaderSource, Sink, SystemFolder, WriterSink};
use mw_link::TcpDial;
use mw_play::run_play;
use mw_words::{WordsError, given_words};
use std::process::ExitCode;

fn main(rt: HostRuntime) -> ExitCode {
    let alloc = rt.alloc();
    let mut err = WriterSink::new(NotedWriter::new(rt.stderr()));
    let words = match given_words(alloc, &rt) {
        Ok(words) => words,
        Err(WordsError::Memory) => {
            let _ = err.put(b"no memory\n");
            return ExitCode::from(6);
        }
        Err(WordsError::BadWords) => {
            let _ = err.put(b"bad words\n");
            return ExitCode::from(2);
        }
    };
    let mut folder = SystemFolder::new(&rt, alloc);
    let mut dial = TcpDial::new(rt, alloc);
    let mut input = ReaderSource::new(rt.stdin());
    let mut out = WriterSink::new(NotedWriter::new(rt.stdout()));
    let status = run_play(
        alloc,
        &words,
        &mut folder,
        &mut dial,
        &mut input,
        &mut out,
        &mut err,
    );
    ExitCode::from(status)
}

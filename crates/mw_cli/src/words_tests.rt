//! What words ask for.
use crate::harness::{agree, words_of};
use mw_base::Text;
use mw_words::{CommandLine, ServeWords, WordsError, read_words};
use std::alloc::Global;
use std::test::Fail;

/// A command, its first name, and its second one where it has two.
fn names_of(line: &CommandLine) -> (&'static str, &str, Option<&str>) {
    match line {
        CommandLine::Generate(w) => ("generate", w.players.as_str(), Some(w.out_name.as_str())),
        CommandLine::Check(w) => ("check", w.players.as_str(), Some(w.multidata.as_str())),
        CommandLine::Reach(w) => ("reach", w.players.as_str(), None),
        CommandLine::NewRoom(w) => ("new-room", w.multidata.as_str(), Some(w.journal.as_str())),
        CommandLine::Drive(w) => match &w.journal {
            Some(journal) => ("drive", w.multidata.as_str(), Some(journal.as_str())),
            None => ("drive", w.multidata.as_str(), None),
        },
        CommandLine::Serve(w) => ("serve", w.multidata.as_str(), Some(w.journal.as_str())),
        CommandLine::Stress(_) => ("stress", "", None),
        CommandLine::Thin(w) => ("thin", w.multidata.as_str(), Some(w.choice.as_str())),
    }
}

/// These as a text.
fn told_names(alloc: Global, line: &CommandLine) -> Result<String, Fail> {
    let (command, first, second) = names_of(line);
    match second {
        Some(second) => Ok(format!(in alloc; "{command} <{first}> <{second}>")?),
        None => Ok(format!(in alloc; "{command} <{first}>")?),
    }
}

/// What `serve` is asked for, behind its names.
fn told_terms(alloc: Global, names: &str, words: &ServeWords) -> Result<String, Fail> {
    let bind = words.bind.as_str();
    let workers = u64::from(words.workers);
    match words.accept {
        Some(accept) => Ok(format!(in alloc; "{names} <{bind}> {workers} {accept}")?),
        None => Ok(format!(in alloc; "{names} <{bind}> {workers}")?),
    }
}

/// What a command line asks for, in one line.
fn told_line(alloc: Global, line: &CommandLine) -> Result<String, Fail> {
    let names = told_names(alloc, line)?;
    match line {
        CommandLine::Generate(w) => {
            let names = names.as_str();
            Ok(format!(in alloc; "{names} {} {}", w.seed, w.tries)?)
        }
        CommandLine::Serve(w) => told_terms(alloc, names.as_str(), w),
        CommandLine::Stress(w) => Ok(format!(in alloc; "stress {} {}", w.players, w.seed)?),
        _ => Ok(names),
    }
}

/// The same of an error.
fn told_error(error: WordsError) -> &'static str {
    match error {
        WordsError::BadWords => "bad words",
        WordsError::Memory => "no memory",
    }
}

/// What words ask for.
fn told(alloc: Global, words: &[Text]) -> Result<String, Fail> {
    match read_words(alloc, words) {
        Ok(line) => told_line(alloc, &line),
        Err(error) => Ok(String::from_str(alloc, told_error(error))?),
    }
}

/// Fails where words with a blank between them ask for something else than a case tells.
fn ask_so(alloc: Global, case: &str) -> Result<(), Fail> {
    let (words, wanted) = case.split_once(" | ").ok_or("no case")?;
    let words = words_of(alloc, words)?;
    agree(alloc, told(alloc, &words)?.as_str(), wanted, case)
}

/// Words, and what they ask for.
const ROWS: &str = "fly | bad words
 | bad words
generate | bad words
generate p.json | bad words
generate p.json o | bad words
generate p.json --seed 5 | bad words
generate p.json o --seed 5 | generate <p.json> <o> 5 100
generate --seed=5 p.json o --tries 7 | generate <p.json> <o> 5 7
generate --tries 1000 p --seed 0 o | generate <p> <o> 0 1000
generate p o --seed 18446744073709551615 --tries=1 | generate <p> <o> 18446744073709551615 1
generate --seed 5 -- p.json o | generate <p.json> <o> 5 100
generate --seed 5 -- --tries -- | generate <--tries> <--> 5 100
generate -- p.json o --seed 5 | bad words
generate p o q --seed 5 | bad words
generate p o --seed 5 --seed 6 | bad words
generate p o --seed 5 --tries 1 --tries 1 | bad words
generate p o --seed | bad words
generate p o --seed= | bad words
generate p o --seed  | bad words
generate p o --seed -1 | bad words
generate p o --seed=-1 | bad words
generate p o --seed +1 | bad words
generate p o --seed 05 | bad words
generate p o --seed 00 | bad words
generate p o --seed 5x | bad words
generate p o --seed 18446744073709551616 | bad words
generate p o --see 5 | bad words
generate p o --seed 5 --tries 0 | bad words
generate p o --seed 5 --tries 1001 | bad words
generate p o --seed 5 --help | bad words
generate --help | bad words
generate -h | bad words
--version | bad words
drive --version | bad words
check p m | check <p> <m>
check p | bad words
check p m --seed 5 | bad words
reach p | reach <p>
reach  | reach <>
reach - | reach <->
reach -p | bad words
new-room | bad words
new-room A | bad words
new-room A J | new-room <A> <J>
new-room A J K | bad words
drive | bad words
drive A | drive <A>
drive -- A | drive <A>
drive A J | drive <A> <J>
drive A J K | bad words
serve A | bad words
serve A J | bad words
serve A J --bind h:1 | serve <A> <J> <h:1> 32
serve A J --bind h:1 --workers 64 --accept 3 | serve <A> <J> <h:1> 64 3
serve A J --bind h:1 --workers 0 | bad words
serve A J --bind h:1 --workers 65 | bad words
serve A J --bind h:1 --accept 0 | bad words
stress 1 0 | stress 1 0
stress 64 18446744073709551615 | stress 64 18446744073709551615
stress 0 1 | bad words
stress 65 1 | bad words
stress 1 | bad words
stress 1 2 3 | bad words
stress 01 2 | bad words
stress 1 --seed 2 | bad words";

#[test]
fn each_row_asks_for_this(rt: HostRuntime) -> Result<(), Fail> {
    for case in ROWS.split('\n') {
        ask_so(rt.alloc(), case)?;
    }
    Ok(())
}

#[test]
fn no_words(rt: HostRuntime) -> Result<(), Fail> {
    agree(rt.alloc(), told(rt.alloc(), &[])?.as_str(), "bad words", "")
}

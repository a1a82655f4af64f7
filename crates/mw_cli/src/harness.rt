//! What the tests run the program with, a folder, an input and two sinks in memory, and how cases
//! of runs are tried.
use crate::run::run;
use crate::session_harness::script_of;
use mw_base::{Bytes, List, Text};
use mw_cases::ROOM_A_INFO;
use mw_edges::{
    Faults, FileRead, Folder, FolderError, MemoryFolder, MemorySink, MemorySource, Sink,
};
use mw_link::{SteadyGate, SteadyLink};
use std::alloc::Global;
use std::collections::VecDeque;
use std::sync::Wait;
use std::test::Fail;
use std::thread::Threads;

/// A file's name and its text.
pub(crate) type File<'a> = (&'a str, &'a str);

/// The words of a run, its script in short lines, and what it tells.
pub(crate) type Run<'a> = (&'a str, &'a str, &'a str);

/// The number of the call that fails, by a place among the numbers for the folder, the input, the
/// out sink and the error sink. What is no number there, as `-`, stands for a call that never
/// comes.
fn failing(calls: &str, place: usize) -> u64 {
    let word = calls.split(' ').nth(place).unwrap_or("");
    word.parse::<u64>().unwrap_or(u64::MAX)
}

/// Faults whose call of that number fails.
pub(crate) fn faults(alloc: Global, calls: &str, place: usize) -> Result<Faults, Fail> {
    let mut list = List::new(alloc);
    list.push(failing(calls, place))?;
    Ok(Faults::at(list))
}

fn bytes_of(alloc: Global, text: &[u8]) -> Result<Bytes, Fail> {
    Ok(Bytes::from_vec(Vec::from_slice(alloc, text)?))
}

pub(crate) fn add_file(
    alloc: Global,
    files: &mut List<(Text, Bytes)>,
    name: &str,
    text: &[u8],
) -> Result<(), Fail> {
    let name = Text::of(alloc, name)?;
    let bytes = bytes_of(alloc, text)?;
    files.push((name, bytes))?;
    Ok(())
}

/// What stands in a text for the parts of a case.
const PLACES: [&str; 5] = ["$0", "$1", "$2", "$3", "$4"];

/// A text with the parts of a case in their places. Between the parts stands a mark.
pub(crate) fn filled(alloc: Global, text: &str, mark: &str, case: &str) -> Result<String, Fail> {
    let mut filled = String::from_str(alloc, text)?;
    for (part, place) in case.split(mark).zip(PLACES.iter()) {
        filled = filled.replace(alloc, *place, part)?;
    }
    Ok(filled)
}

/// A folder of files, in whose texts a case's parts have their places.
pub(crate) fn folder_of(
    alloc: Global,
    files: &[File<'_>],
    calls: &str,
    case: &str,
) -> Result<MemoryFolder, Fail> {
    let mut list = List::new(alloc);
    for (name, text) in files {
        let text = filled(alloc, text, " | ", case)?;
        add_file(alloc, &mut list, name, text.as_bytes())?;
    }
    Ok(MemoryFolder::new(list, faults(alloc, calls, 0)?))
}

/// The words of a line that have a blank between them.
pub(crate) fn words_of(alloc: Global, line: &str) -> Result<Vec<Text>, Fail> {
    let mut words = Vec::new(alloc);
    for word in line.split(' ') {
        words.push(Text::of(alloc, word)?)?;
    }
    Ok(words)
}

pub(crate) fn source_of(alloc: Global, text: &str, calls: &str) -> Result<MemorySource, Fail> {
    let bytes = bytes_of(alloc, text.as_bytes())?;
    Ok(MemorySource::new(bytes, faults(alloc, calls, 1)?))
}

pub(crate) fn sink_of(alloc: Global, calls: &str, place: usize) -> Result<MemorySink, Fail> {
    Ok(MemorySink::new(alloc, faults(alloc, calls, place)?))
}

/// A run. Its clauses stay here: the tests look at what it leaves.
fn ran<F: Folder, O: Sink, R: Threads + Wait + Sync>(
    rt: &R,
    alloc: Global,
    words: &[Text],
    folder: &mut F,
    input: &mut MemorySource,
    out: &mut O,
    err: &mut MemorySink,
) -> u8
where
    F::Drive: Drop,
{
    // A gate without links: only `serve` asks for one.
    let gate = SteadyGate::<SteadyLink>::new(VecDeque::new(alloc));
    run(rt, alloc, words, folder, gate, input, out, err).0
}

/// The status of a run of a line of words and a script, and what the error sink got.
pub(crate) fn ended<F: Folder, O: Sink, R: Threads + Wait + Sync>(
    rt: &R,
    alloc: Global,
    folder: &mut F,
    line: &str,
    script: &str,
    out: &mut O,
    calls: &str,
) -> Result<(u8, MemorySink), Fail>
where
    F::Drive: Drop,
{
    let words = words_of(alloc, line)?;
    let mut input = source_of(alloc, script, calls)?;
    let mut err = sink_of(alloc, calls, 3)?;
    let status = ran(rt, alloc, &words, folder, &mut input, out, &mut err);
    Ok((status, err))
}

/// What a run leaves as one text: the status, a blank, what was put, and the error line.
pub(crate) fn told_of(
    alloc: Global,
    status: u8,
    printed: &[u8],
    line: &[u8],
) -> Result<String, Fail> {
    let printed = std::str::from_utf8(printed).or(Err("no text"))?;
    let line = std::str::from_utf8(line).or(Err("no text"))?;
    let status = u64::from(status);
    Ok(format!(in alloc; "{status} {printed}{line}")?)
}

/// What a file has, and `no file` where there is none.
fn bytes_in<F: Folder>(alloc: Global, folder: &mut F, name: &str) -> Result<Bytes, Fail> {
    let name = Text::of(alloc, name)?;
    match folder.read_file(alloc, &name, 1_000_000) {
        Ok(FileRead::Whole(bytes)) => Ok(bytes),
        Err(FolderError::Failed) => bytes_of(alloc, b"no file"),
        _ => Err(Fail::from("no reading")),
    }
}

/// The same as a text.
fn text_in<F: Folder>(alloc: Global, folder: &mut F, name: &str) -> Result<String, Fail> {
    let bytes = bytes_in(alloc, folder, name)?;
    let text = std::str::from_utf8(bytes.as_slice()).or(Err("no text"))?;
    Ok(String::from_str(alloc, text)?)
}

/// Fails, with the case, where a file has other bytes.
pub(crate) fn holds(
    alloc: Global,
    folder: &mut MemoryFolder,
    name: &str,
    bytes: &[u8],
    case: &str,
) -> Result<(), Fail> {
    if bytes_in(alloc, folder, name)?.as_slice() == bytes {
        return Ok(());
    }
    Err(Fail::new(case))
}

/// What a run tells of a line of words and a script of short lines. The word `file` and a name
/// stand for no run, and what that file has is told.
pub(crate) fn told<F: Folder, R: Threads + Wait + Sync>(
    rt: &R,
    alloc: Global,
    folder: &mut F,
    line: &str,
    lines: &str,
    calls: &str,
) -> Result<String, Fail>
where
    F::Drive: Drop,
{
    if let Some(name) = line.strip_prefix("file ") {
        return text_in(alloc, folder, name);
    }
    let script = script_of(alloc, lines)?;
    let mut out = sink_of(alloc, calls, 2)?;
    let (status, err) = ended(rt, alloc, folder, line, script.as_str(), &mut out, calls)?;
    told_of(alloc, status, out.bytes(), err.bytes())
}

/// What a run with status 0 tells after the first mark.
pub(crate) fn after_mark(told: &str) -> Option<&str> {
    let (before, after) = told.split_once("0 gone\n")?;
    if before.starts_with("0 ") {
        Some(after)
    } else {
        None
    }
}

/// Whether a text is the wanted one, in which two dots stand for whatever is there.
pub(crate) fn fits(found: &str, wanted: &str) -> bool {
    match wanted.split_once("..") {
        Some((front, end)) => found.starts_with(front) && found.ends_with(end),
        None => found == wanted,
    }
}

/// The first line that is found in the place of another, where a text isn't the wanted one.
fn other_line<'a>(found: &'a str, wanted: &str) -> Option<&'a str> {
    if fits(found, wanted) {
        return None;
    }
    for (line, other) in found.lines().zip(wanted.lines()) {
        if line != other {
            return Some(line);
        }
    }
    Some("another number of lines")
}

/// Fails, with that line and the case, where these texts differ. In the wanted one `$info` stands
/// for what Room A tells of itself.
pub(crate) fn agree(alloc: Global, found: &str, wanted: &str, case: &str) -> Result<(), Fail> {
    let wanted = wanted.replace(alloc, "$info", ROOM_A_INFO)?;
    match other_line(found, wanted.as_str()) {
        Some(line) => Err(Fail::new(format!(in alloc; "{line} | {case}")?)),
        None => Ok(()),
    }
}

/// The same of what a run tells. Where a mark is wanted first, what is told after the first mark of
/// a run with status 0 has to be the rest.
fn agree_from(alloc: Global, told: &str, wanted: &str, case: &str) -> Result<(), Fail> {
    match wanted.strip_prefix("mark\n") {
        Some(rest) => agree(alloc, after_mark(told).unwrap_or("no mark"), rest, case),
        None => agree(alloc, told, wanted, case),
    }
}

/// Fails where a run, in whose texts a case's parts have their places, tells another text.
fn run_tells<R: Threads + Wait + Sync>(
    rt: &R,
    alloc: Global,
    folder: &mut MemoryFolder,
    calls: &str,
    run: &Run<'_>,
    case: &str,
) -> Result<(), Fail> {
    let line = filled(alloc, run.0, " | ", case)?;
    let lines = filled(alloc, run.1, " | ", case)?;
    let wanted = filled(alloc, run.2, " | ", case)?;
    let told = told(rt, alloc, folder, line.as_str(), lines.as_str(), calls)?;
    agree_from(alloc, told.as_str(), wanted.as_str(), case)
}

/// The same of runs, one after the other.
pub(crate) fn runs_tell<R: Threads + Wait + Sync>(
    rt: &R,
    alloc: Global,
    folder: &mut MemoryFolder,
    calls: &str,
    runs: &[Run<'_>],
    case: &str,
) -> Result<(), Fail> {
    for run in runs {
        run_tells(rt, alloc, folder, calls, run, case)?;
    }
    Ok(())
}

/// The same on a folder of files, where calls fail. Their numbers may be parts of the case too.
pub(crate) fn case_tells<R: Threads + Wait + Sync>(
    rt: &R,
    alloc: Global,
    files: &[File<'_>],
    calls: &str,
    runs: &[Run<'_>],
    case: &str,
) -> Result<(), Fail> {
    let calls = filled(alloc, calls, " | ", case)?;
    let mut folder = folder_of(alloc, files, calls.as_str(), case)?;
    runs_tell(rt, alloc, &mut folder, calls.as_str(), runs, case)
}

/// The same of each line of a table, which is a case.
pub(crate) fn cases_tell<R: Threads + Wait + Sync>(
    rt: &R,
    alloc: Global,
    files: &[File<'_>],
    calls: &str,
    runs: &[Run<'_>],
    cases: &str,
) -> Result<(), Fail> {
    for case in cases.split('\n') {
        case_tells(rt, alloc, files, calls, runs, case)?;
    }
    Ok(())
}

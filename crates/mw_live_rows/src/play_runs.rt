//! Whole runs of a client over lines in memory, as the rows of its play try them.
ghost use Rattle.std.specs.Prelude.{◌≡◌, IfOk, [], false};

use mw_base::{Bytes, List, Text};
use mw_cases::ROOM_A_INFO;
use mw_edges::{Faults, MemoryFolder, MemorySink, MemorySource};
use mw_link::{Heard, MemoryDial, MemoryLink, SteadyLink};
use mw_play::run_play;
use std::alloc::Global;
use std::collections::VecDeque;
use std::fmt::Write;
use std::test::Fail;

/// What Ann hears as she joins, without her items.
const JOINED: &str =
    r#"[{"checked_locations":[],"cmd":"Connected","hint_points":0,"missing_locations":[101,102],"players":[{"alias":"Ann","class":"NetworkPlayer","name":"Ann","slot":1,"team":0},{"alias":"Bob","class":"NetworkPlayer","name":"Bob","slot":2,"team":0}],"slot":1,"slot_data":{},"slot_info":{"1":{"class":"NetworkSlot","game":"G","group_members":[],"name":"Ann","type":1},"2":{"class":"NetworkSlot","game":"G","group_members":[],"name":"Bob","type":1}},"team":0}]"#;

/// The item that she begins with.
const FIRST: &str =
    r#"[{"cmd":"ReceivedItems","index":0,"items":[{"class":"NetworkItem","flags":0,"item":5,"location":-2,"player":0}]}]"#;

/// The second item of a list.
const SECOND: &str =
    r#"[{"cmd":"ReceivedItems","index":1,"items":[{"class":"NetworkItem","flags":0,"item":8,"location":102,"player":1}]}]"#;

/// The third one.
const THIRD: &str =
    r#"[{"cmd":"ReceivedItems","index":2,"items":[{"class":"NetworkItem","flags":2,"item":9,"location":201,"player":2}]}]"#;

/// Ann's Connect, as it is sent.
pub(crate) const CONNECT: &str =
    r#"[{"cmd":"Connect","game":"G","items_handling":7,"name":"Ann","password":null,"tags":["NoText"],"version":{"build":0,"class":"Version","major":0,"minor":5}}]"#;

/// Her words, for a hundred turns.
pub(crate) const ANN: &str = "room:1 Ann G save 100";

/// What a word stands for that came over a line; another text is itself.
fn heard(alloc: Global, word: &str) -> Result<Heard, Fail> {
    let text = match word {
        "binary" => return Ok(Heard::Binary),
        "nothing" => return Ok(Heard::NotYet),
        "info" => ROOM_A_INFO,
        "joined" => JOINED,
        "first" => FIRST,
        "second" => SECOND,
        "third" => THIRD,
        text => text,
    };
    Ok(Heard::Words(Text::of(alloc, text)?))
}

/// The calls of these numbers fail.
pub(crate) fn faults_at(alloc: Global, calls: &[u64]) -> Result<Faults, Fail>
    ensures { IfOk result (λ f. f.count ≡ 0) }
{
    let mut list = List::new(alloc);
    for call in calls {
        list.push(*call)?;
    }
    Ok(Faults::at(list))
}

/// A link over which these come, and then the end, and whose calls of these numbers fail.
fn link_of(alloc: Global, words: &[&str], calls: &[u64]) -> Result<MemoryLink, Fail>
    ensures { IfOk result (λ l. (l.line.heard ≡ []) × (l.line.sent ≡ []) × (l.line.faults ≡ 0)
        × (l.plan.count ≡ 0) × (l.line.shut ≡ false)) }
{
    let mut coming = VecDeque::new(alloc);
    for word in words {
        coming.push_back(heard(alloc, word)?)?;
    }
    let link = SteadyLink::new(alloc, coming, 0);
    Ok(MemoryLink::new(link, faults_at(alloc, calls)?))
}

/// A dial that gives such a link, and whose call of `dial` fails where that is wanted.
fn dial_of(
    alloc: Global,
    words: &[&str],
    calls: &[u64],
    refused: bool,
) -> Result<MemoryDial<MemoryLink>, Fail> {
    let mut links = VecDeque::new(alloc);
    links.push_back(link_of(alloc, words, calls)?)?;
    let faults = if refused {
        faults_at(alloc, &[0])?
    } else {
        faults_at(alloc, &[])?
    };
    Ok(MemoryDial::new(links, faults))
}

/// A folder of no files.
pub(crate) fn empty_folder(alloc: Global) -> Result<MemoryFolder, Fail> {
    Ok(MemoryFolder::new(List::new(alloc), faults_at(alloc, &[])?))
}

/// The words of a line that have a blank between them.
fn words_of(alloc: Global, line: &str) -> Result<Vec<Text>, Fail> {
    let mut words = Vec::new(alloc);
    for word in line.split(' ') {
        words.push(Text::of(alloc, word)?)?;
    }
    Ok(words)
}

fn source_of(alloc: Global, text: &str, calls: &[u64]) -> Result<MemorySource, Fail> {
    let bytes = Bytes::from_vec(Vec::from_slice(alloc, text.as_bytes())?);
    Ok(MemorySource::new(bytes, faults_at(alloc, calls)?))
}

/// A run. Its clauses stay here: the tests look at what it leaves.
fn ran(
    alloc: Global,
    words: &[Text],
    folder: &mut MemoryFolder,
    dial: &mut MemoryDial<MemoryLink>,
    input: &mut MemorySource,
    out: &mut MemorySink,
    err: &mut MemorySink,
) -> u8 {
    run_play(alloc, words, folder, dial, input, out, err)
}

/// What is done in a run: the words, the input, and what comes over the line.
#[derive(Clone, Copy)]
pub(crate) struct Run<'a> {
    pub(crate) line: &'a str,
    pub(crate) input: &'a str,
    pub(crate) coming: &'a [&'a str],
}

/// Which calls fail: of the source, of the link and of the out sink, and whether the dial's does.
#[derive(Clone, Copy)]
pub(crate) struct Failing<'a> {
    pub(crate) source: &'a [u64],
    pub(crate) link: &'a [u64],
    pub(crate) out: &'a [u64],
    pub(crate) dial: bool,
}

pub(crate) const NONE: Failing<'static> = Failing {
    source: &[],
    link: &[],
    out: &[],
    dial: false,
};

/// What a run tells: its status, a blank, what was put and the error line, and then for each text
/// that was sent `> ` and the text.
pub(crate) fn told_with(
    alloc: Global,
    folder: &mut MemoryFolder,
    run: &Run<'_>,
    failing: &Failing<'_>,
) -> Result<String, Fail> {
    let words = words_of(alloc, run.line)?;
    let mut dial = dial_of(alloc, run.coming, failing.link, failing.dial)?;
    let mut input = source_of(alloc, run.input, failing.source)?;
    let mut out = MemorySink::new(alloc, faults_at(alloc, failing.out)?);
    let mut err = MemorySink::new(alloc, faults_at(alloc, &[])?);
    let status = ran(
        alloc, &words, folder, &mut dial, &mut input, &mut out, &mut err,
    );
    let mut told = String::new(alloc);
    let printed = std::str::from_utf8(out.bytes()).or(Err("no text"))?;
    let line = std::str::from_utf8(err.bytes()).or(Err("no text"))?;
    write!(told, "{status} {printed}{line}")?;
    if let Some(link) = dial.last() {
        for text in link.sent() {
            let text = text.as_str();
            write!(told, "> {text}\n")?;
        }
    }
    Ok(told)
}

/// Fails where a run tells another than what is wanted.
pub(crate) fn tells(
    alloc: Global,
    folder: &mut MemoryFolder,
    run: &Run<'_>,
    failing: &Failing<'_>,
    wanted: &str,
) -> Result<(), Fail> {
    let told = told_with(alloc, folder, run, failing)?;
    if told.as_str() == wanted {
        Ok(())
    } else {
        Err(Fail::new(told.as_str()))
    }
}

/// Fails where a run on no save file tells another than what is wanted before it tells what it
/// sent.
pub(crate) fn ends(alloc: Global, run: &Run<'_>, wanted: &str) -> Result<(), Fail> {
    let mut folder = empty_folder(alloc)?;
    let told = told_with(alloc, &mut folder, run, &NONE)?;
    let (front, _) = told.split_once("> ").unwrap_or((told.as_str(), ""));
    if front == wanted {
        Ok(())
    } else {
        Err(Fail::new(told.as_str()))
    }
}

//! Cases of a file that is changed: lines `OLD => NEW => ANSWER`, in which OLD stands in the file. NEW is a text, or is
//! spelled `FRONT | UNIT | COUNT | CLOSING | BACK`: the front, the unit so many times, the closing as often, the back.
//! ANSWER is a refusal, `KIND PATH`, or `accepted`.
use mw_base::Memory;
use mw_cases::part;
use mw_json::{Refusal, kind_word, path_words};
use std::alloc::Global;
use std::test::Fail;

/// Fails at the first line of a table whose case isn't so.
pub(crate) fn each<F: Fn(Global, &str) -> Result<bool, Fail>>(
    alloc: Global,
    cases: &str,
    is_so: F,
) -> Result<(), Fail>
    requires { F.IsAlwaysCallable is_so }
{
    for case in cases.split('\n') {
        if !is_so(alloc, case)? {
            return Err(Fail::new(case));
        }
    }
    Ok(())
}

/// The part of a line that stands behind so many marks ` => `, nothing where there are fewer.
fn piece(line: &str, place: usize) -> &str {
    line.split(" => ").nth(place).unwrap_or("")
}

/// How often a unit stands; none does where the word is empty.
fn count_of(word: &str) -> Result<usize, Fail> {
    if word.is_empty() {
        return Ok(0);
    }
    Ok(word.parse::<usize>()?)
}

/// A file that is changed as a line says.
pub(crate) fn changed(alloc: Global, file: &str, line: &str) -> Result<String, Fail> {
    let (old, new) = (piece(line, 0), piece(line, 1));
    if old.is_empty() || !file.contains(old) {
        return Err(Fail::new(line));
    }
    let count = count_of(part(new, 2))?;
    let opened = part(new, 1).repeat(alloc, count)?;
    let closed = part(new, 3).repeat(alloc, count)?;
    let (front, back) = (part(new, 0), part(new, 4));
    let new = format!(in alloc; "{front}{opened}{closed}{back}")?;
    Ok(file.replace(alloc, old, new.as_str())?)
}

/// Whether a refusal is the wanted one.
fn is_refused(alloc: Global, refusal: &Refusal, wanted: &str) -> Result<bool, Memory> {
    let Refusal::Named { kind, path } = refusal else {
        return Err(Memory);
    };
    let path = path_words(alloc, path)?;
    let (word, place) = wanted.split_once(' ').unwrap_or(("", ""));
    Ok(word == kind_word(*kind) && place == path.as_str())
}

/// Whether a file is answered as a line says: refused so, or accepted where there is no refusal.
pub(crate) fn is_answer(
    alloc: Global,
    refusal: Option<Refusal>,
    line: &str,
) -> Result<bool, Memory> {
    let wanted = piece(line, 2);
    match &refusal {
        Some(refusal) => is_refused(alloc, refusal, wanted),
        None => Ok(wanted == "accepted"),
    }
}

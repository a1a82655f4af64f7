//! The locations that the input names.
ghost use Rattle.std.specs.Prelude.{◌≡◌, ◌<◌, ◌≤◌, ◌++◌, IfOk, Err, None, Some, length, take};
ghost use Rattle.std.specs.Io.KnownBytes.{Consumes, IsAtEnd};
ghost use Rattle.mw_edges.specs.Causes.{Rose};
ghost use Rattle.mw_play.specs.Ids.{HasIds, HasNoIds, IsRead, id_in as id_in_lem, id_of as id_of_lem, ids_in as ids_in_lem};

use mw_base::{List, LocId, Memory};
use mw_edges::Source;
use mw_script::{number_of, split_line};
use std::alloc::Global;

/// Why the input names no locations.
#[derive(Clone, Copy)]
pub(crate) enum InputError {
    /// It is too long, or some line of it names none.
    Bad,
    /// The source failed.
    Fault,
    /// Memory ran out.
    Memory,
}

impl From<Memory> for InputError {
    ghost use Rattle.mw_play.specs.declared.input.InputError.TheVariants.{Memory as OutOfMemory};
    ghost use Rattle.std.specs.Prelude.{◌≡◌};

    ghost from_gives = { λ _ e. e ≡ OutOfMemory };

    fn from(_error: Memory) -> Self {
        InputError::Memory
    }
}

/// The greatest length of the input, in bytes.
const MAX_INPUT: usize = 65_536;

/// How many bytes are asked for at a time.
const CHUNK: usize = 4_096;

/// Takes some bytes from a source, and adds them to those before; 0 is the end.
fn take_some<S: Source>(
    input: &mut S,
    chunk: &mut [u8],
    text: &mut Vec<u8>,
) -> Result<usize, InputError>
    ensures taken { IfOk result
        (λ n. Consumes (S.left input.old) (S.left input.new) (take n chunk.new)) }
    ensures text { IfOk result (λ n. text.new.items ≡ text.old.items ++ take n chunk.new) }
    ensures within { IfOk result (λ n. n ≤ length chunk.new) }
    ensures ended { IfOk result (λ n. n ≡ 0 → 0 < length chunk.new → IsAtEnd (S.left input.new)) }
    ensures own { result ≡ Err InputError.Bad → ⊥ }
    ensures fault { result ≡ Err InputError.Fault → Rose (S.faults input.old) (S.faults input.new) }
    ensures later { S.faults input.old ≤ S.faults input.new }
{
    let Ok(count) = input.take(chunk) else {
        return Err(InputError::Fault);
    };
    match text.extend_from_slice(&chunk[..count]) {
        Ok(()) => Ok(count),
        Err(_) => Err(InputError::Memory),
    }
}

/// Reads a source to its end, or to one byte more than the input may have.
fn read_input<S: Source>(alloc: Global, input: &mut S) -> Result<Vec<u8>, InputError>
    ensures read { IfOk result (λ v. IsRead (S.left input.old) (S.left input.new) v.items) }
    ensures own { result ≡ Err InputError.Bad → ⊥ }
    ensures fault { result ≡ Err InputError.Fault → Rose (S.faults input.old) (S.faults input.new) }
    ensures later { S.faults input.old ≤ S.faults input.new }
{
    let mut text = Vec::new(alloc);
    let Ok(mut chunk) = vec![in alloc; 0u8; CHUNK] else {
        return Err(InputError::Memory);
    };
    while text.len() <= MAX_INPUT {
        let room = CHUNK.min(MAX_INPUT + 1 - text.len());
        let count = take_some(input, &mut chunk[..room], &mut text)?;
        if count == 0 {
            return Ok(text);
        }
    }
    Ok(text)
}

/// The location of a number, which may be none.
fn id_of(number: u64) -> Option<LocId>
    ensures { result ≡ id_of_lem number }
{
    if 1 <= number && number < 0x20_0000_0000_0000 {
        LocId::new(number as i64)
    } else {
        None
    }
}

/// The location of a line, which may name none.
fn id_in(line: &[u8]) -> Option<LocId>
    ensures { result ≡ id_in_lem line.now }
{
    match number_of(line) {
        Some(number) => id_of(number),
        None => None,
    }
}

/// The locations of a text, one a line.
fn ids_in(alloc: Global, text: &[u8]) -> Result<List<LocId>, InputError>
    ensures ok { IfOk result (λ ids. ids_in_lem text.now ≡ Some ids) }
    ensures bad { result ≡ Err InputError.Bad → ids_in_lem text.now ≡ None }
    ensures own { result ≡ Err InputError.Fault → ⊥ }
{
    let mut ids = List::new(alloc);
    let mut rest = text;
    while !rest.is_empty() {
        let (line, others) = split_line(rest);
        let Some(id) = id_in(line) else {
            return Err(InputError::Bad);
        };
        ids.push(id)?;
        rest = others;
    }
    Ok(ids)
}

/// Reads the locations that an input names.
///
/// `Bad` exactly where it has more than 65,536 bytes, or where some line isn't the digits of a
/// number from 1 to 2^53 - 1. `Fault` only where the source's count rose.
pub(crate) fn read_ids<S: Source>(alloc: Global, input: &mut S) -> Result<List<LocId>, InputError>
    ensures ok { IfOk result (HasIds (S.left input.old) (S.left input.new)) }
    ensures bad { result ≡ Err InputError.Bad → HasNoIds (S.left input.old) (S.left input.new) }
    ensures fault { result ≡ Err InputError.Fault → Rose (S.faults input.old) (S.faults input.new) }
    ensures later { S.faults input.old ≤ S.faults input.new }
{
    let text = read_input(alloc, input)?;
    if text.len() > MAX_INPUT {
        return Err(InputError::Bad);
    }
    ids_in(alloc, text.as_slice())
}

ghost use Rattle.std.specs.Prelude.{◌≡◌, ◌<◌, ◌≤◌, ◌⊎◌, ◌++◌, IfOk, IfErr, length, take};
ghost use Rattle.std.specs.Io.KnownBytes.{Consumes, IsAtEnd};
ghost use Rattle.mw_edges.specs.Causes.{Rose};
ghost use Rattle.mw_drive.specs.Input.{IsRead};

use crate::error::DriveError;
use mw_edges::Source;
use std::alloc::Global;

/// The greatest length of a script, in bytes.
const MAX_SCRIPT: usize = 67_108_864;

/// How many bytes are asked for at a time.
const CHUNK: usize = 65_536;

/// Takes some bytes from a source, and adds them to the script; 0 is the end.
fn take_some<S: Source>(
    input: &mut S,
    chunk: &mut [u8],
    script: &mut Vec<u8>,
) -> Result<usize, DriveError>
    ensures taken { IfOk result
        (λ n. Consumes (S.left input.old) (S.left input.new) (take n chunk.new)) }
    ensures script { IfOk result (λ n. script.new.items ≡ script.old.items ++ take n chunk.new) }
    ensures within { IfOk result (λ n. n ≤ length chunk.new) }
    ensures ended { IfOk result (λ n. n ≡ 0 → 0 < length chunk.new → IsAtEnd (S.left input.new)) }
    ensures own { IfErr result (λ e. (e ≡ DriveError.Fault) ⊎ (e ≡ DriveError.Memory)) }
    ensures fault { result ≡ Err DriveError.Fault → Rose (S.faults input.old) (S.faults input.new) }
    ensures later { S.faults input.old ≤ S.faults input.new }
{
    let Ok(count) = input.take(chunk) else {
        return Err(DriveError::Fault);
    };
    match script.extend_from_slice(&chunk[..count]) {
        Ok(()) => Ok(count),
        Err(_) => Err(DriveError::Memory),
    }
}

/// Reads a source to its end, or to one byte more than a script may have.
pub(crate) fn read_script<S: Source>(alloc: Global, input: &mut S) -> Result<Vec<u8>, DriveError>
    ensures read { IfOk result (λ v. IsRead (S.left input.old) (S.left input.new) v.items) }
    ensures own { IfErr result (λ e. (e ≡ DriveError.Fault) ⊎ (e ≡ DriveError.Memory)) }
    ensures fault { result ≡ Err DriveError.Fault → Rose (S.faults input.old) (S.faults input.new) }
    ensures later { S.faults input.old ≤ S.faults input.new }
{
    let mut script = Vec::new(alloc);
    let Ok(mut chunk) = vec![in alloc; 0u8; CHUNK] else {
        return Err(DriveError::Memory);
    };
    while script.len() <= MAX_SCRIPT {
        let room = CHUNK.min(MAX_SCRIPT + 1 - script.len());
        let count = take_some(input, &mut chunk[..room], &mut script)?;
        if count == 0 {
            return Ok(script);
        }
    }
    Ok(script)
}

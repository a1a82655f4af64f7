ghost use Rattle.std.specs.Prelude.{◌≡◌, ◌≢◌, ◌<◌, ◌≤◌, ◌⊎◌, ◌++◌, ◌∷◌, [], IfOk, IfErr, OnOk, length, take, slice_index};
ghost use Rattle.mw_journal.specs.Image.{magic, header};
ghost use Rattle.mw_journal.specs.Opening.{RefusesStep};
ghost use Rattle.mw_journal.specs.Refused.{IsBadHeader, IsOtherSeed};

use crate::error::OpenError;
use mw_base::Memory;
use std::alloc::Global;

/// The first eight bytes of a journal.
const MAGIC: [u8; 8] = [0x4d, 0x57, 0x4a, 0x52, 0x4e, 0x4c, 0x31, 0x0a];

/// The header, and a gate that isn't open.
pub(crate) fn empty_journal(alloc: Global, digest: &[u8; 32]) -> Result<Vec<u8>, Memory>
    ensures { IfOk result (λ bytes. bytes.items ≡ header digest.now ++ 0 ∷ []) }
{
    let mut bytes = Vec::with_capacity(alloc, 41)?;
    bytes.extend_from_slice(&MAGIC)?;
    bytes.extend_from_slice(digest)?;
    bytes.push(0)?;
    Ok(bytes)
}

/// The first of the first eight bytes that is missing or another one, or 8.
fn first_wrong(head: &[u8]) -> usize
    ensures within { result ≤ 8 }
    ensures before { take result head.now ≡ take result magic }
    ensures wrong { result < 8 → (length head.now ≡ result)
        ⊎ ((result < length head.now) × (slice_index head.now result ≢ slice_index magic result)) }
{
    for i in 0..8 {
        if i >= head.len() || head[i] != MAGIC[i] {
            return i;
        }
    }
    8
}

/// Judges the first forty bytes, or as many as there are.
pub(crate) fn judge_header(head: &[u8], digest: &[u8; 32]) -> Result<(), OpenError>
    requires { length head.now ≤ 40 }
    ensures ok { OnOk result (head.now ≡ header digest.now) }
    ensures refused { IfErr result (RefusesStep (IsBadHeader head.now)
        (IsOtherSeed head.now digest.now) 1 1) }
    ensures fault { IfErr result (λ e. e ≢ OpenError.DiskFault) }
{
    let wrong = first_wrong(head);
    if wrong < 8 {
        return Err(OpenError::NotJournal { at: wrong as u64 });
    }
    if head.len() < 40 {
        return Err(OpenError::NotJournal {
            at: head.len() as u64,
        });
    }
    let mut found = [0; 32];
    found.copy_from_slice(head.split_at(8).1);
    if found != *digest {
        return Err(OpenError::OtherSeed { found });
    }
    Ok(())
}

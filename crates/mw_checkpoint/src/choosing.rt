ghost use Rattle.std.specs.Prelude.{◌≡◌, ◌≤◌, List, ℕ, IfOk, IfErr, MatchOption, Some, is_some};
ghost use Rattle.mw_disk.specs.Crash.{LeavesOnly};
ghost use Rattle.mw_journal.specs.Reads.{OnlyReads};
ghost use Rattle.mw_journal.specs.Settled.{IsSettled, AllSettled};
ghost use Rattle.mw_checkpoint.specs.Choices.{AreChoices, IsBadByte, named_in};
ghost use Rattle.mw_checkpoint.specs.Chosen.{IsChosen, ReadsChoice, files_left};
ghost use Rattle.mw_checkpoint.specs.Refused.{IsNoJournal, IsOutside, RefusesChosen};

use crate::error::{PairError, pair_error};
use crate::files::Files;
use mw_disk::Disk;
use mw_journal::open;
use std::alloc::Global;

/// The place of the first byte that is neither 0 nor 1.
fn bad_byte(text: &[u8]) -> Option<u64>
    ensures { MatchOption result (AreChoices text.now) (IsBadByte text.now) }
{
    for (i, byte) in text.iter().enumerate() {
        if *byte > 1 {
            return Some(i as u64);
        }
    }
    None
}

/// The last byte, or 0 where there is none.
fn last_byte(text: &[u8]) -> u8
    ensures { result ≡ named_in text.now }
{
    if text.is_empty() {
        return 0;
    }
    text[text.len() - 1]
}

/// Opens CHOICE, and tells which journal it names: its last byte, or 0 where it has none. The
/// journals aren't touched.
///
/// At each moment of the call a crash leaves of CHOICE what `open` of its journal leaves: where it
/// was settled it stays settled. After Ok each image of it stands for just the bytes read.
///
/// `NotJournal` and `OtherSeed` come exactly where the bytes of CHOICE are no journal or another
/// seed's, and then nothing is written; `BadChoice` exactly where it stands for a text that has
/// another byte than 0 and 1. `DiskFault` comes only where its disk's count rose.
pub fn chosen<D: Disk>(
    alloc: Global,
    files: Files<D>,
    digest: &[u8; 32],
) -> Result<(Files<D>, u8), (Files<D>, PairError)>
    ensures chosen { IfOk result (λ r. IsChosen D.may_leave digest.now r.1 r.0.choice) }
    ensures reads { IfOk result (λ r. ReadsChoice D.told D.may_leave digest.now
        files.choice r.0.choice r.1) }
    ensures journals { ((files_left result).zero ≡ files.zero)
        × ((files_left result).one ≡ files.one) }
    ensures any_moment { (text body : List ℕ)
        → AllSettled (D.may_leave files.choice) digest.now text body
        → LeavesOnly D.moment D.left_since files.choice (files_left result).choice
        (λ c. IsSettled c digest.now text body) }

    ensures refused { IfErr result (λ e. RefusesChosen (D.told files.choice) digest.now
        (D.faults files.choice) (D.faults e.0.choice) e.1) }
    ensures read { IfErr result (λ e. IsNoJournal e.1 → OnlyReads D.told D.may_leave D.moment
        D.left_since D.faults files.choice e.0.choice) }
    ensures settled { IfErr result (λ e. (f text body : List ℕ) → D.told files.choice ≡ Some f
        → AreChoices text → AreChoices body
        → AllSettled (D.may_leave files.choice) digest.now text body → IsOutside e.1) }
    ensures tells { is_some (D.told (files_left result).choice)
        ≡ is_some (D.told files.choice) }
    ensures count { D.faults files.choice ≤ D.faults (files_left result).choice }
{
    let Files { choice, zero, one } = files;
    match open(alloc, choice, digest) {
        Ok((journal, text)) => {
            let bad = bad_byte(text.as_slice());
            let named = last_byte(text.as_slice());
            let choice = journal.into_disk();
            let files = Files { choice, zero, one };
            match bad {
                Some(at) => Err((files, PairError::BadChoice { at })),
                None => Ok((files, named)),
            }
        }
        Err((choice, error)) => Err((Files { choice, zero, one }, pair_error(0, error))),
    }
}

ghost use Rattle.std.specs.Prelude.{◌≡◌, ◌≤◌, ◌<◌, ◌+◌, ◌^◌, ◌++◌, List, ℕ, IfOk, IfErr, OnOk, length, is_some};
ghost use Rattle.mw_disk.specs.Crash.{LeavesOnly};
ghost use Rattle.mw_journal.specs.Journal.{StandsFor, TellsFull, disk_of, gate_of, state_of};
ghost use Rattle.mw_journal.specs.Settled.{IsSettled};
ghost use Rattle.mw_journal.specs.declared.error.AppendError.TheVariants as append_error;
ghost use Rattle.mw_journal.specs.declared.state.JournalState.TheVariants as states;
ghost use Rattle.mw_checkpoint.specs.Disks.{disk_then};
ghost use Rattle.mw_checkpoint.specs.Pair.{HoldsText};

use mw_base::Bytes;
use mw_disk::Disk;
use mw_journal::{AppendError, Journal};

/// Appends a body to a journal, and gives its disk back.
pub(crate) fn append<D: Disk>(journal: Journal<D>, body: &Bytes) -> Result<D, (D, AppendError)>
    requires { 1 ≤ length body.now }
    ensures any_moment { (digest text : List ℕ) → StandsFor D.may_leave digest text journal
        → LeavesOnly D.moment D.left_since (disk_of journal) (disk_then result)
        (λ c. IsSettled c digest text body.now) }
    ensures ok { IfOk result (λ d. (digest text : List ℕ)
        → StandsFor D.may_leave digest text journal
        → HoldsText D.may_leave digest (text ++ body.now) d) }
    ensures full { IfErr result (λ e. TellsFull (state_of journal)
        (gate_of journal + 6 + length body.now) e.1) }
    ensures room { OnOk result (gate_of journal + 6 + length body.now ≤ 2 ^ 30) }
    ensures fault { IfErr result (λ e. e.1 ≡ append_error.DiskFault
        → state_of journal ≡ states.Whole → D.faults (disk_of journal) < D.faults e.0) }
    ensures tells { is_some (D.told (disk_then result)) ≡ is_some (D.told (disk_of journal)) }
    ensures count { D.faults (disk_of journal) ≤ D.faults (disk_then result) }
{
    let mut journal = journal;
    match journal.append_batch(body) {
        Ok(()) => Ok(journal.into_disk()),
        Err(error) => Err((journal.into_disk(), error)),
    }
}

//! What a save file's journal takes.
ghost use Rattle.std.specs.Prelude.{◌≡◌, ◌⊎◌, ◌<◌, ◌≤◌, ℕ, List, Err, OnOk};
ghost use Rattle.mw_disk.specs.Crash.{LeavesOnly};
ghost use Rattle.mw_journal.specs.Journal.{disk_of, state_of};
ghost use Rattle.mw_model.specs.Items.{NetItem};
ghost use Rattle.mw_client.specs.Bodies.{Leads};
ghost use Rattle.mw_play.specs.Saves.{HoldsList, KeepsList};
ghost use Rattle.mw_play.specs.Turns.{Overfills};

use crate::over::CutShort;
use mw_base::Bytes;
use mw_disk::Disk;
use mw_journal::{AppendError, Journal, JournalState};

/// Appends bodies to a save file, if there are any, as one batch.
///
/// At each moment a crash leaves the list before them or the one to which they lead, and after Ok
/// that one. `Full` comes only where the file would pass its limit, and changes nothing.
pub(crate) fn save<D: Disk>(journal: &mut Journal<D>, bodies: &Bytes) -> Result<(), CutShort>
    requires { state_of journal.old ≡ JournalState.Whole }
    ensures keeps { (digest : List ℕ) (before after : List NetItem)
        → KeepsList D.may_leave digest journal.old before → Leads before bodies.now after
        → OnOk result (KeepsList D.may_leave digest journal.new after) }
    ensures moments { (digest : List ℕ) (before after : List NetItem)
        → KeepsList D.may_leave digest journal.old before → Leads before bodies.now after
        → LeavesOnly D.moment D.left_since (disk_of journal.old) (disk_of journal.new)
        (λ c. HoldsList c digest before ⊎ HoldsList c digest after) }
    ensures whole { OnOk result (state_of journal.new ≡ JournalState.Whole) }
    ensures fault { result ≡ Err CutShort.Fault
        → D.faults (disk_of journal.old) < D.faults (disk_of journal.new) }
    ensures full { (digest : List ℕ) (before after : List NetItem)
        → KeepsList D.may_leave digest journal.old before → Leads before bodies.now after
        → result ≡ Err CutShort.Full
        → Overfills (D.may_leave (disk_of journal.new)) digest before after }
    ensures later { D.faults (disk_of journal.old) ≤ D.faults (disk_of journal.new) }
{
    if bodies.len() == 0 {
        return Ok(());
    }
    match journal.append_batch(bodies) {
        Ok(()) => Ok(()),
        Err(AppendError::DiskFault) => Err(CutShort::Fault),
        Err(AppendError::JournalFull { len: _ }) => Err(CutShort::Full),
        Err(AppendError::Memory) => Err(CutShort::Memory),
    }
}

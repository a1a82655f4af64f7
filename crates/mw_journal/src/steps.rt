ghost use Rattle.std.specs.Prelude.{◌≡◌, length, is_some, OnOk};
ghost use Rattle.std.specs.Option.{option_map};
ghost use Rattle.mw_disk.specs.Causes.{HasCause};
ghost use Rattle.mw_disk.specs.Crash.{IsTorn, LeavesOnly, OnlyTold};
ghost use Rattle.mw_disk.specs.Range.{written};

use mw_disk::{Disk, DiskError};

/// Writes bytes, and makes them safe.
pub(crate) fn put_safely<D: Disk>(disk: &mut D, at: u64, bytes: &[u8]) -> Result<(), DiskError>
    ensures any_moment { LeavesOnly D.moment D.left_since disk.old disk.new
        (IsTorn (D.may_leave disk.old) at (length bytes.now)) }
    ensures written { OnOk result
        (D.told disk.new ≡ option_map (written at bytes.now) (D.told disk.old)) }
    ensures safe { OnOk result (OnlyTold (D.told disk.new) (D.may_leave disk.new)) }
    ensures tells { is_some (D.told disk.new) ≡ is_some (D.told disk.old) }
    ensures cause { HasCause (D.faults disk.old) (D.faults disk.new) result }
{
    disk.write_at(at, bytes)?;
    disk.sync()
}
